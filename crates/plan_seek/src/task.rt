//! What is sought: orders for a shop and numbers, which are checked first.

ghost use Rattle.std.specs.Prelude.{◌≡◌, OnOk, IfErr};
ghost use Rattle.shop_base.specs.Vectors.{lists_of};
ghost use Rattle.plan_seek.specs.Tasks.{with_order, task_given_back, serial_plan};
ghost use Rattle.shop_base.specs.{Plan.HasCounts, Plan.IsWellShaped, ShapeFault.IsFirstShapeFault};

use crate::seek_fault::{NotFound, SeekFault};
use shop_base::{JobNo, Moment, Plan, ShapeFault, Shaped, Shop, check_limits};
use std::marker::Model;

/// A shop, and the numbers of a plan for it, whose orders are sought.
#[derive(Drop)]
pub(crate) struct Task {
    pub shop: Shop,
    pub release: Vec<Moment>,
    pub budget: Vec<Moment>,
    pub clean: Option<Vec<Moment>>,
}

impl Model for Task {
    ghost use Rattle.plan_seek.specs.Tasks.{PlanTask, task_of};

    ghost Value = { PlanTask };

    ghost view = { λ t. task_of t.shop t.release t.budget t.clean };
}

impl Task {
    /// The shop, and the plan with these orders.
    pub fn with_order(self, order: Vec<Vec<JobNo>>) -> (Shop, Plan)
        ensures { record { shop = result.0; plan = result.1 } ≡ with_order self (lists_of order.items) }
    {
        let plan = Plan {
            release: self.release,
            budget: self.budget,
            order,
            clean: self.clean,
        };
        (self.shop, plan)
    }

    /// The task that a plan for the shop was to do. The plan's orders are dropped.
    pub fn of(shop: Shop, plan: Plan) -> Task
        ensures { record { shop = shop; plan = plan } ≡ with_order result plan.order }
    {
        Task {
            shop,
            release: plan.release,
            budget: plan.budget,
            clean: plan.clean,
        }
    }

    /// The task that a shaped plan was to do. The plan's orders are dropped.
    pub fn of_shaped(shaped: Shaped) -> Task
        ensures { shaped ≡ with_order result shaped.plan.order }
    {
        let (shop, plan) = shaped.into_parts();
        Task::of(shop, plan)
    }

    /// The task, given back with the reason why there is no plan.
    pub fn not_found(self, fault: SeekFault) -> NotFound
        ensures reason { result.fault ≡ fault }
        ensures given_back { task_given_back result ≡ self }
    {
        NotFound {
            fault,
            shop: self.shop,
            release: self.release,
            budget: self.budget,
            clean: self.clean,
        }
    }
}

impl Task {
    /// The first fault of the numbers, if there is one.
    pub(crate) fn check_numbers(&self) -> Result<(), ShapeFault>
        ensures sound { OnOk result (IsWellShaped (serial_plan self.now)) }
        ensures first_fault { IfErr result (IsFirstShapeFault (serial_plan self.now)) }
    {
        // Called for its clause alone: the shop is sound.
        let _jobs = self.shop.jobs();
        self.check_counts()?;
        check_limits(&self.release, &self.budget, &self.clean)?;
        Ok(())
    }

    fn check_counts(&self) -> Result<(), ShapeFault>
        ensures sound { OnOk result (HasCounts (serial_plan self.now)) }
        ensures first_fault { IfErr result (IsFirstShapeFault (serial_plan self.now)) }
    {
        if self.release.len() != self.shop.jobs() as usize {
            return Err(ShapeFault::ReleaseCount);
        }
        if self.budget.len() != self.shop.jobs() as usize {
            return Err(ShapeFault::BudgetCount);
        }
        match &self.clean {
            Some(times) if times.len() != self.shop.machines() as usize => {
                Err(ShapeFault::CleanCount)
            }
            _ => Ok(()),
        }
    }
}
