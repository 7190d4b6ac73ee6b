ghost use Rattle.std.specs.Prelude.{◌≡◌, ◌↔◌, ◌*◌, ◌<◌, ◌≤◌, IsOk, IfOk, OnOk, IfErr};
ghost use Rattle.shop_base.specs.Plan.{IsWellShaped, machines};
ghost use Rattle.shop_base.specs.Ends.{stated_number, cleanings_of, sum_below};
ghost use Rattle.shop_base.specs.ShapeFault.{IsFirstShapeFault, IsOnlyShapeFault};

use crate::limits::{MAX_JOBS, MAX_MACHINES};
use crate::plan::Plan;
use crate::shape_check::check_shape;
use crate::shape_fault::ShapeFault;
use crate::shop::{MachineNo, Shop};
use std::marker::Model;

/// A shop with a plan that is well shaped for it: each machine's order lists each job as often as
/// its route visits the machine. Made by [`shape`] alone.
#[derive(Debug, Drop)]
pub struct Shaped {
    shop: Shop,
    plan: Plan,
}

impl Model for Shaped {
    ghost use Rattle.shop_base.specs.Plan.{PlannedShop, IsWellShaped};

    ghost Value = { PlannedShop };

    ghost view = { λ s. record { shop = s.shop; plan = s.plan } };

    ghost invariant = { λ s. IsWellShaped (record { shop = s.shop; plan = s.plan }) };
}

/// A shop and a plan that isn't well shaped for it, given back with the first reason.
#[derive(Debug, Drop)]
pub struct NotShaped {
    pub fault: ShapeFault,
    pub shop: Shop,
    pub plan: Plan,
}

/// Checks a plan's shape. What it refuses is given back.
pub fn shape(shop: Shop, plan: Plan) -> Result<Shaped, NotShaped>
    ensures shaped { IfOk result (λ shaped. shaped ≡ record { shop = shop; plan = plan }) }
    ensures well_shaped { OnOk result (IsWellShaped (record { shop = shop; plan = plan })) }
    ensures exact { IsOk result ↔ IsWellShaped (record { shop = shop; plan = plan }) }
    ensures first_fault { IfErr result
        (λ refused. IsFirstShapeFault (record { shop = shop; plan = plan }) refused.fault) }
    ensures only_fault { IfErr result
        (λ refused. IsOnlyShapeFault (record { shop = shop; plan = plan }) refused.fault) }
    ensures same_shop { IfErr result (λ refused. refused.shop ≡ shop) }
    ensures same_plan { IfErr result (λ refused. refused.plan ≡ plan) }
{
    match check_shape(&shop, &plan) {
        Ok(()) => Ok(Shaped { shop, plan }),
        Err(fault) => Err(NotShaped { fault, shop, plan }),
    }
}

impl Shaped {
    /// The shop.
    pub fn shop(&self) -> &Shop
        ensures same { result.now ≡ self.now.shop }
        ensures well_shaped { IsWellShaped self.now }
    {
        &self.shop
    }

    /// The plan.
    pub fn plan(&self) -> &Plan
        ensures same { result.now ≡ self.now.plan }
        ensures well_shaped { IsWellShaped self.now }
    {
        &self.plan
    }

    /// The shop and the plan, taken apart.
    pub fn into_parts(self) -> (Shop, Plan)
        ensures { result ≡ (self.shop, self.plan) }
    {
        let Shaped { shop, plan } = self;
        (shop, plan)
    }

    /// How many reports a run has: one per job's arrival, one per operation's end, and one per visit of
    /// a machine with a cleaning time, for the end of the cleaning after it.
    pub fn report_count(&self) -> u64
        ensures { result ≡ stated_number self.now }
    {
        u64::from(self.job_count()) + self.shop().operations() + self.cleaning_count()
    }

    fn cleaning_count(&self) -> u64
        ensures count { result ≡ sum_below (cleanings_of self.now) (machines self.now) }
        ensures few { result ≤ MAX_MACHINES * (MAX_JOBS * MAX_MACHINES) }
    {
        let mut count = 0;
        for machine in 0..self.machine_count() {
            count += self.cleanings_on(machine);
        }
        count
    }

    fn cleanings_on(&self, machine: MachineNo) -> u64
        requires { machine < machines self.now }
        ensures { result ≡ cleanings_of self.now machine }
    {
        if self.clean_of(machine) > 0 {
            self.order_of(machine).len() as u64
        } else {
            0
        }
    }
}
