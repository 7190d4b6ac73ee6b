use crate::shop::{JobNo, Moment};
use std::marker::Model;

/// A plan for a shop: what a planner gives, not yet checked.
#[derive(Debug, Drop)]
pub struct Plan {
    /// The latest moment at which each job arrives (Pinedo, Scheduling: `r_j`).
    pub release: Vec<Moment>,
    /// The moment by which each job has to be out of the cell, counted from moment 0.
    pub budget: Vec<Moment>,
    /// For each machine its jobs, in the order in which they enter it.
    pub order: Vec<Vec<JobNo>>,
    /// A cleaning time for each machine, 0 where it needs none. `None` is a plan without cleaning.
    pub clean: Option<Vec<Moment>>,
}

impl Model for Plan {
    ghost use Rattle.shop_base.specs.Vectors.{plan_of};
    ghost use Rattle.shop_base.specs.Plan.{ShopPlan};

    ghost Value = { ShopPlan };

    ghost view = { λ p. plan_of p.release p.budget p.order p.clean };
}
