//! What is fixed while a plan is improved.

ghost use Rattle.std.specs.Prelude.{◌≡◌, IfOk, MatchOption, option_copied};
ghost use Rattle.alt_graph.specs.Solved.{HasCycle};
ghost use Rattle.plan_improve.specs.Keeping.{setting_of, rest_in, bound_if_known, IsCostBelow, IsRestOfDone};

use crate::cost::Cost;
use crate::costing::cost_from;
use cell_tables::Rest;
use plan_net::PartAhead;
use shop_base::{Moment, Shaped};
use std::alloc::{AllocError, Global};

/// What is fixed while a plan is improved.
#[derive(Clone, Copy)]
pub(crate) enum Fixed<'a> {
    /// Nothing: a whole plan is improved. Whatever its orders, its makespan is no less than this.
    Nothing { at_least: Moment },
    /// What was done so far: a plan is improved for the rest of a run, which has this left.
    Run { left: &'a PartAhead },
}

impl<'a> Fixed<'a> {
    /// What a run has left of the plan, if one has begun.
    pub fn left(&self) -> Option<&PartAhead>
        ensures { option_copied result ≡ rest_in self.now }
    {
        match self {
            Fixed::Nothing { .. } => None,
            Fixed::Run { left } => Some(left),
        }
    }

    /// The bound below which no makespan is, if one is known.
    pub fn at_least(&self) -> Option<Moment>
        ensures { result ≡ bound_if_known self.now }
    {
        match self {
            Fixed::Nothing { at_least } => Some(*at_least),
            Fixed::Run { .. } => None,
        }
    }

    /// The cost of a rest's plan; `None` if it has a cycle.
    pub fn cost(&self, alloc: Global, rest: &Rest<Shaped>) -> Result<Option<Cost>, AllocError>
        requires { IsRestOfDone (setting_of self.now rest.now) rest.now }
        ensures { let p = rest.now.plan in
            IfOk result (λ cost. MatchOption cost (HasCycle p) ((setting_of self.now rest.now).costs p)) }
    {
        // Called for its clause alone: the plan is well shaped.
        let _plan = rest.shaped();
        cost_from(alloc, rest)
    }

    /// The cost of a rest's plan, if it has one and it is less than this.
    pub fn cost_below(
        &self,
        alloc: Global,
        rest: &Rest<Shaped>,
        bound: &Cost,
    ) -> Result<Option<Cost>, AllocError>
        requires { IsRestOfDone (setting_of self.now rest.now) rest.now }
        ensures { IfOk result (IsCostBelow (setting_of self.now rest.now) rest.now.plan bound.now) }
    {
        match self.cost(alloc, rest)? {
            Some(cost) => {
                if cost.is_less(bound) {
                    Ok(Some(cost))
                } else {
                    Ok(None)
                }
            }
            None => Ok(None),
        }
    }
}
