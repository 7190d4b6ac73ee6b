//! The laws of limits: what a plan gives that has no cycle and has given jobs out by their limits, whatever its orders,
//! and what a question that is answered by `Never` says of plans that are accepted.

// Nothing is done here: a function's contract is the law, so a check of this crate proves it.

ghost use Rattle.plan_limits.specs.LimitsLaw.{EveryPlanGivesMoments, AcceptablePlansKeepLimits, NeverIsNeverAccepted};
ghost use Rattle.plan_limits.specs.LimitsLaw.{NeverIsNeverAcceptedFromThere, TheStartIsEveryPlan};

/// Every plan that goes on from a cell and keeps limits gives moments that respect what goes on and every arc of a job,
/// by which, of any two visits to a machine, of one job too, one begins after the other has ended and the machine is
/// clean, and by which each job that has a limit and isn't gone leaves within it.
pub fn every_plan_gives_moments()
    ensures { EveryPlanGivesMoments }
{}

/// A plan that is to be accepted keeps all limits that aren't below its budgets.
pub fn acceptable_plans_keep_limits()
    ensures { AcceptablePlansKeepLimits }
{}

/// Where no plan keeps the limits, no plan of this shop with these releases and cleaning times is to be accepted that
/// has, for the jobs that have a limit, no budget above it, and none is verified; and where none does that goes on from
/// a cell, no rest from there is to be accepted by such a plan.
pub fn never_is_never_accepted()
    ensures whole { NeverIsNeverAccepted }
    ensures from_there { NeverIsNeverAcceptedFromThere }
{}

/// Every whole plan goes on from the start: where no plan that goes on from there keeps the limits, no plan does.
pub fn the_start_is_every_plan()
    ensures { TheStartIsEveryPlan }
{}
