//! The laws of better plans: for whoever improves a plan more than once, or one for the rest of a run.
//!
//! A plan is no worse than another where neither has a cycle, and the first is less late, or as late with no greater
//! makespan.

// Nothing is done here: a function's contract is the law, so a check of this crate proves it.

ghost use Rattle.plan_improve.specs.Laws.{AcceptedPlansStayAccepted, TheirMakespansNeverGrow};
ghost use Rattle.plan_improve.specs.Laws.{ASecondSearchIsNoWorse, NoWorseIsPassedOn, NobodyBettersIt};
ghost use Rattle.plan_improve.specs.Laws.{AcceptedRestsStayAccepted, TheRestOfTheStartCostsThePlan};

/// A plan that is no worse than an accepted one is accepted, and its makespan is no greater.
pub fn accepted_plans_stay_accepted()
    ensures accepted { AcceptedPlansStayAccepted }
    ensures makespan { TheirMakespansNeverGrow }
{}

/// What a search gives of a plan without a cycle is no worse than that plan. And "no worse" is passed on from the
/// first plan to the second and the third.
pub fn second_searches_are_no_worse()
    ensures second { ASecondSearchIsNoWorse }
    ensures passed_on { NoWorseIsPassedOn }
{}

/// A plan without a cycle meets its bound where no job is late and its makespan is the greatest bound of its machines
/// and jobs. Then no plan that differs from it in its orders alone is better.
pub fn a_plan_at_its_bound_is_best()
    ensures { NobodyBettersIt }
{}

/// A plan that is no worse than one whose rest is accepted has a rest that is accepted.
pub fn accepted_rests_stay_accepted()
    ensures { AcceptedRestsStayAccepted }
{}

/// The rest of a run that hasn't begun costs what the whole plan does.
pub fn the_rest_of_the_start_costs_the_plan()
    ensures { TheRestOfTheStartCostsThePlan }
{}
