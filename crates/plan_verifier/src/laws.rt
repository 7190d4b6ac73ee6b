//! The law of the start: of a run that hasn't begun the rest is the whole plan.

// Nothing is done here: a function's contract is the law, so a check of this crate proves it.

ghost use Rattle.plan_verifier.specs.StartLaw.{TheRestOfTheStartIsThePlan};

/// From the cell at the start and moment 0 on, what `earliest_moments` gives has the same earliest moments as what `solve`
/// gives of the plan. So the rest is to be accepted exactly if those of the plan's leavings are within the budgets,
/// which is when `verify` accepts the plan.
pub fn the_rest_of_the_start_is_the_plan()
    ensures { TheRestOfTheStartIsThePlan }
{}
