//! The laws of promises that exclude each other, and of rests that lock.

// Nothing is done here: a function's contract is the law, so a check of this crate proves it.

ghost use Rattle.plan_decide.specs.Laws.{NoExactRunKeepsThem, NoContinuationKeepsThem};
ghost use Rattle.plan_decide.specs.Laws.{NoRunEndsWhereAllAreCyclic};

/// Where the promises to some jobs exclude each other, no run of any plan of the shop with the same releases and
/// cleaning times, whatever its orders and budgets, whose reports are exact ends with all jobs gone and these by their
/// budgets.
pub fn no_exact_run_keeps_them()
    ensures { NoExactRunKeepsThem }
{}

/// Where they exclude each other for the rest of a run, no run that goes on from its cell by such a plan, by any
/// controller, with no move before the present moment and no report since that is early, ends with all jobs gone and
/// these by their budgets.
pub fn no_continuation_keeps_them()
    ensures { NoContinuationKeepsThem }
{}

/// Where no plan is without a cycle, no run of any of them has all jobs out, at whatever moments and by any controller
/// that keeps the plan.
pub fn no_run_ends_where_all_are_cyclic()
    ensures { NoRunEndsWhereAllAreCyclic }
{}
