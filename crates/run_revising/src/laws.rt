//! The laws of a run and its plan that are revised.

// Nothing is done here: a function's contract is the law, so a check of this crate proves it.

ghost use Rattle.run_revising.specs.NextRunLaw.{TheNextRunIsARun, WithoutAHoldTheRunStays};

/// Whatever run is revised by whatever changes that aren't refused, the next run is one of its plan, which is well shaped.
/// The present moment isn't before its last one, and each job that stays is at its step, ready or not, since the same
/// moment. Where the plan that is given has no cycle, the new one has none.
pub fn the_next_run_is_a_run()
    ensures { TheNextRunIsARun }
{}

/// Where no change holds a machine, the run so far stays as it is, and the plan is what the changes make of it alone.
pub fn without_a_hold_the_run_stays()
    ensures { WithoutAHoldTheRunStays }
{}
