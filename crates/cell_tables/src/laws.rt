//! The laws of a run that keeps another plan, as far as its last cell shows.

// Nothing is done here: a function's contract is the law, so a check of this crate proves it.

ghost use Rattle.cell_tables.specs.{Reordered.TheEntriesTellWhatIsKept, KeptLaw.AKeptRunIsOneOfTheOtherPlan};
ghost use Rattle.cell_tables.specs.KeptLaw.{ARunOfBothPlansIsKept};

/// A run that keeps another plan, as far as the cell at its end shows, is a run of that plan, and ends there with the
/// same cell as one of that plan. So a cell that is recast goes on with a run of the plan that it then has.
pub fn a_kept_run_is_one_of_the_other_plan()
    ensures { AKeptRunIsOneOfTheOtherPlan }
{}

/// A run of two plans keeps the other one, as far as the cell at its end shows. So a cell isn't refused to a plan of
/// which its run is one, except where that plan has a cleaning time for a machine that had none and that a job has
/// left: the cell doesn't say when.
pub fn a_run_of_both_plans_is_kept()
    ensures { ARunOfBothPlansIsKept }
{}

/// A cell that a run has led to can be recast to a plan that differs in its orders alone exactly where each machine's
/// other order begins with the jobs that have entered it.
pub fn the_entries_tell_what_is_kept()
    ensures { TheEntriesTellWhatIsKept }
{}
