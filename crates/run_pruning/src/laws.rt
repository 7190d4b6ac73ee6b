//! The laws of a run without jobs.

// Nothing is done here: a function's contract is the law, so a check of this crate proves it.

ghost use Rattle.run_pruning.specs.PruningLaw.{AnyJobsHaveTheirRun, WhatIsLeftIsARun, NothingMoreIsOver};
ghost use Rattle.run_pruning.specs.{RestLaw.NothingAheadChanges, OnwardLaw.TheRunGoesOnRenamed};
ghost use Rattle.run_pruning.specs.CycleLaw.{NoCycleComesWithoutJobs, NoCycleComesWithoutSpare};
ghost use Rattle.run_pruning.specs.SpareLaw.{TheRunsAreTheSame, TheRestsAreTheSame, WhatIsLeftNeedsNoSpare, NothingIsOverWithoutSpare};

/// Whatever jobs stay, at least one, the planned shop of them alone is well shaped, and their events are a run of it, which
/// ends in the cell without the others. A job may visit a machine again.
pub fn any_jobs_have_their_run()
    ensures { AnyJobsHaveTheirRun }
{}

/// Whatever jobs that are over at the end of a run are dropped, what is left is a run, which ends in the cell without them,
/// at the same moment. What is ahead and what goes on stay as they are.
pub fn what_is_left_is_a_run()
    ensures { WhatIsLeftIsARun }
{}

/// Of what is left of a run without all jobs that are over, no job is over. So what is left stays small.
pub fn nothing_more_is_over()
    ensures { NothingMoreIsOver }
{}

/// What is ahead is the same without jobs that are over, but for their numbers: the nodes, the arcs from them, what they
/// wait for, and the paths to them from any present moment on. So are their earliest moments, their deadlines and every
/// cycle.
pub fn nothing_ahead_changes()
    ensures { NothingAheadChanges }
{}

/// From every present moment on each controlled run is one of the plan without jobs that are over, by the new numbers, and
/// the other way round. So the cell is driven on as before.
pub fn the_run_goes_on_renamed()
    ensures { TheRunGoesOnRenamed }
{}

/// Without the machine that nobody visits a planned shop is well shaped and has the same runs, which end in the same cells
/// but for that machine.
pub fn the_runs_are_the_same()
    ensures { TheRunsAreTheSame }
{}

/// Behind each of these runs the same is ahead, with the same paths to it, and from every present moment on the same
/// controlled runs go on.
pub fn the_rests_are_the_same()
    ensures { TheRestsAreTheSame }
{}

/// What is left of a run without jobs that are over needs no machine that nobody visits any more: without that too it is a
/// run, and what is ahead and what goes on stay as they are.
pub fn what_is_left_needs_no_spare()
    ensures { WhatIsLeftNeedsNoSpare }
{}

/// Nor is any job over then, where all that were over are dropped.
pub fn nothing_is_over_without_spare()
    ensures { NothingIsOverWithoutSpare }
{}

/// Where the plan has no cycle, that of the jobs that stay has none, whatever jobs these are, nor has it one without the
/// machine that nobody visits.
pub fn no_cycle_comes_without_them()
    ensures jobs { NoCycleComesWithoutJobs }
    ensures machine { NoCycleComesWithoutSpare }
{}
