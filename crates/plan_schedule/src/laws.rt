//! The laws of schedules: of the lines that `schedule` writes. Its ranks are there of each plan that is accepted or
//! late, as `never_stuck` asks for them.

// Nothing is done here: a function's contract is the law, so a check of this crate proves it.

ghost use Rattle.plan_schedule.specs.ScheduleLaw.{ScheduleIsTheExactRun, SomeRunIsExact};

/// Let the ranks rise along every arc, and let lines give the greatest length of a path ahead of the start to each node.
/// Then in a controlled run whose reports are exact each event comes at just the moment that they give. A job arrives
/// at its release, enters each of its visits and leaves it, and its operation ends between, as the line of the visit
/// says. A cleaning begins as the job leaves, and its end is reported its time after that. There is such a run, in
/// which each job is gone whose leaving has a moment that can be reported.
pub fn schedule_is_the_exact_run()
    ensures exact { ScheduleIsTheExactRun }
    ensures some { SomeRunIsExact }
{}
