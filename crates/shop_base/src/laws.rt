//! The laws of every run: of every well shaped plan and of every list of reports or events. The crates above only
//! have to show that they do what is defined.
//!
//! A schedule is a rank and a moment for each node. Ranks rise along every arc, no job's first place is before its
//! release, and the moments of an arc are at least its length apart. An accepted plan comes with one: the order in
//! which the graph's nodes were ranked, and the greatest length of a path to each node. `never_stuck` asks for the
//! ranks alone.

// Nothing is done here: a function's contract is the law, so a check of this crate proves it.

ghost use Rattle.shop_base.specs.StepLaw.{OneListOfMovesFitsAReport, EveryListHasOneControlledRun};
ghost use Rattle.shop_base.specs.StepLaw.{NoTwoJobsAreOnOneMachine, AControlledRunIsARun};
ghost use Rattle.shop_base.specs.StepLaw.{EveryRunIsSound, AMoveEntersItsTarget, NoJobMovesTwice};
ghost use Rattle.shop_base.specs.NeverStuckLaw.{NeverStuck};
ghost use Rattle.shop_base.specs.EndsLaw.{EndsOnTheStatedNumber, ReportsAddUpToTheStatedNumber};
ghost use Rattle.shop_base.specs.EndsLaw.{OrdersNeverOutnumberReports, MovesNeverOutnumberReports};
ghost use Rattle.shop_base.specs.InTimeLaw.{InTime, InTimeAtTheEnd};
ghost use Rattle.shop_base.specs.CycleLaw.{ACycleStopsEveryRun};
ghost use Rattle.shop_base.specs.ExactLaw.{NoExactRunIsFaster, NoExactMoveIsEarlier, JustInTime};
ghost use Rattle.shop_base.specs.SerialLaw.{TheSerialPlanHasNoCycle};
ghost use Rattle.shop_base.specs.AtMostOnceLaw.{NoEndIsAcceptedTwice};
ghost use Rattle.shop_base.specs.AheadLaw.{NeverStuckFromThere, EndsOnTheReportsLeft, ReportsLeftAddUp};
ghost use Rattle.shop_base.specs.AheadLaw.{EveryCellSettlesOnce, NoJobSettlesTwice};
ghost use Rattle.shop_base.specs.AheadLaw.{ACutStepSettlesAsItWas, EveryListGoesOn, EveryCellHasASchedule};
ghost use Rattle.shop_base.specs.AheadLaw.{InTimeFromThere, NoContinuationIsFaster};
ghost use Rattle.shop_base.specs.AheadLaw.{JustInTimeFromThere, SomeContinuationIsExact};
ghost use Rattle.shop_base.specs.AheadLaw.{ACycleStopsEveryContinuation, NoArcLeadsBack, TheStartIsACaseOfThese};
ghost use Rattle.shop_base.specs.WithinLaw.{InTimeWithin, EachMoveIsInTime, MomentsStillFit};
ghost use Rattle.shop_base.specs.WithinLaw.{AReportInTimeIsPossible, PunctualReportsAreWithin};
ghost use Rattle.shop_base.specs.WithinLaw.{TheirOwnAreEnough};
ghost use Rattle.shop_base.specs.DeadlinesLaw.{OutByTheDeadlines, InTimeToTheDeadlines};
ghost use Rattle.shop_base.specs.DeadlinesLaw.{EachSuchPlanHasDeadlines, DeadlinesExist, DeadlinesAreTheLatest};
ghost use Rattle.shop_base.specs.DeadlinesLaw.{DeadlinesAreTheSame, DeadlinesStay, NoDeadlineIsTooEarly};
ghost use Rattle.shop_base.specs.DeadlinesLaw.{InTimeByDeadlines, EachMoveIsByItsDeadline};
ghost use Rattle.shop_base.specs.DeadlinesLaw.{TheRestStaysAccepted, AllOutByDeadlines};
ghost use Rattle.shop_base.specs.DeadlinesLaw.{DeadlinesAreTight, ALateEndIsTooLate};

/// From each sound cell at rest, exactly one list of moves that keep the plan and end at rest follows a possible
/// report. The end of every run is sound (`every_run_is_sound`), and so is the cell of every controller. So a
/// controller has nothing to choose.
pub fn one_list_of_moves_fits_a_report()
    ensures { OneListOfMovesFitsAReport }
{}

/// Every list of reports, impossible and late ones included, has exactly one controlled run, and it ends in one cell.
pub fn every_list_has_one_controlled_run()
    ensures { EveryListHasOneControlledRun }
{}

/// A controlled run has only possible reports and possible moves that keep the plan. It ends at rest, with no two
/// jobs on one machine.
pub fn a_controlled_run_is_a_run()
    ensures { AControlledRunIsARun }
{}

/// In every run, by any controller, no two jobs are on one machine at its end, and so after each of its events.
pub fn no_two_jobs_are_on_one_machine()
    ensures { NoTwoJobsAreOnOneMachine }
{}

/// Every run, by any controller, ends in a sound cell (`IsSound`).
pub fn every_run_is_sound()
    ensures { EveryRunIsSound }
{}

/// After a move that is possible in a run, the jobs that have entered its target are the same as before, followed by
/// the job itself. By this list the definition says whether the move keeps the plan.
pub fn a_move_enters_its_target()
    ensures { AMoveEntersItsTarget }
{}

/// In a step that follows any run no job moves twice, and so its moves are at most as many as the jobs.
pub fn no_job_moves_twice()
    ensures { NoJobMovesTwice }
{}

/// Let the nodes have ranks that rise strictly along every arc. Then after every list of reports the cell is at rest
/// and not stuck, and either the run has ended, or an activity is going on. Each activity that is going on can be
/// reported at the last moment.
pub fn never_stuck()
    ensures { NeverStuck }
{}

/// After every list of reports no more were accepted than the stated number, and the run has ended exactly where as
/// many were. In every run, by any controller, the reports so far and those still to come (`reports_left`) are
/// together that number.
pub fn ends_on_the_stated_number()
    ensures controlled { EndsOnTheStatedNumber }
    ensures any { ReportsAddUpToTheStatedNumber }
{}

/// There are never more orders than accepted reports; and in no run at all more moves than reports.
pub fn orders_never_outnumber_reports()
    ensures controlled { OrdersNeverOutnumberReports }
    ensures any { MovesNeverOutnumberReports }
{}

/// Let a plan have a schedule, and no report of a controlled run be late. Then each job is gone by the moment kept
/// for its leaving, or it isn't gone and that isn't past. So where these moments meet the budgets, each job is in
/// time. Once the run has ended, all jobs are out by their budgets.
pub fn in_time()
    ensures kept { InTime }
    ensures ended { InTimeAtTheEnd }
{}

/// If the arcs have a simple cycle, then no move of the cycle is made in any run, with any moments and by any
/// controller. So each of its jobs stays before its place on it, and some job isn't gone.
pub fn a_cycle_stops_every_run()
    ensures { ACycleStopsEveryRun }
{}

/// In every run whose reports are exact, by any controller, no job is gone before the length of any path to its
/// leaving.
pub fn no_exact_run_is_faster()
    ensures { NoExactRunIsFaster }
{}

/// In such a run no move is made before the length of any path to the node that it makes.
pub fn no_exact_move_is_earlier()
    ensures { NoExactMoveIsEarlier }
{}

/// Let a plan have a schedule as for `in_time`, and let a path to a job's leaving be as long as the moment kept for
/// it. Then in a controlled run whose reports are exact, the job is gone, once it is, since exactly that moment. The
/// clause of this name, of `earliest_leave`, says it of an accepted plan.
pub fn just_in_time()
    ensures { JustInTime }
{}

/// If each machine takes its jobs in ascending order, no arcs lead in a circle.
pub fn the_serial_plan_has_no_cycle()
    ensures { TheSerialPlanHasNoCycle }
{}

/// In any run, by any controller, an arrival that was reported isn't possible again, nor is the end of an operation,
/// unless the job's route visits that machine again and the job has left it since. The end of a machine's cleaning is
/// possible again, but only once the end of an operation on that machine was reported since, and its job has left.
/// Even then none is possible at a moment before any report since.
pub fn no_end_is_accepted_twice()
    ensures { NoEndIsAcceptedTwice }
{}

// The laws of the rest of a run. These begin at the end of any run, by any controller: from that cell and a present
// moment on, which isn't before the last one. The laws of whole runs above are what these come to at the start.

/// Let the ranks rise along every arc. Then each controlled run that goes on is with the run before it a run, at rest
/// and not stuck at its end, and either it has ended or an activity is going on. Each that is going on can be
/// reported at the last moment.
pub fn never_stuck_from_there()
    ensures { NeverStuckFromThere }
{}

/// It has ended exactly where as many reports were accepted since as were left, and there are never more. In every
/// run that goes on, by any controller, the reports since and those still to come are together those that were left.
pub fn ends_on_the_reports_left()
    ensures controlled { EndsOnTheReportsLeft }
    ensures any { ReportsLeftAddUp }
{}

/// Every cell settles, and in whatever order its jobs move, in the same cell. No job moves twice. A step that was cut
/// after some of its moves settles by the others. So every list of reports has a controlled run that goes on.
pub fn every_cell_settles_once()
    ensures one { EveryCellSettlesOnce }
    ensures once { NoJobSettlesTwice }
    ensures cut { ACutStepSettlesAsItWas }
    ensures goes_on { EveryListGoesOn }
{}

/// Let what is ahead have a schedule, and no report since be late, except that what was overdue at the present moment
/// ends at it. Then each job keeps to the moment of its leaving. Where these moments meet the budgets, each job that
/// wasn't gone is in time. Where ranks rise some moments always fit, if for other budgets.
pub fn in_time_from_there()
    ensures kept { InTimeFromThere }
    ensures some { EveryCellHasASchedule }
{}

/// In every run that goes on, by any controller, with no report early and no move before the present moment, no job
/// is gone before the length of any path ahead to its leaving.
pub fn no_continuation_is_faster()
    ensures { NoContinuationIsFaster }
{}

/// Where both hold, and a path ahead to a job's leaving is as long as the moment kept for it, the job is gone, once
/// it is, since exactly that moment. There is such a controlled run. In it each job is gone whose leaving is kept for
/// a moment that can be reported.
pub fn just_in_time_from_there()
    ensures exact { JustInTimeFromThere }
    ensures some { SomeContinuationIsExact }
{}

/// If the arcs have a simple cycle, some job that isn't gone there is never gone, whatever is reported and moved.
pub fn a_cycle_stops_every_continuation()
    ensures { ACycleStopsEveryContinuation }
{}

/// No arc leads from a node ahead to a passed one.
pub fn no_arc_leads_back()
    ensures { NoArcLeadsBack }
{}

/// At the start, from moment 0 on, what is ahead is the whole plan: the same moments fit it, the same lengths of
/// paths bound it, and the runs that go on are the controlled runs.
pub fn the_start_is_a_case_of_these()
    ensures { TheStartIsACaseOfThese }
{}

/// Let moments be kept that don't fall along the arcs ahead, and let each report since come within them. Then each
/// job that wasn't gone keeps to the moment of its leaving, however long anything takes. Where the moments fit, each
/// move is made by the moment kept for it, and they fit still at the end: what goes on then is due by the moment of
/// what it holds up, and a report in time is possible. Punctual reports are within moments that fit. In a run at
/// whose end nothing goes on, it is enough that each report comes by the moment of what its own activity holds up.
pub fn in_time_within()
    ensures kept { InTimeWithin }
    ensures moves { EachMoveIsInTime }
    ensures still { MomentsStillFit }
    ensures possible { AReportInTimeIsPossible }
    ensures punctual { PunctualReportsAreWithin }
    ensures own { TheirOwnAreEnough }
{}

/// Let a plan have a schedule that meets its budgets, as each accepted one has. Then it has deadlines, none before
/// the moment of its node in the schedule. In a controlled run in which each activity ends by its deadline, all jobs
/// are out by their budgets at the end, however long anything took. Until then each job is in time, while each report
/// comes by the deadlines of all that goes on.
pub fn out_by_the_deadlines()
    ensures ended { OutByTheDeadlines }
    ensures in_time { InTimeToTheDeadlines }
    ensures exist { EachSuchPlanHasDeadlines }
{}

/// Other moments that respect the arcs ahead and meet the budgets are at most the deadlines, node by node. Where
/// there are such moments there are deadlines. A node's deadline is the same in every rest that has it ahead,
/// whatever the run before and the present moment, and deadlines stay deadlines as a run goes on.
pub fn the_deadlines_are_the_latest()
    ensures latest { DeadlinesAreTheLatest }
    ensures exist { DeadlinesExist }
    ensures same { DeadlinesAreTheSame }
    ensures stay { DeadlinesStay }
{}

/// Let some moments fit what is ahead and meet the budgets. None of them is after its node's deadline. While each
/// report since comes within the deadlines, each move is made by its deadline, and each job that wasn't gone is in
/// time. Some moments then fit and meet the budgets again. Where the run has ended, it is enough that each activity
/// ended by its own deadline.
pub fn in_time_by_the_deadlines()
    ensures enough { NoDeadlineIsTooEarly }
    ensures moves { EachMoveIsByItsDeadline }
    ensures in_time { InTimeByDeadlines }
    ensures accepted { TheRestStaysAccepted }
    ensures ended { AllOutByDeadlines }
{}

/// For each node ahead there is a job that isn't out by its budget in any run that goes on, by any controller, with
/// no report early and no move before a moment past the node's deadline. So it is where an activity is reported past
/// the deadline of what it holds up, and no report after it is early.
pub fn the_deadlines_are_tight()
    ensures made { DeadlinesAreTight }
    ensures reported { ALateEndIsTooLate }
{}
