//! The leavings of the jobs: the earliest moments at which they can have left.

ghost use Rattle.std.specs.Prelude.{◌≡◌, ℕ, ◌<◌, ◌≤◌, ◌⊎◌, ◌↔◌, max, IsTrue, IfSome, MatchOption};
ghost use Rattle.shop_base.specs.{Plan.jobs, Plan.budget, Cell.IsGone, Graph.leaving};
ghost use Rattle.alt_graph.specs.{Bounds.IsAheadOf, Times.AreRanks, Times.earliest_of};
ghost use Rattle.plan_verifier.specs.FromBounds.{MeetBudgetsFrom, IsFirstPastFrom};
ghost use Rattle.plan_verifier.specs.Leavings.{leaves_in, IsLastLeaving, LeavesLast};

use alt_graph::{Bounds, Times};
use cell_tables::WorkCell;
use shop_base::{JobNo, Moment, Node, Planned, Shaped};

/// The earliest moment at which the job can have left, in whole time units from moment 0: the greatest length of a path
/// to its leaving. Of the rest of a run, and a job that is gone, it is the moment at which that left.
pub fn leave_time<P: Planned>(plan: &P, times: &Times, job: JobNo) -> Moment
    requires ranks { AreRanks (P.planned plan.now) times.now }
    requires job { job < jobs (P.planned plan.now) }
    ensures { result ≡ earliest_of times.now (leaving (P.planned plan.now) job) }
{
    match times.earliest(leaving_of(plan, job)) {
        Some(moment) => moment,
        None => unreachable!(),
    }
}

/// The job's leaving.
pub fn leaving_of<P: Planned>(plan: &P, job: JobNo) -> Node
    requires { job < jobs (P.planned plan.now) }
    ensures { result ≡ leaving (P.planned plan.now) job }
{
    Node {
        job,
        place: plan.shaped().step_count(job),
    }
}

/// The latest of all jobs' leavings.
pub fn makespan<P: Planned>(plan: &P, times: &Times) -> Moment
    requires { AreRanks (P.planned plan.now) times.now }
    ensures { let p = P.planned plan.now in IsLastLeaving p (leaves_in p times.now) result }
{
    let mut makespan = 0;
    for job in 0..plan.shaped().job_count() {
        makespan = later(makespan, leave_time(plan, times, job));
    }
    makespan
}

/// The later of two moments.
pub fn later(one: Moment, other: Moment) -> Moment
    ensures { result ≡ max one other }
{
    if one < other { other } else { one }
}

/// The first job whose leaving is ahead and past its budget, if there is one.
pub(crate) fn first_late<B: Bounds>(shaped: &Shaped, bounds: &B, times: &Times) -> Option<JobNo>
    requires planned { B.planned bounds.now ≡ shaped.now }
    requires ranks { AreRanks shaped.now times.now }
    ensures { let p = shaped.now in let b = B.bounds bounds.now in
        MatchOption result (MeetBudgetsFrom p b (earliest_of times.now)) (IsFirstPastFrom p b (earliest_of times.now)) }
{
    for job in 0..shaped.job_count() {
        if is_late(shaped, bounds, times, job) {
            return Some(job);
        }
    }
    None
}

/// Whether the job's leaving is ahead and past its budget.
fn is_late<B: Bounds>(shaped: &Shaped, bounds: &B, times: &Times, job: JobNo) -> bool
    requires planned { B.planned bounds.now ≡ shaped.now }
    requires ranks { AreRanks shaped.now times.now }
    requires job { job < jobs shaped.now }
    ensures { let p = shaped.now in
        IsTrue result
        ↔ (IsAheadOf (B.bounds bounds.now) (leaving p job) × (budget p job < earliest_of times.now (leaving p job))) }
{
    if !bounds.is_ahead(leaving_of(shaped, job)) {
        return false;
    }
    leave_time(shaped, times, job) > shaped.budget_of(job)
}

/// The least job that leaves last among the jobs that aren't gone; `None` if all are gone.
pub fn last_to_leave<P: Planned>(cell: &WorkCell<P>, times: &Times) -> Option<JobNo>
    requires { AreRanks cell.now.plan times.now }
    ensures { let p = cell.now.plan in let c = cell.now.cell in
        MatchOption result ((j : ℕ) → j < jobs p → IsGone p c j) (LeavesLast p c (leaves_in p times.now)) }
{
    let mut last = None;
    for job in 0..cell.job_count() {
        if !is_gone(cell, job) {
            last = Some(later_to_leave(cell, times, last, job));
        }
    }
    last
}

/// Of a job, if there is one, and a greater one the one that leaves later, or the first of them.
fn later_to_leave<P: Planned>(
    cell: &WorkCell<P>,
    times: &Times,
    one: Option<JobNo>,
    other: JobNo,
) -> JobNo
    requires ranks { AreRanks cell.now.plan times.now }
    requires one { IfSome one (λ j. j < jobs cell.now.plan) }
    requires other { other < jobs cell.now.plan }
    ensures { let leaves = leaves_in cell.now.plan times.now in
        MatchOption one (result ≡ other)
        (λ j. ((leaves j < leaves other) × (result ≡ other)) ⊎ ((leaves other ≤ leaves j) × (result ≡ j))) }
{
    match one {
        Some(job) => {
            if leave_time(cell, times, job) < leave_time(cell, times, other) {
                other
            } else {
                job
            }
        }
        None => other,
    }
}

/// Whether the job is gone.
fn is_gone<P: Planned>(cell: &WorkCell<P>, job: JobNo) -> bool
    requires { job < jobs cell.now.plan }
    ensures { IsTrue result ↔ IsGone cell.now.plan cell.now.cell job }
{
    cell.step_count(job) < cell.job_state(job).made
}
