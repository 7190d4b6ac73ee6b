//! Which report comes next where everything ends when it is due.

ghost use Rattle.std.specs.Prelude.{ℕ, ◌+◌, ◌<◌, MatchBool, MatchOption};
ghost use Rattle.shop_base.specs.Plan.{jobs, machines};
ghost use Rattle.plan_moves.specs.NextReports.{IsNextReport, IsOver};
ghost use Rattle.plan_moves.specs.Soonest.{IsSoonest, IsIdleBelow, IsPassedOver, IsFirstAt, ComesFirst};
ghost use Rattle.plan_moves.specs.Soonest.{IsDueOnlyAt, IsDueAt, IsTurn, IsReportAt};

use cell_control::{Dues, RestController};
use shop_base::limits::MAX_MOMENT;
use shop_base::{Moment, Report};

/// The activity that is to be reported first: when it is due, or the present moment if that is past, and its turn.
#[derive(Clone, Copy)]
pub(crate) struct Soonest {
    pub at: Moment,
    pub turn: u32,
}

/// The report that comes next; `None` if nothing that goes on is due up to the latest moment.
pub(crate) fn next_report<D: Dues>(
    controller: &RestController<D>,
    present: Moment,
) -> Option<Report>
    ensures { let p = controller.now.planned in
        MatchOption result (IsOver p present controller.now.cell) (IsNextReport p present controller.now.cell) }
{
    // Called for its clause alone: the cell is sound.
    let _plan = controller.shaped();
    match soonest_of(controller, present) {
        Some(soonest) => {
            if soonest.at <= MAX_MOMENT {
                Some(report_of(controller, soonest))
            } else {
                None
            }
        }
        None => None,
    }
}

/// The activity that is to be reported first; `None` if nothing goes on.
fn soonest_of<D: Dues>(controller: &RestController<D>, present: Moment) -> Option<Soonest>
    ensures { let p = controller.now.planned in let c = controller.now.cell in let n = jobs p + machines p in
        MatchOption result (IsIdleBelow p c n) (IsSoonest p present c n) }
{
    let shaped = controller.shaped();
    for turn in 0..shaped.job_count() + shaped.machine_count() {
        if let Some(soonest) = if_first(controller, present, turn) {
            return Some(soonest);
        }
    }
    None
}

/// The activity of the turn, if nothing is to be reported at an earlier moment.
fn if_first<D: Dues>(controller: &RestController<D>, present: Moment, turn: u32) -> Option<Soonest>
    requires { turn < jobs controller.now.planned + machines controller.now.planned }
    ensures { let p = controller.now.planned in let c = controller.now.cell in
        MatchOption result (IsPassedOver p present c turn) (IsFirstAt p present c turn) }
{
    match due_at(controller, turn) {
        Some(due) => {
            if is_first(controller, present, due) {
                let at = due.max(present);
                Some(Soonest { at, turn })
            } else {
                None
            }
        }
        None => None,
    }
}

/// Whether nothing is to be reported before what is due at this moment.
fn is_first<D: Dues>(controller: &RestController<D>, present: Moment, due: Moment) -> bool
    ensures { let p = controller.now.planned in let c = controller.now.cell in
        MatchBool result (ComesFirst p present c due) (ComesFirst p present c due → ⊥) }
{
    if due <= present {
        return true;
    }
    !controller.is_late(due)
}

/// When the activity of a turn is due: of a job, or behind the jobs of a machine's cleaning. None if nothing goes on
/// there.
fn due_at<D: Dues>(controller: &RestController<D>, turn: u32) -> Option<Moment>
    requires { turn < jobs controller.now.planned + machines controller.now.planned }
    ensures { let p = controller.now.planned in let c = controller.now.cell in
        MatchOption result ((due : ℕ) → IsDueAt p c turn due → ⊥) (IsDueOnlyAt p c turn) }
{
    let jobs = controller.shaped().job_count();
    if turn < jobs {
        controller.due(turn)
    } else {
        controller.clean_due(turn - jobs)
    }
}

/// The report that the activity ends.
fn report_of<D: Dues>(controller: &RestController<D>, soonest: Soonest) -> Report
    requires { let p = controller.now.planned in IsTurn p controller.now.cell soonest.turn }
    ensures { IsReportAt controller.now.planned controller.now.cell soonest result }
{
    // Called for its clause alone: the cell is sound.
    let _plan = controller.shaped();
    let Soonest { at, turn } = soonest;
    let cell = controller.work_cell();
    let jobs = cell.job_count();
    if turn >= jobs {
        return Report::Clean {
            machine: turn - jobs,
            at,
        };
    }
    match cell.machine_of(turn) {
        Some(machine) => Report::Finish {
            job: turn,
            machine,
            at,
        },
        None => Report::Arrive { job: turn, at },
    }
}
