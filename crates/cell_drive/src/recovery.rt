//! A log that is recovered.

ghost use Rattle.std.specs.Prelude.{◌≡◌, ◌*◌, ◌≤◌, [], Some, vec_len, vec_capacity, true, IfSome, IfOk, IfErr, OnOk};
ghost use Rattle.shop_base.specs.declared.limits.TheConstants.{MAX_MOMENT};
ghost use Rattle.shop_base.specs.{Plan.IsWellShaped, Cell.start, Run.IsRun, Ends.stated_number};
ghost use Rattle.text_lines.specs.Lines.{ended_lines};
ghost use Rattle.plan_verifier.specs.Accepted.{IsAcceptable};
ghost use Rattle.cell_tables.specs.Events.{events_of};
ghost use Rattle.run_log.specs.Audits.{IsReplayed};
ghost use Rattle.cell_control.specs.Begun.{IsBegun};
ghost use Rattle.byte_streams.specs.declared.rooms.TheConstants.{MAX_PIECE};
ghost use Rattle.cell_drive.specs.{OneRun.cell_after, LateEvents.AreLate};
ghost use Rattle.cell_drive.specs.Recovered.{AreAtStart, IsRecovered, IsRecoveredFrom, IsRecoveredRun};
ghost use Rattle.cell_drive.specs.Recovered.{IsRecoverable, replayed_events};
ghost use Rattle.cell_drive.specs.ResumeFaults.{IsResumeFault, IsOnlyLogFault, IsStartRefusal};

use crate::lateness::late_events;
use crate::resume_fault::{ResumeFault, Undriven};
use byte_streams::reading_room;
use cell_control::{RestController, TourneyDues};
use cell_tables::{Entry, Rest, Tables, WorkCell};
use plan_verifier::{Verdict, verify};
use run_log::{LoggedRest, RunLog, rest_at};
use shop_base::{Moment, Shaped};
use std::alloc::{AllocError, Global};
use std::marker::Model;

/// A run that was recovered from its log.
#[derive(Drop)]
pub struct RecoveredRun {
    pub(crate) run: Replayed,
    /// The tables of the cell at the start of the run, from which its events are written again.
    pub(crate) start: Tables,
}

impl Model for RecoveredRun {
    ghost use Rattle.cell_drive.specs.Recovered.{Recovered, AreAtStart, IsRecoveredRun};

    ghost Value = { Recovered };

    ghost view = { λ t. t.run };

    ghost invariant = { λ t. IsRecoveredRun t.run × AreAtStart t.run.control.planned t.start };
}

/// A run that was recovered from its log, and whose events were written again.
#[derive(Drop)]
pub struct Replayed {
    /// The controller of the rest of the run.
    pub(crate) controller: RestController<TourneyDues>,
    /// What was accepted and ordered in the whole run: the orders that are due stand there already.
    pub(crate) log: RunLog,
    /// Of each entry of it that the log recorded, whether it is a report that was late. The others are the orders that
    /// are due.
    pub(crate) late: Vec<bool>,
    /// Where what is read lies at a time, once the run goes on.
    pub(crate) room: Vec<u8>,
}

impl Model for Replayed {
    ghost use Rattle.std.specs.Prelude.{◌≡◌, vec_len};
    ghost use Rattle.byte_streams.specs.declared.rooms.TheConstants.{MAX_PIECE};
    ghost use Rattle.cell_drive.specs.Recovered.{Recovered, recovered_by, IsRecoveredRun};

    ghost Value = { Recovered };

    ghost view = { λ t. recovered_by t.controller t.log t.late.items };

    ghost invariant = { λ t.
        IsRecoveredRun (recovered_by t.controller t.log t.late.items) × (vec_len t.room ≡ MAX_PIECE) };
}

/// Recovers a run where its log ends, at a present moment or else at the last one of the log. The log may have been cut
/// at any byte: what stands after its last line feed isn't looked at. Its whole lines have to record a run of the plan,
/// by whatever controller; neither the plan nor its instance need be those by which the log was written. The plan has
/// to have no cycle. Where the log records no event the plan has to be an accepted one; else its budgets aren't asked
/// for, since a cell that has begun has to go on, however late.
///
/// All memory is allocated here.
pub fn recover(
    alloc: Global,
    shaped: Shaped,
    text: &[u8],
    at: Option<Moment>,
) -> Result<RecoveredRun, ResumeFault>
    ensures recovered { IfOk result (IsRecovered shaped (ended_lines text.now) at) }
    ensures fault { IfErr result (IsResumeFault shaped (ended_lines text.now) at) }
    ensures only_fault { IfErr result (IsOnlyLogFault shaped (ended_lines text.now)) }
    ensures only { IfSome at (λ present. present ≤ MAX_MOMENT) → IsRecoverable shaped (ended_lines text.now) at
        → IfErr result (λ fault. fault ≡ ResumeFault.Memory) }
{
    // Called for its clause alone: the plan is well shaped.
    let _plan = shaped.shop();
    let room = match reading_room(alloc) {
        Ok(room) => room,
        Err(error) => {
            drop(shaped);
            return Err(ResumeFault::from(error));
        }
    };
    match rest_at(alloc, shaped, text, at) {
        Ok(Ok(run)) => recover_run(alloc, run, room),
        Ok(Err(fault)) => Err(ResumeFault::Run(fault)),
        Err(error) => Err(ResumeFault::from(error)),
    }
}

/// Recovers a run that a log recorded.
fn recover_run(
    alloc: Global,
    run: LoggedRest<Shaped>,
    room: Vec<u8>,
) -> Result<RecoveredRun, ResumeFault>
    requires replayed { IsReplayed run.rest.plan run.rest.cell run.entries.items }
    requires reserved { vec_capacity run.entries ≡ 2 * stated_number run.rest.plan }
    requires room { vec_len room ≡ MAX_PIECE }
    ensures recovered { IfOk result (IsRecoveredFrom run.rest.plan run.entries.items (Some run.rest.present)) }
    ensures fault { IfErr result (IsStartRefusal run.rest.plan (run.entries.items ≡ [])) }
{
    let LoggedRest { rest, entries } = run;
    let starts = entries.is_empty();
    let (late, start) = match ready_again(alloc, rest.shaped(), &entries) {
        Ok(ready) => ready,
        Err(error) => {
            drop(rest);
            return Err(ResumeFault::from(error));
        }
    };
    match begin(alloc, rest, starts) {
        Ok(controller) => Ok(RecoveredRun {
            run: with_due(controller, RunLog::of_entries(entries), late, room),
            start,
        }),
        Err(fault) => Err(fault),
    }
}

/// What it takes to write the events of a run again: of each whether it is a late report, and the tables of the cell at
/// its start.
fn ready_again(
    alloc: Global,
    shaped: &Shaped,
    entries: &[Entry],
) -> Result<(Vec<bool>, Tables), AllocError>
    requires { IsRun shaped.now (events_of entries.now) }
    ensures late { IfOk result (λ ready. AreLate shaped.now (start shaped.now) entries.now ready.0.items) }
    ensures start { IfOk result (λ ready. AreAtStart shaped.now ready.1) }
{
    let late = late_events(alloc, shaped, entries)?;
    let start = start_tables(alloc, shaped)?;
    Ok((late, start))
}

/// The tables of the cell at the start of a run.
fn start_tables(alloc: Global, shaped: &Shaped) -> Result<Tables, AllocError>
    ensures { IfOk result (AreAtStart shaped.now) }
{
    match WorkCell::start(alloc, shaped) {
        Ok(cell) => {
            let (_shaped, tables) = cell.into_parts();
            Ok(tables)
        }
        Err((error, _)) => Err(error),
    }
}

/// Begins with the rest. At the start of a run its plan has to be accepted; else it has to have no cycle.
fn begin(
    alloc: Global,
    rest: Rest<Shaped>,
    starts: bool,
) -> Result<RestController<TourneyDues>, ResumeFault>
    ensures begun { IfOk result (IsBegun rest.plan rest.cell rest.present) }
    ensures accepted { starts ≡ true → OnOk result (IsAcceptable rest.plan) }
    ensures fault { IfErr result (IsStartRefusal rest.plan (starts ≡ true)) }
{
    // Called for its clause alone: what leads to the plan is the plan.
    let _plan = rest.cell().basis();
    match check_start(alloc, rest, starts) {
        Ok(rest) => match RestController::begin(alloc, rest) {
            Ok(controller) => Ok(controller),
            Err((fault, rest)) => {
                let shaped = rest.into_parts().0.into_basis();
                Err(ResumeFault::from(Undriven { fault, shaped }))
            }
        },
        Err(fault) => Err(fault),
    }
}

/// Gives the rest back, if its run doesn't only start or its plan is accepted.
fn check_start(alloc: Global, rest: Rest<Shaped>, starts: bool) -> Result<Rest<Shaped>, ResumeFault>
    ensures same { IfOk result (λ checked. checked ≡ rest) }
    ensures accepted { starts ≡ true → OnOk result (IsAcceptable rest.plan) }
    ensures fault { IfErr result (IsStartRefusal rest.plan (starts ≡ true)) }
{
    if starts {
        check_plan(alloc, rest)
    } else {
        Ok(rest)
    }
}

/// Gives the rest back, if its plan is accepted.
fn check_plan(alloc: Global, rest: Rest<Shaped>) -> Result<Rest<Shaped>, ResumeFault>
    ensures same { IfOk result (λ checked. checked ≡ rest) }
    ensures accepted { OnOk result (IsAcceptable rest.plan) }
    ensures fault { IfErr result (IsStartRefusal rest.plan (true ≡ true)) }
{
    let (cell, present) = rest.into_parts();
    let (shaped, tables) = cell.into_parts();
    match verify(alloc, shaped) {
        Ok(Verdict::Accepted(verified)) => {
            let cell = WorkCell::of_parts(verified.into_shaped(), tables);
            match Rest::at(cell, Some(present)) {
                Ok(rest) => Ok(rest),
                Err(_) => unreachable!(),
            }
        }
        Ok(Verdict::Refused(shaped, why)) => Err(ResumeFault::Refused(shaped, why)),
        Err((error, shaped)) => {
            drop(shaped);
            Err(ResumeFault::from(error))
        }
    }
}

/// What was recovered: the orders that are due are noted.
fn with_due(
    controller: RestController<TourneyDues>,
    log: RunLog,
    late: Vec<bool>,
    room: Vec<u8>,
) -> Replayed
    requires shaped { IsWellShaped controller.planned }
    requires run { IsRun controller.planned (events_of log.entries) }
    requires begun { IsBegun controller.planned
        (cell_after controller.planned log.entries) controller.began controller }
    requires reserved { log.reserved ≡ 2 * stated_number controller.planned }
    requires late { AreLate controller.planned (start controller.planned) log.entries late.items }
    requires room { vec_len room ≡ MAX_PIECE }
    ensures control { result.control ≡ controller }
    ensures replayed { replayed_events result ≡ log.entries }
    ensures run { IsRecoveredRun result }
{
    // Called for its clause alone: what holds of every such controller.
    let _plan = controller.shaped();
    let mut log = log;
    log.note_orders(controller.orders()).unwrap();
    Replayed {
        controller,
        log,
        late,
        room,
    }
}
