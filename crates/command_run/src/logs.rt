//! The command `drive` with a log of its own.

ghost use Rattle.std.specs.Prelude.{◌≡◌, ◌≤◌, [], IfSome};
ghost use Rattle.shop_base.specs.declared.limits.TheConstants.{MAX_MOMENT};
ghost use Rattle.byte_streams.specs.Lent.{output_of};
ghost use Rattle.event_lines.specs.RunDigits.{plan_line};
ghost use Rattle.cell_drive.specs.Recovered.{plan_of, replayed_events};
ghost use Rattle.cell_drive.specs.InProtocol.{IsDriveIn, IsContinuedIn};
ghost use Rattle.cell_drive.specs.Replay.{replay_text};
ghost use Rattle.run_journal.specs.Logged.{AreInitial};
ghost use Rattle.command_run.specs.Drives.{end_of_drive};
ghost use Rattle.command_run.specs.Resumes.{end_of_rest};
ghost use Rattle.command_run.specs.Logs.{DrivesWithLog, GoesOnWithLog, IsHistoryOfLog, IsLoggedAnswer, IsReady};
ghost use Rattle.command_run.specs.Logs.{IsRecoveredFromLog, IsWrittenBehind, ReplaysEvents, StepsWith, digits_in};
ghost use Rattle.command_run.specs.Readiness.{DrivesReady, HoldsBefore, log_of};
ghost use Rattle.command_run.specs.Program.{RunsLoggedDrive};

use crate::devices::Streams;
use crate::drives::{CommandFaultOf, ended};
use crate::log_faults::{LogFault, LoggedFault};
use crate::readiness::{LogAsked, Ready, ready_run};
use cell_drive::{
    Begun, BufferedSink, DriveEnd, DriveFault, Protocol, RecoveredRun, Replayed, RestEnd, Source,
    replay_in,
};
use command_answers::{Answered, InputPaths, Texts};
use logged_drive::{LoggedEnd, RecoveredLog, continue_logged, drive_logged};
use run_journal::{InitialState, LogFile, Logs, WritingRoom};
use std::alloc::Global;

/// What `drive` with a log has come to.
#[derive(Drop)]
pub(crate) struct LoggedOutcome<R: Source, W: BufferedSink, D: Drop> {
    pub outcome: Answered,
    pub streams: Streams<R, W>,
    /// Whether a cell was driven, so that what couldn't be read is the input.
    pub driven: bool,
    /// The log that was opened or made, if one was.
    pub log: Option<D>,
}

/// Whether the run has ended.
fn is_done(end: Result<DriveEnd, DriveFault>) -> Result<bool, DriveFault>
    ensures { result ≡ end_of_drive end }
{
    match end {
        Ok(end) => Ok(end.done),
        Err(fault) => Err(fault),
    }
}

/// Whether the run that was recovered has ended.
fn is_rest_done(end: Result<RestEnd, DriveFault>) -> Result<bool, DriveFault>
    ensures { result ≡ end_of_rest end }
{
    match end {
        Ok(end) => Ok(end.done),
        Err(fault) => Err(fault),
    }
}

/// What is answered at the end of a run with a log, whose lines are written already.
fn logged_end(alloc: Global, done: Result<bool, DriveFault>, log_failed: bool) -> Answered
    ensures { IsLoggedAnswer log_failed done result }
{
    match done {
        Ok(done) => Ok(ended(alloc, done)),
        Err(fault) => Err(LogFault::from(LoggedFault { fault, log_failed }).0),
    }
}

/// Drives the cell of an accepted plan with a log that has the line of the plan alone.
fn drive_with<R: Source, W: BufferedSink + Drop, D: LogFile + Drop, B: InitialState>(
    alloc: Global,
    begun: Begun,
    room: WritingRoom,
    log: D,
    streams: Streams<R, W>,
    before: B,
) -> LoggedOutcome<R, W, D>
    requires ready { IsReady (D.seen log) (D.crash_states log) (D.fault log) }
    requires before { AreInitial B.before (D.seen log) streams.output.written }
    requires line { IfSome B.before (λ known. known.0 ≡ plan_line (digits_in begun.verified.planned)) }
    requires shown { streams.output.pending ≡ [] }
    ensures drove { StepsWith D.seen D.crash_states D.fault D.written B.before
        streams result.outcome result.streams result.driven result.log
        (DrivesWithLog begun.verified.planned [] (IsDriveIn begun.protocol begun.verified) end_of_drive) }
{
    let Streams { mut input, output } = streams;
    let LoggedEnd {
        end,
        log_failed,
        log,
        output,
    } = drive_logged(begun, room, &mut input, log, output, before);
    let outcome = logged_end(alloc, is_done(end), log_failed);
    LoggedOutcome {
        outcome,
        streams: Streams { input, output },
        driven: true,
        log: Some(log),
    }
}

/// Continues a run that was recovered from a log, whose events were replayed.
fn continue_with<R: Source, W: BufferedSink + Drop, D: LogFile + Drop, B: InitialState>(
    alloc: Global,
    run: Replayed,
    room: WritingRoom,
    protocol: Protocol,
    log: D,
    streams: Streams<R, W>,
    before: B,
) -> LoggedOutcome<R, W, D>
    requires ready { IsReady (D.seen log) (D.crash_states log) (D.fault log) }
    requires before { AreInitial B.before (D.seen log) streams.output.written }
    requires recoverable { IfSome B.before (λ known. IsRecoveredFromLog run known.0) }
    requires shown { streams.output.pending ≡ [] }
    ensures went_on { StepsWith D.seen D.crash_states D.fault D.written
        B.before streams result.outcome result.streams result.driven result.log
        (DrivesWithLog (plan_of run) (replayed_events run) (IsContinuedIn protocol run) end_of_rest) }
{
    let Streams { mut input, output } = streams;
    let LoggedEnd {
        end,
        log_failed,
        log,
        output,
    } = continue_logged(run, room, protocol, &mut input, log, output, before);
    let outcome = logged_end(alloc, is_rest_done(end), log_failed);
    LoggedOutcome {
        outcome,
        streams: Streams { input, output },
        driven: true,
        log: Some(log),
    }
}

/// Replays the events of a run that was recovered, and shows them.
fn show_again<W: BufferedSink>(
    recovered: RecoveredRun,
    protocol: Protocol,
    output: &mut W,
) -> Result<Replayed, DriveFault>
    ensures { ReplaysEvents protocol recovered (output_of W.Sink W.pending output.old)
        (output_of W.Sink W.pending output.new) result }
{
    match replay_in(recovered, protocol, output) {
        Ok(run) => match output.flush() {
            Ok(()) => Ok(run),
            Err(_) => {
                drop(run);
                Err(DriveFault::Write)
            }
        },
        Err(fault) => Err(fault),
    }
}

/// Replays the events of a run that was recovered, and goes on with it.
fn replay_and_continue<R: Source, W: BufferedSink + Drop, D: LogFile + Drop, B: InitialState>(
    alloc: Global,
    recovered: RecoveredLog,
    protocol: Protocol,
    log: D,
    streams: Streams<R, W>,
    before: B,
) -> LoggedOutcome<R, W, D>
    requires ready { IsReady (D.seen log) (D.crash_states log) (D.fault log) }
    requires seen { IfSome B.before (λ known. D.seen log ≡ Some known.0) }
    requires recoverable { IfSome B.before (λ known. IsRecoveredFromLog recovered.recovered known.0) }
    requires output { IfSome B.before
        (λ known. IsWrittenBehind streams.output.written (replay_text protocol recovered.recovered) known.1) }
    ensures went_on { StepsWith D.seen D.crash_states D.fault D.written B.before streams result.outcome result.streams
        result.driven result.log (GoesOnWithLog protocol recovered.recovered) }
{
    let RecoveredLog {
        recovered: run,
        room,
    } = recovered;
    let Streams { input, mut output } = streams;
    match show_again(run, protocol, &mut output) {
        Ok(run) => continue_with(
            alloc,
            run,
            room,
            protocol,
            log,
            Streams { input, output },
            before,
        ),
        Err(fault) => LoggedOutcome {
            outcome: Err(CommandFaultOf::from(fault).0),
            streams: Streams { input, output },
            driven: false,
            log: Some(log),
        },
    }
}

/// Drives a run that is ready.
fn drive_ready<R: Source, W: BufferedSink + Drop, D: LogFile + Drop, B: InitialState>(
    alloc: Global,
    ready: Ready<D>,
    streams: Streams<R, W>,
    before: B,
) -> LoggedOutcome<R, W, D>
    requires ready { IsReady (D.seen (log_of ready)) (D.crash_states (log_of ready)) (D.fault (log_of ready)) }
    requires before { IfSome B.before (HoldsBefore D.seen ready streams.output.written) }
    requires shown { streams.output.pending ≡ [] }
    ensures drove { StepsWith D.seen D.crash_states D.fault D.written B.before streams result.outcome result.streams
        result.driven result.log (DrivesReady ready) }
{
    match ready {
        Ready::Begin { begun, room, log } => drive_with(alloc, begun, room, log, streams, before),
        Ready::Continue {
            recovered,
            protocol,
            log,
        } => replay_and_continue(alloc, recovered, protocol, log, streams, before),
    }
}

/// Makes the run of a plan ready, with the log that is asked for, and drives it to the end of the input; why it isn't
/// ready is the answer.
pub(crate) fn logged_answer<T: Texts, R: Source, W: BufferedSink + Drop, L: Logs, B: InitialState>(
    alloc: Global,
    texts: &mut T,
    inputs: &InputPaths<'_>,
    asked: LogAsked<'_>,
    streams: Streams<R, W>,
    logs: &mut L,
    before: B,
) -> LoggedOutcome<R, W, L::Log>
    requires at_most { IfSome asked.at (λ present. present ≤ MAX_MOMENT) }
    requires shown { streams.output.pending ≡ [] }
    requires history { IfSome B.before (IsHistoryOfLog T.gives
        (L.folder logs.old) inputs.now asked.path.now asked.protocol asked.at texts.old streams.output.written) }
    ensures runs { StepsWith L.Log.seen L.Log.crash_states L.Log.fault L.Log.written B.before streams result.outcome
        result.streams result.driven result.log (λ step. RunsLoggedDrive T.gives
        (L.folder logs.old) (L.folder logs.new) asked.entry.path.now asked.entry.start asked.entry.protocol
        asked.entry.at inputs.now texts.old step texts.new) }
{
    match ready_run(alloc, texts, inputs, asked, logs) {
        Ok(ready) => drive_ready(alloc, ready, streams, before),
        Err(left) => LoggedOutcome {
            outcome: left.outcome,
            streams,
            driven: false,
            log: left.log,
        },
    }
}
