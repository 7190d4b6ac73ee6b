//! A run that was recovered and goes on, by any protocol.

ghost use Rattle.std.specs.Prelude.{◌≡◌, ◌≢◌, ◌≤◌, ◌∷◌, drop, length, vec_len, Err, IfOk, OnOk};
ghost use Rattle.byte_streams.specs.{declared.rooms.TheConstants.MAX_PIECE, Streams.IsStreamed};
ghost use Rattle.byte_streams.specs.Lent.{WroteTo, streams_of, sink_state};
ghost use Rattle.event_lines.specs.EventLines.{entry_lines};
ghost use Rattle.cell_drive.specs.{Recovered.AreAtStart, Recovered.plan_of, Resuming.due_text, Replay.replay_text};
ghost use Rattle.cell_drive.specs.Session.{IsRestEndOf, SessionAnswer, SessionCloses, SessionState};
ghost use Rattle.cell_drive.specs.InProtocol.{IsContinuedIn, IsResumeIn, IsReplayedIn};

use crate::protocol::Protocol;
use crate::recovery::{RecoveredRun, Replayed};
use crate::replay::put_replay_events;
use crate::session::Session;
use crate::v1_replay::put_v1_replay;
use byte_streams::{BufferedSink, DriveFault, Source, stream};
use cell_control::{Held, TourneyDues};
use cell_tables::{Entry, Tables, WorkCell};
use run_log::{RunLog, Sink, WriteFault, put_all, write_lines};
use shop_base::Moment;

/// What a run that was recovered has come to at the end of its input.
#[derive(Debug, Drop)]
pub struct RestEnd {
    /// Whether the run has ended: all jobs are gone, and no machine is being cleaned.
    pub done: bool,
    /// The moment of the last event, 0 before the first.
    pub last: Moment,
    /// How many reports are still to come.
    pub left: u64,
    /// What was accepted and ordered in the whole run.
    pub log: RunLog,
}

/// Writes once more, by this protocol, the events that the log of a run recorded. The tables are those of its cell at
/// its start.
fn put_replay_in<W: Sink>(
    run: &Replayed,
    start: Tables,
    protocol: Protocol,
    writer: &mut W,
) -> Result<(), WriteFault>
    requires { AreAtStart (plan_of run.now) start }
    ensures wrote { WroteTo W.Sink result writer.old writer.new (replay_text protocol run.now) }
    ensures unfailed { OnOk result (W.failed writer.new ≡ W.failed writer.old) }
{
    let entries = &run.log.entries()[..run.late.len()];
    if protocol.version_2 {
        let cell = WorkCell::of_parts(run.controller.shaped(), start);
        put_replay_events(protocol, cell, entries, &run.late, writer)
    } else {
        put_v1_replay(entries, &run.late, writer)
    }
}

/// Writes once more, by this protocol, the events that the log of a run recorded, each report that was late with the
/// line that it was. In version 2 that line also says what was overdue as the report came.
pub fn replay_in<W: Sink>(
    recovered: RecoveredRun,
    protocol: Protocol,
    writer: &mut W,
) -> Result<Replayed, DriveFault>
    ensures replayed { IsReplayedIn protocol recovered (sink_state W.Sink writer.old)
        (sink_state W.Sink writer.new) result }
    ensures run { IfOk result (λ run. run ≡ recovered) }
{
    let RecoveredRun { run, start } = recovered;
    match put_replay_in(&run, start, protocol, writer) {
        Ok(()) => Ok(run),
        Err(_) => {
            drop(run);
            Err(DriveFault::Write)
        }
    }
}

/// Writes an empty line, and the events behind so many.
fn put_others<W: Sink>(entries: &[Entry], replayed: usize, writer: &mut W) -> Result<(), WriteFault>
    requires { replayed ≤ length entries.now }
    ensures wrote { WroteTo W.Sink result writer.old writer.new (10 ∷ entry_lines (drop replayed entries.now)) }
    ensures unfailed { OnOk result (W.failed writer.new ≡ W.failed writer.old) }
{
    put_all(writer, b"\n")?;
    write_lines(&entries[replayed..], writer)
}

/// Writes an empty line, the mark, and the orders that are due.
fn put_due<W: Sink>(run: &Replayed, writer: &mut W) -> Result<(), WriteFault>
    ensures wrote { WroteTo W.Sink result writer.old writer.new (due_text run.now) }
    ensures unfailed { OnOk result (W.failed writer.new ≡ W.failed writer.old) }
{
    put_others(run.log.entries(), run.late.len(), writer)
}

/// What the run has come to.
fn end(session: Session<Held, TourneyDues>) -> RestEnd
    ensures { IsRestEndOf session.control.planned session result }
{
    let Session {
        protocol: _,
        controller,
        log,
    } = session;
    let (done, last, left) = (
        controller.is_done(),
        controller.now(),
        controller.reports_left(),
    );
    drop(controller);
    RestEnd {
        done,
        last,
        left,
        log,
    }
}

/// Drives the session on to the end of its input.
fn drive_on<R: Source, W: BufferedSink>(
    session: Session<Held, TourneyDues>,
    room: Vec<u8>,
    reader: &mut R,
    writer: &mut W,
) -> Result<RestEnd, DriveFault>
    requires { vec_len room ≡ MAX_PIECE }
    ensures { (last : SessionState)
        × IsStreamed result MAX_PIECE SessionAnswer SessionCloses session last
        (streams_of R.Source W.Sink W.pending reader.old writer.old)
        (streams_of R.Source W.Sink W.pending reader.new writer.new)
        × IfOk result (IsRestEndOf session.control.planned last) }
{
    let (mut session, mut room) = (session, room);
    match stream(&mut session, reader, &mut room, writer) {
        Ok(()) => Ok(end(session)),
        Err(fault) => {
            drop(session);
            Err(fault)
        }
    }
}

/// Continues a run that was recovered, and whose events were written again, by this protocol: writes an empty line,
/// the mark, and the orders that are due, and then drives the run on as [`crate::drive_in`] does.
///
/// `Memory` is never answered. A closing line is written only where nothing has failed before it.
pub fn continue_in<R: Source, W: BufferedSink>(
    run: Replayed,
    protocol: Protocol,
    reader: &mut R,
    writer: &mut W,
) -> Result<RestEnd, DriveFault>
    ensures { IsContinuedIn protocol run (streams_of R.Source W.Sink W.pending reader.old writer.old)
        (streams_of R.Source W.Sink W.pending reader.new writer.new) result }
{
    let Ok(()) = put_due(&run, writer) else {
        drop(run);
        return Err(DriveFault::Write);
    };
    let Replayed {
        controller,
        log,
        late: _,
        room,
    } = run;
    let session = Session {
        protocol,
        controller,
        log,
    };
    drive_on(session, room, reader, writer)
}

/// Continues a run that was recovered by this protocol: writes its events again as [`replay_in`] does, and then
/// continues it as [`continue_in`] does. What is written is by itself a log of the whole run.
///
/// `Memory` is never answered.
pub fn resume_in<R: Source, W: BufferedSink>(
    recovered: RecoveredRun,
    protocol: Protocol,
    reader: &mut R,
    writer: &mut W,
) -> Result<RestEnd, DriveFault>
    ensures resumed { IsResumeIn protocol recovered (streams_of R.Source W.Sink W.pending reader.old writer.old)
        (streams_of R.Source W.Sink W.pending reader.new writer.new) result }
    ensures memory { result ≢ Err DriveFault.Memory }
{
    match replay_in(recovered, protocol, writer) {
        Ok(run) => continue_in(run, protocol, reader, writer),
        Err(fault) => Err(fault),
    }
}
