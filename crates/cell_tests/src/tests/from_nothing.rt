//! Runs with a log and an output whose bytes are known, so that what is said of these is asked for, and used.

ghost use Rattle.std.specs.Prelude.{◌≡◌, [], None, Some, true, false, IfOk};
ghost use Rattle.run_journal.specs.LogFiles.{IsDurable};
ghost use Rattle.logged_drive.specs.LoggedRuns.{IsAllInLog, KeepsShown};
ghost use Rattle.cell_tests.specs.Memory.{CrashStates};
ghost use Rattle.cell_tests.specs.Shown.{HasWhatIsShown};

use super::memory_log::MemoryLog;
use byte_streams::{Buffered, BufferedSink, FromRead, IntoSink, Sink};
use cell_drive::{Begun, DriveEnd, Protocol, Replayed, RestEnd, begin_in, recover, replay_in};
use logged_drive::{LoggedEnd, continue_logged, drive_logged};
use plan_verifier::Verified;
use run_journal::{FileFault, InitialState, LogFile, WritingRoom, read_log};
use shop_base::Shaped;
use std::alloc::Global;

/// Neither the log nor the output had a whole line.
#[derive(Drop)]
struct NothingYet;

impl InitialState for NothingYet {
    ghost use Rattle.std.specs.Prelude.{[], Some};

    ghost before = { Some ([], []) };
}

/// Drives a cell by these lines, with a log and an output that have no bytes.
fn drive_from_nothing(
    begun: Begun,
    room: WritingRoom,
    lines: &[u8],
    log: MemoryLog,
    output: Buffered<Vec<u8>>,
) -> LoggedEnd<DriveEnd, Buffered<Vec<u8>>, MemoryLog>
    requires log { (log.seen ≡ []) × (log.synced ≡ true) × (log.fault ≡ None) }
    requires output { ⟦<Buffered<Vec<u8>> as Sink>⟧.written output ≡ Some [] }
    requires shown { ⟦<Buffered<Vec<u8>> as BufferedSink>⟧.pending output ≡ [] }
    ensures crash { KeepsShown [] [] (CrashStates result.log) (⟦<Buffered<Vec<u8>> as Sink>⟧.written result.output) }
    ensures in_log { IfOk result.end (λ _. IsAllInLog [] [] (Some result.log.seen) (CrashStates result.log)
        (⟦<Buffered<Vec<u8>> as Sink>⟧.written result.output)) }
{
    let mut reader = FromRead::new(lines);
    drive_logged(begun, room, &mut reader, log, output, NothingYet)
}

/// Continues a run that was recovered from a log without a whole line, with an output that has no bytes.
fn continue_from_nothing(
    run: Replayed,
    room: WritingRoom,
    protocol: Protocol,
    lines: &[u8],
    log: MemoryLog,
    output: Buffered<Vec<u8>>,
) -> LoggedEnd<RestEnd, Buffered<Vec<u8>>, MemoryLog>
    requires log { (log.seen ≡ []) × IsDurable (Some log.seen) (CrashStates log) × (log.fault ≡ None) }
    requires output { ⟦<Buffered<Vec<u8>> as Sink>⟧.written output ≡ Some [] }
    requires shown { ⟦<Buffered<Vec<u8>> as BufferedSink>⟧.pending output ≡ [] }
    ensures crash { KeepsShown [] [] (CrashStates result.log) (⟦<Buffered<Vec<u8>> as Sink>⟧.written result.output) }
    ensures in_log { IfOk result.end (λ _. IsAllInLog [] [] (Some result.log.seen) (CrashStates result.log)
        (⟦<Buffered<Vec<u8>> as Sink>⟧.written result.output)) }
{
    let mut reader = FromRead::new(lines);
    continue_logged(run, room, protocol, &mut reader, log, output, NothingYet)
}

/// What the log and the output have, once all is shown.
fn both_at_end(
    alloc: Global,
    log: MemoryLog,
    output: Buffered<Vec<u8>>,
) -> Result<(Vec<u8>, Vec<u8>), FileFault>
    requires { IsAllInLog [] [] (Some log.seen) (CrashStates log) (⟦<Buffered<Vec<u8>> as Sink>⟧.written output) }
    ensures { IfOk result (λ both. HasWhatIsShown [] [] both.0.items both.1.items) }
{
    let (mut log, mut output) = (log, output);
    if output.flush().is_err() {
        drop(log);
        drop(output);
        return Err(FileFault::Log);
    }
    let bytes = log.read(alloc, 1000);
    drop(log);
    let text = output.into_inner();
    Ok((bytes?, text))
}

/// What the log and the output have after a run of these lines from its start.
pub(super) fn driven_from_nothing(
    alloc: Global,
    verified: Verified,
    protocol: Protocol,
    lines: &[u8],
) -> Result<(Vec<u8>, Vec<u8>), FileFault>
    ensures { IfOk result (λ both. HasWhatIsShown [] [] both.0.items both.1.items) }
{
    let Ok(begun) = begin_in(alloc, verified, protocol) else {
        return Err(FileFault::Memory);
    };
    let Ok(output) = Buffered::new(alloc, 16, Vec::new(alloc)) else {
        drop(begun);
        return Err(FileFault::Memory);
    };
    let Ok(room) = WritingRoom::new(alloc) else {
        drop(begun);
        drop(output);
        return Err(FileFault::Memory);
    };
    let log = MemoryLog::new(Vec::new(alloc), 1000, 0);
    let run = drive_from_nothing(begun, room, lines, log, output);
    match run.end {
        Ok(_) => both_at_end(alloc, run.log, run.output),
        Err(_) => Err(FileFault::Log),
    }
}

/// What they have after a run of these lines that is recovered from a log without bytes.
pub(super) fn gone_on_from_nothing(
    alloc: Global,
    shaped: Shaped,
    protocol: Protocol,
    lines: &[u8],
) -> Result<(Vec<u8>, Vec<u8>), FileFault>
    ensures { IfOk result (λ both. HasWhatIsShown [] [] both.0.items both.1.items) }
{
    let mut log = MemoryLog::new(Vec::new(alloc), 1000, 0);
    let text = match read_log(alloc, &mut log) {
        Ok(text) => text,
        Err(fault) => {
            drop(shaped);
            return Err(fault);
        }
    };
    let recovery = recover(alloc, shaped, text.lines(), None);
    drop(text);
    let Ok(recovered) = recovery else {
        return Err(FileFault::Log);
    };
    let Ok(output) = Buffered::new(alloc, 16, Vec::new(alloc)) else {
        drop(recovered);
        return Err(FileFault::Memory);
    };
    let Ok(room) = WritingRoom::new(alloc) else {
        drop(recovered);
        drop(output);
        return Err(FileFault::Memory);
    };
    // There is nothing to be written again.
    let Ok(recovered) = replay_in(recovered, protocol, &mut IntoSink::new(Vec::new(alloc))) else {
        return Err(FileFault::Log);
    };
    let run = continue_from_nothing(recovered, room, protocol, lines, log, output);
    match run.end {
        Ok(_) => both_at_end(alloc, run.log, run.output),
        Err(_) => Err(FileFault::Log),
    }
}
