//! A run with a log, from its start to the end of its input.

ghost use Rattle.std.specs.Prelude.{◌≡◌, ◌≢◌, [], None, Some, true, false, Err, IfOk, IfSome};
ghost use Rattle.text_lines.specs.Lines.{ended_lines};
ghost use Rattle.plan_verifier.specs.Accepted.{IsVerified};
ghost use Rattle.byte_streams.specs.Lent.{input_of, output_of};
ghost use Rattle.event_lines.specs.LogLines.{LinesParse};
ghost use Rattle.cell_drive.specs.InProtocol.{IsDriveIn};
ghost use Rattle.run_journal.specs.{LogFiles.IsDurable, WholeLines.whole_lines, Logged.AreInitial, Logged.fault_if};
ghost use Rattle.logged_drive.specs.CrashLaw.{IsRecoveredAfter};
ghost use Rattle.logged_drive.specs.LoggedRuns.{IsAllInLog, KeepsShown, RunsLogged};

use byte_streams::{BufferedSink, DriveFault, Source};
use cell_drive::{Begun, DriveEnd, drive_begun};
use run_journal::laws::a_crash_keeps_what_was_shown;
use run_journal::{InitialState, LogFile, Logged, WritingRoom};

/// What became of a run with a log.
#[derive(Drop)]
pub struct LoggedEnd<T: Drop, W: Drop, D: Drop> {
    /// What the run has come to.
    pub end: Result<T, DriveFault>,
    /// Whether it was the log that failed, where a write did.
    pub log_failed: bool,
    /// The log.
    pub log: D,
    /// The output.
    pub output: W,
}

/// Says that the plan of a cell that is to be driven is an accepted one.
fn is_of_accepted_plan(begun: &Begun)
    ensures { IsVerified begun.now.verified }
{
    let _verified = begun.verified();
}

/// Drives the cell of an accepted plan, as [`drive_begun`] does, with a log that is on the disk. What a log gets of the
/// answers is put into it, and onto the disk, before any of it is shown; once that has failed nothing more is shown.
///
/// `Memory` is never answered. The log and the output are given back, whatever comes.
pub fn drive_logged<R: Source, W: BufferedSink + Drop, D: LogFile + Drop, B: InitialState>(
    begun: Begun,
    room: WritingRoom,
    reader: &mut R,
    log: D,
    output: W,
    before: B,
) -> LoggedEnd<DriveEnd, W, D>
    requires durable { IsDurable (D.seen log) (D.crash_states log) }
    requires before { AreInitial B.before (D.seen log) (W.written output) }
    requires whole { IfSome B.before (λ known. whole_lines known.0 ≡ known.0) }
    requires shown { W.pending output ≡ [] }
    requires unfailed { D.fault log ≡ None }
    ensures drove { RunsLogged (IsDriveIn begun.protocol begun.verified) B.before (input_of R.Source reader.old)
        (W.written output) result.end result.log_failed (input_of R.Source reader.new) (D.seen result.log)
        (D.crash_states result.log) (output_of W.Sink W.pending result.output) }

    // Whatever came of it, a crash leaves all that was shown.
    ensures crash { IfSome B.before
        (λ known. KeepsShown known.0 known.1 (D.crash_states result.log) (W.written result.output)) }

    // From whatever it leaves of a log that recorded no event the run is recovered by the same plan, with all events
    // that were shown.
    ensures recoverable { IfSome B.before (λ known. LinesParse begun.verified.planned (ended_lines known.0) []
        → IsRecoveredAfter begun.verified.planned [] known.1 (D.crash_states result.log) (W.written result.output)) }

    // At the end of the input all of it is in the log.
    ensures in_log { IfOk result.end (λ _. IfSome B.before (λ known.
        IsAllInLog known.0 known.1 (D.seen result.log) (D.crash_states result.log) (W.written result.output))) }

    // Whether it was the log that failed. Where it wasn't, and a write failed, it was the output.
    ensures log_fault { D.fault result.log ≡ fault_if result.log_failed }
    ensures output_failed { result.end ≡ Err DriveFault.Write → result.log_failed ≡ false
        → W.failed result.output ≡ true }

    // All memory was had before.
    ensures memory { result.end ≢ Err DriveFault.Memory }
{
    // Called for their clauses alone.
    a_crash_keeps_what_was_shown();
    is_of_accepted_plan(&begun);
    let mut writer = Logged::new(room, log, output, before);
    let end = drive_begun(begun, reader, &mut writer);
    let log_failed = writer.has_log_failed();
    let (log, output) = writer.into_parts();
    LoggedEnd {
        end,
        log_failed,
        log,
        output,
    }
}
