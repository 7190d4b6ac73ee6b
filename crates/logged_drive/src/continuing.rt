//! A run with a log that goes on.

ghost use Rattle.std.specs.Prelude.{◌≡◌, ◌≢◌, ℕ, [], Option, None, Some, true, false, Err, IfOk, IfSome};
ghost use Rattle.shop_base.specs.Plan.{PlannedShop};
ghost use Rattle.text_lines.specs.Lines.{ended_lines};
ghost use Rattle.byte_streams.specs.Lent.{input_of, output_of};
ghost use Rattle.cell_drive.specs.{Recovered.IsRecovered, Recovered.replayed_events, InProtocol.IsContinuedIn};
ghost use Rattle.run_journal.specs.{LogFiles.IsDurable, WholeLines.whole_lines, Logged.AreInitial, Logged.fault_if};
ghost use Rattle.logged_drive.specs.CrashLaw.{IsRecoveredAfter};
ghost use Rattle.logged_drive.specs.LoggedRuns.{IsAllInLog, KeepsShown, RunsLogged};

use crate::logged_run::LoggedEnd;
use byte_streams::{BufferedSink, DriveFault, Source};
use cell_drive::{Protocol, Replayed, RestEnd, continue_in};
use run_journal::laws::a_crash_keeps_what_was_shown;
use run_journal::{InitialState, LogFile, Logged, WritingRoom};

/// Continues a run that was recovered, and whose events were written again, as [`continue_in`] does, with its log. The
/// mark, the orders that are due and the answers are put into it as far as a log gets them, and onto the disk, before
/// any of it is shown.
///
/// `Memory` is never answered. The log and the output are given back, whatever comes.
pub fn continue_logged<R: Source, W: BufferedSink + Drop, D: LogFile + Drop, B: InitialState>(
    run: Replayed,
    room: WritingRoom,
    protocol: Protocol,
    reader: &mut R,
    log: D,
    output: W,
    before: B,
) -> LoggedEnd<RestEnd, W, D>
    requires durable { IsDurable (D.seen log) (D.crash_states log) }
    requires before { AreInitial B.before (D.seen log) (W.written output) }
    requires whole { IfSome B.before (λ known. whole_lines known.0 ≡ known.0) }
    requires shown { W.pending output ≡ [] }
    requires unfailed { D.fault log ≡ None }
    ensures went_on { RunsLogged (IsContinuedIn protocol run) B.before (input_of R.Source reader.old)
        (W.written output) result.end result.log_failed (input_of R.Source reader.new) (D.seen result.log)
        (D.crash_states result.log) (output_of W.Sink W.pending result.output) }

    // Whatever came of it, a crash leaves all that was shown.
    ensures crash { IfSome B.before
        (λ known. KeepsShown known.0 known.1 (D.crash_states result.log) (W.written result.output)) }

    // From whatever it leaves of the log by which the run was recovered it is recovered again, with all events that
    // were shown.
    ensures recoverable { IfSome B.before
        (λ known. (p : PlannedShop) (at : Option ℕ) → IsRecovered p (ended_lines known.0) at run
        → IsRecoveredAfter p (replayed_events run) known.1 (D.crash_states result.log) (W.written result.output)) }

    // At the end of the input all of it is in the log.
    ensures in_log { IfOk result.end (λ _. IfSome B.before (λ known.
        IsAllInLog known.0 known.1 (D.seen result.log) (D.crash_states result.log) (W.written result.output))) }

    // Whether it was the log that failed. Where it wasn't, and a write failed, it was the output.
    ensures log_fault { D.fault result.log ≡ fault_if result.log_failed }
    ensures output_failed { result.end ≡ Err DriveFault.Write → result.log_failed ≡ false
        → W.failed result.output ≡ true }

    // All memory was had before.
    ensures memory { result.end ≢ Err DriveFault.Memory }
{
    // Called for its clause alone.
    a_crash_keeps_what_was_shown();
    let mut writer = Logged::new(room, log, output, before);
    let end = continue_in(run, protocol, reader, &mut writer);
    let log_failed = writer.has_log_failed();
    let (log, output) = writer.into_parts();
    LoggedEnd {
        end,
        log_failed,
        log,
        output,
    }
}
