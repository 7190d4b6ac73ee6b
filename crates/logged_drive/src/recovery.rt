//! The recovery of a run from its log file.

ghost use Rattle.std.specs.Prelude.{◌≡◌, ◌≤◌, List, ℕ, length, true, false, None, Some, IfOk, IfErr, IfSome, OnOk};
ghost use Rattle.shop_base.specs.declared.limits.TheConstants.{MAX_MOMENT};
ghost use Rattle.text_lines.specs.Lines.{ended_lines, lines_of};
ghost use Rattle.cell_drive.specs.Recovered.{IsRecoverable, IsRecovered};
ghost use Rattle.event_lines.specs.RunDigits.{AreDigits};
ghost use Rattle.run_journal.specs.{LogFiles.HasFailed, LogFiles.IsDurable, LogRuns.IsNamedFor, LogRuns.IsNamedOrNot};
ghost use Rattle.run_journal.specs.{TornEnds.is_torn, WholeLines.torn_end, WholeLines.whole_lines};
ghost use Rattle.logged_drive.specs.RecoveredLogs.{IsOfDevice, IsOfText, IsOnlyRecoverFault, IsRecoverFault};
ghost use Rattle.logged_drive.specs.RecoveredLogs.{file_fault, out_of_memory};

use crate::recovered_log::{RecoverFault, RecoveredLog};
use cell_drive::{RecoveredRun, ResumeFault, recover};
use event_lines::RunDigits;
use run_journal::{FileFault, LogFile, LogText, WritingRoom, cut_end, is_torn_end, name_plan};
use run_log::RunFault;
use shop_base::{Moment, Shaped};
use std::alloc::Global;
use text_lines::line_count;

/// The fault of an end that a crash can't have left.
fn no_torn_end(text: &LogText) -> RecoverFault
    ensures { result ≡ RecoverFault.NoTornEnd (length (lines_of (whole_lines text.now))) }
{
    RecoverFault::NoTornEnd {
        lines: line_count(text.lines()),
    }
}

/// Recovers the run that the whole lines record, if a crash can have left what comes after them.
fn recover_text(
    alloc: Global,
    shaped: Shaped,
    text: &LogText,
    at: Option<Moment>,
) -> Result<RecoveredRun, RecoverFault>
    requires { IfSome at (λ present. present ≤ MAX_MOMENT) }
    ensures recovered { IfOk result (IsRecovered shaped (ended_lines (whole_lines text.now)) at) }
    ensures torn { OnOk result (is_torn (torn_end text.now) ≡ true) }
    ensures fault { IfErr result (IsRecoverFault shaped text.now at) }
    ensures only_fault { IfErr result (IsOnlyRecoverFault shaped (ended_lines (whole_lines text.now))) }
    ensures of_text { IfErr result IsOfText }
    ensures only { IsRecoverable shaped (ended_lines (whole_lines text.now)) at → is_torn (torn_end text.now) ≡ true
        → IfErr result IsOfDevice }
{
    let torn = is_torn_end(text.end());
    match recover(alloc, shaped, text.lines(), at) {
        Ok(recovered) => {
            if torn {
                Ok(recovered)
            } else {
                drop(recovered);
                Err(no_torn_end(text))
            }
        }
        Err(fault @ ResumeFault::Run(RunFault::Log(_))) => Err(RecoverFault::Resume(fault)),
        Err(fault @ ResumeFault::Memory) => Err(RecoverFault::Resume(fault)),
        Err(fault @ ResumeFault::Run(RunFault::Present(_))) => {
            if torn {
                Err(RecoverFault::Resume(fault))
            } else {
                Err(no_torn_end(text))
            }
        }
        Err(ResumeFault::Refused(back, why)) => {
            if torn {
                Err(RecoverFault::Resume(ResumeFault::Refused(back, why)))
            } else {
                drop(back);
                drop(why);
                Err(no_torn_end(text))
            }
        }
    }
}

/// What was recovered, with the room of the writer that goes on with its log.
fn with_room<T: Drop>(alloc: Global, recovered: T) -> Result<(T, WritingRoom), RecoverFault>
    ensures recovered { IfOk result (λ both. both.0 ≡ recovered) }
    ensures memory { IfErr result (λ fault. fault ≡ out_of_memory) }
{
    let room = WritingRoom::new(alloc)?;
    Ok((recovered, room))
}

/// Cuts off the torn end of a log that was read, and puts the line of the plan behind its whole lines, unless it is
/// their last line of a plan.
fn cut_and_name<D: LogFile>(
    log: &mut D,
    text: &LogText,
    digits: &RunDigits,
) -> Result<(), FileFault>
    requires digits { AreDigits digits.now }
    requires read { IfSome (D.seen log.old) (λ file. text.now ≡ file) }
    requires durable { IsDurable (D.seen log.old) (D.crash_states log.old) }
    requires unfailed { D.fault log.old ≡ None }
    ensures named { OnOk result (IfSome (D.seen log.old)
        (λ file. (base : List ℕ) × IsNamedFor digits.now (whole_lines file) base × (D.seen log.new ≡ Some base))) }
    ensures durable { OnOk result (IsDurable (D.seen log.new) (D.crash_states log.new)) }
    ensures unfailed { OnOk result (D.fault log.new ≡ None) }
    ensures failed { IfErr result (HasFailed (D.fault log.new)) }
    ensures crash { IfSome (D.seen log.old) (λ file.
        (left : List ℕ) → D.crash_states log.new left → IsNamedOrNot digits.now (whole_lines file) (whole_lines left)) }
    ensures torn_again { IfSome (D.seen log.old) (λ file. is_torn (torn_end file) ≡ true → (left : List ℕ)
        → D.crash_states log.new left → is_torn (torn_end left) ≡ true) }
{
    cut_end(log, text)?;
    name_plan(log, text, digits)
}

/// Recovers the run in a log that was read, cuts off its torn end, and puts the line of the plan, which has these
/// digits, behind its whole lines, unless it is their last line of a plan. All the memory with which the run goes on is
/// allocated first: where it runs out, as where the log's text is at fault, the log stays as it is.
pub fn recover_log<D: LogFile>(
    alloc: Global,
    shaped: Shaped,
    log: &mut D,
    text: &LogText,
    at: Option<Moment>,
    digits: &RunDigits,
) -> Result<RecoveredLog, RecoverFault>
    requires at_most { IfSome at (λ present. present ≤ MAX_MOMENT) }
    requires durable { IsDurable (D.seen log.old) (D.crash_states log.old) }
    requires unfailed { D.fault log.old ≡ None }
    requires read { IfSome (D.seen log.old) (λ file. text.now ≡ file) }
    requires digits { AreDigits digits.now }
    ensures recovered { IfOk result
        (λ ready. IsRecovered shaped (ended_lines (whole_lines text.now)) at ready.recovered) }
    ensures torn { OnOk result (is_torn (torn_end text.now) ≡ true) }
    ensures fault { IfErr result (IsRecoverFault shaped text.now at) }
    ensures only_fault { IfErr result (IsOnlyRecoverFault shaped (ended_lines (whole_lines text.now))) }
    ensures only { IsRecoverable shaped (ended_lines (whole_lines text.now)) at → is_torn (torn_end text.now) ≡ true
        → IfErr result IsOfDevice }
    ensures untouched { IfErr result (λ fault. IsOfText fault → log.new ≡ log.old) }
    ensures named { OnOk result (IfSome (D.seen log.old)
        (λ file. (base : List ℕ) × IsNamedFor digits.now (whole_lines file) base × (D.seen log.new ≡ Some base))) }
    ensures durable { OnOk result (IsDurable (D.seen log.new) (D.crash_states log.new)) }
    ensures unfailed { OnOk result (D.fault log.new ≡ None) }
    ensures known { IfErr result (λ fault. D.fault log.new ≡ file_fault fault) }

    // A crash at any moment leaves the same whole lines, with that of the plan or without, and behind them of a torn
    // end a torn end again.
    ensures crash { IfSome (D.seen log.old) (λ file.
        (left : List ℕ) → D.crash_states log.new left → IsNamedOrNot digits.now (whole_lines file) (whole_lines left)) }
    ensures torn_again { IfSome (D.seen log.old) (λ file. is_torn (torn_end file) ≡ true → (left : List ℕ)
        → D.crash_states log.new left → is_torn (torn_end left) ≡ true) }
{
    let recovered = recover_text(alloc, shaped, text, at)?;
    let (recovered, room) = with_room(alloc, recovered)?;
    match cut_and_name(log, text, digits) {
        Ok(()) => Ok(RecoveredLog { recovered, room }),
        Err(fault) => {
            drop(recovered);
            drop(room);
            Err(RecoverFault::File(fault))
        }
    }
}
