//! What has to be ready before a cell is driven with a log: the plan, the log on the disk, and all memory.

ghost use Rattle.std.specs.Prelude.{◌≡◌, ◌≤◌, ◌⊎◌, length, is_some, option_map, Some, false, IfOk, IfSome};
ghost use Rattle.shop_base.specs.declared.limits.TheConstants.{MAX_MOMENT};
ghost use Rattle.text_lines.specs.declared.limits.TheConstants.{MAX_INPUT};
ghost use Rattle.text_lines.specs.Lines.{lines_of};
ghost use Rattle.plan_verifier.specs.Seen.{judged};
ghost use Rattle.cell_drive.specs.InProtocol.{begun_in};
ghost use Rattle.run_journal.specs.LogRuns.{IsLogRunOf};
ghost use Rattle.run_journal.specs.WholeLines.{whole_lines};
ghost use Rattle.command_run.specs.Logs.{Begins, BeginsAccepted, BeginsBy, BeginsRun, DrivesByLog};
ghost use Rattle.command_run.specs.Logs.{DrivesFitting, DrivesFound, HasFewLines, IsEmptyLog, IsFoundLog};
ghost use Rattle.command_run.specs.Logs.{IsHistoryOfFound, IsHistoryOfLog, IsHistoryOfNew, IsHistoryOfOld};
ghost use Rattle.command_run.specs.Logs.{IsHistoryOfPath, IsLogFaultPrinted, IsReady, LacksLog, OpensLog};
ghost use Rattle.command_run.specs.Logs.{RecoversRun, bytes_in, digits_in};
ghost use Rattle.command_run.specs.Readiness.{IsReadied};
ghost use Rattle.command_run.specs.Program.{RunsLoggedDrive};

use crate::drives::line_answer;
use crate::log_faults::LogFault;
use crate::misfits::{misfit_answer, misfit_of};
use crate::resumes::unrecovered_answer;
use cell_drive::{Begun, Protocol, begin_in};
use command_answers::{
    Answered, CommandFault, InputPaths, Loaded, Texts, log_fault_answer, shape_files,
};
use command_words::LogStart;
use event_lines::RunDigits;
use logged_drive::{RecoverFault, RecoveredLog, recover_log};
use plan_verifier::{Verdict, Verified, verify};
use run_journal::{LogFile, LogRun, LogText, Logs, WritingRoom, new_log, open_log};
use run_log::{AuditFault, run_digits};
use shop_base::{Moment, Shaped};
use std::alloc::{AllocError, Global};

/// What the words ask of a log: its path, how it has to be found, and in which protocol and from which moment its cell
/// is driven.
#[derive(Clone, Copy)]
pub(crate) struct LogAsked<'a> {
    pub path: &'a str,
    pub start: LogStart,
    pub protocol: Protocol,
    pub at: Option<Moment>,
}

/// A run with a log that is ready to be driven: its log is on the disk, and all its memory is had.
#[derive(Drop)]
pub(crate) enum Ready<D> {
    /// It begins, with a log that has the line of the plan alone.
    Begin {
        begun: Begun,
        room: WritingRoom,
        log: D,
    },
    /// It goes on as it was recovered from the log.
    Continue {
        recovered: RecoveredLog,
        protocol: Protocol,
        log: D,
    },
}

/// What there is in place of a run: what is answered, and the log that was opened or made, if one was.
#[derive(Drop)]
pub(crate) struct Undriven<D> {
    pub outcome: Answered,
    pub log: Option<D>,
}

/// A run that is ready, or why none is.
type Readied<D> = Result<Ready<D>, Undriven<D>>;

/// What is answered where no run is recovered from a log.
fn unrecovered_log_answer(alloc: Global, fault: RecoverFault) -> Answered
    requires { HasFewLines fault }
    ensures { IsLogFaultPrinted fault result }
{
    match fault {
        RecoverFault::Resume(fault) => unrecovered_answer(alloc, fault),
        RecoverFault::NoTornEnd { lines } => {
            log_fault_answer(alloc, AuditFault::BadLine { line: lines + 1 })
        }
        RecoverFault::File(fault) => Err(LogFault::from(fault).0),
    }
}

/// Recovers the run in a log that has bytes, by the plan with these digits.
fn ready_recovered<D: LogFile + Drop>(
    alloc: Global,
    shaped: Shaped,
    digits: &RunDigits,
    asked: LogAsked<'_>,
    log: D,
    text: &LogText,
) -> Readied<D>
    requires digits { digits.now ≡ digits_in shaped }
    requires at_most { IfSome asked.at (λ present. present ≤ MAX_MOMENT) }
    requires ready { IsReady (D.seen log) (D.crash_states log) (D.fault log) }
    requires unwritten { D.written log ≡ false }
    requires read { IfSome (D.seen log) (λ file. text.now ≡ file) }
    requires within { length text.now ≤ MAX_INPUT }
    ensures { IsReadied D.seen D.crash_states D.fault D.written (λ output known. (D.seen log ≡ Some text.now)
        × IsHistoryOfOld shaped asked.entry.protocol asked.entry.at text.now output known)
        (RecoversRun shaped asked.entry.protocol asked.entry.at text.now) result }
{
    let mut log = log;
    match recover_log(alloc, shaped, &mut log, text, asked.at, digits) {
        Ok(recovered) => Ok(Ready::Continue {
            recovered,
            protocol: asked.protocol,
            log,
        }),
        Err(fault) => Err(Undriven {
            outcome: unrecovered_log_answer(alloc, fault),
            log: Some(log),
        }),
    }
}

/// Gives the log of this path, which has no bytes, the line of the plan: the one that was opened, or one that is made.
fn ready_begun<L: Logs>(
    begun: Begun,
    room: WritingRoom,
    digits: &RunDigits,
    path: &str,
    opened: Option<L::Log>,
    logs: &mut L,
) -> Readied<L::Log>
    requires digits { digits.now ≡ digits_in begun.verified.planned }
    requires empty { IfSome opened (λ log. IsEmptyLog (L.Log.seen log) (L.Log.crash_states log) (L.Log.fault log)
        (L.Log.written log) (L.folder logs.old)) }
    ensures { IsReadied L.Log.seen L.Log.crash_states L.Log.fault L.Log.written
        (IsHistoryOfNew (L.folder logs.old) begun.verified.planned)
        (λ step. LacksLog (L.folder logs.old) (L.folder logs.new) path.now begun.verified.planned (is_some opened) step
        ⊎ BeginsRun (L.folder logs.old) (L.folder logs.new) path.now begun.protocol
        (is_some opened) begun.verified step) result }
{
    match new_log(logs, path, opened, digits) {
        Ok(log) => Ok(Ready::Begin { begun, room, log }),
        Err(back) => {
            drop(begun);
            drop(room);
            Err(Undriven {
                outcome: Err(LogFault::from(back.fault).0),
                log: back.log,
            })
        }
    }
}

/// All memory of a run that begins with a log.
fn begun_with_room(
    alloc: Global,
    verified: Verified,
    protocol: Protocol,
) -> Result<(Begun, WritingRoom), AllocError>
    ensures { IfOk result (λ both. both.0 ≡ begun_in protocol verified) }
{
    let begun = begin_in(alloc, verified, protocol)?;
    match WritingRoom::new(alloc) {
        Ok(room) => Ok((begun, room)),
        Err(error) => {
            drop(begun);
            Err(error)
        }
    }
}

/// Takes all memory of a run by an accepted plan, and then the log, which has no bytes.
fn ready_accepted<L: Logs>(
    alloc: Global,
    verified: Verified,
    digits: &RunDigits,
    asked: LogAsked<'_>,
    opened: Option<L::Log>,
    logs: &mut L,
) -> Readied<L::Log>
    requires digits { digits.now ≡ digits_in verified.planned }
    requires empty { IfSome opened (λ log. IsEmptyLog (L.Log.seen log) (L.Log.crash_states log) (L.Log.fault log)
        (L.Log.written log) (L.folder logs.old)) }
    ensures { IsReadied L.Log.seen L.Log.crash_states L.Log.fault L.Log.written
        (IsHistoryOfNew (L.folder logs.old) verified.planned) (BeginsAccepted (L.folder logs.old)
        (L.folder logs.new) asked.entry.path.now asked.entry.protocol (is_some opened) verified) result }
{
    match begun_with_room(alloc, verified, asked.protocol) {
        Ok((begun, room)) => ready_begun(begun, room, digits, asked.path, opened, logs),
        Err(error) => Err(Undriven {
            outcome: Err(CommandFault::from(error)),
            log: opened,
        }),
    }
}

/// Begins the run of a plan that was judged, if it is accepted; else its line is the answer, and no log is made.
fn ready_judged<L: Logs>(
    alloc: Global,
    verdict: Verdict,
    digits: &RunDigits,
    asked: LogAsked<'_>,
    opened: Option<L::Log>,
    logs: &mut L,
) -> Readied<L::Log>
    requires digits { digits.now ≡ digits_in (judged verdict) }
    requires empty { IfSome opened (λ log. IsEmptyLog (L.Log.seen log) (L.Log.crash_states log) (L.Log.fault log)
        (L.Log.written log) (L.folder logs.old)) }
    ensures { IsReadied L.Log.seen L.Log.crash_states L.Log.fault L.Log.written
        (IsHistoryOfNew (L.folder logs.old) (judged verdict)) (BeginsBy (L.folder logs.old)
        (L.folder logs.new) asked.entry.path.now asked.entry.protocol (is_some opened) verdict) result }
{
    match verdict {
        Verdict::Accepted(verified) => {
            ready_accepted(alloc, verified, digits, asked, opened, logs)
        }
        Verdict::Refused(shaped, why) => Err(Undriven {
            outcome: line_answer(alloc, Loaded::Judged(Verdict::Refused(shaped, why))),
            log: opened,
        }),
    }
}

/// Judges a plan, whose log has no bytes.
fn ready_new<L: Logs>(
    alloc: Global,
    shaped: Shaped,
    digits: &RunDigits,
    asked: LogAsked<'_>,
    opened: Option<L::Log>,
    logs: &mut L,
) -> Readied<L::Log>
    requires digits { digits.now ≡ digits_in shaped }
    requires empty { IfSome opened (λ log. IsEmptyLog (L.Log.seen log) (L.Log.crash_states log) (L.Log.fault log)
        (L.Log.written log) (L.folder logs.old)) }
    ensures { IsReadied L.Log.seen L.Log.crash_states L.Log.fault L.Log.written
        (IsHistoryOfNew (L.folder logs.old) shaped) (Begins (L.folder logs.old)
        (L.folder logs.new) asked.entry.path.now asked.entry.protocol shaped (is_some opened)) result }
{
    match verify(alloc, shaped) {
        Ok(verdict) => ready_judged(alloc, verdict, digits, asked, opened, logs),
        Err((error, back)) => {
            drop(back);
            Err(Undriven {
                outcome: Err(CommandFault::from(error)),
                log: opened,
            })
        }
    }
}

/// What was found by a path: the log and its bytes.
type FoundLog<D> = Option<(D, LogText)>;

/// What the whole lines of the log that was found say of its run.
fn run_found<D: LogFile + Drop>(found: &FoundLog<D>) -> LogRun
    ensures { IsLogRunOf (lines_of (whole_lines (bytes_in (option_map (λ there. there.1) found.now)))) result }
{
    match found {
        Some((_, text)) => text.run(),
        None => LogRun::Unbegun,
    }
}

/// The log that was found, without its bytes.
fn log_found<D: LogFile + Drop>(found: FoundLog<D>) -> Option<D>
    ensures { result ≡ option_map (λ there. there.0) found }
{
    match found {
        Some((log, _)) => Some(log),
        None => None,
    }
}

/// Begins a run with a log that is there and has no bytes, or recovers the one that it has.
fn ready_there<L: Logs>(
    alloc: Global,
    shaped: Shaped,
    digits: &RunDigits,
    asked: LogAsked<'_>,
    log: L::Log,
    text: LogText,
    logs: &mut L,
) -> Readied<L::Log>
    requires digits { digits.now ≡ digits_in shaped }
    requires at_most { IfSome asked.at (λ present. present ≤ MAX_MOMENT) }
    requires found { IsFoundLog (L.Log.seen log) (L.Log.crash_states log) (L.Log.fault log) (L.Log.written log)
        (L.folder logs.old) text }
    ensures { IsReadied L.Log.seen L.Log.crash_states L.Log.fault L.Log.written
        (IsHistoryOfFound (L.folder logs.old) shaped asked.entry.protocol asked.entry.at (Some text))
        (DrivesFitting (L.folder logs.old) (L.folder logs.new) asked.entry.path.now asked.entry.protocol asked.entry.at
        shaped (Some text)) result }
{
    if text.is_empty() {
        let opened = Some(log);
        return ready_new(alloc, shaped, digits, asked, opened, logs);
    }
    ready_recovered(alloc, shaped, digits, asked, log, &text)
}

/// The same of any log that is as the words ask, or of none.
fn ready_fitting<L: Logs>(
    alloc: Global,
    shaped: Shaped,
    digits: &RunDigits,
    asked: LogAsked<'_>,
    found: FoundLog<L::Log>,
    logs: &mut L,
) -> Readied<L::Log>
    requires digits { digits.now ≡ digits_in shaped }
    requires at_most { IfSome asked.at (λ present. present ≤ MAX_MOMENT) }
    requires found { IfSome found (λ there. IsFoundLog (L.Log.seen there.0) (L.Log.crash_states there.0)
        (L.Log.fault there.0) (L.Log.written there.0) (L.folder logs.old) there.1) }
    ensures { IsReadied L.Log.seen L.Log.crash_states L.Log.fault L.Log.written (IsHistoryOfFound
        (L.folder logs.old) shaped asked.entry.protocol asked.entry.at (option_map (λ there. there.1) found))
        (DrivesFitting (L.folder logs.old) (L.folder logs.new) asked.entry.path.now asked.entry.protocol asked.entry.at
        shaped (option_map (λ there. there.1) found)) result }
{
    match found {
        None => ready_new(alloc, shaped, digits, asked, None, logs),
        Some((log, text)) => ready_there(alloc, shaped, digits, asked, log, text, logs),
    }
}

/// The same of what was found by the path, if it is as the words ask; else why it isn't is the answer.
fn ready_found<L: Logs>(
    alloc: Global,
    shaped: Shaped,
    digits: &RunDigits,
    asked: LogAsked<'_>,
    found: FoundLog<L::Log>,
    logs: &mut L,
) -> Readied<L::Log>
    requires digits { digits.now ≡ digits_in shaped }
    requires at_most { IfSome asked.at (λ present. present ≤ MAX_MOMENT) }
    requires found { IfSome found (λ there. IsFoundLog (L.Log.seen there.0) (L.Log.crash_states there.0)
        (L.Log.fault there.0) (L.Log.written there.0) (L.folder logs.old) there.1) }
    ensures { IsReadied L.Log.seen L.Log.crash_states L.Log.fault L.Log.written (IsHistoryOfFound
        (L.folder logs.old) shaped asked.entry.protocol asked.entry.at (option_map (λ there. there.1) found))
        (DrivesFound (L.folder logs.old) (L.folder logs.new) asked.entry.path.now asked.entry.start asked.entry.protocol
        asked.entry.at shaped (option_map (λ there. there.1) found)) result }
{
    match misfit_of(asked.start, run_found(&found), digits) {
        Some(misfit) => {
            drop(shaped);
            Err(Undriven {
                outcome: misfit_answer(alloc, misfit),
                log: log_found(found),
            })
        }
        None => ready_fitting(alloc, shaped, digits, asked, found, logs),
    }
}

/// Opens the log of a plan that has these digits.
fn ready_opened<L: Logs>(
    alloc: Global,
    shaped: Shaped,
    digits: &RunDigits,
    asked: LogAsked<'_>,
    logs: &mut L,
) -> Readied<L::Log>
    requires digits { digits.now ≡ digits_in shaped }
    requires at_most { IfSome asked.at (λ present. present ≤ MAX_MOMENT) }
    ensures { IsReadied L.Log.seen L.Log.crash_states L.Log.fault L.Log.written
        (IsHistoryOfPath (L.folder logs.old) asked.entry.path.now shaped asked.entry.protocol asked.entry.at)
        (OpensLog (L.folder logs.old) (L.folder logs.new) asked.entry.path.now asked.entry.start asked.entry.protocol
        asked.entry.at shaped) result }
{
    match open_log(alloc, logs, asked.path) {
        Ok(found) => ready_found(alloc, shaped, digits, asked, found, logs),
        Err(back) => {
            drop(shaped);
            Err(Undriven {
                outcome: Err(LogFault::from(back.fault).0),
                log: back.log,
            })
        }
    }
}

/// Takes the digits of a plan, by which its log is known, and opens that.
fn ready_shaped<L: Logs>(
    alloc: Global,
    shaped: Shaped,
    asked: LogAsked<'_>,
    logs: &mut L,
) -> Readied<L::Log>
    requires at_most { IfSome asked.at (λ present. present ≤ MAX_MOMENT) }
    ensures { IsReadied L.Log.seen L.Log.crash_states L.Log.fault L.Log.written
        (IsHistoryOfPath (L.folder logs.old) asked.entry.path.now shaped asked.entry.protocol asked.entry.at)
        (DrivesByLog (L.folder logs.old) (L.folder logs.new) asked.entry.path.now asked.entry.start asked.entry.protocol
        asked.entry.at shaped) result }
{
    match run_digits(alloc, shaped.shop(), shaped.plan()) {
        Ok(digits) => ready_opened(alloc, shaped, &digits, asked, logs),
        Err(error) => {
            drop(shaped);
            Err(Undriven {
                outcome: Err(CommandFault::from(error)),
                log: None,
            })
        }
    }
}

/// Reads a plan, and if it is well shaped makes its run ready with the log that is asked for; else its first fault is
/// the answer, and no log is opened.
pub(crate) fn ready_run<T: Texts, L: Logs>(
    alloc: Global,
    texts: &mut T,
    inputs: &InputPaths<'_>,
    asked: LogAsked<'_>,
    logs: &mut L,
) -> Readied<L::Log>
    requires at_most { IfSome asked.at (λ present. present ≤ MAX_MOMENT) }
    ensures { IsReadied L.Log.seen L.Log.crash_states L.Log.fault L.Log.written (IsHistoryOfLog T.gives
        (L.folder logs.old) inputs.now asked.entry.path.now asked.entry.protocol asked.entry.at texts.old)
        (λ step. RunsLoggedDrive T.gives (L.folder logs.old) (L.folder logs.new) asked.entry.path.now asked.entry.start
        asked.entry.protocol asked.entry.at inputs.now texts.old step texts.new) result }
{
    match shape_files(alloc, texts, inputs) {
        Ok(Ok(shaped)) => ready_shaped(alloc, shaped, asked, logs),
        Ok(Err(fault)) => Err(Undriven {
            outcome: line_answer(alloc, Loaded::NotShaped(fault)),
            log: None,
        }),
        Err(fault) => Err(Undriven {
            outcome: Err(fault),
            log: None,
        }),
    }
}
