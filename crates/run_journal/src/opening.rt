//! The opening of a log that a crash may have left.

ghost use Rattle.std.specs.Prelude.{◌≡◌, ◌<◌, ◌≤◌, ◌↔◌, [], ◌∷◌, List, ℕ, length, take, None, Some, option_map, is_some, true, false, IfErr, IfOk, IfSome, IsTrue, MatchOption, OnOk};
ghost use Rattle.text_lines.specs.{declared.limits.TheConstants.MAX_INPUT, Lines.lines_of};
ghost use Rattle.event_lines.specs.RunDigits.{AreDigits, plan_line};
ghost use Rattle.run_journal.specs.{LogFiles.HasFailed, LogFiles.IsDurable, LogFiles.LeavesNoMore, TornEnds.is_torn};
ghost use Rattle.run_journal.specs.LogRuns.{IsNamedFor, IsNamedOrNot, IsLogRunOf};
ghost use Rattle.run_journal.specs.Openings.{IsLogFound, IsOfLog, IsUnmade, IsUnnamed};
ghost use Rattle.run_journal.specs.Folders.{Folder, handed, handed_if, held, is_named, IsOpenFault, with_fault, with_log, with_name};
ghost use Rattle.run_journal.specs.WholeLines.{whole_lines, torn_end};

use crate::file_fault::FileFault;
use crate::log_file::LogFile;
use crate::log_run::{LogRun, run_of};
use crate::logged::keep;
use crate::logs::Logs;
use event_lines::{RunDigits, plan_line};
use std::alloc::Global;
use std::marker::Model;
use text_lines::MAX_INPUT;

/// The bytes of a log: its whole lines, what comes after the last of them, and what they record of its run.
#[derive(Debug, Drop)]
pub struct LogText {
    bytes: Vec<u8>,
    /// How many bytes the whole lines have.
    whole: usize,
    run: LogRun,
}

impl Model for LogText {
    ghost use Rattle.std.specs.Prelude.{◌≡◌, ℕ, ◌≤◌, List, length, take};
    ghost use Rattle.text_lines.specs.Lines.{lines_of};
    ghost use Rattle.run_journal.specs.WholeLines.{whole_lines};
    ghost use Rattle.run_journal.specs.LogRuns.{IsLogRunOf};

    ghost Value = { List ℕ };

    ghost view = { λ t. t.bytes.items };

    ghost invariant = { λ t. (t.whole ≤ length t.bytes.items) × (take t.whole t.bytes.items ≡ whole_lines t.bytes.items)
        × IsLogRunOf (lines_of (whole_lines t.bytes.items)) t.run };
}

impl LogText {
    /// A text with these bytes.
    pub fn new(bytes: Vec<u8>) -> LogText
        ensures { result ≡ bytes.items }
    {
        let whole = whole_len(&bytes);
        let run = run_of(&bytes[..whole]);
        LogText { bytes, whole, run }
    }

    /// What the whole lines record of the run.
    pub fn run(&self) -> LogRun
        ensures { IsLogRunOf (lines_of (whole_lines self.now)) result }
    {
        self.run
    }

    /// The lines that are ended by a line feed.
    pub fn lines(&self) -> &[u8]
        ensures { result.now ≡ whole_lines self.now }
    {
        &self.bytes[..self.whole]
    }

    /// Whether there are no bytes.
    pub fn is_empty(&self) -> bool
        ensures { IsTrue result ↔ (self.now ≡ []) }
    {
        self.bytes.is_empty()
    }

    /// What comes after the last line feed.
    pub fn end(&self) -> &[u8]
        ensures { result.now ≡ torn_end self.now }
    {
        &self.bytes[self.whole..]
    }
}

/// Why no log was opened or made; and the log that was, if one was, which then couldn't be read, named or written.
#[derive(Drop)]
pub struct Unopened<D: Drop> {
    pub fault: FileFault,
    pub log: Option<D>,
}

/// The bytes of a log, which are then on the disk. Nothing is changed: whatever the file is, it may still be refused.
pub fn read_log<D: LogFile>(alloc: Global, log: &mut D) -> Result<LogText, FileFault>
    requires unfailed { D.fault log.old ≡ None }
    ensures text { IfOk result (λ text. IfSome (D.seen log.old) (λ file. text ≡ file)) }
    ensures within { IfOk result (λ text. length text ≤ MAX_INPUT) }
    ensures seen { D.seen log.new ≡ D.seen log.old }
    ensures durable { OnOk result (IsDurable (D.seen log.new) (D.crash_states log.new)) }
    ensures crash { LeavesNoMore (D.crash_states log.old) (D.crash_states log.new) }
    ensures unwritten { D.written log.new ≡ D.written log.old }
    ensures unfailed { OnOk result (D.fault log.new ≡ None) }
    ensures failed { IfErr result (IsOfLog (D.fault log.new)) }
    ensures too_long { IfErr result
        (λ cause. cause ≡ FileFault.TooLong → IfSome (D.seen log.old) (λ file. MAX_INPUT < length file)) }
{
    // A process that was killed may have left bytes that are read, but aren't on the disk yet.
    log.sync()?;
    let bytes = log.read(alloc, MAX_INPUT)?;
    Ok(LogText::new(bytes))
}

/// Reads a log that was opened.
fn read_opened<D: LogFile + Drop>(alloc: Global, log: D) -> Result<(D, LogText), Unopened<D>>
    requires unfailed { D.fault log ≡ None }
    ensures text { IfOk result (λ there. IfSome (D.seen log) (λ file. there.1 ≡ file)) }
    ensures within { IfOk result (λ there. length there.1 ≤ MAX_INPUT) }
    ensures seen { IfOk result (λ there. D.seen there.0 ≡ D.seen log) }
    ensures durable { IfOk result (λ there. IsDurable (D.seen there.0) (D.crash_states there.0)) }
    ensures unwritten { IfOk result (λ there. D.written there.0 ≡ D.written log) }
    ensures unfailed { IfOk result (λ there. D.fault there.0 ≡ None) }
    ensures unread { IfErr result (λ back. MatchOption back.log ⊥ (λ unread.
        IsOfLog (D.fault unread) back.fault × (D.seen unread ≡ D.seen log) × (D.written unread ≡ D.written log))) }
{
    let mut log = log;
    match read_log(alloc, &mut log) {
        Ok(text) => Ok((log, text)),
        Err(fault) => Err(Unopened {
            fault,
            log: Some(log),
        }),
    }
}

/// Opens the log of this path, locks it, and reads it. It is then on the disk. None where there isn't one. One that
/// can't be read is given back with no byte of it changed.
pub fn open_log<L: Logs>(
    alloc: Global,
    logs: &mut L,
    path: &str,
) -> Result<Option<(L::Log, LogText)>, Unopened<L::Log>>
    ensures text { IfOk result
        (λ opened. IfSome opened (λ there. IfSome (L.Log.seen there.0) (λ file. there.1 ≡ file))) }
    ensures within { IfOk result (λ opened. IfSome opened (λ there. length there.1 ≤ MAX_INPUT)) }
    ensures durable { IfOk result
        (λ opened. IfSome opened (λ there. IsDurable (L.Log.seen there.0) (L.Log.crash_states there.0))) }
    ensures unwritten { IfOk result (λ opened. IfSome opened (λ there. L.Log.written there.0 ≡ false)) }
    ensures unfailed { IfOk result (λ opened. IfSome opened (λ there. L.Log.fault there.0 ≡ None)) }
    ensures known { IfOk result
        (λ opened. IfSome opened (λ there. IfSome (L.folder logs.old).logs (λ _. L.Log.seen there.0 ≡ Some there.1))) }
    ensures found { IfOk result (λ opened.
        IfSome (L.folder logs.old).logs (λ logs. option_map (λ there. there.1) opened ≡ held logs path.now)) }
    ensures opened { IfOk result (λ opened. L.folder logs.new ≡ handed_if (is_some opened) (L.folder logs.old)) }

    // Why not is what the folder says, and then no log was opened; or what the log says, which is given back as it
    // was found.
    ensures unopened { IfErr result (λ back. MatchOption back.log
        (IsOpenFault back.fault × (L.folder logs.new ≡ with_fault back.fault (L.folder logs.old)))
        (λ log. IsOfLog (L.Log.fault log) back.fault × (L.folder logs.new ≡ handed (L.folder logs.old)))) }
    ensures unread { IfErr result
        (λ back. IfSome back.log (λ log. IsLogFound (L.folder logs.old) path.now (L.Log.seen log) (L.Log.written log))) }
{
    match logs.open(path) {
        Ok(None) => Ok(None),
        Ok(Some(log)) => match read_opened(alloc, log) {
            Ok(there) => Ok(Some(there)),
            Err(back) => Err(back),
        },
        Err(fault) => Err(Unopened { fault, log: None }),
    }
}

/// The log of this path, with the line of the plan alone, and with its name on the disk: the one that was opened, which
/// has no bytes, or one that is made.
pub fn new_log<L: Logs>(
    logs: &mut L,
    path: &str,
    opened: Option<L::Log>,
    digits: &RunDigits,
) -> Result<L::Log, Unopened<L::Log>>
    requires empty { IfSome opened (λ log. IfSome (L.Log.seen log) (λ file. file ≡ [])) }
    requires durable { IfSome opened (λ log. IsDurable (L.Log.seen log) (L.Log.crash_states log)) }
    requires unfailed { IfSome opened (λ log. L.Log.fault log ≡ None) }
    requires known { IfSome opened (λ log. IfSome (L.folder logs.old).logs (λ _. L.Log.seen log ≡ Some [])) }
    ensures durable { IfOk result (λ log. IsDurable (L.Log.seen log) (L.Log.crash_states log)) }
    ensures unfailed { IfOk result (λ log. L.Log.fault log ≡ None) }
    ensures known { IfOk result
        (λ log. IfSome (L.folder logs.old).logs (λ _. L.Log.seen log ≡ Some (plan_line digits.now))) }
    ensures named { OnOk result (IfSome (L.folder logs.new).logs (λ logs. is_named logs path.now ≡ true)) }

    // A log is made only where none was opened, and nothing else changes.
    ensures made { OnOk result
        (L.folder logs.new ≡ with_name path.now (with_log (is_some opened) path.now (L.folder logs.old))) }

    // Why not is what the folder or the log records, which has no byte but those of the line.
    ensures unnamed { IfErr result (λ back. MatchOption back.log
        (IsUnmade (is_some opened) path.now (L.folder logs.old) (L.folder logs.new) back.fault)
        (λ log. IsUnnamed path.now digits.now (with_log (is_some opened) path.now (L.folder logs.old))
        (L.folder logs.new) (L.Log.seen log) (L.Log.crash_states log) (L.Log.fault log) back.fault)) }

    // Where it wasn't the log that failed, no byte of it was changed.
    ensures unwritten { IfSome opened (λ had. L.Log.written had ≡ false)
        → IfErr result (λ back. IfSome back.log (λ log. L.Log.fault log ≡ None → L.Log.written log ≡ false)) }
{
    match had_or_made(logs, path, opened) {
        Ok(log) => named_log(logs, path, log, digits),
        Err(fault) => Err(Unopened { fault, log: None }),
    }
}

/// The log that was opened, which has no bytes, or one that is made.
fn had_or_made<L: Logs>(
    logs: &mut L,
    path: &str,
    opened: Option<L::Log>,
) -> Result<L::Log, FileFault>
    requires durable { IfSome opened (λ log. IsDurable (L.Log.seen log) (L.Log.crash_states log)) }
    requires unfailed { IfSome opened (λ log. L.Log.fault log ≡ None) }
    requires known { IfSome opened (λ log. IfSome (L.folder logs.old).logs (λ _. L.Log.seen log ≡ Some [])) }
    ensures durable { IfOk result (λ log. IsDurable (L.Log.seen log) (L.Log.crash_states log)) }
    ensures unfailed { IfOk result (λ log. L.Log.fault log ≡ None) }
    ensures known { IfOk result (λ log. IfSome (L.folder logs.old).logs (λ _. L.Log.seen log ≡ Some [])) }
    ensures made { OnOk result (L.folder logs.new ≡ with_log (is_some opened) path.now (L.folder logs.old)) }
    ensures unmade { IfErr result (IsUnmade (is_some opened) path.now (L.folder logs.old) (L.folder logs.new)) }
    ensures unwritten { IfSome opened (λ had. L.Log.written had ≡ false)
        → IfOk result (λ log. L.Log.written log ≡ false) }
{
    match opened {
        Some(log) => Ok(log),
        None => logs.make(path),
    }
}

/// A log that has no bytes, once its name is on the disk, and then the line of the plan.
fn named_log<L: Logs>(
    logs: &mut L,
    path: &str,
    log: L::Log,
    digits: &RunDigits,
) -> Result<L::Log, Unopened<L::Log>>
    requires durable { IsDurable (L.Log.seen log) (L.Log.crash_states log) }
    requires unfailed { L.Log.fault log ≡ None }
    requires known { IfSome (L.folder logs.old).logs (λ _. L.Log.seen log ≡ Some []) }
    ensures durable { IfOk result (λ named. IsDurable (L.Log.seen named) (L.Log.crash_states named)) }
    ensures unfailed { IfOk result (λ named. L.Log.fault named ≡ None) }
    ensures known { IfOk result
        (λ named. IfSome (L.folder logs.old).logs (λ _. L.Log.seen named ≡ Some (plan_line digits.now))) }
    ensures named { OnOk result (IfSome (L.folder logs.new).logs (λ there. is_named there path.now ≡ true)) }
    ensures made { OnOk result (L.folder logs.new ≡ with_name path.now (L.folder logs.old)) }
    ensures unnamed { IfErr result (λ back. MatchOption back.log ⊥
        (λ unnamed. IsUnnamed path.now digits.now (L.folder logs.old) (L.folder logs.new) (L.Log.seen unnamed)
        (L.Log.crash_states unnamed) (L.Log.fault unnamed) back.fault)) }
    ensures unwritten { IfErr result
        (λ back. IfSome back.log (λ unnamed. L.Log.fault unnamed ≡ None → L.Log.written unnamed ≡ L.Log.written log)) }
{
    let mut log = log;
    match logs.sync_name(path) {
        Ok(()) => match keep(&mut log, plan_line(digits).bytes()) {
            Ok(()) => Ok(log),
            Err(fault) => Err(Unopened {
                fault,
                log: Some(log),
            }),
        },
        Err(fault) => Err(Unopened {
            fault,
            log: Some(log),
        }),
    }
}

/// Cuts off what comes after the whole lines of a log that was read.
pub fn cut_end<D: LogFile>(log: &mut D, text: &LogText) -> Result<(), FileFault>
    requires durable { IsDurable (D.seen log.old) (D.crash_states log.old) }
    requires unfailed { D.fault log.old ≡ None }
    requires read { IfSome (D.seen log.old) (λ file. text.now ≡ file) }
    ensures cut { OnOk result (IfSome (D.seen log.old) (λ file. D.seen log.new ≡ Some (whole_lines file))) }
    ensures durable { OnOk result (IsDurable (D.seen log.new) (D.crash_states log.new)) }
    ensures unfailed { OnOk result (D.fault log.new ≡ None) }
    ensures failed { IfErr result (HasFailed (D.fault log.new)) }

    // A crash at any moment leaves the same whole lines, and behind them of a torn end a torn end again.
    ensures crash { IfSome (D.seen log.old)
        (λ file. (left : List ℕ) → D.crash_states log.new left → whole_lines left ≡ whole_lines file) }
    ensures torn_again { IfSome (D.seen log.old) (λ file. is_torn (torn_end file) ≡ true → (left : List ℕ)
        → D.crash_states log.new left → is_torn (torn_end left) ≡ true) }
{
    // A file that may be appended to but not cut serves as long as nothing is to be cut off.
    if text.end().is_empty() {
        return Ok(());
    }
    log.cut(text.lines().len())?;
    // What is appended to a file whose cut isn't on the disk might stand behind the torn end.
    log.sync()
}

/// Puts the line of the plan behind the whole lines of a log, to which it was cut, unless it is their last line of a
/// plan.
pub fn name_plan<D: LogFile>(
    log: &mut D,
    text: &LogText,
    digits: &RunDigits,
) -> Result<(), FileFault>
    requires durable { IsDurable (D.seen log.old) (D.crash_states log.old) }
    requires unfailed { D.fault log.old ≡ None }
    requires digits { AreDigits digits.now }
    ensures named { OnOk result (IfSome (D.seen log.old) (λ file. file ≡ whole_lines text.now
        → (base : List ℕ) × IsNamedFor digits.now file base × (D.seen log.new ≡ Some base))) }
    ensures durable { OnOk result (IsDurable (D.seen log.new) (D.crash_states log.new)) }
    ensures unfailed { OnOk result (D.fault log.new ≡ None) }
    ensures failed { IfErr result (HasFailed (D.fault log.new)) }

    // A crash at any moment leaves these lines, with that of the plan or without, and behind them at most the beginning
    // of it.
    ensures crash { IfSome (D.seen log.old) (λ file. file ≡ whole_lines text.now → (left : List ℕ)
        → D.crash_states log.new left → IsNamedOrNot digits.now file (whole_lines left)) }
    ensures torn { IfSome (D.seen log.old) (λ file.
        file ≡ whole_lines text.now → (left : List ℕ) → D.crash_states log.new left → is_torn (torn_end left) ≡ true) }
{
    if text.run().names(digits) {
        // Its last line of a plan is this one.
        return Ok(());
    }
    keep(log, plan_line(digits).bytes())
}

/// How many bytes go up to the last line feed.
fn whole_len(text: &[u8]) -> usize
    ensures within { result ≤ length text.now }
    ensures whole { take result text.now ≡ whole_lines text.now }
{
    let mut len = text.len();
    while len > 0 && text[len - 1] != b'\n' {
        len -= 1;
    }
    len
}
