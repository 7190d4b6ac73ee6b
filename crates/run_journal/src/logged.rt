//! An output whose events a log gets, on the disk, before they are shown.

ghost use Rattle.std.specs.Prelude.{◌≡◌, ◌+◌, ◌<◌, ◌≤◌, ◌++◌, [], length, take, None, Some, Err, true, false, IfOk, IfErr, IfSome, OnErr, OnOk};
ghost use Rattle.std.specs.Io.KnownBytes.{Appends, Keeps, WriteAppends, append_known};
ghost use Rattle.run_journal.specs.declared.file_fault.FileFault.{FileFault};
ghost use Rattle.run_journal.specs.LogFiles.{HasFailed, IsDurable, Leaves};
ghost use Rattle.run_journal.specs.Buffering.{IsBuffered, is_flushed_first};
ghost use Rattle.run_journal.specs.Logged.{HoldsNothing, StayInStep, AreInitial, OnKept, OnLogFault, fault_if};

use crate::file_fault::FileFault;
use crate::log_file::LogFile;
use crate::selection::select;
use crate::writing_room::WritingRoom;
use byte_streams::{BufferedSink, Sink, WriteFault};
use std::marker::{Model, PhantomData};

/// The fewest gathered bytes that are shown before the next report's answer is gathered.
pub const FULL: usize = 65_536;

/// The most bytes that are held back: room for one answer more, so that none is shown in parts.
pub const MAX_PENDING: usize = 81_920;

/// What a log held and what an output had accepted before they were joined, as a type that stands for it.
pub trait InitialState: Drop {
    ghost use Rattle.std.specs.Prelude.{ℕ, List, Option};

    // Both, where they are known.
    ghost before: { Option (List ℕ × List ℕ) };
}

/// Nothing is known of it.
#[derive(Drop)]
pub struct UnknownHistory;

impl InitialState for UnknownHistory {
    ghost use Rattle.std.specs.Prelude.{None};

    ghost before = { None };
}

/// An output with a log. Bytes are gathered until they are to be shown, or don't fit. Then the lines among them that a
/// log gets are appended to it, it is synced, and only then all of them are shown. After a fault nothing more is
/// appended or shown.
#[derive(Drop)]
pub struct Logged<W: BufferedSink, D: LogFile, B: InitialState> {
    log: D,
    output: W,
    buffered: Vec<u8>,
    /// How many of these bytes are out.
    sent: usize,
    /// What the log gets of them.
    events: Vec<u8>,
    /// The first bytes of the line that is being shown, as many as decide whether the log gets it.
    front: Vec<u8>,
    failed: bool,
    log_failed: bool,
    before: PhantomData<B>,
}

impl<W: BufferedSink, D: LogFile, B: InitialState> Model for Logged<W, D, B> {
    ghost use Rattle.std.specs.Prelude.{drop, vec_capacity};
    ghost use Rattle.run_journal.specs.Logged.{AreFaultsKnown, Held, HoldsNothing, IsSoundLogger};

    ghost Value = { Held };

    ghost view = { λ l. record {
      written = W.written l.output;
      pending = drop l.sent l.buffered.items;
      failed = l.failed;
      log_failed = l.log_failed;
    } };

    ghost invariant = { λ l. IsSoundLogger B.before (D.seen l.log) (D.crash_states l.log)
        (W.written l.output) l.buffered.items (vec_capacity l.buffered) (vec_capacity l.events)
        (vec_capacity l.front) l.sent l.failed l.front.items × HoldsNothing (W.pending l.output) (W.failed l.output)
        × AreFaultsKnown l.failed l.log_failed (D.fault l.log) (W.failed l.output) };
}

impl<W: BufferedSink + Drop, D: LogFile + Drop, B: InitialState> Logged<W, D, B> {
    /// A log that is synced, and an output that has shown all. No memory is asked for behind the room.
    pub fn new(room: WritingRoom, log: D, output: W, _before: B) -> Logged<W, D, B>
        requires durable { IsDurable (D.seen log) (D.crash_states log) }
        requires before { AreInitial B.before (D.seen log) (W.written output) }
        requires shown { W.pending output ≡ [] }
        requires unfailed { D.fault log ≡ None }
        ensures written { result.written ≡ W.written output }
        ensures pending { result.pending ≡ [] }
        ensures unfailed { (result.failed ≡ false) × (result.log_failed ≡ false) }
    {
        let WritingRoom {
            buffered,
            events,
            front,
        } = room;
        Logged {
            log,
            output,
            buffered,
            sent: 0,
            events,
            front,
            failed: false,
            log_failed: false,
            before: PhantomData,
        }
    }

    /// Whether it was the log that failed.
    pub fn has_log_failed(&self) -> bool
        ensures { result ≡ self.now.log_failed }
    {
        // A fault of the output isn't one of the log.
        self.log_failed
    }

    /// The log and the output. What is pending isn't written out.
    pub fn into_parts(self) -> (D, W)
        ensures in_step { StayInStep B.before (D.seen result.0) (D.crash_states result.0) self }
        ensures durable { self.failed ≡ false → IsDurable (D.seen result.0) (D.crash_states result.0) }
        ensures written { W.written result.1 ≡ self.written }
        ensures shown { HoldsNothing (W.pending result.1) (W.failed result.1) }
        ensures log_fault { D.fault result.0 ≡ fault_if self.log_failed }

        // Where a call has failed, and the log hasn't, the output has.
        ensures unfailed { self.failed ≡ false → self.log_failed ≡ false }
        ensures output_failed { self.failed ≡ true → self.log_failed ≡ false → W.failed result.1 ≡ true }
    {
        let Logged {
            log,
            output,
            buffered: _,
            sent: _,
            events: _,
            front: _,
            failed: _,
            log_failed: _,
            before: _,
        } = self;
        (log, output)
    }
}

impl<W: BufferedSink, D: LogFile, B: InitialState> Sink for Logged<W, D, B> {
    ghost use Rattle.std.specs.Io.KnownBytes.{append_known};

    ghost written = { λ l. append_known l.written l.pending };

    ghost failed = { λ l. l.failed };

    fn put(&mut self, bytes: &[u8]) -> Result<usize, WriteFault>
        requires { 0 < length bytes.now }
        ensures count { IfOk result (λ count. (0 < count) × (count ≤ length bytes.now)) }
        ensures written { WriteAppends (append_known self.old.written self.old.pending)
            (append_known self.new.written self.new.pending) result bytes.now }
        ensures unfailed { OnOk result (self.new.failed ≡ self.old.failed) }
        ensures failed { OnErr result (self.new.failed ≡ true) }
        ensures buffered { IfOk result (λ count. IsBuffered self.old bytes.now count self.new) }
    {
        if self.failed {
            return Err(WriteFault);
        }
        if is_flushed_first(self.buffered.len(), bytes) {
            self.flush()?;
        }
        let count = bytes.len().min(MAX_PENDING - self.buffered.len());
        self.buffered.extend_from_slice(&bytes[..count]).unwrap();
        Ok(count)
    }
}

impl<W: BufferedSink, D: LogFile, B: InitialState> BufferedSink for Logged<W, D, B> {
    ghost pending = { λ l. l.pending };

    fn flush(&mut self) -> Result<(), WriteFault> {
        if self.failed {
            return Err(WriteFault);
        }
        self.flush_all()
    }
}

impl<W: BufferedSink, D: LogFile, B: InitialState> Logged<W, D, B> {
    /// Shows all, once the log has what it gets of it. No call has failed before.
    fn flush_all(&mut self) -> Result<(), WriteFault>
        requires unfailed { self.old.failed ≡ false }
        ensures written { Keeps (append_known self.old.written self.old.pending)
            (append_known self.new.written self.new.pending) }
        ensures shown { OnOk result (self.new.pending ≡ []) }
        ensures unfailed { OnOk result (self.new.failed ≡ false) }
        ensures failed { OnErr result (self.new.failed ≡ true) }
    {
        // Until all has gone well.
        self.failed = true;
        self.events.clear();
        select(&mut self.front, &self.buffered, &mut self.events);
        match keep_and_pass_on(
            &mut self.log,
            &self.events,
            &mut self.output,
            &self.buffered,
            &mut self.sent,
        ) {
            Ok(()) => {
                self.buffered.clear();
                self.sent = 0;
                self.failed = false;
                Ok(())
            }
            Err(Unflushed::Log) => {
                self.log_failed = true;
                Err(WriteFault)
            }
            Err(Unflushed::Output) => Err(WriteFault),
        }
    }
}

/// Whether the `buffered` bytes gathered so far are shown before these. A report's answer is gathered whole.
fn is_flushed_first(buffered: usize, bytes: &[u8]) -> bool
    requires within { buffered ≤ MAX_PENDING }
    requires some { 0 < length bytes.now }
    ensures is { result ≡ is_flushed_first buffered bytes.now }
    ensures room { result ≡ false → buffered < MAX_PENDING }
{
    if bytes.len() > MAX_PENDING - buffered {
        return buffered > 0;
    }
    buffered >= FULL && bytes.starts_with(b"report ")
}

/// Which has failed, where not all is shown.
#[derive(Clone, Copy, Debug, PartialEq, Eq)]
enum Unflushed {
    Log,
    Output,
}

/// Puts these events into the log, and onto the disk, and only then gives these bytes to the output, which shows them.
fn keep_and_pass_on<W: BufferedSink, D: LogFile>(
    log: &mut D,
    events: &[u8],
    output: &mut W,
    bytes: &[u8],
    sent: &mut usize,
) -> Result<(), Unflushed>
    requires durable { IsDurable (D.seen log.old) (D.crash_states log.old) }
    requires unfailed { D.fault log.old ≡ None }
    requires none_out { sent.old ≡ 0 }

    // Where they aren't on the disk, the output is given nothing.
    ensures first { OnLogFault result ((output.new ≡ output.old) × (sent.new ≡ sent.old)) }
    ensures log_fault { OnLogFault result (D.fault log.new ≡ Some FileFault.Log) }
    ensures kept { OnKept result (IfSome (D.seen log.old) (λ file. D.seen log.new ≡ Some (file ++ events.now))) }
    ensures durable { OnKept result (IsDurable (D.seen log.new) (D.crash_states log.new)) }
    ensures unfailed { OnKept result (D.fault log.new ≡ None) }
    ensures crash { IfSome (D.seen log.old)
        (λ file. Leaves (D.crash_states log.new) (length file) (file ++ events.now)) }
    ensures within { OnKept result (sent.new ≤ length bytes.now) }
    ensures written { OnKept result (Appends (W.written output.old) (W.written output.new) (take sent.new bytes.now)) }
    ensures shown { OnKept result (HoldsNothing (W.pending output.new) (W.failed output.new)) }
    ensures all { OnOk result (sent.new ≡ length bytes.now) }
    ensures output_failed { result ≡ Err Unflushed.Output → W.failed output.new ≡ true }
{
    let Ok(()) = keep(log, events) else {
        return Err(Unflushed::Log);
    };
    match pass_on(output, bytes, sent) {
        Ok(()) => Ok(()),
        Err(_) => Err(Unflushed::Output),
    }
}

/// Puts these bytes into the log, and onto the disk. Where there are none, nothing is done.
pub(crate) fn keep<D: LogFile>(log: &mut D, bytes: &[u8]) -> Result<(), FileFault>
    requires durable { IsDurable (D.seen log.old) (D.crash_states log.old) }
    requires unfailed { D.fault log.old ≡ None }
    ensures durable { OnOk result (IsDurable (D.seen log.new) (D.crash_states log.new)) }
    ensures kept { OnOk result (IfSome (D.seen log.old) (λ file. D.seen log.new ≡ Some (file ++ bytes.now))) }
    ensures crash { IfSome (D.seen log.old)
        (λ file. Leaves (D.crash_states log.new) (length file) (file ++ bytes.now)) }
    ensures none { bytes.now ≡ [] → log.new ≡ log.old }
    ensures unfailed { OnOk result (D.fault log.new ≡ None) }
    ensures failed { IfErr result (HasFailed (D.fault log.new)) }
{
    if bytes.is_empty() {
        return Ok(());
    }
    log.append(bytes)?;
    log.sync()
}

/// Gives all of these bytes to the output, which shows them, and counts those that are out.
fn pass_on<W: BufferedSink>(
    output: &mut W,
    bytes: &[u8],
    sent: &mut usize,
) -> Result<(), WriteFault>
    requires { sent.old ≡ 0 }
    ensures within { sent.new ≤ length bytes.now }
    ensures all { OnOk result (sent.new ≡ length bytes.now) }
    ensures written { Appends (W.written output.old) (W.written output.new) (take sent.new bytes.now) }
    ensures shown { HoldsNothing (W.pending output.new) (W.failed output.new) }
    ensures failed { OnErr result (W.failed output.new ≡ true) }
{
    while *sent < bytes.len() {
        *sent += output.put(&bytes[*sent..])?;
    }
    output.flush()
}
