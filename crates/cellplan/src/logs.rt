//! The logs of the system.

ghost use Rattle.std.specs.Prelude.{◌≡◌, ◌≤◌, length, None, Some, true, false, IfErr, IfOk, IfSome, OnOk};
ghost use Rattle.run_journal.specs.Folders.{IsDiskFault, IsOpenFault};
ghost use Rattle.run_journal.specs.LogFiles.{HasFailed, IsReadFault};

use run_journal::{FileFault, LogFile, Logs};
use std::alloc::Global;
use std::fs::{self, File, Metadata, OpenFile, OpenOptions};
use std::io::{self, ErrorKind, Read, Seek, SeekFrom, Write};
use std::os::fd::AsRawFd;
use std::os::unix::fs::MetadataExt;
use std::path::Path;

/// The fault of a log of which a call failed that isn't a read.
#[derive(Drop)]
struct LogFailure(FileFault);

impl From<io::Error> for LogFailure {
    ghost from_gives = { λ _ failure. IsDiskFault failure.0 };

    fn from(error: io::Error) -> LogFailure {
        LogFailure(match error.kind() {
            ErrorKind::OutOfMemory => FileFault::Memory,
            _ => FileFault::Log,
        })
    }
}

/// The fault of a log that couldn't be read.
#[derive(Drop)]
struct ReadFailure(FileFault);

impl From<io::Error> for ReadFailure {
    ghost from_gives = { λ _ failure. IsReadFault failure.0 };

    fn from(error: io::Error) -> ReadFailure {
        ReadFailure(match error.kind() {
            ErrorKind::OutOfMemory => FileFault::Memory,
            _ => FileFault::Read,
        })
    }
}

/// A file of the system, opened to read it and to append to it. No clause says its bytes.
#[derive(Drop)]
pub struct SystemLog {
    rt: HostRuntime,
    /// By what it was opened.
    path: String,
    file: File,
    /// How many bytes it has by what was read and written, once that is known.
    len: Option<u64>,
    fault: Option<FileFault>,
    written: bool,
}

impl SystemLog {
    /// What came of an append, a cut or a sync.
    fn noted(&mut self, done: bool) -> Result<(), FileFault>
        ensures unfailed { OnOk result (self.new.fault ≡ self.old.fault) }
        ensures failed { IfErr result (HasFailed self.new.fault) }
        ensures written { self.new.written ≡ self.old.written }
    {
        match kept(done) {
            Ok(()) => Ok(()),
            Err(fault) => {
                self.fault = Some(fault);
                Err(fault)
            }
        }
    }

    /// Whether its path leads to it, and it has as many bytes as were read and written: else it was moved, removed,
    /// replaced or cut by somebody else.
    fn is_itself(&self) -> bool {
        let Ok(own) = self.file.metadata() else {
            return false;
        };
        let Ok(there) = fs::metadata(&self.rt, self.path.as_str()) else {
            return false;
        };
        are_same(&own, &there) && self.has_len(own.len())
    }

    /// Fails if it isn't.
    fn found_again(&self) -> Result<(), FileFault>
        ensures { IfErr result (λ fault. fault ≡ FileFault.Log) }
    {
        if !self.is_itself() {
            return Err(FileFault::Log);
        }
        Ok(())
    }

    /// Locks it, and fails if its path doesn't lead to it any more, or it hasn't its length.
    fn lock(&self) -> Result<(), FileFault>
        ensures { IfErr result IsOpenFault }
    {
        lock_file(&self.file)?;
        self.found_again()
    }

    /// Whether it has this many bytes, as far as that is known.
    fn has_len(&self, len: u64) -> bool {
        match self.len {
            Some(known) => known == len,
            None => true,
        }
    }
}

impl LogFile for SystemLog {
    ghost use Rattle.std.specs.Prelude.{None};

    ghost seen = { λ _. None };

    ghost crash_states = { λ _ _. Unit {0} };

    ghost fault = { λ l. l.fault };

    ghost written = { λ l. l.written };

    fn read(&mut self, alloc: Global, most: usize) -> Result<Vec<u8>, FileFault> {
        match read_bytes(alloc, &mut self.file, most) {
            Ok(bytes) => {
                self.len = Some(bytes.len() as u64);
                Ok(bytes)
            }
            Err(fault) => {
                self.fault = Some(fault);
                Err(fault)
            }
        }
    }

    fn append(&mut self, bytes: &[u8]) -> Result<(), FileFault> {
        self.written = true;
        let itself = self.is_itself();
        self.len = match self.len {
            Some(len) => Some(len.saturating_add(bytes.len() as u64)),
            None => None,
        };
        // Behind what somebody else left of it the bytes could be read as another run.
        let done = itself && self.file.write_all(bytes).is_ok();
        self.noted(done)
    }

    fn cut(&mut self, len: usize) -> Result<(), FileFault> {
        self.written = true;
        self.len = Some(len as u64);
        let done = self.file.set_len(len as u64).is_ok();
        self.noted(done)
    }

    fn sync(&mut self) -> Result<(), FileFault> {
        let done = self.file.sync_data().is_ok() && self.is_itself();
        self.noted(done)
    }
}

/// All the bytes of a file, if there are at most `most`.
fn read_bytes(alloc: Global, file: &mut File, most: usize) -> Result<Vec<u8>, FileFault>
    ensures within { IfOk result (λ bytes. length bytes.items ≤ most) }
    ensures fault { IfErr result IsReadFault }
{
    if let Err(error) = file.seek(SeekFrom::Start(0)) {
        return Err(ReadFailure::from(error).0);
    }
    let mut bytes = Vec::new(alloc);
    let limit = (most as u64).saturating_add(1);
    let mut limited = (&*file).take(limit);
    if let Err(error) = limited.read_to_end(&mut bytes) {
        return Err(ReadFailure::from(error).0);
    }
    if bytes.len() > most {
        return Err(FileFault::TooLong);
    }
    Ok(bytes)
}

/// What a call answers that isn't done.
fn kept(done: bool) -> Result<(), FileFault>
    ensures { IfErr result (λ fault. fault ≡ FileFault.Log) }
{
    if !done {
        return Err(FileFault::Log);
    }
    Ok(())
}

/// Whether both are of the same file.
fn are_same(one: &Metadata, other: &Metadata) -> bool {
    one.dev() == other.dev() && one.ino() == other.ino()
}

/// Where the logs of the system are.
#[derive(Drop)]
pub struct SystemLogs<'a> {
    rt: &'a HostRuntime,
    fault: Option<FileFault>,
    given: bool,
}

impl<'a> SystemLogs<'a> {
    /// Where no log was opened or made yet.
    pub fn new(rt: &'a HostRuntime) -> SystemLogs<'a> {
        SystemLogs {
            rt,
            fault: None,
            given: false,
        }
    }
}

/// The number of the last of the three standard streams.
const STANDARD_ERROR: i32 = 2;

/// The name that the system has for the standard output of the process that asks.
const STANDARD_OUTPUT: &str = "/proc/self/fd/1";

/// Whether the path leads to a regular file, and the standard output goes to that; not where the system has no name for
/// the output. What is written to a terminal doesn't stand in it.
fn is_output_file(rt: &HostRuntime, path: &str) -> bool {
    let Ok(there) = fs::metadata(rt, path) else {
        return false;
    };
    match fs::metadata(rt, STANDARD_OUTPUT) {
        Ok(output) => there.is_file() && are_same(&there, &output),
        Err(_) => false,
    }
}

/// Locks a file. One that has the number of a standard stream, since that one is closed, is no log: what is written to
/// the stream would stand in it.
fn lock_file(file: &File) -> Result<(), FileFault>
    ensures { IfErr result IsOpenFault }
{
    if file.as_raw_fd() <= STANDARD_ERROR {
        return Err(FileFault::Log);
    }
    match file.try_lock() {
        Ok(()) => Ok(()),
        Err(error) => match io::Error::from(error).kind() {
            ErrorKind::WouldBlock => Err(FileFault::InUse),
            _ => Err(FileFault::Log),
        },
    }
}

/// The log of a file that was opened by this path, locked; a fault where the path doesn't lead to it any more.
fn locked(
    rt: &HostRuntime,
    path: String,
    file: File,
    len: Option<u64>,
) -> Result<SystemLog, FileFault>
    ensures unfailed { IfOk result (λ log. log.fault ≡ None) }
    ensures unwritten { IfOk result (λ log. log.written ≡ false) }
    ensures fault { IfErr result IsOpenFault }
{
    let log = SystemLog {
        rt: *rt,
        path,
        file,
        len,
        fault: None,
        written: false,
    };
    match log.lock() {
        Ok(()) => Ok(log),
        Err(fault) => {
            drop(log);
            Err(fault)
        }
    }
}

/// A path that a log keeps. It is allocated before the file is opened, so that none is made where memory runs out.
fn own_path(rt: &HostRuntime, path: &str) -> Result<String, FileFault>
    ensures { IfErr result IsDiskFault }
{
    match copied(rt, path) {
        Ok(own) => Ok(own),
        Err(error) => Err(LogFailure::from(error).0),
    }
}

fn copied(rt: &HostRuntime, path: &str) -> io::Result<String> {
    Ok(String::from_str(rt.alloc(), path)?)
}

/// Puts the names in the folder of the file of this path onto the disk.
fn sync_folder(rt: &HostRuntime, path: &str) -> Result<(), FileFault>
    ensures { IfErr result IsDiskFault }
{
    let folder = match Path::new(path).parent() {
        Some(folder) => folder.as_str(),
        None => "/",
    };
    // A path with one name has an empty one before that.
    let folder = if folder.is_empty() { "." } else { folder };
    match fs::open(rt, folder) {
        Ok(opened) => match opened.sync_all() {
            Ok(()) => Ok(()),
            Err(error) => Err(LogFailure::from(error).0),
        },
        Err(error) => Err(LogFailure::from(error).0),
    }
}

/// Puts the name of the file of this path onto the disk, and that of the file to which it leads, where it is a link.
fn sync_names(rt: &HostRuntime, path: &str) -> Result<(), FileFault>
    ensures { IfErr result IsDiskFault }
{
    sync_folder(rt, path)?;
    match fs::symlink_metadata(rt, path) {
        Ok(file) => {
            if file.is_symlink() {
                sync_linked(rt, path)
            } else {
                Ok(())
            }
        }
        Err(error) => Err(LogFailure::from(error).0),
    }
}

/// Puts the name of the file to which a link leads onto the disk. It may be in another folder.
fn sync_linked(rt: &HostRuntime, path: &str) -> Result<(), FileFault>
    ensures { IfErr result IsDiskFault }
{
    match fs::canonicalize(rt, path) {
        Ok(place) => sync_folder(rt, place.as_str()),
        Err(error) => Err(LogFailure::from(error).0),
    }
}

/// The log of this path, locked and with its name on the disk; none where there isn't one.
fn opened(rt: &HostRuntime, path: &str) -> Result<Option<SystemLog>, FileFault>
    ensures unfailed { IfOk result (λ found. IfSome found (λ log. log.fault ≡ None)) }
    ensures unwritten { IfOk result (λ found. IfSome found (λ log. log.written ≡ false)) }
    ensures fault { IfErr result IsOpenFault }
{
    let own = own_path(rt, path)?;
    let mut how = OpenOptions::new();
    how.read(true).append(true);
    match how.open(rt, path) {
        Ok(file) => named(rt, path, locked(rt, own, file, None)?),
        Err(error) => {
            drop(own);
            match error.kind() {
                ErrorKind::NotFound => Ok(None),
                _ => Err(LogFailure::from(error).0),
            }
        }
    }
}

/// A log that was opened by this path, with its name on the disk: whoever put it there may not have synced that.
fn named(rt: &HostRuntime, path: &str, log: SystemLog) -> Result<Option<SystemLog>, FileFault>
    requires unfailed { log.fault ≡ None }
    requires unwritten { log.written ≡ false }
    ensures unfailed { IfOk result (λ found. IfSome found (λ log. log.fault ≡ None)) }
    ensures unwritten { IfOk result (λ found. IfSome found (λ log. log.written ≡ false)) }
    ensures fault { IfErr result IsDiskFault }
{
    match sync_names(rt, path) {
        Ok(()) => Ok(Some(log)),
        Err(fault) => {
            drop(log);
            Err(fault)
        }
    }
}

/// A log of this path that is made, and locked.
fn made(rt: &HostRuntime, path: &str) -> Result<SystemLog, FileFault>
    ensures unfailed { IfOk result (λ log. log.fault ≡ None) }
    ensures unwritten { IfOk result (λ log. log.written ≡ false) }
    ensures fault { IfErr result IsOpenFault }
{
    let own = own_path(rt, path)?;
    let mut how = OpenOptions::new();
    how.read(true).append(true).create(true);
    match how.open(rt, path) {
        // Where another process has made it meanwhile, and is done with it, it has bytes: then it isn't as long as it
        // should be.
        Ok(file) => locked(rt, own, file, Some(0)),
        Err(error) => {
            drop(own);
            Err(LogFailure::from(error).0)
        }
    }
}

impl<'a> Logs for SystemLogs<'a> {
    type Log = SystemLog;

    ghost use Rattle.std.specs.Prelude.{None};

    ghost folder = { λ l. record { logs = None; fault = l.fault; given = l.given; outputs = None } };

    fn is_shown_in(&self, path: &str) -> bool {
        is_output_file(self.rt, path)
    }

    fn open(&mut self, path: &str) -> Result<Option<SystemLog>, FileFault> {
        match opened(self.rt, path) {
            Ok(Some(log)) => {
                self.given = true;
                Ok(Some(log))
            }
            Ok(None) => Ok(None),
            Err(fault) => {
                self.fault = Some(fault);
                Err(fault)
            }
        }
    }

    fn make(&mut self, path: &str) -> Result<SystemLog, FileFault> {
        match made(self.rt, path) {
            Ok(log) => {
                self.given = true;
                Ok(log)
            }
            Err(fault) => {
                self.fault = Some(fault);
                Err(fault)
            }
        }
    }

    fn sync_name(&mut self, path: &str) -> Result<(), FileFault> {
        match sync_names(self.rt, path) {
            Ok(()) => Ok(()),
            Err(fault) => {
                self.fault = Some(fault);
                Err(fault)
            }
        }
    }
}
