ghost use Rattle.std.specs.Prelude.{◌≡◌, option_map, bytes_eq};

use super::memory_log::{MemoryLog, passes};
use run_journal::{FileFault, Logs};
use std::alloc::Global;
use std::marker::Model;

/// A folder in memory with room for one log, which fails from some call on.
#[derive(Drop)]
pub(super) struct MemoryLogs {
    alloc: Global,
    /// The path of its log.
    path: Vec<u8>,
    /// The bytes of the log, if it is there.
    bytes: Option<Vec<u8>>,
    /// Whether its name is on the disk.
    named: bool,
    /// The fault of the call that has failed.
    fault: Option<FileFault>,
    /// Whether the log was opened or made.
    given: bool,
    /// How many calls don't fail any more.
    calls: usize,
}

impl Model for MemoryLogs {
    ghost use Rattle.std.specs.Prelude.{option_map};
    ghost use Rattle.cell_tests.specs.Memory.{OneLog};

    ghost Value = { OneLog };

    ghost view = { λ m. record {
      path = m.path.items;
      bytes = option_map (λ bytes. bytes.items) m.bytes;
      named = m.named;
      fault = m.fault;
      given = m.given;
    } };
}

/// Whether both have the same bytes.
fn are_same(one: &[u8], other: &[u8]) -> bool
    ensures { result ≡ bytes_eq one.now other.now }
{
    one == other
}

impl MemoryLogs {
    /// A folder for the log of this path, which isn't there. So many calls don't fail.
    pub(super) fn new(alloc: Global, path: Vec<u8>, calls: usize) -> MemoryLogs {
        MemoryLogs {
            alloc,
            path,
            bytes: None,
            named: false,
            fault: None,
            given: false,
            calls,
        }
    }

    /// Whether the log is there, and whether its name is on the disk.
    pub(super) fn has_log(&self) -> (bool, bool) {
        (self.bytes.is_some(), self.named)
    }
}

impl Logs for MemoryLogs {
    ghost use Rattle.cell_tests.specs.Memory.{folder_of};

    type Log = MemoryLog;

    ghost folder = { folder_of };

    fn is_shown_in(&self, _path: &str) -> bool {
        false
    }

    fn open(&mut self, path: &str) -> Result<Option<MemoryLog>, FileFault> {
        if !passes(&mut self.calls) {
            self.fault = Some(FileFault::Log);
            return Err(FileFault::Log);
        }
        if !are_same(&self.path, path.as_bytes()) {
            return Ok(None);
        }
        match &self.bytes {
            Some(bytes) => match bytes.to_vec(self.alloc) {
                Ok(bytes) => {
                    self.given = true;
                    Ok(Some(MemoryLog::new(bytes, self.calls, 0)))
                }
                Err(_) => {
                    self.fault = Some(FileFault::Memory);
                    Err(FileFault::Memory)
                }
            },
            None => Ok(None),
        }
    }

    fn make(&mut self, path: &str) -> Result<MemoryLog, FileFault> {
        if !passes(&mut self.calls)
            || self.bytes.is_some()
            || !are_same(&self.path, path.as_bytes())
        {
            self.fault = Some(FileFault::Log);
            return Err(FileFault::Log);
        }
        self.bytes = Some(Vec::new(self.alloc));
        self.named = false;
        self.given = true;
        Ok(MemoryLog::new(Vec::new(self.alloc), self.calls, 0))
    }

    fn sync_name(&mut self, path: &str) -> Result<(), FileFault> {
        if !passes(&mut self.calls)
            || self.bytes.is_none()
            || !are_same(&self.path, path.as_bytes())
        {
            self.fault = Some(FileFault::Log);
            return Err(FileFault::Log);
        }
        self.named = true;
        Ok(())
    }
}
