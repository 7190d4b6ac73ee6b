ghost use Rattle.std.specs.Prelude.{◌≡◌, ◌≤◌, true, false, length, take, None, Some, Err};

use run_journal::{FileFault, LogFile};
use std::alloc::{AllocError, Global};
use std::marker::Model;

/// A file in memory, which fails from some call on.
#[derive(Drop)]
pub(super) struct MemoryLog {
    /// All that a crash may leave.
    most: Vec<u8>,
    /// How many bytes of that a read gives.
    len: usize,
    /// How many of them a crash leaves at least.
    least: usize,
    /// Whether a crash leaves just what a read gives.
    synced: bool,
    /// How many calls don't fail any more.
    calls: usize,
    /// How many bytes an append that fails appends.
    torn: usize,
    /// The fault of the call that has failed.
    fault: Option<FileFault>,
    /// Whether an append or a cut was called.
    written: bool,
}

impl Model for MemoryLog {
    ghost use Rattle.std.specs.Prelude.{◌≤◌, take, length};
    ghost use Rattle.cell_tests.specs.Memory.{InMemory};

    ghost Value = { InMemory };

    ghost view = { λ m. record {
      seen = take m.len m.most.items;
      most = m.most.items;
      least = m.least;
      synced = m.synced;
      fault = m.fault;
      written = m.written;
    } };

    ghost invariant = { λ m. (m.least ≤ m.len) × (m.len ≤ length m.most.items) };
}

impl MemoryLog {
    /// A file with these bytes, all of them on the disk. So many calls don't fail. The next, if it appends, appends so
    /// many bytes.
    pub(super) fn new(bytes: Vec<u8>, calls: usize, torn: usize) -> MemoryLog
        ensures seen { result.seen ≡ bytes.items }
        ensures synced { result.synced ≡ true }
        ensures unfailed { result.fault ≡ None }
        ensures unwritten { result.written ≡ false }
    {
        let len = bytes.len();
        MemoryLog {
            most: bytes,
            len,
            least: len,
            synced: true,
            calls,
            torn,
            fault: None,
            written: false,
        }
    }

    /// How many bytes a crash leaves at least, and at most.
    pub(super) fn bounds(&self) -> (usize, usize) {
        if self.synced {
            (self.len, self.len)
        } else {
            (self.least, self.most.len())
        }
    }

    /// What a crash leaves that leaves so many bytes, with so many zeros behind them where not all is on the disk.
    pub(super) fn after_crash(
        &self,
        alloc: Global,
        count: usize,
        unwritten: usize,
    ) -> Result<Vec<u8>, AllocError> {
        let count = count.min(self.most.len());
        let mut left = self.most[..count].to_vec(alloc)?;
        if !self.synced {
            for _ in 0..unwritten {
                left.push(0)?;
            }
        }
        Ok(left)
    }

    /// How many calls don't fail any more.
    pub(super) fn calls_left(&self) -> usize {
        self.calls
    }

    /// Notes this fault and answers it.
    fn fails<T: Drop>(&mut self, fault: FileFault) -> Result<T, FileFault>
        ensures answered { result ≡ Err fault }
        ensures seen { self.new.seen ≡ self.old.seen }
        ensures most { self.new.most ≡ self.old.most }
        ensures least { self.new.least ≡ self.old.least }
        ensures synced { self.new.synced ≡ self.old.synced }
        ensures fault { self.new.fault ≡ Some fault }
        ensures written { self.new.written ≡ self.old.written }
    {
        self.fault = Some(fault);
        Err(fault)
    }
}

/// Counts a call of which so many don't fail any more, and answers whether it doesn't.
pub(super) fn passes(calls: &mut usize) -> bool {
    if *calls == 0 {
        return false;
    }
    *calls -= 1;
    true
}

impl LogFile for MemoryLog {
    ghost use Rattle.std.specs.Prelude.{Some};
    ghost use Rattle.cell_tests.specs.Memory.{CrashStates};

    ghost seen = { λ m. Some m.seen };

    ghost crash_states = { CrashStates };

    ghost fault = { λ m. m.fault };

    ghost written = { λ m. m.written };

    fn read(&mut self, alloc: Global, most: usize) -> Result<Vec<u8>, FileFault> {
        if !passes(&mut self.calls) {
            return self.fails(FileFault::Read);
        }
        if self.len > most {
            return self.fails(FileFault::TooLong);
        }
        match self.most[..self.len].to_vec(alloc) {
            Ok(bytes) => Ok(bytes),
            Err(_) => self.fails(FileFault::Memory),
        }
    }

    fn append(&mut self, bytes: &[u8]) -> Result<(), FileFault> {
        let works = passes(&mut self.calls);
        let most = if works { bytes.len() } else { self.torn };
        let count = bytes.len().min(most);
        self.written = true;
        self.most.truncate(self.len);
        self.least = self.len;
        self.synced = false;
        if self.most.extend_from_slice(&bytes[..count]).is_err() {
            return self.fails(FileFault::Log);
        }
        self.len = self.most.len();
        if works {
            return Ok(());
        }
        self.fault = Some(FileFault::Log);
        Err(FileFault::Log)
    }

    fn cut(&mut self, len: usize) -> Result<(), FileFault> {
        let works = passes(&mut self.calls);
        self.written = true;
        self.most.truncate(self.len);
        self.least = len;
        self.synced = false;
        if !works {
            return self.fails(FileFault::Log);
        }
        self.len = len;
        Ok(())
    }

    fn sync(&mut self) -> Result<(), FileFault> {
        if !passes(&mut self.calls) {
            return self.fails(FileFault::Log);
        }
        self.most.truncate(self.len);
        self.least = self.len;
        self.synced = true;
        Ok(())
    }
}
