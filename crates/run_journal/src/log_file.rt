ghost use Rattle.std.specs.Prelude.{◌≡◌, ℕ, ◌≤◌, ◌<◌, ◌++◌, List, length, take, Option, None, Some, Bool, true, false, IfOk, IfErr, IfSome, OnOk};
ghost use Rattle.run_journal.specs.declared.file_fault.FileFault.{FileFault};
ghost use Rattle.run_journal.specs.LogFiles.{Leaves, IsDurable, LeavesNoMore, IsReadFault, HasFailed};

use crate::file_fault::FileFault;
use std::alloc::Global;

/// A file that is appended to, and what a crash may leave of it: of the program, or of the machine.
///
/// Each call may fail, and from any call on all of them may; once an append, a cut or a sync has failed, none of these
/// is called any more. So a crash in the middle of some code is one of the runs that its contract covers: the run in
/// which each call after the crash fails and does nothing. A crash in the middle of a call leaves what it may leave
/// before that call or after it.
pub trait LogFile {
    // The bytes that a read gives, where they are known.
    ghost seen: { Self → Option (List ℕ) };

    // What a crash may leave now.
    ghost crash_states: { Self → List ℕ → Type 0 };

    // The fault of the last call that has failed, if one has.
    ghost fault: { Self → Option FileFault };

    // Whether an append or a cut was called: else no byte of it was changed.
    ghost written: { Self → Bool };

    /// All the bytes, if there are at most `most`.
    fn read(&mut self, alloc: Global, most: usize) -> Result<Vec<u8>, FileFault>
        ensures bytes { IfOk result (λ bytes. IfSome (seen self.old) (λ file. bytes.items ≡ file)) }
        ensures within { IfOk result (λ bytes. length bytes.items ≤ most) }
        ensures too_long { IfErr result
            (λ cause. cause ≡ FileFault.TooLong → IfSome (seen self.old) (λ file. most < length file)) }
        ensures seen { seen self.new ≡ seen self.old }
        ensures crash { LeavesNoMore (crash_states self.old) (crash_states self.new) }
        ensures written { written self.new ≡ written self.old }
        ensures unfailed { OnOk result (fault self.new ≡ fault self.old) }
        ensures failed { IfErr result (λ cause. IsReadFault cause × (fault self.new ≡ Some cause)) };

    /// Appends to a file that is synced. Until the next sync a crash may leave only the first of these bytes, and zeros
    /// in place of the others.
    fn append(&mut self, bytes: &[u8]) -> Result<(), FileFault>
        requires durable { IsDurable (seen self.old) (crash_states self.old) }
        requires unfailed { fault self.old ≡ None }
        ensures appended { OnOk result (IfSome (seen self.old) (λ file. seen self.new ≡ Some (file ++ bytes.now))) }
        ensures crash { IfSome (seen self.old)
            (λ file. Leaves (crash_states self.new) (length file) (file ++ bytes.now)) }
        ensures written { written self.new ≡ true }
        ensures unfailed { OnOk result (fault self.new ≡ None) }
        ensures failed { IfErr result (HasFailed (fault self.new)) };

    /// Cuts a file that is synced to its first bytes. Until the next sync a crash may leave more of them.
    fn cut(&mut self, len: usize) -> Result<(), FileFault>
        requires durable { IsDurable (seen self.old) (crash_states self.old) }
        requires unfailed { fault self.old ≡ None }
        requires within { IfSome (seen self.old) (λ file. len ≤ length file) }
        ensures cut { OnOk result (IfSome (seen self.old) (λ file. seen self.new ≡ Some (take len file))) }
        ensures crash { IfSome (seen self.old) (Leaves (crash_states self.new) len) }
        ensures written { written self.new ≡ true }
        ensures unfailed { OnOk result (fault self.new ≡ None) }
        ensures failed { IfErr result (HasFailed (fault self.new)) };

    /// After it a crash leaves what a read gives.
    fn sync(&mut self) -> Result<(), FileFault>
        requires unfailed { fault self.old ≡ None }
        ensures durable { OnOk result (IsDurable (seen self.new) (crash_states self.new)) }
        ensures seen { seen self.new ≡ seen self.old }
        ensures crash { LeavesNoMore (crash_states self.old) (crash_states self.new) }
        ensures written { written self.new ≡ written self.old }
        ensures unfailed { OnOk result (fault self.new ≡ None) }
        ensures failed { IfErr result (HasFailed (fault self.new)) };
}
