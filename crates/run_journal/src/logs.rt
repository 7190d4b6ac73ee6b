ghost use Rattle.std.specs.Prelude.{◌≡◌, ◌⊎◌, [], None, Some, is_some, option_map, true, false, IfOk, IfErr, IfSome, OnOk};
ghost use Rattle.run_journal.specs.Folders.{Folder, handed, handed_if, held, is_named, is_one_of, IsDiskFault, IsOpenFault, with_fault, with_made, with_name};
ghost use Rattle.run_journal.specs.LogFiles.{IsDurable};

use crate::file_fault::FileFault;
use crate::log_file::LogFile;

/// Where logs are, each with a path.
pub trait Logs {
    /// A log that was opened to read it and to append to it, and is locked until it is dropped.
    type Log: LogFile + Drop;

    // The logs that are there, and what was done here.
    ghost folder: { Self → Folder };

    /// Whether the standard output goes to the file of this path, so that what is written there would stand in it.
    fn is_shown_in(&self, path: &str) -> bool
        ensures { IfSome (folder self.now).outputs (λ paths. result ≡ is_one_of paths path.now) };

    /// Opens the log of this path, and locks it; none where there isn't one. No byte of it is changed.
    fn open(&mut self, path: &str) -> Result<Option<Self::Log>, FileFault>
        ensures found { IfOk result (λ opened. IfSome (folder self.old).logs
            (λ logs. option_map Self.Log.seen opened ≡ option_map Some (held logs path.now))) }
        ensures unfailed { IfOk result (λ opened. IfSome opened (λ log. Self.Log.fault log ≡ None)) }
        ensures unwritten { IfOk result (λ opened. IfSome opened (λ log. Self.Log.written log ≡ false)) }
        ensures opened { IfOk result (λ opened. folder self.new ≡ handed_if (is_some opened) (folder self.old)) }
        ensures failed { IfErr result
            (λ cause. IsOpenFault cause × (folder self.new ≡ with_fault cause (folder self.old))) };

    /// Makes a log of this path, where there is none: it has no bytes, and is locked.
    fn make(&mut self, path: &str) -> Result<Self::Log, FileFault>
        ensures empty { IfOk result (λ log. IfSome (Self.Log.seen log) (λ file. file ≡ [])) }
        ensures durable { IfOk result (λ log. IsDurable (Self.Log.seen log) (Self.Log.crash_states log)) }
        ensures unfailed { IfOk result (λ log. Self.Log.fault log ≡ None) }
        ensures unwritten { IfOk result (λ log. Self.Log.written log ≡ false) }
        ensures known { IfOk result (λ log. IfSome (folder self.old).logs (λ _. Self.Log.seen log ≡ Some [])) }
        ensures none { OnOk result (IfSome (folder self.old).logs (λ logs. held logs path.now ≡ None)) }
        ensures made { OnOk result (folder self.new ≡ handed (with_made path.now (folder self.old))) }
        ensures failed { IfErr result
            (λ cause. IsOpenFault cause × ((folder self.new ≡ with_fault cause (folder self.old))
            ⊎ (folder self.new ≡ with_fault cause (with_made path.now (folder self.old))))) };

    /// Puts the name of the log of this path onto the disk, where there is one.
    fn sync_name(&mut self, path: &str) -> Result<(), FileFault>
        ensures named { OnOk result (IfSome (folder self.new).logs (λ logs. is_named logs path.now ≡ true)) }
        ensures others { OnOk result (folder self.new ≡ with_name path.now (folder self.old)) }
        ensures failed { IfErr result
            (λ cause. IsDiskFault cause × (folder self.new ≡ with_fault cause (folder self.old))) };
}
