//! A run that is recovered from its log file.

use cell_drive::{RecoveredRun, ResumeFault};
use run_journal::{FileFault, WritingRoom};
use std::alloc::AllocError;

/// A run that was recovered from its log file, and all the memory with which it goes on.
#[derive(Drop)]
pub struct RecoveredLog {
    /// The run.
    pub recovered: RecoveredRun,
    /// The room of the writer that keeps the log.
    pub room: WritingRoom,
}

/// Why no run is recovered from a log file.
#[derive(Debug, Drop)]
pub enum RecoverFault {
    /// Its whole lines aren't recovered.
    Resume(ResumeFault),
    /// What comes after the whole lines, of which there are so many, can't be what a crash left of a line.
    NoTornEnd { lines: usize },
    /// It couldn't be cut, written or synced.
    File(FileFault),
}

impl From<AllocError> for RecoverFault {
    ghost use Rattle.std.specs.Prelude.{◌≡◌};
    ghost use Rattle.logged_drive.specs.RecoveredLogs.{out_of_memory};

    ghost from_gives = { λ _ fault. fault ≡ out_of_memory };

    fn from(error: AllocError) -> RecoverFault {
        RecoverFault::Resume(ResumeFault::from(error))
    }
}
