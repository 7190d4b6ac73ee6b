ghost use Rattle.std.specs.Prelude.{◌≡◌};
ghost use Rattle.byte_streams.specs.Statuses.{status_of};

use std::alloc::AllocError;
use thiserror::Error;

/// Why lines were not all read and answered.
#[derive(Clone, Copy, Debug, PartialEq, Eq, Error)]
pub enum DriveFault {
    /// A read failed.
    #[error("Read")]
    Read,
    /// A write failed.
    #[error("Write")]
    Write,
    /// More bytes came than an input may have.
    #[error("InputTooLong")]
    InputTooLong,
    /// Out of memory, before the first byte was read.
    #[error("Memory")]
    Memory,
}

impl From<AllocError> for DriveFault {
    ghost use Rattle.std.specs.Prelude.{◌≡◌};
    ghost use Rattle.byte_streams.specs.declared.drive_fault.DriveFault.TheVariants.{Memory};

    ghost from_gives = { λ _ fault. fault ≡ Memory };

    fn from(_error: AllocError) -> DriveFault {
        DriveFault::Memory
    }
}

impl DriveFault {
    /// The status that the program ends with at this fault.
    pub fn status(&self) -> u8
        ensures { result ≡ status_of self.now }
    {
        match self {
            DriveFault::Read | DriveFault::Write | DriveFault::InputTooLong => 5,
            DriveFault::Memory => 4,
        }
    }
}
