//! Why nothing is decided.

use std::alloc::AllocError;
use thiserror::Error;

/// Why nothing is decided.
#[derive(Clone, Copy, Debug, PartialEq, Eq, Error)]
pub enum DecideFault {
    /// The job whose leaving is asked for isn't of the shop.
    #[error("JobOutOfRange")]
    JobOutOfRange,
    /// Out of memory, here or in the chooser.
    #[error("Memory")]
    Memory,
}

impl From<AllocError> for DecideFault {
    ghost use Rattle.std.specs.Prelude.{◌≡◌};
    ghost use Rattle.plan_decide.specs.declared.decide_fault.DecideFault.TheVariants.{Memory};

    ghost from_gives = { λ _ fault. fault ≡ Memory };

    fn from(_error: AllocError) -> DecideFault {
        DecideFault::Memory
    }
}
