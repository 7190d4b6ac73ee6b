ghost use Rattle.std.specs.Prelude.{◌≡◌};
ghost use Rattle.plan_improve.specs.declared.improve_fault.ImproveFault.TheVariants.{Memory};

use std::alloc::AllocError;
use thiserror::Error;

/// Why no plan is given.
#[derive(Clone, Copy, Debug, PartialEq, Eq, Error)]
pub enum ImproveFault {
    /// There are more than `MAX_ROUNDS` rounds.
    #[error("TooManyRounds")]
    TooManyRounds,
    /// Out of memory, here or in an improver. The best plan so far is lost.
    #[error("Memory")]
    Memory,
}

impl From<AllocError> for ImproveFault {
    ghost from_gives = { λ _ fault. fault ≡ Memory };

    fn from(_error: AllocError) -> ImproveFault {
        ImproveFault::Memory
    }
}
