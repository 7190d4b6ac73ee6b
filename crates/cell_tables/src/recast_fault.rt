use std::alloc::AllocError;
use thiserror::Error;

/// Why a cell isn't recast to another plan.
#[derive(Clone, Copy, Debug, PartialEq, Eq, Error)]
pub enum RecastFault {
    /// Something that was done doesn't keep that plan.
    #[error("IncompatiblePlan")]
    IncompatiblePlan,
    /// Out of memory.
    #[error("Memory")]
    Memory,
}

impl From<AllocError> for RecastFault {
    ghost use Rattle.std.specs.Prelude.{◌≡◌};
    ghost use Rattle.cell_tables.specs.declared.recast_fault.RecastFault.TheVariants.{Memory};

    ghost from_gives = { λ _ fault. fault ≡ Memory };

    fn from(_error: AllocError) -> RecastFault {
        RecastFault::Memory
    }
}
