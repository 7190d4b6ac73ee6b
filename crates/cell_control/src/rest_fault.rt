use shop_base::Node;
use std::alloc::AllocError;
use thiserror::Error;

/// Why the rest of a run isn't driven.
#[derive(Debug, Drop, Error)]
pub enum RestFault {
    /// The plan's graph has this simple cycle, its least node first.
    #[error("Cycle")]
    Cycle(Vec<Node>),
    /// Out of memory.
    #[error("Memory")]
    Memory,
}

impl From<AllocError> for RestFault {
    ghost use Rattle.std.specs.Prelude.{◌≡◌};
    ghost use Rattle.cell_control.specs.declared.rest_fault.RestFault.TheVariants.{Memory};

    ghost from_gives = { λ _ fault. fault ≡ Memory };

    fn from(_error: AllocError) -> RestFault {
        RestFault::Memory
    }
}
