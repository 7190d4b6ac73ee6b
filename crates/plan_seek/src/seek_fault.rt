//! Why no plan was found.

use shop_base::{Moment, ShapeFault, Shop};
use std::alloc::AllocError;
use thiserror::Error;

/// Why no plan was found: the first reason, the numbers before the rounds and both before the search.
#[derive(Clone, Copy, Debug, PartialEq, Eq, Error)]
pub enum SeekFault {
    /// There are too few or too many releases, budgets or cleaning times, or one is over its limit: the first
    /// such fault that `shape` would find.
    #[error("BadNumbers {0}")]
    BadNumbers(ShapeFault),
    /// No proposal was accepted, and the serial plan is late.
    #[error("Exhausted")]
    Exhausted,
    /// There are more than 1000 rounds.
    #[error("TooManyRounds")]
    TooManyRounds,
    /// Out of memory, here or in a proposer.
    #[error("Memory")]
    Memory,
}

impl From<AllocError> for SeekFault {
    ghost use Rattle.std.specs.Prelude.{◌≡◌};
    ghost use Rattle.plan_seek.specs.declared.seek_fault.SeekFault.TheVariants.{Memory};

    ghost from_gives = { λ _ fault. fault ≡ Memory };

    fn from(_error: AllocError) -> SeekFault {
        SeekFault::Memory
    }
}

/// The shop and the numbers for which no plan was found, given back with the reason.
#[derive(Debug, Drop)]
pub struct NotFound {
    pub fault: SeekFault,
    pub shop: Shop,
    pub release: Vec<Moment>,
    pub budget: Vec<Moment>,
    pub clean: Option<Vec<Moment>>,
}
