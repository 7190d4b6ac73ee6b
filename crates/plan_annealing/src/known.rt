//! What the search knows at the end of a round.

use crate::opening::FIRST_SIZE;
use crate::standing::Lateness;
use std::alloc::{AllocError, Global};

/// What the search knows at the end of a round: the plan at hand, how late that and the best one that it has met were,
/// whether the round was without a better one, and how many jobs it opens, in 1/16.
#[derive(Drop)]
pub struct Known {
    pub(crate) places: Vec<u32>,
    pub(crate) order: Vec<u32>,
    pub(crate) lateness: Lateness,
    pub(crate) least: Lateness,
    pub(crate) is_stuck: bool,
    pub(crate) size: u32,
}

impl Known {
    /// Nothing is known yet.
    pub fn new(alloc: Global) -> Known {
        Known {
            places: Vec::new(alloc),
            order: Vec::new(alloc),
            lateness: Lateness::NONE,
            least: Lateness::NONE,
            is_stuck: false,
            size: FIRST_SIZE,
        }
    }

    /// Whether a job is late in the best plan that the search has met, or it has met none.
    pub fn is_late(&self) -> bool {
        self.least.total > 0
    }
}
