use shop_base::{JobNo, ShopFault};
use std::alloc::AllocError;
use thiserror::Error;

/// Why a text isn't an instance: the first fault in reading order. Lines and the words of a line are numbered
/// from 1, jobs from 0.
#[derive(Clone, Copy, Debug, PartialEq, Eq, Error)]
pub enum OrFault {
    /// No instance line of the collection has the name.
    #[error("NoInstance")]
    NoInstance,
    /// There is no size line.
    #[error("NoSizes")]
    NoSizes,
    /// The size line isn't two numbers alone or, behind a description, two numbers and the word `recrc`.
    #[error("BadSizes line {line}")]
    BadSizes { line: usize },
    /// The lines end before the line of this job.
    #[error("MissingJob job {job}")]
    MissingJob { job: JobNo },
    /// This word of a job line isn't a number.
    #[error("BadNumber line {line} word {word}")]
    BadNumber { line: usize, word: usize },
    /// A job line has an odd number of words.
    #[error("OddWords line {line}")]
    OddWords { line: usize },
    /// A line that isn't filler follows the last job line.
    #[error("Extra line {line}")]
    Extra { line: usize },
    /// The numbers don't make a shop.
    #[error("Shop {0}")]
    Shop(ShopFault),
    /// Out of memory.
    #[error("Memory")]
    Memory,
}

impl From<AllocError> for OrFault {
    ghost use Rattle.std.specs.Prelude.{◌≡◌};
    ghost use Rattle.orlib_read.specs.declared.or_fault.OrFault.TheVariants.{Memory};

    ghost from_gives = { λ _ fault. fault ≡ Memory };

    fn from(_error: AllocError) -> OrFault {
        OrFault::Memory
    }
}
