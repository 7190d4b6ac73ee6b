ghost use Rattle.std.specs.Prelude.{Some};
ghost use Rattle.plan_text.specs.RowText.{row_text};

use crate::keys::PlanKey;
use std::alloc::AllocError;
use std::fmt;
use thiserror::Error;

/// Why a text isn't a plan, or a plan has no text: the first fault, in the order of these variants. Of several in the
/// lists it is the first one, with `release` read before `budget`, `order` and `clean`. Rows and places are numbered
/// from 0; for elements of `order`, `row` is the machine.
#[derive(Clone, Copy, Debug, PartialEq, Eq, Error)]
pub enum PlanFault {
    /// The bytes aren't a TOML document.
    #[error("NotToml")]
    NotToml,
    /// There is a version, and it isn't the whole number 1 or 2.
    #[error("BadVersion")]
    BadVersion,
    /// A key isn't one of this version.
    #[error("UnknownKey")]
    UnknownKey,
    /// The key is missing.
    #[error("MissingKey key {key}")]
    MissingKey {
        key: PlanKey,
    },
    /// The value of the key, or the row, isn't an array.
    #[error("NotArray key {key}{}", RowText(*.row))]
    NotArray {
        key: PlanKey,
        row: Option<usize>,
    },
    /// The element isn't a whole number.
    #[error("NotWhole key {key}{} place {place}", RowText(*.row))]
    NotWhole {
        key: PlanKey,
        row: Option<usize>,
        place: usize,
    },
    /// The element is negative, or greater than a moment or the number of a job can be.
    #[error("OutOfRange key {key}{} place {place}", RowText(*.row))]
    OutOfRange {
        key: PlanKey,
        row: Option<usize>,
        place: usize,
    },
    /// Out of memory.
    #[error("Memory")]
    Memory,
    /// The text of the plan would be read as another plan, or as none.
    #[error("NotReadBack")]
    NotReadBack,
}

impl From<AllocError> for PlanFault {
    ghost use Rattle.std.specs.Prelude.{◌≡◌};
    ghost use Rattle.plan_text.specs.declared.plan_fault.PlanFault.TheVariants.{Memory};

    ghost from_gives = { λ _ fault. fault ≡ Memory };

    fn from(_error: AllocError) -> PlanFault {
        PlanFault::Memory
    }
}

impl From<toml::de::Error> for PlanFault {
    ghost use Rattle.plan_text.specs.Answers.{IsFaultOf};

    ghost from_gives = { λ error fault. IsFaultOf error fault };

    fn from(error: toml::de::Error) -> PlanFault {
        match error {
            error if error.is_memory() => PlanFault::Memory,
            _ => PlanFault::NotToml,
        }
    }
}

/// The row in a fault's text, if there is one.
#[derive(Drop)]
struct RowText(Option<usize>);

impl fmt::Display for RowText {
    ghost output = { λ text. Some (row_text text.0) };

    fn fmt<W: fmt::Write>(&self, f: &mut fmt::Formatter<W>) -> fmt::Result {
        match self.0 {
            Some(row) => write!(f, " row {row}"),
            None => Ok(()),
        }
    }
}
