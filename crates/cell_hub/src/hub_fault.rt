ghost use Rattle.std.specs.Prelude.{◌≡◌};
ghost use Rattle.cell_hub.specs.RefusalNames.{refusal_name};

use cell_control::ReportFault;
use std::alloc::AllocError;
use thiserror::Error;

/// Why a hub refuses a call.
#[derive(Clone, Copy, Debug, PartialEq, Eq, Error)]
pub enum HubFault {
    /// There is no cell under the ticket: it was dismissed, or never admitted.
    #[error("NoSuchCell")]
    NoSuchCell,
    /// All serials were given; `u64::MAX` is none.
    #[error("SerialsSpent")]
    SerialsSpent,
    /// Out of memory.
    #[error("Memory")]
    Memory,
    /// The cell refuses the report.
    #[error("Cell {0}")]
    Cell(ReportFault),
}

impl From<AllocError> for HubFault {
    ghost use Rattle.std.specs.Prelude.{◌≡◌};
    ghost use Rattle.cell_hub.specs.declared.hub_fault.HubFault.TheVariants.{Memory};

    ghost from_gives = { λ _ fault. fault ≡ Memory };

    fn from(_error: AllocError) -> HubFault {
        HubFault::Memory
    }
}

impl HubFault {
    /// The name of the fault; if the cell refuses the report, the name of its reason.
    pub fn name(self) -> &'static str
        ensures { result.now ≡ refusal_name self }
    {
        match self {
            HubFault::NoSuchCell => "NoSuchCell",
            HubFault::SerialsSpent => "SerialsSpent",
            HubFault::Memory => "Memory",
            HubFault::Cell(reason) => reason.name(),
        }
    }
}
