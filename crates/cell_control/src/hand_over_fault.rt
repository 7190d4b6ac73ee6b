use crate::rest_fault::RestFault;
use cell_tables::{PresentFault, RecastFault};
use shop_base::Node;
use thiserror::Error;

/// Why a run isn't handed over to another plan. The first reason: the moment is over the limit, the run so far isn't
/// one of that plan, the moment is before the last one, the plan has a cycle; `Memory` in place of any but the first
/// two.
#[derive(Debug, Drop, Error)]
pub enum HandOverFault {
    /// The moment can't be the present one.
    #[error("{0}")]
    Present(PresentFault),
    /// The run so far isn't one of the other plan.
    #[error("IncompatiblePlan")]
    IncompatiblePlan,
    /// The other plan's graph has this simple cycle, its least node first.
    #[error("Cycle")]
    Cycle(Vec<Node>),
    /// Out of memory.
    #[error("Memory")]
    Memory,
}

impl From<RecastFault> for HandOverFault {
    ghost use Rattle.std.specs.Prelude.{◌≡◌};
    ghost use Rattle.cell_control.specs.HandedOver.{recast_as};

    ghost from_gives = { λ fault result. result ≡ recast_as fault };

    fn from(fault: RecastFault) -> HandOverFault {
        match fault {
            RecastFault::IncompatiblePlan => HandOverFault::IncompatiblePlan,
            RecastFault::Memory => HandOverFault::Memory,
        }
    }
}

impl From<RestFault> for HandOverFault {
    ghost use Rattle.std.specs.Prelude.{◌≡◌};
    ghost use Rattle.cell_control.specs.HandedOver.{undriven_as};

    ghost from_gives = { λ fault result. result ≡ undriven_as fault };

    fn from(fault: RestFault) -> HandOverFault {
        match fault {
            RestFault::Cycle(nodes) => HandOverFault::Cycle(nodes),
            RestFault::Memory => HandOverFault::Memory,
        }
    }
}
