use cell_control::RestFault;
use plan_verifier::Why;
use run_log::RunFault;
use shop_base::Shaped;
use std::alloc::AllocError;
use thiserror::Error;

/// Why a run isn't recovered from its log: the first reason, in the order of the variants, unless memory runs out.
#[derive(Debug, Drop, Error)]
pub enum ResumeFault {
    /// The log's whole lines record no run of the plan, or the moment can't be the present one.
    #[error("{0}")]
    Run(RunFault),
    /// The plan has a cycle; or the log records no event, and the plan isn't accepted. The plan comes back with the
    /// evidence.
    #[error("Refused")]
    Refused(Shaped, Why),
    /// Out of memory.
    #[error("Memory")]
    Memory,
}

impl From<AllocError> for ResumeFault {
    ghost use Rattle.std.specs.Prelude.{◌≡◌};
    ghost use Rattle.cell_drive.specs.declared.resume_fault.ResumeFault.TheVariants.{Memory};

    ghost from_gives = { λ _ fault. fault ≡ Memory };

    fn from(_error: AllocError) -> ResumeFault {
        ResumeFault::Memory
    }
}

/// The plan of a rest that isn't driven, and why it isn't.
#[derive(Drop)]
pub(crate) struct Undriven {
    pub(crate) fault: RestFault,
    pub(crate) shaped: Shaped,
}

impl From<Undriven> for ResumeFault {
    ghost use Rattle.std.specs.Prelude.{◌≡◌};
    ghost use Rattle.cell_drive.specs.ResumeFaults.{undriven_fault};

    ghost from_gives = { λ cause fault. fault ≡ undriven_fault cause.fault cause.shaped };

    fn from(cause: Undriven) -> ResumeFault {
        let Undriven { fault, shaped } = cause;
        match fault {
            RestFault::Cycle(nodes) => ResumeFault::Refused(shaped, Why::Cycle(nodes)),
            RestFault::Memory => ResumeFault::Memory,
        }
    }
}
