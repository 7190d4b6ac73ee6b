use crate::shop::{JobNo, MachineNo};
use thiserror::Error;

/// Why a plan isn't well shaped for a shop: the first reason, counts before limits before orders, and
/// orders from the first place of the first machine on.
#[derive(Clone, Copy, Debug, PartialEq, Eq, Error)]
pub enum ShapeFault {
    /// There isn't one release per job.
    #[error("ReleaseCount")]
    ReleaseCount,
    /// There isn't one budget per job.
    #[error("BudgetCount")]
    BudgetCount,
    /// There isn't one order per machine.
    #[error("OrderCount")]
    OrderCount,
    /// There are cleaning times, but not one per machine.
    #[error("CleanCount")]
    CleanCount,
    /// The release of the job is over the limit.
    #[error("ReleaseTooLarge job {job}")]
    ReleaseTooLarge { job: JobNo },
    /// The budget of the job is over the limit.
    #[error("BudgetTooLarge job {job}")]
    BudgetTooLarge { job: JobNo },
    /// The cleaning time of the machine is over the limit.
    #[error("CleanTooLarge machine {machine}")]
    CleanTooLarge { machine: MachineNo },
    /// The place in the machine's order names no job of the shop.
    #[error("JobOutOfRange machine {machine} place {place}")]
    JobOutOfRange { machine: MachineNo, place: usize },
    /// The route of the job at this place doesn't visit the machine.
    #[error("NotOnRoute machine {machine} place {place}")]
    NotOnRoute { machine: MachineNo, place: usize },
    /// The job at this place stands earlier in the machine's order as often as its route visits the machine.
    #[error("JobTwice machine {machine} place {place}")]
    JobTwice { machine: MachineNo, place: usize },
    /// The machine's order lists the job less often than its route visits the machine.
    #[error("JobMissing machine {machine} job {job}")]
    JobMissing { machine: MachineNo, job: JobNo },
}
