use crate::shop::JobNo;
use thiserror::Error;

/// Why a number of machines and a list of routes are no shop: the first reason, counts before routes,
/// and routes from the first step of the first job on.
#[derive(Clone, Copy, Debug, PartialEq, Eq, Error)]
pub enum ShopFault {
    /// There is no route.
    #[error("NoJobs")]
    NoJobs,
    /// There are more routes than a shop may have jobs.
    #[error("TooManyJobs")]
    TooManyJobs,
    /// There is no machine.
    #[error("NoMachines")]
    NoMachines,
    /// There are more machines than a shop may have.
    #[error("TooManyMachines")]
    TooManyMachines,
    /// The route of the job has no step.
    #[error("EmptyRoute job {job}")]
    EmptyRoute { job: JobNo },
    /// The route of the job, where machines may be visited again, has more steps than a route may have.
    #[error("TooManySteps job {job}")]
    TooManySteps { job: JobNo },
    /// The machine of the step isn't one of the shop's.
    #[error("MachineOutOfRange job {job} step {step}")]
    MachineOutOfRange { job: JobNo, step: usize },
    /// The machine of the step is that of the step before it or, where no machine may be visited again, of any earlier step.
    #[error("MachineTwice job {job} step {step}")]
    MachineTwice { job: JobNo, step: usize },
    /// The nominal time of the step is over the limit.
    #[error("NominalTooLarge job {job} step {step}")]
    NominalTooLarge { job: JobNo, step: usize },
}
