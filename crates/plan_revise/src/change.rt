//! A change of what is ahead of a run, and why it isn't made.

ghost use Rattle.std.specs.Prelude.{◌≡◌};
ghost use Rattle.plan_revise.specs.Names.{change_fault_name};

use shop_base::{JobNo, MachineNo, Moment};
use std::alloc::AllocError;
use thiserror::Error;

/// A change of what is ahead of a run.
#[derive(Clone, Copy, Debug)]
pub enum Change<'a> {
    /// What goes on on the machine is known to last until this moment.
    Until {
        machine: MachineNo,
        to: Moment,
    },
    /// A new job with the next number, last in each order of its route, which is written as on a job's line of an
    /// instance. Without a release it is released at the present moment, without a budget it has no promise.
    Add {
        route: &'a [u8],
        release: Option<Moment>,
        budget: Option<Moment>,
    },
    /// The job is taken out of the line by hand, or won't come: where it is in the cell it ends behind the step that it
    /// has entered last, and outside it is put aside.
    Scrap {
        job: JobNo,
    },
    /// The machine does no more for the rest of the run: the job that is on it ends there, each other job in the cell
    /// that has it ahead ends before it, and each such job outside is put aside.
    Down {
        machine: MachineNo,
    },
    /// Behind the steps that it has entered the job's route is this one, written as on a job's line of an instance. It goes
    /// as far behind in each order as it can without a cycle. Outside that is last. Its release and its budget stay.
    Route {
        job: JobNo,
        route: &'a [u8],
    },
    /// The job, which hasn't come, is due at this moment.
    Release {
        job: JobNo,
        release: Moment,
    },
    /// The job's promise is this moment.
    Budget {
        job: JobNo,
        budget: Moment,
    },
    /// A new job with the next number holds the machine, on which no job is, from the present moment to this one: its route
    /// is the machine, its release the present moment, it has no promise, and it is next in the machine's order. That it
    /// comes and enters is for the run to tell.
    Hold {
        machine: MachineNo,
        to: Moment,
    },
}

/// Why a change can't be: the first reason, in the order in which those of its kind are answered.
#[derive(Clone, Copy, Debug, PartialEq, Eq, Error)]
pub enum ChangeFault {
    /// The machine isn't one of the plant's.
    #[error("MachineOutOfRange")]
    MachineOutOfRange,
    /// No operation goes on on the machine.
    #[error("Idle")]
    Idle,
    /// A job is on the machine.
    #[error("Occupied")]
    Occupied,
    /// The operation, or the hold, is said to end before the present moment.
    #[error("TooSoon")]
    TooSoon,
    /// The nominal time of a step would be over the limit.
    #[error("NominalTooLarge")]
    NominalTooLarge,
    /// The route has an odd number of words.
    #[error("OddWords")]
    OddWords,
    /// A word of the route isn't a number.
    #[error("BadNumber")]
    BadNumber,
    /// The shop has as many jobs as it may have.
    #[error("TooManyJobs")]
    TooManyJobs,
    /// The route has no step.
    #[error("EmptyRoute")]
    EmptyRoute,
    /// The route has more steps than one may have where a job may visit a machine again.
    #[error("TooManySteps")]
    TooManySteps,
    /// A machine is on the route twice; where a job may visit a machine again, in two steps in a row.
    #[error("MachineTwice")]
    MachineTwice,
    /// The release is over the limit.
    #[error("ReleaseTooLarge")]
    ReleaseTooLarge,
    /// The budget is over the limit.
    #[error("BudgetTooLarge")]
    BudgetTooLarge,
    /// There is no such job.
    #[error("JobOutOfRange")]
    JobOutOfRange,
    /// The job has left the cell.
    #[error("JobGone")]
    JobGone,
    /// The job is put aside, or is on the machine of the jobs that are.
    #[error("JobAside")]
    JobAside,
    /// The job has come.
    #[error("JobArrived")]
    JobArrived,
    /// A job would have to be put aside, and the shop has as many machines as it may have.
    #[error("TooManyMachines")]
    TooManyMachines,
    /// Wherever the job goes in the order of the next machine on its way, there is a cycle.
    #[error("Locks")]
    Locks,
}

impl ChangeFault {
    /// The name of the fault.
    pub fn name(self) -> &'static str
        ensures { result.now ≡ change_fault_name self }
    {
        match self {
            ChangeFault::MachineOutOfRange => "MachineOutOfRange",
            ChangeFault::Idle => "Idle",
            ChangeFault::Occupied => "Occupied",
            ChangeFault::TooSoon => "TooSoon",
            ChangeFault::NominalTooLarge => "NominalTooLarge",
            ChangeFault::OddWords => "OddWords",
            ChangeFault::BadNumber => "BadNumber",
            ChangeFault::TooManyJobs => "TooManyJobs",
            ChangeFault::EmptyRoute => "EmptyRoute",
            ChangeFault::TooManySteps => "TooManySteps",
            ChangeFault::MachineTwice => "MachineTwice",
            ChangeFault::ReleaseTooLarge => "ReleaseTooLarge",
            ChangeFault::BudgetTooLarge => "BudgetTooLarge",
            ChangeFault::JobOutOfRange => "JobOutOfRange",
            ChangeFault::JobGone => "JobGone",
            ChangeFault::JobAside => "JobAside",
            ChangeFault::JobArrived => "JobArrived",
            ChangeFault::TooManyMachines => "TooManyMachines",
            ChangeFault::Locks => "Locks",
        }
    }
}

/// Why one change isn't made.
#[derive(Clone, Copy)]
pub(crate) enum Refusal {
    Fault(ChangeFault),
    Memory,
}

/// What comes of one change.
pub(crate) type Made = Result<(), Refusal>;

impl From<AllocError> for Refusal {
    ghost use Rattle.std.specs.Prelude.{◌≡◌};
    ghost use Rattle.plan_revise.specs.declared.change.Refusal.TheVariants.{Memory};

    ghost from_gives = { λ _ refusal. refusal ≡ Memory };

    fn from(_error: AllocError) -> Refusal {
        Refusal::Memory
    }
}

/// Why a run isn't revised. What was given is as it was.
#[derive(Clone, Copy, Debug, PartialEq, Eq, Error)]
pub enum NotRevised {
    /// The change at this place of the list, from 0, is the first that can't be.
    #[error("change {change} {fault}")]
    Refused { change: usize, fault: ChangeFault },
    /// Out of memory.
    #[error("Memory")]
    Memory,
}

impl From<AllocError> for NotRevised {
    ghost use Rattle.std.specs.Prelude.{◌≡◌};
    ghost use Rattle.plan_revise.specs.declared.change.NotRevised.TheVariants.{Memory};

    ghost from_gives = { λ _ answer. answer ≡ Memory };

    fn from(_error: AllocError) -> NotRevised {
        NotRevised::Memory
    }
}
