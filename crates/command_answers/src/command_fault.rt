ghost use Rattle.std.specs.Prelude.{◌≡◌};
ghost use Rattle.command_answers.specs.declared.command_fault.CommandFault.TheVariants.{Memory};
ghost use Rattle.command_answers.specs.FileFaults.{IsFaultOfSystem};
ghost use Rattle.command_answers.specs.Instances.{instance_command_fault};
ghost use Rattle.command_answers.specs.Plans.{plan_command_fault};
ghost use Rattle.command_answers.specs.Naming.{names_command_fault};
ghost use Rattle.command_answers.specs.Search.{search_command_fault};
ghost use Rattle.command_answers.specs.ImprovingRests.{improve_command_fault};
ghost use Rattle.command_answers.specs.LogLines.{audit_command_fault};
ghost use Rattle.command_answers.specs.Moves.{moves_command_fault};
ghost use Rattle.command_answers.specs.InstanceTexts.{unwritten_fault};
ghost use Rattle.command_answers.specs.Revising.{refusal_name, unrevised_of};
ghost use Rattle.command_answers.specs.Statuses.{command_status_of};

use cell_control::RestFault;
use orlib_read::{NotWritten, OrFault};
use people_names::{JobNameFault, NamesFault};
use plan_improve::ImproveFault;
use plan_revise::{ChangeFault, NotRevised};
use plan_seek::SeekFault;
use plan_text::PlanFault;
use run_log::AuditFault;
use std::alloc::AllocError;
use std::io::{self, ErrorKind};
use thiserror::Error;

/// Why a command has no answer. `Memory` may come in place of any other answer.
#[derive(Debug, Drop, Error)]
pub enum CommandFault {
    /// The instance's text is refused, for another cause than memory.
    #[error("Instance {0}")]
    Instance(OrFault),
    /// The plan's text is refused, for another cause than memory.
    #[error("Plan {0}")]
    Plan(PlanFault),
    /// The text of names is refused, for another cause than memory.
    #[error("Names {0}")]
    Names(NamesFault),
    /// A file or the input can't be opened or read.
    #[error("Read")]
    Read,
    /// The output can't be written.
    #[error("Write")]
    Write,
    /// A file or the input has more bytes than the limit.
    #[error("InputTooLong")]
    InputTooLong,
    /// The log of a driven cell can't be opened, made, locked, cut, written or synced.
    #[error("Log")]
    Log,
    /// Another process has the log of a driven cell.
    #[error("LogInUse")]
    LogInUse,
    /// Memory ran out.
    #[error("Memory")]
    Memory,
}

impl From<AllocError> for CommandFault {
    ghost from_gives = { λ _ fault. fault ≡ Memory };

    fn from(_error: AllocError) -> CommandFault {
        CommandFault::Memory
    }
}

impl From<io::Error> for CommandFault {
    ghost from_gives = { λ error fault. IsFaultOfSystem error fault };

    fn from(error: io::Error) -> CommandFault {
        match error.kind() {
            ErrorKind::OutOfMemory => CommandFault::Memory,
            _ => CommandFault::Read,
        }
    }
}

impl From<OrFault> for CommandFault {
    ghost from_gives = { λ cause fault. fault ≡ instance_command_fault cause };

    fn from(cause: OrFault) -> CommandFault {
        match cause {
            OrFault::Memory => CommandFault::Memory,
            _ => CommandFault::Instance(cause),
        }
    }
}

impl From<PlanFault> for CommandFault {
    ghost from_gives = { λ cause fault. fault ≡ plan_command_fault cause };

    fn from(cause: PlanFault) -> CommandFault {
        match cause {
            PlanFault::Memory => CommandFault::Memory,
            _ => CommandFault::Plan(cause),
        }
    }
}

impl From<NamesFault> for CommandFault {
    ghost from_gives = { λ cause fault. fault ≡ names_command_fault cause };

    fn from(cause: NamesFault) -> CommandFault {
        match cause {
            NamesFault::Memory => CommandFault::Memory,
            _ => CommandFault::Names(cause),
        }
    }
}

impl From<NotWritten> for CommandFault {
    ghost from_gives = { λ cause fault. fault ≡ unwritten_fault cause };

    fn from(cause: NotWritten) -> CommandFault {
        match cause {
            NotWritten::Memory => CommandFault::Memory,
            NotWritten::NotReadBack => CommandFault::Plan(PlanFault::NotReadBack),
        }
    }
}

/// Why a change can't be: for itself, or for the name of the job that it makes.
#[derive(Clone, Copy)]
pub(crate) enum ChangeRefusal {
    OfShop(ChangeFault),
    OfName(JobNameFault),
}

impl ChangeRefusal {
    /// The name of the reason.
    pub(crate) fn name(self) -> &'static str
        ensures { result.now ≡ refusal_name self }
    {
        match self {
            ChangeRefusal::OfShop(fault) => fault.name(),
            ChangeRefusal::OfName(fault) => fault.name(),
        }
    }
}

/// Why nothing is changed: a change that can't be, by its place, or the fault of the command.
#[derive(Drop)]
pub(crate) enum Unrevised {
    Refused { change: usize, why: ChangeRefusal },
    Ends(CommandFault),
}

impl From<AllocError> for Unrevised {
    ghost use Rattle.command_answers.specs.declared.command_fault.Unrevised.TheVariants.{Ends};

    ghost from_gives = { λ _ unrevised. unrevised ≡ Ends Memory };

    fn from(error: AllocError) -> Unrevised {
        Unrevised::Ends(CommandFault::from(error))
    }
}

impl From<NotRevised> for Unrevised {
    ghost from_gives = { λ cause unrevised. unrevised ≡ unrevised_of cause };

    fn from(cause: NotRevised) -> Unrevised {
        match cause {
            NotRevised::Memory => Unrevised::Ends(CommandFault::Memory),
            NotRevised::Refused { change, fault } => Unrevised::Refused {
                change,
                why: ChangeRefusal::OfShop(fault),
            },
        }
    }
}

/// The fault of a command that a fault of a search, of a decision, of the moves or of the audit is: out of memory. Each
/// other one has an answer.
#[derive(Drop)]
pub(crate) struct Unanswered(pub Option<CommandFault>);

impl From<SeekFault> for Unanswered {
    ghost from_gives = { λ cause unanswered. unanswered.0 ≡ search_command_fault cause };

    fn from(cause: SeekFault) -> Unanswered {
        match cause {
            SeekFault::Memory => Unanswered(Some(CommandFault::Memory)),
            _ => Unanswered(None),
        }
    }
}

impl From<ImproveFault> for Unanswered {
    ghost from_gives = { λ cause unanswered. unanswered.0 ≡ improve_command_fault cause };

    fn from(cause: ImproveFault) -> Unanswered {
        match cause {
            ImproveFault::Memory => Unanswered(Some(CommandFault::Memory)),
            _ => Unanswered(None),
        }
    }
}

impl From<AuditFault> for Unanswered {
    ghost from_gives = { λ cause unanswered. unanswered.0 ≡ audit_command_fault cause };

    fn from(cause: AuditFault) -> Unanswered {
        match cause {
            AuditFault::Memory => Unanswered(Some(CommandFault::Memory)),
            _ => Unanswered(None),
        }
    }
}

impl From<RestFault> for Unanswered {
    ghost from_gives = { λ cause unanswered. unanswered.0 ≡ moves_command_fault cause };

    fn from(cause: RestFault) -> Unanswered {
        match cause {
            RestFault::Memory => Unanswered(Some(CommandFault::Memory)),
            _ => Unanswered(None),
        }
    }
}

impl CommandFault {
    /// The status that the program ends with at this fault.
    pub fn status(&self) -> u8
        ensures { result ≡ command_status_of self.now }
    {
        match self {
            CommandFault::Instance(_) | CommandFault::Plan(_) | CommandFault::Names(_) => 3,
            CommandFault::Memory => 4,
            CommandFault::Read
            | CommandFault::Write
            | CommandFault::InputTooLong
            | CommandFault::Log
            | CommandFault::LogInUse => 5,
        }
    }
}
