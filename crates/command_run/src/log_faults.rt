//! The faults of logs, and of runs with a log, as those of commands.

ghost use Rattle.std.specs.Prelude.{◌≡◌};
ghost use Rattle.command_run.specs.Logs.{log_command_fault, logged_command_fault};

use cell_drive::DriveFault;
use command_answers::CommandFault;
use run_journal::FileFault;

/// A fault of a log as one of a command.
#[derive(Drop)]
pub(crate) struct LogFault(pub CommandFault);

impl From<FileFault> for LogFault {
    ghost from_gives = { λ given fault. fault.0 ≡ log_command_fault given };

    fn from(given: FileFault) -> LogFault {
        LogFault(match given {
            FileFault::Log => CommandFault::Log,
            FileFault::InUse => CommandFault::LogInUse,
            FileFault::Read => CommandFault::Read,
            FileFault::TooLong => CommandFault::InputTooLong,
            FileFault::Memory => CommandFault::Memory,
        })
    }
}

/// A fault of a run with a log. A write that failed may be the log's.
#[derive(Drop)]
pub(crate) struct LoggedFault {
    pub fault: DriveFault,
    pub log_failed: bool,
}

impl From<LoggedFault> for LogFault {
    ghost from_gives = { λ given fault. fault.0 ≡ logged_command_fault given.log_failed given.fault };

    fn from(given: LoggedFault) -> LogFault {
        LogFault(match given.fault {
            DriveFault::Read => CommandFault::Read,
            DriveFault::Write => {
                if given.log_failed {
                    CommandFault::Log
                } else {
                    CommandFault::Write
                }
            }
            DriveFault::InputTooLong => CommandFault::InputTooLong,
            DriveFault::Memory => CommandFault::Memory,
        })
    }
}
