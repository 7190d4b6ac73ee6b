//! Whether the standard output is apart from the log that a command is given.

ghost use Rattle.std.specs.Prelude.{◌≡◌};
ghost use Rattle.std.specs.Option.{option_copied};
ghost use Rattle.command_words.specs.Choice.{IsChoiceWithin};
ghost use Rattle.command_run.specs.Program.{IsOutputLog, given_log_in};

use crate::command::{file, kept_log, rest_log};
use command_words::{Chosen, CommandName};
use run_journal::Logs;

/// The log that the command is given: that of whose rest is asked, a file of its own, or the one that it keeps.
fn given_log(chosen: &Chosen) -> Option<&str>
    requires { IsChoiceWithin chosen.now }
    ensures { option_copied result ≡ given_log_in chosen.now }
{
    match chosen.name {
        CommandName::Check
        | CommandName::Explain
        | CommandName::Schedule
        | CommandName::Improve
        | CommandName::Decide => rest_log(chosen),
        CommandName::Revise
        | CommandName::Resume
        | CommandName::Audit
        | CommandName::State
        | CommandName::Gantt => Some(file(chosen, 2)),
        _ => kept_log(chosen),
    }
}

/// Whether the standard output goes to the log that the command is given, so that its answer would stand in that.
pub(crate) fn is_shown<L: Logs>(chosen: &Chosen, logs: &L) -> bool
    requires { IsChoiceWithin chosen.now }
    ensures { IsOutputLog (given_log_in chosen.now) (L.folder logs.now) result }
{
    match given_log(chosen) {
        Some(path) => logs.is_shown_in(path),
        None => false,
    }
}
