use crate::command_fault::CommandFault;

/// What a command prints on the standard output, and the status that the program then ends with.
#[derive(Debug, Drop)]
pub struct Answer {
    pub text: Vec<u8>,
    pub status: u8,
}

/// What a step of a command gives, or why the command has no answer.
pub type CommandResult<T> = Result<T, CommandFault>;

/// The answer of a command, or why there is none.
pub type Answered = CommandResult<Answer>;

/// The status of a good answer.
pub const GOOD: u8 = 0;

/// The status of an answer that refuses a plan or a log, or is about a run that isn't finished.
pub const REFUSED: u8 = 1;
