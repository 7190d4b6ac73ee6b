//! The command `drive`, and what the other ones that drive cells share with it.

ghost use Rattle.std.specs.Prelude.{◌≡◌, []};
ghost use Rattle.command_run.specs.Drives.{IsEndAnswer, IsLineAnswer, drive_command_fault, status_at, end_of_drive};
ghost use Rattle.command_run.specs.Program.{RunsDrive};

use crate::devices::Streams;
use cell_drive::{BufferedSink, DriveEnd, DriveFault, Protocol, Source, drive_in};
use command_answers::{
    Answer, Answered, CommandFault, GOOD, InputPaths, Loaded, REFUSED, Texts, load_files,
    loaded_answer,
};
use std::alloc::Global;

/// A fault of a driven run as one of a command.
#[derive(Drop)]
pub(crate) struct CommandFaultOf(pub CommandFault);

impl From<DriveFault> for CommandFaultOf {
    ghost from_gives = { λ cause fault. fault.0 ≡ drive_command_fault cause };

    fn from(cause: DriveFault) -> CommandFaultOf {
        CommandFaultOf(match cause {
            DriveFault::Read => CommandFault::Read,
            DriveFault::Write => CommandFault::Write,
            DriveFault::InputTooLong => CommandFault::InputTooLong,
            DriveFault::Memory => CommandFault::Memory,
        })
    }
}

/// Loads a plan, and drives its cell to the end of the input if it is accepted; else its line is the answer.
pub(crate) fn drive_answer<T: Texts, R: Source, W: BufferedSink>(
    alloc: Global,
    texts: &mut T,
    inputs: &InputPaths<'_>,
    protocol: Protocol,
    streams: &mut Streams<R, W>,
) -> Answered
    ensures { RunsDrive T.gives protocol inputs.now texts.old streams.old result texts.new streams.new }
{
    match load_files(alloc, texts, inputs)?.accepted() {
        Ok(verified) => {
            let end = drive_in(
                alloc,
                verified,
                protocol,
                &mut streams.input,
                &mut streams.output,
            );
            end_answer(alloc, end)
        }
        Err(other) => line_answer(alloc, other),
    }
}

/// The line of a plan that isn't driven.
pub(crate) fn line_answer(alloc: Global, loaded: Loaded) -> Answered
    ensures { IsLineAnswer loaded result }
{
    Ok(loaded_answer(alloc, loaded)?)
}

/// What is answered at the end of a run, whose lines are written already.
pub(crate) fn end_answer(alloc: Global, end: Result<DriveEnd, DriveFault>) -> Answered
    ensures { IsEndAnswer (end_of_drive end) result }
{
    match end {
        Ok(end) => Ok(ended(alloc, end.done)),
        Err(fault) => Err(CommandFaultOf::from(fault).0),
    }
}

/// What is answered at the end of runs, whose lines are written already: whether all have ended.
pub(crate) fn ended(alloc: Global, done: bool) -> Answer
    ensures text { result.text.items ≡ [] }
    ensures status { result.status ≡ status_at done }
{
    let status = if done { GOOD } else { REFUSED };
    let text = Vec::new(alloc);
    Answer { text, status }
}
