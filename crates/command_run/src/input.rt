//! The command without words.

ghost use Rattle.std.specs.Prelude.{◌≡◌, ◌<◌, ◌≤◌, [], length};
ghost use Rattle.command_answers.specs.Texts.{text_of};
ghost use Rattle.command_run.specs.Streams.{input_of};
ghost use Rattle.command_run.specs.Inputs.{IsInputRead, RunsInput};

use crate::devices::Streams;
use cell_drive::{BufferedSink, MAX_PIECE, Source, reading_room};
use command_answers::{Answered, CommandFault, CommandResult, facts_of};
use std::alloc::Global;
use text_lines::MAX_INPUT;

/// The facts of the instance in the input.
pub(crate) fn input_answer<R: Source, W: BufferedSink>(
    alloc: Global,
    streams: &mut Streams<R, W>,
) -> Answered
    requires { streams.old.output.pending ≡ [] }
    ensures read { RunsInput streams.old.input result streams.new.input }
    ensures output { streams.new.output ≡ streams.old.output }
{
    let mut room = reading_room(alloc)?;
    let read = read_pieces(alloc, &mut streams.input, &mut room, &streams.output);
    drop(room);
    let text = read?;
    facts_of(alloc, &text, None)
}

/// All bytes that the input gives until its end.
fn read_pieces<R: Source, W: BufferedSink>(
    alloc: Global,
    input: &mut R,
    room: &mut [u8],
    output: &W,
) -> CommandResult<Vec<u8>>
    requires room { (0 < length room.old) × (length room.old ≤ MAX_PIECE) }
    requires shown { W.pending output.now ≡ [] }
    ensures { IsInputRead (input_of R.Source input.old) (text_of result) (input_of R.Source input.new) }
{
    let mut text = Vec::new(alloc);
    let mut left = MAX_INPUT;
    'reads: loop {
        let Ok(count) = input.get(room, output) else {
            return Err(CommandFault::Read);
        };
        if count == 0 {
            return Ok(text);
        }
        if count > left {
            return Err(CommandFault::InputTooLong);
        }
        text.extend_from_slice(&room[..count])?;
        left -= count;
    }
}
