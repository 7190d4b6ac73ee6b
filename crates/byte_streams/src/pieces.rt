//! The lines that end in a piece of the input.

ghost use Rattle.std.specs.Prelude.{◌≡◌, ◌+◌, ◌^◌, ◌<◌, ◌≤◌, [], length, Some, IfSome, OnOk, option_copied};
ghost use Rattle.byte_streams.specs.Holding.{held_line, ended_line, ended, held_after};
ghost use Rattle.byte_streams.specs.Lent.{sink_state};
ghost use Rattle.byte_streams.specs.Answering.{WasAnswered, WereAnswered};

use crate::held_line::{HeldLine, MAX_LINE};
use crate::line_handler::LineHandler;
use crate::sink::{Sink, WriteFault};
use text_lines::{cut_line, without_return};

/// How far an input has been read: how many lines have ended, and what is held of the next.
#[derive(Drop)]
pub(crate) struct Input {
    pub held: HeldLine,
    pub lines: u64,
}

/// The line of these bytes, unless it is too long.
fn line_of(bytes: &[u8]) -> Option<&[u8]>
    ensures line { option_copied result ≡ held_line (Some bytes.now) }
    ensures within { IfSome result (λ line. length line.now ≤ MAX_LINE) }
{
    let line = without_return(bytes);
    if line.len() <= MAX_LINE {
        Some(line)
    } else {
        None
    }
}

/// The line that is held, unless it is too long.
pub(crate) fn line_held(held: &HeldLine) -> Option<&[u8]>
    ensures line { option_copied result ≡ held_line held.now }
    ensures within { IfSome result (λ line. length line.now ≤ MAX_LINE) }
{
    line_of(held.bytes()?)
}

/// Answers the line that ends with these bytes. It is copied only if some of it is held.
fn answer_ended<H: LineHandler, W: Sink>(
    handler: &mut H,
    number: u64,
    held: &mut HeldLine,
    bytes: &[u8],
    writer: &mut W,
) -> Result<(), WriteFault>
    ensures answered { WasAnswered H.answers handler.old number
        (ended_line held.old bytes.now) handler.new W.Sink result writer.old writer.new }
    ensures cleared { held.new ≡ Some [] }
{
    if held.is_empty() {
        return handler.answer(number, line_of(bytes), writer);
    }
    held.push(bytes);
    let answered = handler.answer(number, line_held(held), writer);
    held.clear();
    answered
}

/// Answers the lines that end in this piece of the input, and holds what comes after them.
pub(crate) fn take_piece<H: LineHandler, W: Sink>(
    handler: &mut H,
    input: &mut Input,
    piece: &[u8],
    writer: &mut W,
) -> Result<(), WriteFault>
    requires { input.old.lines + length piece.now < 2 ^ 64 }
    ensures answered { WereAnswered H.answers handler.old (input.old.lines + 1) (ended input.old.held piece.now)
        handler.new result (sink_state W.Sink writer.old) (sink_state W.Sink writer.new) }
    ensures held { OnOk result (input.new.held ≡ held_after input.old.held piece.now) }
    ensures lines { OnOk result (input.new.lines ≡ input.old.lines + length (ended input.old.held piece.now)) }
{
    let mut lines = input.lines;
    let mut rest = piece;
    while let Some((line, after)) = cut_line(rest) {
        lines += 1;
        answer_ended(handler, lines, &mut input.held, line, writer)?;
        rest = after;
    }
    input.lines = lines;
    input.held.push(rest);
    Ok(())
}
