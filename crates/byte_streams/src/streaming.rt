//! A whole input, read piece by piece and answered line by line.

ghost use Rattle.std.specs.Prelude.{◌≡◌, ◌+◌, ◌^◌, ◌<◌, ◌≤◌, [], length, IfOk, OnOk};
ghost use Rattle.std.specs.Io.KnownBytes.{Keeps, ReadConsumes};
ghost use Rattle.byte_streams.specs.Lent.{sink_state, output_of, streams_of, lent};
ghost use Rattle.byte_streams.specs.Answering.{WereAnswered};
ghost use Rattle.byte_streams.specs.Reading.{IsReadOn, IsPastLimit, IsFinished, last_line, reached};
ghost use Rattle.byte_streams.specs.Streams.{IsShown, IsStreamed};

use crate::buffered_sink::BufferedSink;
use crate::drive_fault::DriveFault;
use crate::held_line::HeldLine;
use crate::line_handler::LineHandler;
use crate::pieces::{Input, line_held, take_piece};
use crate::sink::{Sink, WriteFault};
use crate::source::Source;
use text_lines::MAX_INPUT;

/// Shows what was answered within the limit. Then the fault is that more came.
fn past_limit<W: BufferedSink>(writer: &mut W) -> DriveFault
    ensures written { Keeps (W.written writer.old) (W.written writer.new) }
    ensures fault { IsPastLimit result (output_of W.Sink W.pending writer.old) (output_of W.Sink W.pending writer.new) }
{
    match writer.flush() {
        Ok(()) => DriveFault::InputTooLong,
        Err(_) => DriveFault::Write,
    }
}

/// Shows what was answered, and then reads on.
fn read_on<R: Source, W: BufferedSink>(
    reader: &mut R,
    room: &mut [u8],
    writer: &mut W,
) -> Result<usize, DriveFault>
    requires { 0 < length room.old }
    ensures count { IfOk result (λ count. count ≤ length room.new) }
    ensures given { ReadConsumes (R.left reader.old) (R.left reader.new) result room.new }
    ensures written { Keeps (W.written writer.old) (W.written writer.new) }
    ensures failed { IsReadOn result (lent R.Source W.Sink W.pending reader.old writer.old reader.new writer.new) }
    ensures shown { IsShown result (W.pending writer.new) }
{
    if writer.flush().is_err() {
        return Err(DriveFault::Write);
    }
    match reader.get(room, writer) {
        Ok(count) => Ok(count),
        Err(_) => Err(DriveFault::Read),
    }
}

/// Answers the last line, where bytes of it are held.
fn answer_last<H: LineHandler, W: Sink>(
    handler: &mut H,
    input: &Input,
    writer: &mut W,
) -> Result<(), WriteFault>
    requires { input.now.lines + 1 < 2 ^ 64 }
    ensures { WereAnswered H.answers handler.old (input.now.lines + 1) (last_line input.now.held) handler.new result
        (sink_state W.Sink writer.old) (sink_state W.Sink writer.new) }
{
    if input.held.is_empty() {
        return Ok(());
    }
    handler.answer(input.lines + 1, line_held(&input.held), writer)
}

/// Answers the last line, where bytes of it are held, writes the closing text, and shows all.
fn finish<H: LineHandler, W: BufferedSink>(
    handler: &mut H,
    input: &Input,
    writer: &mut W,
) -> Result<(), WriteFault>
    requires { input.now.lines + 1 < 2 ^ 64 }
    ensures finished { IsFinished result H.answers H.closes (reached handler.old input.now) handler.new
        (sink_state W.Sink writer.old) (sink_state W.Sink writer.new) }
    ensures shown { OnOk result (W.pending writer.new ≡ []) }
{
    answer_last(handler, input, writer)?;
    handler.put_closing(writer)?;
    writer.flush()
}

/// Answers each line that the reader gives, and writes the closing text after the last answer. The room holds what is
/// read at a time.
///
/// A line is answered once its line feed is read, or at the end of the input if bytes are left. One carriage return
/// before the line feed, or at the end, isn't part of the line. All that was answered is shown before the reader is
/// asked for more, and at the end. After a failed write no line is answered. `Memory` is never answered, since only one
/// line is held at a time. Past the limit of an input at most as many bytes are read as the room has.
pub fn stream<H: LineHandler, R: Source, W: BufferedSink>(
    handler: &mut H,
    reader: &mut R,
    room: &mut [u8],
    writer: &mut W,
) -> Result<(), DriveFault>
    requires { 0 < length room.old }
    ensures { IsStreamed result (length room.old) H.answers H.closes handler.old handler.new
        (streams_of R.Source W.Sink W.pending reader.old writer.old)
        (streams_of R.Source W.Sink W.pending reader.new writer.new) }
{
    let mut input = Input {
        held: HeldLine::new(),
        lines: 0,
    };
    let mut left = MAX_INPUT;
    'reads: loop {
        let count = read_on(reader, room, writer)?;
        if count == 0 {
            return match finish(handler, &input, writer) {
                Ok(()) => Ok(()),
                Err(_) => Err(DriveFault::Write),
            };
        }
        let piece = &room[..count];
        let within = piece.len().min(left);
        match take_piece(handler, &mut input, &piece[..within], writer) {
            Ok(()) => {}
            Err(_) => return Err(DriveFault::Write),
        }
        if within < piece.len() {
            return Err(past_limit(writer));
        }
        left -= within;
    }
}
