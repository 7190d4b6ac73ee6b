ghost use Rattle.std.specs.Prelude.{ℕ, ◌≤◌, List, length, Option, IfSome, option_copied};
ghost use Rattle.byte_streams.specs.Lent.{WroteOneTo};
ghost use Rattle.byte_streams.specs.Answering.{WasAnswered};

use crate::held_line::MAX_LINE;
use crate::sink::{Sink, WriteFault};

/// What answers the lines of an input, one after another.
pub trait LineHandler {
    // In this state the line of this number, none for one that is too long, is answered by this text, which leads
    // to that state.
    ghost answers: { Self → ℕ → Option (List ℕ) → List ℕ → Self → Type 0 };

    // The closing text in this state.
    ghost closes: { Self → List ℕ → Type 0 };

    /// Answers the line of this number, from 1; `None` stands for one that has too many bytes.
    fn answer<W: Sink>(
        &mut self,
        number: u64,
        line: Option<&[u8]>,
        writer: &mut W,
    ) -> Result<(), WriteFault>
        requires { IfSome line (λ line. length line.now ≤ MAX_LINE) }
        ensures { WasAnswered answers self.old number
            (option_copied line.entry) self.new W.Sink result writer.old writer.new };

    /// Writes the closing text, which comes after the last answer.
    fn put_closing<W: Sink>(&self, writer: &mut W) -> Result<(), WriteFault>
        ensures { WroteOneTo W.Sink result writer.old writer.new (closes self.now) };
}
