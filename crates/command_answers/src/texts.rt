ghost use Rattle.std.specs.Prelude.{◌≤◌, ℕ, List, Result, IfOk, vec_len};
ghost use Rattle.text_lines.specs.declared.limits.TheConstants.{MAX_INPUT};
ghost use Rattle.command_answers.specs.declared.command_fault.CommandFault.{CommandFault};
ghost use Rattle.command_answers.specs.Texts.{text_of, Asks};

use crate::answer::CommandResult;
use std::alloc::Global;

/// The files that the words of a command line name.
pub trait Texts {
    // In this state the file of a path gives these bytes or this fault, which leads to that state.
    ghost gives: { Self → List ℕ → Result (List ℕ) CommandFault → Self → Type 0 };

    /// The bytes of the file of this path, 67,108,864 at most. The faults are that it can't be read, that it has more
    /// bytes, and that memory ran out.
    fn text(&mut self, alloc: Global, path: &str) -> CommandResult<Vec<u8>>
        ensures asked { Asks gives path.now self.old (text_of result) self.new }
        ensures within { IfOk result (λ text. vec_len text ≤ MAX_INPUT) };
}
