//! The line of a text's fault.

ghost use Rattle.std.specs.Prelude.{◌≡◌, ◌++◌, ℕ, List, IfOk, IfErr, codes};
ghost use Rattle.command_answers.specs.declared.command_fault.CommandFault.TheVariants.{Memory};
ghost use Rattle.cellplan_c.specs.Calls.{IsTextFaultReport};
ghost use Rattle.cellplan_c.specs.FaultsWithoutLine.{HasNoLine};

use crate::statuses::FAULT;
use command_answers::{Answer, CommandFault};
use std::alloc::{AllocError, Global};

/// The line that the program writes for a text's fault on its standard error, as an answer with its status. A fault of
/// no text is passed on.
pub fn fault_answer(alloc: Global, fault: CommandFault) -> Result<Answer, CommandFault>
    ensures line { IfOk result (IsTextFaultReport fault) }
    ensures unsaid { IfErr result (HasNoLine fault) }
{
    match fault {
        CommandFault::Instance(why) => {
            refusal(alloc, b"cellplan: instance: ", why.to_string(alloc))
        }
        CommandFault::Plan(why) => refusal(alloc, b"cellplan: plan: ", why.to_string(alloc)),
        CommandFault::Names(_)
        | CommandFault::Read
        | CommandFault::Write
        | CommandFault::InputTooLong
        | CommandFault::Log
        | CommandFault::LogInUse
        | CommandFault::Memory => Err(fault),
    }
}

/// A line as an answer: what is refused, and the words that say why; or that memory ran out.
fn refusal(
    alloc: Global,
    what: &[u8],
    words: Result<String, AllocError>,
) -> Result<Answer, CommandFault>
    ensures text { IfOk result (λ answer. (words : List ℕ) × (answer.text.items ≡ what.now ++ words ++ codes "\n")) }
    ensures status { IfOk result (λ answer. answer.status ≡ 3) }
    ensures memory { IfErr result (λ fault. fault ≡ Memory) }
{
    let words = words?;
    let text = [what, words.as_bytes(), b"\n"].concat(alloc)?;
    Ok(Answer {
        text,
        status: FAULT,
    })
}
