//! The command `shape`.

ghost use Rattle.std.specs.Prelude.{IfOk};
ghost use Rattle.command_answers.specs.Shapes.{IsFoundLine, IsRefusedLine};
ghost use Rattle.command_answers.specs.Steps.{IsOrMemory};
ghost use Rattle.command_answers.specs.Commands.{RunsShape};

use crate::answer::{Answer, Answered, GOOD};
use crate::inputs::{InputPaths, shape_files};
use crate::lines::line_answer;
use crate::shape_faults::fault_answer;
use crate::texts::Texts;
use shop_base::{ShapeFault, Shaped};
use std::alloc::{AllocError, Global};

/// Whether the plan of a file is well shaped for the instance of another, and if not, its first fault.
pub fn shape_answer<T: Texts>(alloc: Global, texts: &mut T, inputs: &InputPaths<'_>) -> Answered
    ensures { RunsShape T.gives inputs.now texts.old result texts.new }
{
    let found = shape_files(alloc, texts, inputs)?;
    Ok(found_answer(alloc, found)?)
}

/// The line of a well-shaped plan, or of one that isn't, with its first fault.
fn found_answer(alloc: Global, found: Result<Shaped, ShapeFault>) -> Result<Answer, AllocError>
    ensures { IfOk result (IsFoundLine found) }
{
    match found {
        Ok(shaped) => {
            drop(shaped);
            line_answer(alloc, b"shaped\n", GOOD)
        }
        Err(fault) => not_shaped_answer(alloc, fault),
    }
}

/// The line of a plan that isn't well shaped, with its first fault.
pub(crate) fn not_shaped_answer(alloc: Global, fault: ShapeFault) -> Result<Answer, AllocError>
    ensures { IfOk result (IsRefusedLine fault) }
{
    fault_answer(alloc, b"not shaped ", fault)
}

/// The same line, as the answer of a command.
pub(crate) fn unshaped_answer(alloc: Global, fault: ShapeFault) -> Answered
    ensures { IsOrMemory (IsRefusedLine fault) result }
{
    Ok(not_shaped_answer(alloc, fault)?)
}
