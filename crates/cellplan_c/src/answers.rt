//! The answers of the commands that judge a plan, called from C.

ghost use Rattle.std.specs.Prelude.{◌≡◌, IfOk, IfErr};
ghost use Rattle.command_answers.specs.Checks.{IsCheckLine};
ghost use Rattle.command_answers.specs.Explains.{IsExplanation};
ghost use Rattle.cellplan_c.specs.Numbers.{named};
ghost use Rattle.cellplan_c.specs.Calls.{Answers, AreTextsReported, IsTextFaultReport};
ghost use Rattle.cellplan_c.specs.FaultsWithoutLine.{HasNoLine};

use crate::faults::fault_answer;
use crate::instances::name_in;
use crate::rooms::put_answer;
use command_answers::{Answer, CommandFault, check, explain};
use std::alloc::Global;

/// The answer of the command `check` to the two texts, or its fault's line, as the program writes it. With a name the
/// first text is a collection with an instance of this name, and with an empty one it is one instance. The words
/// after `instance: ` and `plan: ` are in no clause.
#[unsafe(no_mangle)]
pub extern "C" fn cellplan_check(
    alloc: Global,
    instance: &[u8],
    name: &[u8],
    plan: &[u8],
    line: &mut [u8],
    length: &mut usize,
) -> u32
    ensures { AreTextsReported instance.now (named name.now) plan.now IsCheckLine
        (Answers result line.old line.new length.new) }
{
    let answered = check(alloc, instance, name_in(name), plan);
    put_answer(or_fault_line(alloc, answered), line, length)
}

/// The answer of the command `explain` to the two texts, or its fault's line, as the program writes it. The name is as
/// for [`cellplan_check`].
#[unsafe(no_mangle)]
pub extern "C" fn cellplan_explain(
    alloc: Global,
    instance: &[u8],
    name: &[u8],
    plan: &[u8],
    text: &mut [u8],
    length: &mut usize,
) -> u32
    ensures { AreTextsReported instance.now (named name.now) plan.now IsExplanation
        (Answers result text.old text.new length.new) }
{
    let answered = explain(alloc, instance, name_in(name), plan);
    put_answer(or_fault_line(alloc, answered), text, length)
}

/// The answer, or the line of a text's fault. A fault of no text is passed on.
fn or_fault_line(
    alloc: Global,
    answered: Result<Answer, CommandFault>,
) -> Result<Answer, CommandFault>
    ensures answer { IfOk answered (λ answer. result ≡ Ok answer) }
    ensures line { IfErr answered (λ fault. IfOk result (IsTextFaultReport fault)) }
    ensures unsaid { IfErr answered (λ fault. IfErr result (HasNoLine fault)) }
{
    match answered {
        Ok(answer) => Ok(answer),
        Err(fault) => fault_answer(alloc, fault),
    }
}
