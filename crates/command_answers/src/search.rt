//! The command `plan`.

ghost use Rattle.plan_seek.specs.Tasks.{task_in};
ghost use Rattle.plan_seek.specs.Turns.{search_by};
ghost use Rattle.command_answers.specs.Search.{IsSearchAnswer, IsNoPlanAnswer};
ghost use Rattle.command_answers.specs.Commands.{RunsPlanWith};

use crate::answer::{Answered, GOOD, REFUSED};
use crate::command_fault::Unanswered;
use crate::inputs::{InputPaths, ParsedInputs, read_inputs};
use crate::lines::{document_answer, line_answer};
use crate::shape_faults::bad_numbers_answer;
use crate::texts::Texts;
use plan_seek::{Proposer, SeekFault, seek};
use std::alloc::Global;

/// A plan with the releases, budgets and cleaning times of the one in a file, that is accepted for the instance of
/// another file, as its text: the first proposal that is accepted, or else the serial plan. The orders of the given
/// plan are read and not used. The words after `bad numbers ` are in no clause. The text is read again: if it isn't
/// that plan's, the fault is `NotReadBack`.
pub fn plan_answer<T: Texts>(
    alloc: Global,
    texts: &mut T,
    inputs: &InputPaths<'_>,
    proposers: &[Box<dyn Proposer>],
    rounds: u32,
) -> Answered
    ensures { RunsPlanWith T.gives (λ b. may b) proposers.now rounds inputs.now texts.old result texts.new }
{
    let parsed = read_inputs(alloc, texts, inputs)?;
    search_answer(alloc, parsed, proposers, rounds)
}

/// The answer of the search for a plan with the numbers of this one.
fn search_answer(
    alloc: Global,
    parsed: ParsedInputs,
    proposers: &[Box<dyn Proposer>],
    rounds: u32,
) -> Answered
    ensures { IsSearchAnswer (search_by (λ b. may b) proposers.now (task_in parsed)) rounds result }
{
    let ParsedInputs { shop, plan } = parsed;
    let (release, budget, clean) = (plan.release, plan.budget, plan.clean);
    match seek(alloc, shop, release, budget, clean, proposers, rounds) {
        Ok(verified) => {
            let answer = document_answer(alloc, verified.shaped().plan(), GOOD);
            drop(verified);
            answer
        }
        Err(refused) => no_plan_answer(alloc, refused.fault),
    }
}

/// The line that says why there is no plan.
fn no_plan_answer(alloc: Global, fault: SeekFault) -> Answered
    ensures { IsNoPlanAnswer fault result }
{
    if let Some(fault) = Unanswered::from(fault).0 {
        return Err(fault);
    }
    match fault {
        SeekFault::BadNumbers(fault) => Ok(bad_numbers_answer(alloc, fault)?),
        SeekFault::Exhausted => Ok(line_answer(alloc, b"exhausted\n", REFUSED)?),
        SeekFault::TooManyRounds => Ok(line_answer(alloc, b"too many rounds\n", REFUSED)?),
        SeekFault::Memory => unreachable!(),
    }
}
