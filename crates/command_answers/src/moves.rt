//! The moves of `schedule --moves`.

ghost use Rattle.std.specs.Prelude.{◌≡◌, ◌≤◌, ◌++◌, List, ℕ, Ok, IfOk, IfErr, IfSome, OnOk};
ghost use Rattle.shop_base.specs.declared.limits.TheConstants.{MAX_MOMENT};
ghost use Rattle.command_answers.specs.declared.command_fault.CommandFault.TheVariants.{Memory};
ghost use Rattle.command_answers.specs.Moves.{AreLinesBelow, IsMovesAnswer};
ghost use Rattle.command_answers.specs.declared.rests.PlanAnswer.TheVariants.{Verdict};
ghost use Rattle.command_answers.specs.Rests.{AnswersRest};
ghost use Rattle.command_answers.specs.Steps.{IsOrMemory};
ghost use Rattle.command_answers.specs.Commands.{RunsMoves};
ghost use Rattle.plan_explain.specs.Known.{IsKnownVerdict};

use crate::answer::{Answer, Answered, CommandResult};
use crate::command_fault::Unanswered;
use crate::inputs::RunFiles;
use crate::known_rests::{KnownRest, rest_of_run};
use crate::rests::{PlanAnswer, answer_judged};
use crate::texts::Texts;
use cell_tables::Rest;
use people_names::Names;
use plan_moves::{moves_from, push_move_lines};
use shop_base::Shaped;
use std::alloc::Global;

/// The moves of the run that goes on, in which everything is reported when it is due: below the line of `check` a line
/// for each, with the names and the clock of a file, which is read once the plan is shaped. A plan with a cycle has none.
pub fn moves_answer<T: Texts>(alloc: Global, texts: &mut T, run: &RunFiles<'_>) -> Answered
    requires { IfSome run.now.at (λ present. present ≤ MAX_MOMENT) }
    ensures { RunsMoves T.gives run.now texts.old result texts.new }
{
    let found = rest_of_run(alloc, texts, run, None)?;
    found_moves(alloc, found)
}

/// The moves of the rest of a run, or the line that stands instead.
fn found_moves(alloc: Global, found: Result<KnownRest, Answer>) -> Answered
    requires { IfOk found (λ s. IsKnownVerdict s.rest.plan s.rest.cell s.rest.present s.verdict) }
    ensures moves { IfOk found (λ s. IsOrMemory
        (IsMovesAnswer s.names s.rest.plan s.rest.cell s.rest.present) result) }
    ensures line { IfErr found (λ line. result ≡ Ok line) }
{
    match found {
        Ok(known) => {
            let (names, rest) = (known.names, known.rest);
            let line = answer_judged(alloc, &names, &rest, &known.verdict, PlanAnswer::Verdict)?;
            moves_below(alloc, line, &names, rest)
        }
        Err(line) => Ok(line),
    }
}

/// The moves of the rest of a run, below this line of the verdict on it.
fn moves_below(alloc: Global, mut line: Answer, names: &Names, rest: Rest<Shaped>) -> Answered
    requires { AnswersRest names.now Verdict rest.plan rest.cell rest.present line }
    ensures { IsOrMemory (IsMovesAnswer names.now rest.plan rest.cell rest.present) result }
{
    push_moves(alloc, &mut line.text, names, rest)?;
    Ok(line)
}

/// Adds a line for each move. A plan with a cycle has none.
fn push_moves(
    alloc: Global,
    text: &mut Vec<u8>,
    names: &Names,
    rest: Rest<Shaped>,
) -> CommandResult<()>
    ensures lines { OnOk result ((lines : List ℕ) × AreLinesBelow names.now rest.plan rest.cell rest.present lines
        × (text.new.items ≡ text.old.items ++ lines)) }
    ensures fault { IfErr result (λ fault. fault ≡ Memory) }
{
    match moves_from(alloc, rest) {
        Ok(moves) => {
            let pushed = push_move_lines(text, names, &moves);
            drop(moves);
            Ok(pushed?)
        }
        Err(fault) => match Unanswered::from(fault).0 {
            Some(fault) => Err(fault),
            None => Ok(()),
        },
    }
}
