//! The command `margin`.

ghost use Rattle.std.specs.Prelude.{IfOk};
ghost use Rattle.std.specs.Option.{option_copied};
ghost use Rattle.command_answers.specs.Margins.{IsMarginAnswer, IsMarginAnswerOf, IsMarginLine};
ghost use Rattle.command_answers.specs.Steps.{IsOrMemory};
ghost use Rattle.command_answers.specs.Commands.{RunsMargin, WithNames};

use crate::answer::{Answer, Answered, GOOD};
use crate::checks::verdict_answer;
use crate::inputs::{Files, shape_files};
use crate::naming::names_of;
use crate::shapes::unshaped_answer;
use crate::texts::Texts;
use people_names::Names;
use plan_margin::{find_margin, push_margin_line};
use plan_verifier::{Verdict, Verified, verify};
use shop_base::Shaped;
use std::alloc::{AllocError, Global};

/// How much longer everything may take by the plan of a file for the instance of another, with the names of a third,
/// which is read once the plan is shaped. A plan that isn't accepted has the line of `check`.
pub fn margin_answer<T: Texts>(alloc: Global, texts: &mut T, files: &Files<'_>) -> Answered
    ensures { RunsMargin T.gives files.now.inputs (option_copied files.now.names) texts.old result texts.new }
{
    match shape_files(alloc, texts, &files.inputs)? {
        Ok(shaped) => shaped_margin(alloc, texts, shaped, files.names),
        Err(fault) => unshaped_answer(alloc, fault),
    }
}

/// The margin of a plan, or the line of its check, with the names and the clock of a file.
fn shaped_margin<T: Texts>(
    alloc: Global,
    texts: &mut T,
    shaped: Shaped,
    names: Option<&str>,
) -> Answered
    ensures { WithNames T.gives (option_copied names.entry) shaped
        (λ book. IsOrMemory (IsMarginAnswer book shaped)) texts.old result texts.new }
{
    match names_of(alloc, texts, names, &shaped) {
        Ok(names) => {
            let answer = plan_margin(alloc, &names, shaped);
            drop(names);
            Ok(answer?)
        }
        Err(fault) => {
            drop(shaped);
            Err(fault)
        }
    }
}

/// The margin of a plan, or the line of its check.
fn plan_margin(alloc: Global, names: &Names, shaped: Shaped) -> Result<Answer, AllocError>
    ensures { IfOk result (IsMarginAnswer names.now shaped) }
{
    // Called for its clause alone: the plan is well shaped.
    let _shop = shaped.shop();
    match verify(alloc, shaped) {
        Ok(verdict) => verdict_margin(alloc, names, verdict),
        Err((error, back)) => {
            drop(back);
            Err(error)
        }
    }
}

/// The margin of a plan that is accepted, or the line of the verdict.
fn verdict_margin(alloc: Global, names: &Names, verdict: Verdict) -> Result<Answer, AllocError>
    ensures { IfOk result (IsMarginAnswerOf names.now verdict) }
{
    match verdict {
        Verdict::Accepted(verified) => {
            let answer = verified_margin(alloc, names, &verified);
            drop(verified);
            answer
        }
        refused => verdict_answer(alloc, refused),
    }
}

/// The margin of an accepted plan.
fn verified_margin(alloc: Global, names: &Names, verified: &Verified) -> Result<Answer, AllocError>
    ensures { IfOk result (IsMarginLine names.now verified.now.planned) }
{
    let margin = find_margin(alloc, verified)?;
    let (mut text, status) = (Vec::new(alloc), GOOD);
    push_margin_line(&mut text, names, margin)?;
    Ok(Answer { text, status })
}
