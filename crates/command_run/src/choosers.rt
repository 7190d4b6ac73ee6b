//! The command `decide`.

ghost use Rattle.std.specs.Prelude.{◌≤◌, IfSome};
ghost use Rattle.shop_base.specs.declared.limits.TheConstants.{MAX_MOMENT};
ghost use Rattle.command_answers.specs.Commands.{RunsDecide};

use crate::choice_progress::ChoiceProgress;
use crate::devices::Screen;
use arc_choice::LeastSlack;
use command_answers::{Answered, RunFiles, Texts, decide_answer};
use plan_decide::Aim;
use std::alloc::Global;

/// The decision whether any plan keeps the promises, or any for the rest of a run, by searches that choose by the least
/// slack. How many choices a search has made is shown on the screen, which is blank at the end.
pub(crate) fn decided_answer<T: Texts, S: Screen>(
    alloc: Global,
    texts: &mut T,
    run: &RunFiles<'_>,
    aim: Aim,
    choices: u64,
    screen: &mut S,
) -> Answered
    requires { IfSome run.now.at (λ present. present ≤ MAX_MOMENT) }
    ensures { RunsDecide T.gives aim run.now texts.old result texts.new }
{
    let mut chooser = LeastSlack::new(alloc);
    let mut progress = ChoiceProgress { screen };
    let answer = decide_answer(alloc, texts, run, aim, choices, &mut chooser, &mut progress);
    progress.screen.show(b"");
    answer
}
