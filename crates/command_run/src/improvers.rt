//! The command `improve`.

ghost use Rattle.std.specs.Prelude.{◌≤◌, IfSome};
ghost use Rattle.shop_base.specs.declared.limits.TheConstants.{MAX_MOMENT};
ghost use Rattle.command_run.specs.Improvers.{Improves};

use crate::devices::Screen;
use crate::progress::Progress;
use command_answers::{Answered, RunFiles, Texts, improve_answer};
use plan_improve::{AlternatingImprover, Improver};
use std::alloc::{AllocError, Global};

/// The search for a better plan, or for a better rest of a run, by two searches that have their rounds by turns. Each
/// round is shown on the screen, which is blank at the end.
pub(crate) fn better_answer<T: Texts, S: Screen>(
    alloc: Global,
    texts: &mut T,
    run: &RunFiles<'_>,
    rounds: u32,
    seed: u32,
    screen: &mut S,
) -> Answered
    requires { IfSome run.now.at (λ present. present ≤ MAX_MOMENT) }
    ensures { Improves T.gives rounds run.now texts.old result texts.new }
{
    let searches = AlternatingImprover::new(alloc, seed);
    let improver = Box::new(alloc, searches).map_err(AllocError::from)?;
    let mut improvers: Vec<Box<dyn Improver>> = Vec::new(alloc);
    improvers.push(improver).map_err(AllocError::from)?;
    let mut progress = Progress { screen, rounds };
    let answer = improve_answer(alloc, texts, run, &improvers, rounds, &mut progress);
    progress.screen.show(b"");
    answer
}
