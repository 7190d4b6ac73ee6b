//! The search: depth first, with the branches that are still to be looked at on a stack.

ghost use Rattle.std.specs.Prelude.{◌<◌, length, IfOk};
ghost use Rattle.arc_choice.specs.Choices.{IsSoundQuestion, IsImpossible};
ghost use Rattle.arc_choice.specs.Outcomes.{OnNever};
ghost use Rattle.arc_choice.specs.Branches.{IsBranch, HasAll, IsRoot};
ghost use Rattle.arc_choice.specs.Waits.{AreWaiting, IsNextBranch, Splits};

use crate::branch::Branch;
use crate::choosing::Choose;
use crate::links::Links;
use crate::question::{Question, Side};
use crate::work::Work;
use std::alloc::{AllocError, Global};

/// What a search comes to.
#[derive(Debug, Drop)]
pub enum Outcome {
    /// No moments answer the question.
    Never,
    /// A side of each pair is decided; these, the earliest of each node, may be moments that keep them all.
    Chosen(Vec<u64>),
    /// It isn't decided: the choices or the room for states were used up, or none was made.
    Open,
}

/// A branch that is still to be looked at, with a side of a pair that is to be decided in it.
#[derive(Drop)]
pub(crate) struct Waiting {
    branch: Branch,
    side: Side,
}

/// Looks for moments that answer the question, in at most so many choices; a pair that is decided one way and, where
/// that fails, the other, is one. The search is depth first and complete: it ends open only where the choices are used
/// up, where the chooser names no open pair, or where the states that are open at one time would take more than
/// 64,000,000 bytes: 16 for each node, 8 for each 64 nodes of each node, and 9 for each pair. Memory that is refused is
/// an `AllocError`.
pub fn explore<C: Choose>(
    alloc: Global,
    question: &Question,
    chooser: &mut C,
    choices: u64,
) -> Result<Outcome, AllocError>
    requires { IsSoundQuestion question.now }
    ensures { IfOk result (OnNever (IsImpossible question.now)) }
{
    chooser.begin(alloc, question)?;
    let links = Links::of(alloc, question)?;
    let mut work = Work::full(alloc, question.first.len())?;
    match root(alloc, question, &links, &mut work)? {
        Some(branch) => explore_from(alloc, question, &links, &mut work, chooser, branch, choices),
        None => Ok(Outcome::Never),
    }
}

/// The branch in which nothing is decided, if it may have moments.
fn root(
    alloc: Global,
    question: &Question,
    links: &Links,
    work: &mut Work,
) -> Result<Option<Branch>, AllocError>
    requires { IsSoundQuestion question.now }
    ensures { IfOk result (IsRoot question.now) }
{
    let mut branch = Branch::start(alloc, question)?;
    if !branch.fits(question) {
        drop(branch);
        return Ok(None);
    }
    if !branch.admits_arcs(question) {
        drop(branch);
        return Ok(None);
    }
    match branch.tighten(question, links, work) {
        Ok(()) => Ok(Some(branch)),
        Err(_) => {
            drop(branch);
            Ok(None)
        }
    }
}

/// Explores from a branch on.
fn explore_from<C: Choose>(
    alloc: Global,
    question: &Question,
    links: &Links,
    work: &mut Work,
    chooser: &mut C,
    branch: Branch,
    choices: u64,
) -> Result<Outcome, AllocError>
    requires branch { IsBranch question.now branch }
    requires all { HasAll question.now branch }
    ensures { IfOk result (OnNever (IsImpossible question.now)) }
{
    let most = branch.most();
    let mut branch = branch;
    let mut waiting = Vec::new(alloc);
    for _ in 0..choices {
        if waiting.len() >= most {
            break;
        }
        let Some(side) = branch.choose(question, chooser) else {
            break;
        };
        split(alloc, question, branch, side, &mut waiting)?;
        branch = match next(question, links, work, chooser, &mut waiting) {
            Some(branch) => branch,
            None => return Ok(Outcome::Never),
        };
    }
    Ok(branch.into_outcome())
}

/// Lets the branch wait with each side of a pair, the given one last.
fn split(
    alloc: Global,
    question: &Question,
    branch: Branch,
    side: Side,
    waiting: &mut Vec<Waiting>,
) -> Result<(), AllocError>
    requires branch { IsBranch question.now branch }
    requires pair { side.pair < length question.now.pairs.items }
    requires waiting { AreWaiting question.now waiting.old.items }
    ensures { IfOk result (λ _. Splits question.now branch waiting.old.items waiting.new.items) }
{
    let other = Side {
        pair: side.pair,
        one: !side.one,
    };
    let second = branch.copy(alloc)?;
    waiting.push(Waiting {
        branch: second,
        side: other,
    })?;
    waiting.push(Waiting { branch, side })?;
    Ok(())
}

/// The last of the branches that wait in which its side can be decided, if there is one; the chooser hears of those
/// where it can't.
fn next<C: Choose>(
    question: &Question,
    links: &Links,
    work: &mut Work,
    chooser: &mut C,
    waiting: &mut Vec<Waiting>,
) -> Option<Branch>
    requires { AreWaiting question.now waiting.old.items }
    ensures { IsNextBranch question.now waiting.old.items waiting.new.items result }
{
    while let Some(last) = waiting.pop() {
        let Waiting { branch, side } = last;
        let mut branch = branch;
        match branch.take(question, links, work, side) {
            Ok(()) => return Some(branch),
            Err(clash) => {
                drop(branch);
                work.clear();
                chooser.clashed(side.pair, clash.at);
            }
        }
    }
    None
}
