//! The line of `check`, over texts.

ghost use Rattle.std.specs.Prelude.{◌≡◌, IfOk};
ghost use Rattle.std.specs.Option.{option_copied};
ghost use Rattle.command_answers.specs.Parsed.{AreTextsAnswered};
ghost use Rattle.command_answers.specs.Checks.{IsCheckLine, IsLineOf, IsLineOfVerdict, verdict_status};

use crate::answer::{Answer, Answered, GOOD, REFUSED};
use crate::loading::{Loaded, load};
use crate::shapes::not_shaped_answer;
use plan_explain::first_line;
use plan_verifier::Verdict;
use std::alloc::{AllocError, Global};

/// The verdict on a plan for an instance, both given as texts: accepted, with the makespan and each job's earliest
/// leaving, or refused, with the evidence. Without a name the first text is one instance, else a collection with an
/// instance of this name.
pub fn check(alloc: Global, instance: &[u8], name: Option<&[u8]>, plan: &[u8]) -> Answered
    ensures { AreTextsAnswered instance.now (option_copied name.entry) plan.now IsCheckLine result }
{
    let loaded = load(alloc, instance, name, plan)?;
    Ok(loaded_answer(alloc, loaded)?)
}

/// The line of what is to be said of a plan.
pub fn loaded_answer(alloc: Global, loaded: Loaded) -> Result<Answer, AllocError>
    ensures { IfOk result (IsLineOf loaded) }
{
    match loaded {
        Loaded::NotShaped(fault) => not_shaped_answer(alloc, fault),
        Loaded::Judged(verdict) => verdict_answer(alloc, verdict),
    }
}

/// The first line of a verdict, with its status.
pub(crate) fn verdict_answer(alloc: Global, verdict: Verdict) -> Result<Answer, AllocError>
    ensures { IfOk result (IsLineOfVerdict verdict) }
{
    let status = status_of(&verdict);
    // No cell is made: the line is written of the plan alone.
    let (shaped, said) = verdict.into_parts();
    let text = first_line(alloc, &shaped, &said);
    drop(shaped);
    drop(said);
    let text = text?;
    Ok(Answer { text, status })
}

/// The status of a verdict.
fn status_of(verdict: &Verdict) -> u8
    ensures { result ≡ verdict_status verdict.now }
{
    match verdict {
        Verdict::Accepted(_) => GOOD,
        Verdict::Refused(_, _) => REFUSED,
    }
}
