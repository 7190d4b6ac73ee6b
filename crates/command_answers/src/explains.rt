//! What `explain` says, over texts.

ghost use Rattle.std.specs.Prelude.{IfOk};
ghost use Rattle.std.specs.Option.{option_copied};
ghost use Rattle.command_answers.specs.Parsed.{AreTextsAnswered};
ghost use Rattle.command_answers.specs.Explains.{IsExplanation, IsExplanationOf, HasEvidence};

use crate::answer::{Answer, Answered};
use crate::known_rests::verdict_rest;
use crate::loading::{Loaded, load};
use crate::rests::{PlanAnswer, answer_judged};
use crate::shapes::not_shaped_answer;
use people_names::Names;
use std::alloc::{AllocError, Global};

/// Why a plan is accepted or refused for an instance, both given as texts: the line of its verdict, and after it
/// the arcs of the evidence in lines that name machines and jobs. Without a name the first text is one instance,
/// else a collection with an instance of this name.
pub fn explain(alloc: Global, instance: &[u8], name: Option<&[u8]>, plan: &[u8]) -> Answered
    ensures { AreTextsAnswered instance.now (option_copied name.entry) plan.now IsExplanation result }
{
    let loaded = load(alloc, instance, name, plan)?;
    Ok(loaded_explained(alloc, loaded)?)
}

/// The explanation of what is said of a plan.
fn loaded_explained(alloc: Global, loaded: Loaded) -> Result<Answer, AllocError>
    requires { HasEvidence loaded }
    ensures { IfOk result (IsExplanationOf loaded) }
{
    match loaded {
        Loaded::NotShaped(fault) => not_shaped_answer(alloc, fault),
        Loaded::Judged(verdict) => {
            let known = verdict_rest(alloc, Names::none(alloc), verdict)?;
            let (names, rest, said) = (&known.names, &known.rest, &known.verdict);
            answer_judged(alloc, names, rest, said, PlanAnswer::Reasons(None))
        }
    }
}
