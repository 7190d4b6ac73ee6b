//! The command `improve`, of a whole plan or of the rest of a run.

ghost use Rattle.std.specs.Prelude.{◌≡◌, ◌≤◌, IfSome};
ghost use Rattle.shop_base.specs.declared.limits.TheConstants.{MAX_MOMENT};
ghost use Rattle.plan_verifier.specs.Seen.{judged};
ghost use Rattle.command_answers.specs.Steps.{IsOrMemory};
ghost use Rattle.command_answers.specs.Checks.{verdict_status};
ghost use Rattle.command_answers.specs.Documents.{IsDocumentAnswer};
ghost use Rattle.command_answers.specs.Improving.{RoundsOf, IsBestAnswer, ordered};
ghost use Rattle.command_answers.specs.Commands.{BettersPlan, RunsImprove};

use crate::answer::{Answered, CommandResult, GOOD, REFUSED};
use crate::inputs::{ParsedInputs, RunFiles, read_inputs, serially};
use crate::lines::document_answer;
use crate::rest_improves::{logged_answer, unfound_answer};
use crate::shapes::not_shaped_answer;
use crate::texts::Texts;
use plan_improve::{Improver, Watch, improve};
use plan_verifier::Verdict;
use shop_base::Shaped;
use std::alloc::Global;

/// The text of the best plan that a search from the plan of a file meets, for the instance of another file, or for the
/// rest of a run of it: accepted, or with a job that is still late. A plan without any orders gets the serial ones. One
/// that isn't well shaped is answered by its first fault. What comes after the log's last line feed isn't looked at. A
/// log that records no run of that plan is answered by its first bad line, a present moment before the log's last one
/// by `log past L`, and a plan with a cycle, if a job has arrived, by the line of `check`. More than 1000 rounds are
/// answered before these, by `too many rounds`.
pub fn improve_answer<T: Texts, W: Watch>(
    alloc: Global,
    texts: &mut T,
    run: &RunFiles<'_>,
    improvers: &[Box<dyn Improver>],
    rounds: u32,
    watch: &mut W,
) -> Answered
    requires { IfSome run.now.at (λ present. present ≤ MAX_MOMENT) }
    ensures { RunsImprove T.gives (RoundsOf rounds (λ b. may b) improvers.now) rounds run.now
        texts.old result texts.new }
{
    let parsed = read_inputs(alloc, texts, &run.files.inputs)?;
    let parsed = with_orders(alloc, parsed)?;
    better_answer(alloc, texts, parsed, run, improvers, rounds, watch)
}

/// The answer of the search from a plan, if it is well shaped, else its first fault.
fn better_answer<T: Texts, W: Watch>(
    alloc: Global,
    texts: &mut T,
    parsed: ParsedInputs,
    run: &RunFiles<'_>,
    improvers: &[Box<dyn Improver>],
    rounds: u32,
    watch: &mut W,
) -> Answered
    requires { IfSome run.now.at (λ present. present ≤ MAX_MOMENT) }
    ensures { BettersPlan T.gives (RoundsOf rounds (λ b. may b) improvers.now) rounds run.now parsed
        texts.old result texts.new }
{
    match parsed.shaped() {
        Ok(start) => match run.log {
            Some(log) => {
                let at = run.at;
                logged_answer(alloc, texts, start, log, at, improvers, rounds, watch)
            }
            None => best_answer(alloc, start, improvers, rounds, watch),
        },
        Err(fault) => Ok(not_shaped_answer(alloc, fault)?),
    }
}

/// The plan itself or, if it has no orders at all, the serial plan with its numbers.
pub(crate) fn with_orders(alloc: Global, parsed: ParsedInputs) -> CommandResult<ParsedInputs>
    ensures { IsOrMemory (λ with. with ≡ ordered parsed) result }
{
    let read = &parsed;
    if !read.plan.order.is_empty() {
        return Ok(parsed);
    }
    serially(alloc, parsed)
}

/// The answer of the search from a plan.
fn best_answer<W: Watch>(
    alloc: Global,
    start: Shaped,
    improvers: &[Box<dyn Improver>],
    rounds: u32,
    watch: &mut W,
) -> Answered
    ensures { IsBestAnswer (RoundsOf rounds (λ b. may b) improvers.now) rounds start result }
{
    match improve(alloc, start, improvers, rounds, watch) {
        Ok(verdict) => {
            let answer = verdict_answer(alloc, &verdict);
            drop(verdict);
            answer
        }
        Err(refused) => unfound_answer(alloc, refused.fault),
    }
}

/// The text of a plan that was judged, and whether it is accepted.
fn verdict_answer(alloc: Global, verdict: &Verdict) -> Answered
    ensures { IsDocumentAnswer (judged verdict.now).plan (verdict_status verdict.now) result }
{
    match verdict {
        Verdict::Accepted(verified) => document_answer(alloc, verified.shaped().plan(), GOOD),
        Verdict::Refused(late, _) => document_answer(alloc, late.plan(), REFUSED),
    }
}
