//! What `improve` answers of the rest of a run.

ghost use Rattle.std.specs.Prelude.{◌≡◌, ◌≤◌, IfOk, IfSome, None};
ghost use Rattle.shop_base.specs.declared.limits.TheConstants.{MAX_MOMENT};
ghost use Rattle.text_lines.specs.Lines.{ended_lines};
ghost use Rattle.command_answers.specs.ImprovingRests.{IsRestAnswer, IsJudgedAnswer, IsUnfoundAnswer};
ghost use Rattle.command_answers.specs.ImprovingRests.{IsLineOfCycle, IsSearchAnswer, improve_command_fault};
ghost use Rattle.command_answers.specs.Improving.{RoundsOf};
ghost use Rattle.command_answers.specs.Steps.{Concludes, Then};
ghost use Rattle.command_answers.specs.Texts.{Asks};

use crate::answer::{Answer, Answered, GOOD, REFUSED};
use crate::command_fault::Unanswered;
use crate::lines::{document_answer, line_answer};
use crate::rests::run_fault_answer;
use crate::texts::Texts;
use plan_explain::push_cycle_line;
use plan_improve::{ImproveFault, Improved, Improver, MAX_ROUNDS, NotImproved, Watch, better_rest};
use plan_verifier::{Judged, Why};
use run_log::{LoggedRest, rest_at};
use shop_base::{Moment, Node, Shaped};
use std::alloc::{AllocError, Global};

/// The answer of the search from a well-shaped plan for the rest of the run in the log of a file.
pub(crate) fn logged_answer<T: Texts, W: Watch>(
    alloc: Global,
    texts: &mut T,
    start: Shaped,
    log: &str,
    at: Option<Moment>,
    improvers: &[Box<dyn Improver>],
    rounds: u32,
    watch: &mut W,
) -> Answered
    requires { IfSome at (λ present. present ≤ MAX_MOMENT) }
    ensures { Then (Asks T.gives log.now)
        (λ text. Concludes (IsRestAnswer (RoundsOf rounds (λ b. may b) improvers.now) at rounds
        (ended_lines text) start)) texts.old result texts.new }
{
    match texts.text(alloc, log) {
        Ok(text) => {
            let answer = found_answer(alloc, start, &text, at, improvers, rounds, watch);
            drop(text);
            answer
        }
        Err(fault) => {
            drop(start);
            Err(fault)
        }
    }
}

/// The answer of the search from a plan for the rest of the run in a log.
fn found_answer<W: Watch>(
    alloc: Global,
    start: Shaped,
    log: &[u8],
    at: Option<Moment>,
    improvers: &[Box<dyn Improver>],
    rounds: u32,
    watch: &mut W,
) -> Answered
    requires { IfSome at (λ present. present ≤ MAX_MOMENT) }
    ensures { IsRestAnswer (RoundsOf rounds (λ b. may b) improvers.now) at rounds (ended_lines log.now) start result }
{
    if rounds > MAX_ROUNDS {
        drop(start);
        return unfound_answer(alloc, ImproveFault::TooManyRounds);
    }
    match rest_at(alloc, start, log, at)? {
        Ok(LoggedRest { rest, entries }) => {
            drop(entries);
            // Called for its clause alone: the plan is well shaped.
            let _plan = rest.shaped();
            let found = better_rest(alloc, rest, improvers, rounds, watch);
            search_answer(alloc, found)
        }
        Err(fault) => run_fault_answer(alloc, fault),
    }
}

/// What is answered where a search has ended so.
fn search_answer(alloc: Global, found: Result<Improved, NotImproved>) -> Answered
    ensures { IsSearchAnswer found result }
{
    match found {
        Ok(found) => {
            // Called for its clause alone: the plan is well shaped.
            let _plan = found.shaped.plan();
            let answer = judged_answer(alloc, &found);
            drop(found);
            answer
        }
        Err(refused) => unfound_answer(alloc, refused.fault),
    }
}

/// The text of a plan whose rest was judged, or the line of its cycle.
fn judged_answer(alloc: Global, found: &Improved) -> Answered
    ensures { IsJudgedAnswer found.now.shaped found.now.verdict result }
{
    match &found.verdict {
        Judged::Accepted(_) => document_answer(alloc, found.shaped.plan(), GOOD),
        Judged::Refused(Why::Cycle(nodes)) => Ok(cycle_answer(alloc, nodes)?),
        Judged::Refused(Why::Late { .. }) => document_answer(alloc, found.shaped.plan(), REFUSED),
    }
}

/// The line of a cycle.
pub(crate) fn cycle_answer(alloc: Global, nodes: &[Node]) -> Result<Answer, AllocError>
    ensures { IfOk result (IsLineOfCycle nodes.now) }
{
    let (mut text, status) = (Vec::new(alloc), REFUSED);
    push_cycle_line(&mut text, nodes)?;
    Ok(Answer { text, status })
}

/// What is answered if no plan is given, unless memory ran out.
pub(crate) fn unfound_answer(alloc: Global, fault: ImproveFault) -> Answered
    ensures { IsUnfoundAnswer fault result }
{
    match Unanswered::from(fault).0 {
        Some(no_memory) => Err(no_memory),
        None => refused_answer(alloc, fault),
    }
}

/// The line that says why no plan is given.
fn refused_answer(alloc: Global, fault: ImproveFault) -> Answered
    requires { improve_command_fault fault ≡ None }
    ensures { IsUnfoundAnswer fault result }
{
    match fault {
        ImproveFault::TooManyRounds => Ok(line_answer(alloc, b"too many rounds\n", REFUSED)?),
        ImproveFault::Memory => unreachable!(),
    }
}
