//! The command `decide`, of whole plans or of the rest of a run.

ghost use Rattle.std.specs.Prelude.{◌≡◌, ◌≤◌, IfOk, IfSome};
ghost use Rattle.std.specs.Option.{option_copied};
ghost use Rattle.shop_base.specs.declared.limits.TheConstants.{MAX_MOMENT};
ghost use Rattle.plan_decide.specs.Pasts.{whole_case};
ghost use Rattle.plan_decide.specs.Promises.{IsInRange};
ghost use Rattle.command_answers.specs.Deciding.{IsDecidedAnswer, IsDecisionAnswer};
ghost use Rattle.command_answers.specs.Deciding.{IsLineRefused, job_of};
ghost use Rattle.command_answers.specs.DecisionLines.{never_lines, within_line};
ghost use Rattle.command_answers.specs.Documents.{IsHeadedAnswer};
ghost use Rattle.command_answers.specs.Commands.{DecidesPlan, IfFit, RunsDecide, WithNames};

use crate::answer::{Answer, Answered, GOOD, REFUSED};
use crate::asked_job::{absent_job, no_job_answer};
use crate::command_fault::CommandFault;
use crate::decision_lines::{push_never_lines, push_within_line};
use crate::improves::with_orders;
use crate::inputs::{ParsedInputs, RunFiles, read_inputs, serially_beside};
use crate::lines::{document_answer, headed_answer, line_answer};
use crate::naming::names_of;
use crate::rest_decides::{logged_decided, unfit_answer};
use crate::shape_faults::bad_numbers_answer;
use crate::texts::Texts;
use arc_choice::Choose;
use people_names::Names;
use plan_decide::{Aim, DecideFault, Decided, Excluded, Objective, Watch, Within, decide};
use shop_base::{JobNo, Plan, Shaped};
use std::alloc::{AllocError, Global};

/// Whether any plan with the releases, budgets and cleaning times of the one in a file keeps all budgets, for the
/// instance of another file, by complete searches of at most so many choices each; of a run that has begun, the budgets
/// of the jobs that aren't gone, for the rest of it. The orders of the given plan say of what run that is a log, and may
/// show that some plan has no cycle; a plan without any orders gets the serial ones. The least makespan is halved from the
/// plan itself, if it is accepted and better than what a search has found, or if the question is too large for one. Where
/// no plan keeps the budgets, there is a line of jobs that exclude each other, or more than one, with their names where the file of names,
/// which is read once the numbers are sound and the job that is asked for is found, has some. The words after `bad
/// numbers ` are in no clause, but for those of a job that isn't of the shop. What comes after the log's last line feed
/// isn't looked at, and a log or a moment is answered as by `improve`. The text of a plan is read again: if it isn't that
/// plan's, the fault is `NotReadBack`.
pub fn decide_answer<T: Texts, C: Choose, W: Watch>(
    alloc: Global,
    texts: &mut T,
    run: &RunFiles<'_>,
    aim: Aim,
    choices: u64,
    chooser: &mut C,
    watch: &mut W,
) -> Answered
    requires { IfSome run.now.at (λ present. present ≤ MAX_MOMENT) }
    ensures { RunsDecide T.gives aim run.now texts.old result texts.new }
{
    let parsed = read_inputs(alloc, texts, &run.files.inputs)?;
    parsed_decided(alloc, texts, parsed, run, aim, choices, chooser, watch)
}

/// What is decided for a shop with the numbers of a plan, if these are sound, and for a run of it that has begun also
/// the orders fit, else the first fault.
fn parsed_decided<T: Texts, C: Choose, W: Watch>(
    alloc: Global,
    texts: &mut T,
    parsed: ParsedInputs,
    run: &RunFiles<'_>,
    aim: Aim,
    choices: u64,
    chooser: &mut C,
    watch: &mut W,
) -> Answered
    requires { IfSome run.now.at (λ present. present ≤ MAX_MOMENT) }
    ensures { IfFit T.gives run.now.log parsed (DecidesPlan T.gives aim run.now) texts.old result texts.new }
{
    match run.log {
        Some(_) => match with_orders(alloc, parsed)?.shaped() {
            Ok(shaped) => fit_decided(
                alloc,
                texts,
                shaped,
                Vec::new(alloc),
                run,
                aim,
                choices,
                chooser,
                watch,
            ),
            Err(fault) => Ok(unfit_answer(alloc, fault)?),
        },
        None => {
            let (serial, given) = serially_beside(alloc, parsed)?;
            match serial.shaped() {
                Ok(shaped) => fit_decided(
                    alloc, texts, shaped, given, run, aim, choices, chooser, watch,
                ),
                Err(fault) => {
                    drop(given);
                    Ok(bad_numbers_answer(alloc, fault)?)
                }
            }
        }
    }
}

/// What is decided by this plan, if the job that is asked for is one of its shop, with the names and the clock of a file.
/// Of a run that has begun the plan's own orders are the given ones.
fn fit_decided<T: Texts, C: Choose, W: Watch>(
    alloc: Global,
    texts: &mut T,
    shaped: Shaped,
    given: Vec<Vec<JobNo>>,
    run: &RunFiles<'_>,
    aim: Aim,
    choices: u64,
    chooser: &mut C,
    watch: &mut W,
) -> Answered
    requires { IfSome run.now.at (λ present. present ≤ MAX_MOMENT) }
    ensures { DecidesPlan T.gives aim run.now shaped texts.old result texts.new }
{
    if let Some(absent) = absent_job(&shaped, job_of(aim)) {
        drop(shaped);
        drop(given);
        return Ok(no_job_answer(alloc, absent)?);
    }
    match run.log {
        Some(log) => {
            drop(given);
            let (names, at) = (run.files.names, run.at);
            logged_decided(
                alloc, texts, shaped, names, log, at, aim, choices, chooser, watch,
            )
        }
        None => {
            let names = run.files.names;
            whole_decided(
                alloc, texts, shaped, given, names, aim, choices, chooser, watch,
            )
        }
    }
}

/// What is decided for a shop with the numbers of this plan, with the names and the clock of a file.
fn whole_decided<T: Texts, C: Choose, W: Watch>(
    alloc: Global,
    texts: &mut T,
    shaped: Shaped,
    given: Vec<Vec<JobNo>>,
    names: Option<&str>,
    aim: Aim,
    choices: u64,
    chooser: &mut C,
    watch: &mut W,
) -> Answered
    requires { IsInRange (whole_case shaped) aim }
    ensures { WithNames T.gives (option_copied names.entry) shaped
        (λ book. IsDecisionAnswer book (whole_case shaped) aim) texts.old result texts.new }
{
    match names_of(alloc, texts, names, &shaped) {
        Ok(names) => {
            let answer = shaped_decided(alloc, &names, shaped, given, aim, choices, chooser, watch);
            drop(names);
            answer
        }
        Err(fault) => {
            drop(shaped);
            drop(given);
            Err(fault)
        }
    }
}

/// What is decided for a shop with the numbers of this plan.
fn shaped_decided<C: Choose, W: Watch>(
    alloc: Global,
    names: &Names,
    shaped: Shaped,
    given: Vec<Vec<JobNo>>,
    aim: Aim,
    choices: u64,
    chooser: &mut C,
    watch: &mut W,
) -> Answered
    requires { IsInRange (whole_case shaped) aim }
    ensures { IsDecisionAnswer names.now (whole_case shaped) aim result }
{
    let decided = decide(alloc, &shaped, &given, aim, choices, chooser, watch);
    drop(shaped);
    drop(given);
    match decided {
        Ok(decided) => {
            let answer = decided_answer(alloc, names, &decided);
            drop(decided);
            answer
        }
        Err(DecideFault::Memory) => Err(CommandFault::Memory),
        Err(DecideFault::JobOutOfRange) => unreachable!(),
    }
}

/// The text of a decision.
pub(crate) fn decided_answer(alloc: Global, names: &Names, decided: &Decided) -> Answered
    ensures { IsDecidedAnswer names.now decided.now result }
{
    match decided {
        Decided::Kept(kept) => document_answer(alloc, kept.plan(), GOOD),
        Decided::Best(best, within) => best_answer(alloc, best.plan(), *within),
        Decided::Never(found) => Ok(never_answer(alloc, names, &found.listed)?),
        Decided::Cyclic => Ok(line_answer(alloc, b"never without a cycle\n", REFUSED)?),
        Decided::Open => Ok(line_answer(alloc, b"open\n", REFUSED)?),
    }
}

/// The text of the best plan that was found, behind the line of what is known of the objective.
fn best_answer(alloc: Global, plan: &Plan, within: Within) -> Answered
    ensures { IsHeadedAnswer (within_line within) plan.now 0 result }
{
    let mut line = Vec::new(alloc);
    push_within_line(&mut line, within)?;
    headed_answer(alloc, &line, plan, GOOD)
}

/// The lines of jobs that exclude each other.
fn never_answer(alloc: Global, names: &Names, excluded: &[Excluded]) -> Result<Answer, AllocError>
    ensures { IfOk result (IsLineRefused (never_lines names.now excluded.now)) }
{
    let (mut text, status) = (Vec::new(alloc), REFUSED);
    push_never_lines(&mut text, names, excluded)?;
    Ok(Answer { text, status })
}

/// The job whose leaving is asked for, if one is.
pub(crate) fn job_of(aim: Aim) -> Option<JobNo>
    ensures { result ≡ job_of aim }
{
    match aim {
        Aim::Least(Objective::Leaving(job)) => Some(job),
        _ => None,
    }
}
