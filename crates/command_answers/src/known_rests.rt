//! Where a run is of which something is asked.

ghost use Rattle.std.specs.Prelude.{◌≡◌, ◌<◌, ◌≤◌, ℕ, Option, None, Some, IfOk, IfSome};
ghost use Rattle.std.specs.Option.{option_copied};
ghost use Rattle.shop_base.specs.Plan.{jobs};
ghost use Rattle.shop_base.specs.declared.limits.TheConstants.{MAX_MOMENT};
ghost use Rattle.plan_explain.specs.Known.{IsKnownVerdict};
ghost use Rattle.plan_verifier.specs.{Seen.judged, Seen.as_rest, Verdicts.IsReason, Verdicts.OnRefused};
ghost use Rattle.command_answers.specs.KnownRests.{IsAtStart, IsInstead, IsFoundRest, IsKnownRest};
ghost use Rattle.command_answers.specs.Steps.{IsOrMemory};
ghost use Rattle.command_answers.specs.Commands.{AsksOfRun, IfThereBy, WithNames, WithNamesAndLog, WithNamesAndRun};

use crate::answer::{Answer, CommandResult};
use crate::asked_job::{absent_job, no_job_answer};
use crate::inputs::{RunFiles, shape_files};
use crate::naming::{NamesAndLog, names_and_log, names_of};
use crate::rests::run_fault_answer;
use crate::shapes::not_shaped_answer;
use crate::texts::Texts;
use cell_tables::{Entry, Rest};
use people_names::Names;
use plan_verifier::{Judged, Verdict, judge, verify};
use run_log::{LoggedRest, rest_at};
use shop_base::{JobNo, Moment, Shaped};
use std::alloc::{AllocError, Global};

/// The rest of a run, of which a whole plan is the one that hasn't begun, with what a command prints of it.
#[derive(Drop)]
pub(crate) struct KnownRest {
    /// What people call jobs and machines, and their clock.
    pub names: Names,
    /// The rest.
    pub rest: Rest<Shaped>,
    /// The reports and orders so far.
    pub entries: Vec<Entry>,
    /// The present moment that was given, if one was.
    pub at: Option<Moment>,
    /// The verdict on the rest.
    pub verdict: Judged,
}

/// Where a run is by its files. If its plan isn't well shaped, the job that is asked for isn't one of the shop, or its
/// log leads nowhere, there is the line that says so instead. Names are asked for once the plan is shaped and the job
/// is found, and the log after them. What comes after the log's last line feed isn't looked at.
pub(crate) fn rest_of_run<T: Texts>(
    alloc: Global,
    texts: &mut T,
    run: &RunFiles<'_>,
    job: Option<JobNo>,
) -> CommandResult<Result<KnownRest, Answer>>
    requires { IfSome run.now.at (λ present. present ≤ MAX_MOMENT) }
    ensures asks { AsksOfRun T.gives IsInstead job (IsFoundRest run.now.at) run.now texts.old result texts.new }
    ensures job { IfOk result (λ found. IfOk found (λ s. IfSome job (λ j. j < jobs s.rest.plan))) }
    ensures judged { IfOk result
        (λ found. IfOk found (λ s. IsKnownVerdict s.rest.plan s.rest.cell s.rest.present s.verdict)) }
{
    match shape_files(alloc, texts, &run.files.inputs)? {
        Ok(shaped) => shaped_rest(alloc, texts, shaped, run, job),
        Err(fault) => Ok(Err(not_shaped_answer(alloc, fault)?)),
    }
}

/// Where a run of a plan is, if the job that is asked for is one of the shop.
fn shaped_rest<T: Texts>(
    alloc: Global,
    texts: &mut T,
    shaped: Shaped,
    run: &RunFiles<'_>,
    job: Option<JobNo>,
) -> CommandResult<Result<KnownRest, Answer>>
    requires { IfSome run.now.at (λ present. present ≤ MAX_MOMENT) }
    ensures asks { IfThereBy IsInstead job shaped (WithNamesAndRun T.gives run.now.names run.now.log shaped
        (λ book log. IsOrMemory (IsFoundRest run.now.at shaped book log))) texts.old result texts.new }
    ensures job { IfOk result (λ found. IfOk found (λ s. IfSome job (λ j. j < jobs s.rest.plan))) }
    ensures judged { IfOk result
        (λ found. IfOk found (λ s. IsKnownVerdict s.rest.plan s.rest.cell s.rest.present s.verdict)) }
{
    if let Some(absent) = absent_job(&shaped, job) {
        drop(shaped);
        return Ok(Err(no_job_answer(alloc, absent)?));
    }
    match run.log {
        Some(log) => logged_rest(alloc, texts, shaped, run.files.names, log, run.at),
        None => whole_rest(alloc, texts, shaped, run.files.names),
    }
}

/// Where a run of a plan is by the log of a file, with the names of another.
fn logged_rest<T: Texts>(
    alloc: Global,
    texts: &mut T,
    shaped: Shaped,
    names: Option<&str>,
    log: &str,
    at: Option<Moment>,
) -> CommandResult<Result<KnownRest, Answer>>
    requires { IfSome at (λ present. present ≤ MAX_MOMENT) }
    ensures asks { WithNamesAndLog T.gives (option_copied names.entry) log.now shaped
        (λ book text. IsFoundRest at shaped book (Some text)) texts.old result texts.new }
    ensures plan { IfOk result (λ found. IfOk found (λ s. s.rest.plan ≡ shaped)) }
    ensures judged { IfOk result
        (λ found. IfOk found (λ s. IsKnownVerdict s.rest.plan s.rest.cell s.rest.present s.verdict)) }
{
    match names_and_log(alloc, texts, &shaped, names, log) {
        Ok(read) => log_rest(alloc, shaped, read, at),
        Err(fault) => {
            drop(shaped);
            Err(fault)
        }
    }
}

/// Where a run of a plan is by its log.
fn log_rest(
    alloc: Global,
    shaped: Shaped,
    read: NamesAndLog,
    at: Option<Moment>,
) -> CommandResult<Result<KnownRest, Answer>>
    requires { IfSome at (λ present. present ≤ MAX_MOMENT) }
    ensures found { IsOrMemory (IsFoundRest at shaped read.names (Some read.log.items)) result }
    ensures plan { IfOk result (λ found. IfOk found (λ s. s.rest.plan ≡ shaped)) }
    ensures judged { IfOk result
        (λ found. IfOk found (λ s. IsKnownVerdict s.rest.plan s.rest.cell s.rest.present s.verdict)) }
{
    let NamesAndLog { names, log } = read;
    match rest_at(alloc, shaped, &log, at)? {
        Ok(LoggedRest { rest, entries }) => {
            let verdict = judge(alloc, &rest)?;
            Ok(Ok(KnownRest {
                names,
                rest,
                entries,
                at,
                verdict,
            }))
        }
        Err(fault) => Ok(Err(run_fault_answer(alloc, fault)?)),
    }
}

/// Where a run of a plan is that hasn't begun, with the names of a file.
fn whole_rest<T: Texts>(
    alloc: Global,
    texts: &mut T,
    shaped: Shaped,
    names: Option<&str>,
) -> CommandResult<Result<KnownRest, Answer>>
    ensures asks { (at : Option ℕ) → WithNames T.gives (option_copied names.entry) shaped
        (λ book. IsOrMemory (IsFoundRest at shaped book None)) texts.old result texts.new }
    ensures plan { IfOk result (λ found. IfOk found (λ s. s.rest.plan ≡ shaped)) }
    ensures judged { IfOk result
        (λ found. IfOk found (λ s. IsKnownVerdict s.rest.plan s.rest.cell s.rest.present s.verdict)) }
{
    match names_of(alloc, texts, names, &shaped) {
        Ok(names) => Ok(Ok(plan_rest(alloc, names, shaped)?)),
        Err(fault) => {
            drop(shaped);
            Err(fault)
        }
    }
}

/// Where a run of a plan is that hasn't begun.
fn plan_rest(alloc: Global, names: Names, shaped: Shaped) -> Result<KnownRest, AllocError>
    ensures found { (at : Option ℕ) → IfOk result (IsKnownRest at shaped names None) }
    ensures judged { IfOk result (λ s. IsKnownVerdict s.rest.plan s.rest.cell s.rest.present s.verdict) }
{
    match verify(alloc, shaped) {
        Ok(verdict) => verdict_rest(alloc, names, verdict),
        Err((error, back)) => {
            drop(back);
            drop(names);
            Err(error)
        }
    }
}

/// Where a run is that hasn't begun, by the verdict on its plan.
pub(crate) fn verdict_rest(
    alloc: Global,
    names: Names,
    verdict: Verdict,
) -> Result<KnownRest, AllocError>
    requires { OnRefused IsReason verdict }
    ensures named { IfOk result (λ s. s.names ≡ names) }
    ensures plan { IfOk result (λ s. s.rest.plan ≡ judged verdict) }
    ensures start { IfOk result (IsAtStart (judged verdict) (as_rest verdict)) }
    ensures judged { IfOk result (λ s. IsKnownVerdict s.rest.plan s.rest.cell s.rest.present s.verdict) }
{
    let (shaped, verdict) = verdict.into_parts();
    match Rest::start(alloc, shaped) {
        Ok(rest) => Ok(KnownRest {
            names,
            rest,
            entries: Vec::new(alloc),
            at: None,
            verdict,
        }),
        Err((error, back)) => {
            drop(back);
            drop(names);
            drop(verdict);
            Err(error)
        }
    }
}
