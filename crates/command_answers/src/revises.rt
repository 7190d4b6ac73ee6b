//! The command `revise`.

ghost use Rattle.std.specs.Prelude.{◌≡◌, ◌≤◌, ◌<◌, ◌⊎◌, ◌++◌, [], IfOk, IfSome, OnOk, map, get_or, is_some, length};
ghost use Rattle.run_revising.specs.declared.next.NextRun.{NextRun};
ghost use Rattle.shop_base.specs.declared.limits.TheConstants.{MAX_MOMENT};
ghost use Rattle.cell_tables.specs.Events.{events_of};
ghost use Rattle.run_log.specs.Audits.{IsReplayed};
ghost use Rattle.plan_explain.specs.Known.{IsKnownVerdict};
ghost use Rattle.command_answers.specs.Asked.{asked};
ghost use Rattle.command_answers.specs.Chapters.{FitsLog, is_log, leaves_out};
ghost use Rattle.command_answers.specs.Commands.{RunsRevise, RevisesShaped, IfShaped};
ghost use Rattle.command_answers.specs.Naming.{ReadsNames};
ghost use Rattle.command_answers.specs.Revising.{IsChanged, IsNamedAnswer, IsPrinted, IsRefusedBehind, IsReviseAnswer, IsRunAfter, IsPlaced};
ghost use Rattle.command_answers.specs.Revising.{IsUnnamedAnswer};
ghost use Rattle.command_answers.specs.Revising.{IsRevisedRest, IsRunRevised, IsUnrevised, change_refused_line};
ghost use Rattle.command_answers.specs.Revising.{flag_of, is_visible, visible_part};
ghost use Rattle.command_answers.specs.Steps.{Concludes, IsOrMemory, Then};
ghost use Rattle.command_answers.specs.Texts.{Asks};

use crate::answer::{Answer, Answered, GOOD, REFUSED};
use crate::chapters::{chapter_answer, misfit_answer, misfit_of};
use crate::command_fault::{ChangeRefusal, CommandFault, Unrevised};
use crate::inputs::{InputPaths, ParsedInputs};
use crate::instance_texts::instance_answer;
use crate::lines::document_answer;
use crate::made_jobs::names_given;
use crate::naming::names_and_log;
use crate::parsing::{instance, plan};
use crate::rest_improves::cycle_answer;
use crate::rests::run_fault_answer;
use crate::shapes::not_shaped_answer;
use crate::texts::Texts;
use orlib_read::Named;
use people_names::Names;
use plan_revise::{Change, ChangeFault, NotRevised};
use plan_verifier::{Judged, Why, judge};
use run_log::{LoggedRest, rest_at};
use run_revising::{NextRun, next_run};
use shop_base::{Moment, Shaped};
use std::alloc::{AllocError, Global};

/// What is printed of a run and its plan that are revised.
#[derive(Clone, Copy, Debug, PartialEq, Eq)]
pub enum Revised {
    /// The text of the plan.
    PlanText,
    /// The text of the instance.
    InstanceText,
    /// Both, the names and the run as one log, without the jobs that are over or with all jobs. A log whose last line of
    /// a plan is another one's is refused, unless the run is handed over.
    LogText { leaves_out: bool, hands_over: bool },
}

impl Revised {
    /// Whether the jobs that are over are left out.
    fn leaves_out(self) -> bool
        ensures { result ≡ leaves_out self }
    {
        match self {
            Revised::PlanText | Revised::InstanceText => false,
            Revised::LogText {
                leaves_out,
                hands_over: _,
            } => leaves_out,
        }
    }
}

/// What is asked for: the present moment, if another one than the log's last is given, the changes in the order in
/// which they are made, the value of each one's word, the name of the job that it makes, if one is given, what is printed,
/// and the file of names, if there is one.
#[derive(Clone, Copy)]
pub struct Revision<'a> {
    pub at: Option<Moment>,
    pub changes: &'a [Change<'a>],
    pub values: &'a [&'a str],
    pub called: &'a [Option<&'a str>],
    pub prints: Revised,
    pub names: Option<&'a str>,
}

/// The text of the plan of a file, or of the instance of another, or both as one log, as they have to be for the rest of
/// the run in the log of a third, where something has changed. What comes after the log's last line feed isn't looked at.
/// A log with names where none are given is answered by `names not given`, and one of another plan by `log of another
/// plan P shop S`, if a log is asked for. A log that records no run of the plan is answered by its first bad line, a
/// present moment before the log's last one by `log past L`, a plan with a cycle by the line of `check`, and a change
/// that can't be by `change refused WORD NAME`.
pub fn revise_answer<T: Texts>(
    alloc: Global,
    texts: &mut T,
    inputs: &InputPaths<'_>,
    log: &str,
    wanted: Revision<'_>,
) -> Answered
    requires { IfSome wanted.at (λ present. present ≤ MAX_MOMENT) }
    ensures { RunsRevise T.gives (asked wanted.entry) inputs.now log.now texts.old result texts.new }
{
    let named = instance(alloc, texts, inputs.instance, inputs.name)?;
    let plan = plan(alloc, texts, inputs.plan)?;
    let Named { description, shop } = named;
    parsed_revised(
        alloc,
        texts,
        ParsedInputs { shop, plan },
        &description,
        log,
        wanted,
    )
}

/// What is answered of a shop and a plan, if it is well shaped, else its first fault.
fn parsed_revised<T: Texts>(
    alloc: Global,
    texts: &mut T,
    parsed: ParsedInputs,
    description: &[u8],
    log: &str,
    wanted: Revision<'_>,
) -> Answered
    requires { IfSome wanted.at (λ present. present ≤ MAX_MOMENT) }
    ensures { IfShaped T.gives parsed (RevisesShaped T.gives (asked wanted.entry) description.now log.now parsed)
        texts.old result texts.new }
{
    match parsed.shaped() {
        Ok(shaped) => shaped_revised(alloc, texts, shaped, description, log, wanted),
        Err(fault) => Ok(not_shaped_answer(alloc, fault)?),
    }
}

/// What is answered of a shop and a well-shaped plan, by the names of a file and the log of another.
fn shaped_revised<T: Texts>(
    alloc: Global,
    texts: &mut T,
    shaped: Shaped,
    description: &[u8],
    log: &str,
    wanted: Revision<'_>,
) -> Answered
    requires { IfSome wanted.at (λ present. present ≤ MAX_MOMENT) }
    ensures { RevisesShaped T.gives (asked wanted.entry) description.now log.now shaped texts.old result texts.new }
{
    match names_and_log(alloc, texts, &shaped, wanted.names, log) {
        Ok(read) => {
            let answer = log_revised(alloc, shaped, description, &read.names, &read.log, wanted);
            drop(read);
            answer
        }
        Err(fault) => {
            drop(shaped);
            Err(fault)
        }
    }
}

/// What is answered of the log, if it is one that fits.
fn log_revised(
    alloc: Global,
    shaped: Shaped,
    description: &[u8],
    names: &Names,
    log: &[u8],
    wanted: Revision<'_>,
) -> Answered
    requires { IfSome wanted.at (λ present. present ≤ MAX_MOMENT) }
    ensures { IsReviseAnswer (asked wanted.entry) description.now shaped names.now log.now result }
{
    match misfit_of(alloc, &shaped, log, wanted)? {
        Some(misfit) => Ok(misfit_answer(alloc, misfit)?),
        None => run_revised(alloc, shaped, description, names, log, wanted),
    }
}

/// What is answered for the rest of the run in a log.
fn run_revised(
    alloc: Global,
    shaped: Shaped,
    description: &[u8],
    names: &Names,
    log: &[u8],
    wanted: Revision<'_>,
) -> Answered
    requires { IfSome wanted.at (λ present. present ≤ MAX_MOMENT) }
    ensures { IsRunRevised (asked wanted.entry) description.now names.now shaped log.now result }
{
    match rest_at(alloc, shaped, log, wanted.at)? {
        Ok(run) => {
            let answer = rest_revised(alloc, &run, description, names, wanted);
            drop(run);
            answer
        }
        Err(fault) => run_fault_answer(alloc, fault),
    }
}

/// What is answered for the rest of a run, if the plan has no cycle.
fn rest_revised(
    alloc: Global,
    run: &LoggedRest<Shaped>,
    description: &[u8],
    names: &Names,
    wanted: Revision<'_>,
) -> Answered
    requires { IsReplayed run.now.rest.plan run.now.rest.cell run.now.entries.items }
    ensures { IsRevisedRest (asked wanted.entry) description.now names.now run.now.rest.plan
        run.now.rest.cell run.now.rest.present (events_of run.now.entries.items) result }
{
    let verdict = judge(alloc, &run.rest)?;
    let answer = verdict_revised(alloc, run, &verdict, description, names, wanted);
    drop(verdict);
    answer
}

/// What is answered by the verdict on the rest.
fn verdict_revised(
    alloc: Global,
    run: &LoggedRest<Shaped>,
    verdict: &Judged,
    description: &[u8],
    names: &Names,
    wanted: Revision<'_>,
) -> Answered
    requires replayed { IsReplayed run.now.rest.plan run.now.rest.cell run.now.entries.items }
    requires judged { let r = run.now.rest in IsKnownVerdict r.plan r.cell r.present verdict.now }
    ensures { IsRevisedRest (asked wanted.entry) description.now names.now run.now.rest.plan
        run.now.rest.cell run.now.rest.present (events_of run.now.entries.items) result }
{
    match verdict {
        Judged::Refused(Why::Cycle(nodes)) => Ok(cycle_answer(alloc, nodes)?),
        Judged::Refused(Why::Late { .. }) => changed(alloc, run, description, names, wanted),
        Judged::Accepted(_) => changed(alloc, run, description, names, wanted),
    }
}

/// What is printed once the changes are made, or the line of the first that can't be.
fn changed(
    alloc: Global,
    run: &LoggedRest<Shaped>,
    description: &[u8],
    names: &Names,
    wanted: Revision<'_>,
) -> Answered
    requires { IsReplayed run.now.rest.plan run.now.rest.cell run.now.entries.items }
    ensures { IsChanged (asked wanted.entry) description.now names.now run.now.rest.plan
        run.now.rest.cell run.now.rest.present (events_of run.now.entries.items) result }
{
    let leaves_out = wanted.prints.leaves_out();
    match next_run(alloc, &run.rest, &run.entries, leaves_out, wanted.changes) {
        Ok(next) => {
            let answer = named(alloc, &next, description, names, wanted);
            drop(next);
            answer
        }
        Err(NotRevised::Refused { change, fault }) => {
            refused(alloc, run, names, wanted, change, fault)
        }
        Err(NotRevised::Memory) => Err(CommandFault::Memory),
    }
}

/// What is printed of a run and its plan that all changes have made, with the names of all jobs, or the line of the first
/// whose job doesn't get its name.
fn named(
    alloc: Global,
    next: &NextRun,
    description: &[u8],
    names: &Names,
    wanted: Revision<'_>,
) -> Answered
    ensures { IsNamedAnswer (asked wanted.entry) description.now names.now next.now result
        ⊎ IsOrMemory (IsUnnamedAnswer (asked wanted.entry) names.now next.now wanted.entry.changes.now) result }
{
    match names_given(alloc, names, next, wanted.called, wanted.changes) {
        Ok(given) => {
            let answer = printed(alloc, next, description, &given, wanted);
            drop(given);
            answer
        }
        Err(why) => unrevised(alloc, why, wanted),
    }
}

/// The line of the first change that isn't taken, or of one before it whose job doesn't get its name. Which jobs stay
/// doesn't depend on changes, so without any none is refused.
fn refused(
    alloc: Global,
    run: &LoggedRest<Shaped>,
    names: &Names,
    wanted: Revision<'_>,
    change: usize,
    fault: ChangeFault,
) -> Answered
    requires replayed { IsReplayed run.now.rest.plan run.now.rest.cell run.now.entries.items }
    requires placed { change < length wanted.changes.now }
    ensures { let r = run.now.rest in IsOrMemory (λ answer. (left : NextRun)
        × IsRunAfter (asked wanted.entry) r.plan r.cell r.present (events_of run.now.entries.items) [] left
        × IsRefusedBehind (asked wanted.entry) names.now left change fault answer) result }
{
    let leaves_out = wanted.prints.leaves_out();
    match next_run(alloc, &run.rest, &run.entries, leaves_out, &[]) {
        Ok(left) => {
            let answer = refused_behind(alloc, &left, names, wanted, change, fault);
            drop(left);
            answer
        }
        Err(NotRevised::Memory) => Err(CommandFault::Memory),
        Err(NotRevised::Refused { .. }) => unreachable!(),
    }
}

/// The line of a change that isn't taken, or of one before it whose job doesn't get its name behind the jobs that stay.
fn refused_behind(
    alloc: Global,
    left: &NextRun,
    names: &Names,
    wanted: Revision<'_>,
    change: usize,
    fault: ChangeFault,
) -> Answered
    requires { change < length wanted.changes.now }
    ensures { IsOrMemory (IsRefusedBehind (asked wanted.entry) names.now left.now change fault) result }
{
    match names_given(alloc, names, left, wanted.called, &wanted.changes[..change]) {
        Ok(given) => {
            drop(given);
            let why = ChangeRefusal::OfShop(fault);
            unrevised(alloc, Unrevised::Refused { change, why }, wanted)
        }
        Err(why) => unrevised(alloc, why, wanted),
    }
}

/// What is answered where nothing is changed.
fn unrevised(alloc: Global, why: Unrevised, wanted: Revision<'_>) -> Answered
    requires { IsPlaced wanted.changes.now why }
    ensures { IsUnrevised (asked wanted.entry) why result }
{
    match why {
        Unrevised::Refused { change, why } => {
            let value = value_at(wanted.values, change);
            Ok(refused_answer(alloc, wanted.changes[change], value, why)?)
        }
        Unrevised::Ends(fault) => Err(fault),
    }
}

/// What is printed of a run and its plan, by these names.
fn printed(
    alloc: Global,
    next: &NextRun,
    description: &[u8],
    names: &Names,
    wanted: Revision<'_>,
) -> Answered
    ensures { IsPrinted (asked wanted.entry) description.now names.now next.now result }
{
    match wanted.prints {
        Revised::PlanText => document_answer(alloc, next.shaped.plan(), GOOD),
        Revised::InstanceText => instance_answer(alloc, description, next.shaped.shop()),
        Revised::LogText {
            leaves_out: _,
            hands_over: _,
        } => chapter_answer(alloc, next, description, names, wanted),
    }
}

/// The value of the word of a change.
fn value_at<'a>(values: &[&'a str], place: usize) -> &'a str
    ensures { result.now ≡ get_or (map (λ value. value.now) values.now) place [] }
{
    match values.get(place) {
        Some(value) => value,
        None => "",
    }
}

/// The line of a change that can't be.
fn refused_answer(
    alloc: Global,
    change: Change<'_>,
    value: &str,
    why: ChangeRefusal,
) -> Result<Answer, AllocError>
    ensures { IfOk result
        (λ answer. (answer.text.items ≡ change_refused_line change.entry value.now why) × (answer.status ≡ 1)) }
{
    let (mut text, status) = (Vec::new(alloc), REFUSED);
    text.extend_from_slice(b"change refused ")?;
    text.extend_from_slice(flag_of(change).as_bytes())?;
    push_printable(&mut text, value.as_bytes())?;
    text.push(b' ')?;
    text.extend_from_slice(why.name().as_bytes())?;
    text.push(b'\n')?;
    Ok(Answer { text, status })
}

/// The option that asks for a change, and a blank.
fn flag_of(change: Change<'_>) -> &'static str
    ensures { result.now ≡ flag_of change.entry }
{
    match change {
        Change::Until { machine: _, to: _ } => "--until ",
        Change::Add {
            route: _,
            release: _,
            budget: _,
        } => "--add ",
        Change::Route { job: _, route: _ } => "--route ",
        Change::Release { job: _, release: _ } => "--release ",
        Change::Budget { job: _, budget: _ } => "--budget ",
        Change::Scrap { job: _ } => "--scrap ",
        Change::Down { machine: _ } | Change::Hold { machine: _, to: _ } => "--down ",
    }
}

/// Adds the bytes before the first that isn't printable.
fn push_printable(text: &mut Vec<u8>, value: &[u8]) -> Result<(), AllocError>
    ensures { OnOk result (text.new.items ≡ text.old.items ++ visible_part value.now) }
{
    for byte in value {
        if !is_printable(*byte) {
            return Ok(());
        }
        text.push(*byte)?;
    }
    Ok(())
}

/// A blank, or any other printable character of ASCII.
fn is_printable(byte: u8) -> bool
    ensures { result ≡ is_visible byte }
{
    32 <= byte && byte <= 126
}
