//! The log that `revise` prints, which begins with its own texts, and why there is none.

ghost use Rattle.std.specs.Prelude.{◌≡◌, ◌≢◌, ◌++◌, IfOk, OnOk, MatchOption, is_some, map};
ghost use Rattle.std.specs.Option.{option_copied};
ghost use Rattle.shop_base.specs.Vectors.{list_of};
ghost use Rattle.text_lines.specs.Lines.{ended_lines};
ghost use Rattle.run_log.specs.Digits.{digits_of};
ghost use Rattle.command_answers.specs.Asked.{asked};
ghost use Rattle.command_answers.specs.Chapters.{IsLogMisfit, FitsLog, IsMisfitLine, other_plan_line};
ghost use Rattle.command_answers.specs.Chapters.{IsChapterAnswer, origins_of, printed_names, run_chapter};

use crate::answer::{Answer, Answered, GOOD, REFUSED};
use crate::instance_texts::instance_answer;
use crate::lines::{document_answer, line_answer};
use crate::made_jobs::push_made;
use crate::revises::{Revised, Revision};
use event_lines::{LineText, RunDigits, put_digits};
use log_chapters::{Origin, Texts, chapter, has_names};
use people_names::Names;
use plan_revise::Change;
use run_journal::{LogRun, run_of};
use run_log::run_digits;
use run_revising::NextRun;
use shop_base::{JobNo, Shaped};
use std::alloc::{AllocError, Global};
use text_lines::ended_part;

/// Why a log isn't told anew.
#[derive(Clone, Copy)]
pub(crate) enum LogMisfit {
    /// It has names, and none are given.
    NamesNotGiven,
    /// Its last line of a plan has these digits, which aren't those of the plan that is given.
    OtherPlan(RunDigits),
}

/// Why the log isn't told anew, if it is asked for that: the first reason.
pub(crate) fn misfit_of(
    alloc: Global,
    shaped: &Shaped,
    log: &[u8],
    wanted: Revision<'_>,
) -> Result<Option<LogMisfit>, AllocError>
    ensures { IfOk result (λ found. MatchOption found (FitsLog (asked wanted.entry) shaped.now (ended_lines log.now))
        (IsLogMisfit (asked wanted.entry) shaped.now (ended_lines log.now))) }
{
    let Revised::LogText {
        leaves_out: _,
        hands_over,
    } = wanted.prints
    else {
        return Ok(None);
    };
    let lines = ended_part(log);
    if wanted.names.is_none() && has_names(lines) {
        return Ok(Some(LogMisfit::NamesNotGiven));
    }
    if hands_over {
        return Ok(None);
    }
    // The digits take a pass over the plan, so they are asked for only where the log has some.
    match run_of(lines) {
        LogRun::Named(named) => other_plan(alloc, shaped, named),
        LogRun::Unbegun | LogRun::Unnamed => Ok(None),
    }
}

/// The misfit of a log whose last line of a plan has these digits, if they aren't those of this plan.
fn other_plan(
    alloc: Global,
    shaped: &Shaped,
    named: RunDigits,
) -> Result<Option<LogMisfit>, AllocError>
    ensures { IfOk result (λ found. MatchOption found (named ≡ digits_of shaped.now.shop shaped.now.plan) (λ misfit.
        (misfit ≡ LogMisfit.OtherPlan named) × (named ≢ digits_of shaped.now.shop shaped.now.plan))) }
{
    let digits = run_digits(alloc, shaped.shop(), shaped.plan())?;
    if named == digits {
        Ok(None)
    } else {
        Ok(Some(LogMisfit::OtherPlan(named)))
    }
}

/// The line that says why.
pub(crate) fn misfit_answer(alloc: Global, misfit: LogMisfit) -> Result<Answer, AllocError>
    ensures { IfOk result (IsMisfitLine misfit) }
{
    match misfit {
        LogMisfit::NamesNotGiven => line_answer(alloc, b"names not given\n", REFUSED),
        LogMisfit::OtherPlan(digits) => other_plan_answer(alloc, &digits),
    }
}

/// The line of a log whose last line of a plan has these digits, which aren't those of the plan that is given.
pub fn other_plan_answer(alloc: Global, digits: &RunDigits) -> Result<Answer, AllocError>
    ensures { IfOk result
        (λ answer. (answer.text.items ≡ other_plan_line digits.now) × (answer.status ≡ 1)) }
{
    let mut words = LineText::ended();
    put_digits(&mut words, digits);
    words.put_text(b"log of another ");
    line_answer(alloc, words.bytes(), REFUSED)
}

/// A run and its plan as one log that begins with its texts.
pub(crate) fn chapter_answer(
    alloc: Global,
    next: &NextRun,
    description: &[u8],
    names: &Names,
    wanted: Revision<'_>,
) -> Answered
    ensures { let asked = asked wanted.entry in
        IsChapterAnswer description.now asked.changes names.now (is_some asked.names) next.now result }
{
    let file = instance_answer(alloc, description, next.shaped.shop())?;
    let plan = document_answer(alloc, next.shaped.plan(), GOOD)?;
    let names = printed_names(alloc, names, wanted.names.is_some())?;
    let texts = Texts {
        file: &file.text,
        plan: &plan.text,
        names: lent(&names),
    };
    let answer = texts_answer(alloc, next, wanted.changes, texts);
    drop(names);
    Ok(answer?)
}

/// The text, lent.
fn lent(text: &Option<Vec<u8>>) -> Option<&[u8]>
    ensures { option_copied result ≡ list_of text.now }
{
    match text {
        Some(text) => Some(text),
        None => None,
    }
}

/// The text of the names, if any are given.
fn printed_names(alloc: Global, names: &Names, named: bool) -> Result<Option<Vec<u8>>, AllocError>
    ensures { IfOk result (λ text. list_of text ≡ printed_names names.now named) }
{
    if named {
        Ok(Some(names.text(alloc)?))
    } else {
        Ok(None)
    }
}

/// The log of a run and its plan, by these changes, that begins with these texts.
fn texts_answer(
    alloc: Global,
    next: &NextRun,
    changes: &[Change<'_>],
    texts: Texts<'_>,
) -> Result<Answer, AllocError>
    ensures { IfOk result (λ answer. (answer.text.items
        ≡ run_chapter texts.entry.file.now texts.entry.plan.now (option_copied texts.entry.names) changes.now next.now)
        × (answer.status ≡ 0)) }
{
    let origins = origins_of(alloc, next, changes)?;
    let digits = run_digits(alloc, next.shaped.shop(), next.shaped.plan())?;
    let text = chapter(alloc, &texts, &origins, &next.entries, &digits)?;
    Ok(Answer { text, status: GOOD })
}

/// What each job was: those that stay had numbers, and the others are made by changes.
fn origins_of(
    alloc: Global,
    next: &NextRun,
    changes: &[Change<'_>],
) -> Result<Vec<Origin>, AllocError>
    ensures { IfOk result (λ origins. origins.items ≡ origins_of changes.now next.now) }
{
    let mut origins = Vec::new(alloc);
    push_old(&mut origins, &next.were)?;
    push_made(&mut origins, changes)?;
    Ok(origins)
}

/// Adds what jobs were that were there.
fn push_old(origins: &mut Vec<Origin>, numbers: &[JobNo]) -> Result<(), AllocError>
    ensures { OnOk result (origins.new.items ≡ origins.old.items ++ map Origin.Was numbers.now) }
{
    for number in numbers {
        origins.push(Origin::Was(*number))?;
    }
    Ok(())
}
