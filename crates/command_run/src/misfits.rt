//! Whether a log is as the words of `drive --log` ask.

ghost use Rattle.std.specs.Prelude.{◌≡◌, ◌↔◌, IfOk, IsTrue};
ghost use Rattle.text_lines.specs.Searches.{SomeIfAny};
ghost use Rattle.run_journal.specs.declared.log_run.LogRun.{LogRun};
ghost use Rattle.command_run.specs.Misfits.{NeedsBegun, IsMisfit, IsMisfitLine, IsMisfitAnswer, WantsSamePlan};

use command_answers::{Answer, Answered, REFUSED, other_plan_answer};
use command_words::LogStart;
use event_lines::RunDigits;
use run_journal::LogRun;
use std::alloc::{AllocError, Global};

/// Why a log isn't driven as the words ask.
#[derive(Clone, Copy)]
pub enum Misfit {
    /// It has begun, and should be new.
    NotNew,
    /// It hasn't begun, and should have.
    NotBegun,
    /// It is of another plan, which has these digits.
    OtherPlan(RunDigits),
}

/// Why a log whose lines say this of its run isn't as the words ask, for a plan with these digits.
pub(crate) fn misfit_of(start: LogStart, run: LogRun, digits: &RunDigits) -> Option<Misfit>
    ensures { SomeIfAny result (IsMisfit start run digits.now) }
{
    match run {
        LogRun::Unbegun => {
            if goes_on(start) {
                Some(Misfit::NotBegun)
            } else {
                None
            }
        }
        LogRun::Unnamed => {
            if is_new(start) {
                Some(Misfit::NotNew)
            } else {
                None
            }
        }
        LogRun::Named(named) => misfit_of_named(start, run, named, digits),
    }
}

/// The same of a log whose last line of a plan has the digits `named`.
fn misfit_of_named(
    start: LogStart,
    run: LogRun,
    named: RunDigits,
    digits: &RunDigits,
) -> Option<Misfit>
    requires { run ≡ LogRun.Named named }
    ensures { SomeIfAny result (IsMisfit start run digits.now) }
{
    if is_new(start) {
        return Some(Misfit::NotNew);
    }
    if keeps_plan(start) && !run.names(digits) {
        return Some(Misfit::OtherPlan(named));
    }
    None
}

/// Whether the log has to be new.
fn is_new(start: LogStart) -> bool
    ensures { IsTrue result ↔ (start ≡ LogStart.New) }
{
    matches!(start, LogStart::New)
}

/// Whether it has to have begun.
fn goes_on(start: LogStart) -> bool
    ensures { IsTrue result ↔ NeedsBegun start }
{
    matches!(start, LogStart::Continue | LogStart::HandOver)
}

/// Whether the plan that it names has to be this one.
fn keeps_plan(start: LogStart) -> bool
    ensures { IsTrue result ↔ WantsSamePlan start }
{
    matches!(start, LogStart::Any | LogStart::Continue)
}

/// What is answered in place of driving.
pub(crate) fn misfit_answer(alloc: Global, misfit: Misfit) -> Answered
    ensures { IsMisfitAnswer misfit result }
{
    Ok(misfit_line(alloc, misfit)?)
}

/// The line that says why.
fn misfit_line(alloc: Global, misfit: Misfit) -> Result<Answer, AllocError>
    ensures { IfOk result (IsMisfitLine misfit) }
{
    match misfit {
        Misfit::NotNew => line(alloc, b"log not new\n"),
        Misfit::NotBegun => line(alloc, b"log not begun\n"),
        Misfit::OtherPlan(digits) => other_plan_answer(alloc, &digits),
    }
}

fn line(alloc: Global, text: &[u8]) -> Result<Answer, AllocError>
    ensures text { IfOk result (λ answer. answer.text.items ≡ text.now) }
    ensures status { IfOk result (λ answer. answer.status ≡ 1) }
{
    let text = text.to_vec(alloc)?;
    Ok(Answer {
        text,
        status: REFUSED,
    })
}
