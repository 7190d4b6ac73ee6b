//! The commands `audit` and `gantt`.

ghost use Rattle.std.specs.Prelude.{◌≡◌, IfOk};
ghost use Rattle.std.specs.Option.{option_copied};
ghost use Rattle.command_answers.specs.LogLines.{IsRunAnswer, IsLogLine, IsLogFaultAnswer, kept_line, run_end_words};
ghost use Rattle.command_answers.specs.Steps.{IsOrMemory};
ghost use Rattle.command_answers.specs.Commands.{RunsLog, WithNamesAndLog};

use crate::answer::{Answer, Answered, GOOD};
use crate::command_fault::Unanswered;
use crate::inputs::{Files, shape_files};
use crate::lines::{log_refused, push_fact};
use crate::naming::names_and_log;
use crate::shapes::unshaped_answer;
use crate::texts::Texts;
use people_names::Names;
use run_gantt::gantt_for;
use run_log::{Audit, AuditFault, audit};
use shop_base::Shaped;
use std::alloc::{AllocError, Global};

/// What is answered for a log that records a run.
#[derive(Clone, Copy, Debug, PartialEq, Eq)]
pub enum LogAnswer {
    /// Its numbers, as `audit` does.
    Numbers,
    /// Its Gantt text, as `gantt` does.
    Drawing,
}

/// Whether the log of a file records a run of the plan of another for the instance of a third, by any controller. Names
/// and the clock are those of a fourth file, which is read once the plan is shaped.
pub fn log_answer<T: Texts>(
    alloc: Global,
    texts: &mut T,
    files: &Files<'_>,
    log: &str,
    wanted: LogAnswer,
) -> Answered
    ensures { RunsLog T.gives wanted files.now.inputs
        (option_copied files.now.names) log.now texts.old result texts.new }
{
    match shape_files(alloc, texts, &files.inputs)? {
        Ok(shaped) => {
            let answer = shaped_log(alloc, texts, &shaped, files.names, log, wanted);
            drop(shaped);
            answer
        }
        Err(fault) => unshaped_answer(alloc, fault),
    }
}

/// What is answered for the log of a file by a plan, with the names and the clock of another.
fn shaped_log<T: Texts>(
    alloc: Global,
    texts: &mut T,
    shaped: &Shaped,
    names: Option<&str>,
    log: &str,
    wanted: LogAnswer,
) -> Answered
    ensures { let p = shaped.now in WithNamesAndLog T.gives (option_copied names.entry) log.now p
        (λ book. IsLogLine book wanted p) texts.old result texts.new }
{
    let read = names_and_log(alloc, texts, shaped, names, log)?;
    let answer = audited(alloc, &read.names, shaped, &read.log, wanted);
    drop(read);
    answer
}

/// What is answered for a log that is audited against a plan.
fn audited(alloc: Global, names: &Names, shaped: &Shaped, log: &[u8], wanted: LogAnswer) -> Answered
    ensures { IsOrMemory (IsLogLine names.now wanted shaped.now log.now) result }
{
    match audit(alloc, shaped, log) {
        Ok(found) => Ok(answer_run(alloc, names, shaped, &found, wanted)?),
        Err(fault) => log_fault_answer(alloc, fault),
    }
}

/// What is answered for the run of a log.
fn answer_run(
    alloc: Global,
    names: &Names,
    shaped: &Shaped,
    run: &Audit,
    wanted: LogAnswer,
) -> Result<Answer, AllocError>
    ensures { IfOk result (IsRunAnswer names.now wanted shaped.now run.now) }
{
    match wanted {
        LogAnswer::Numbers => kept_answer(alloc, run),
        LogAnswer::Drawing => {
            let text = gantt_for(alloc, names, shaped, run.entries.as_slice())?.into_bytes();
            Ok(Answer { text, status: GOOD })
        }
    }
}

fn kept_answer(alloc: Global, run: &Audit) -> Result<Answer, AllocError>
    ensures { IfOk result (λ answer. (answer.text.items ≡ kept_line run.now) × (answer.status ≡ 0)) }
{
    let mut text = Vec::new(alloc);
    push_fact(&mut text, b"log kept reports ", run.reports)?;
    push_fact(&mut text, b" orders ", run.orders)?;
    push_fact(&mut text, b" last ", run.last)?;
    text.extend_from_slice(end_words(run.complete).as_bytes())?;
    Ok(Answer { text, status: GOOD })
}

/// Whether the run has ended, in words.
fn end_words(complete: bool) -> &'static str
    ensures { result.now ≡ run_end_words complete }
{
    if complete {
        " complete\n"
    } else {
        " partial\n"
    }
}

/// The line of a log that records no run.
pub fn log_fault_answer(alloc: Global, fault: AuditFault) -> Answered
    ensures { IsLogFaultAnswer fault result }
{
    match Unanswered::from(fault).0 {
        Some(fault) => Err(fault),
        None => Ok(log_refused(alloc, fault.line() as u64, fault.name())?),
    }
}
