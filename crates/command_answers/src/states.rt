//! The command `state`.

ghost use Rattle.std.specs.Prelude.{◌≤◌, IfOk, IfSome};
ghost use Rattle.std.specs.Option.{option_copied};
ghost use Rattle.shop_base.specs.declared.limits.TheConstants.{MAX_MOMENT};
ghost use Rattle.command_answers.specs.States.{IsStateAnswer, IsStateLine};
ghost use Rattle.command_answers.specs.Steps.{IsOrMemory};
ghost use Rattle.command_answers.specs.Commands.{RunsState, WithNamesAndLog};

use crate::answer::{Answer, Answered, GOOD};
use crate::inputs::{Files, shape_files};
use crate::naming::{NamesAndLog, names_and_log};
use crate::rests::run_fault_answer;
use crate::shapes::unshaped_answer;
use crate::texts::Texts;
use cell_tables::Rest;
use people_names::Names;
use run_log::{LoggedRest, rest_at};
use run_state::push_state;
use shop_base::{Moment, Shaped};
use std::alloc::{AllocError, Global};

/// Where each job of a run is by its log, from a present moment on or from the last one of that run, and what of it is
/// overdue. What comes after the log's last line feed isn't looked at. A present moment before the last one gets the line
/// `log past L`. Names and the clock are those of a file, which is read once the plan is shaped, before the log.
pub fn state_answer<T: Texts>(
    alloc: Global,
    texts: &mut T,
    files: &Files<'_>,
    log: &str,
    at: Option<Moment>,
) -> Answered
    requires { IfSome at (λ present. present ≤ MAX_MOMENT) }
    ensures { RunsState T.gives files.now.inputs (option_copied files.now.names) log.now at
        texts.old result texts.new }
{
    match shape_files(alloc, texts, &files.inputs)? {
        Ok(shaped) => shaped_state(alloc, texts, shaped, files.names, log, at),
        Err(fault) => unshaped_answer(alloc, fault),
    }
}

/// The state of a run of a plan by the log of a file, with the names and the clock of another.
fn shaped_state<T: Texts>(
    alloc: Global,
    texts: &mut T,
    shaped: Shaped,
    names: Option<&str>,
    log: &str,
    at: Option<Moment>,
) -> Answered
    requires { IfSome at (λ present. present ≤ MAX_MOMENT) }
    ensures { WithNamesAndLog T.gives (option_copied names.entry) log.now shaped
        (λ book. IsStateLine book at shaped) texts.old result texts.new }
{
    match names_and_log(alloc, texts, &shaped, names, log) {
        Ok(read) => logged_state(alloc, shaped, read, at),
        Err(fault) => {
            drop(shaped);
            Err(fault)
        }
    }
}

/// The state of a run of a plan by its log.
fn logged_state(alloc: Global, shaped: Shaped, read: NamesAndLog, at: Option<Moment>) -> Answered
    requires { IfSome at (λ present. present ≤ MAX_MOMENT) }
    ensures { IsOrMemory (IsStateLine read.names at shaped read.log.items) result }
{
    let NamesAndLog { names, log } = read;
    match rest_at(alloc, shaped, &log, at)? {
        Ok(LoggedRest { rest, entries }) => {
            drop(entries);
            Ok(rest_state(alloc, &names, &rest)?)
        }
        Err(fault) => run_fault_answer(alloc, fault),
    }
}

/// The state of the rest of a run.
fn rest_state(alloc: Global, names: &Names, rest: &Rest<Shaped>) -> Result<Answer, AllocError>
    ensures { let r = rest.now in IfOk result (IsStateAnswer names.now r.plan r.cell r.present) }
{
    let (mut text, status) = (Vec::new(alloc), GOOD);
    push_state(&mut text, names, rest)?;
    Ok(Answer { text, status })
}
