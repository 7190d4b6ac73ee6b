//! What `decide` answers of the rest of a run.

ghost use Rattle.std.specs.Prelude.{◌≡◌, ◌≤◌, IfOk, IfSome};
ghost use Rattle.std.specs.Option.{option_copied};
ghost use Rattle.shop_base.specs.declared.limits.TheConstants.{MAX_MOMENT};
ghost use Rattle.text_lines.specs.Lines.{ended_lines};
ghost use Rattle.command_answers.specs.Shapes.{IsLineOfFault};
ghost use Rattle.command_answers.specs.DecidingRests.{IsDecisionFrom, IsRestDecisionAnswer, refusal};
ghost use Rattle.plan_decide.specs.{Pasts.whole_case, Promises.IsInRange};
ghost use Rattle.command_answers.specs.{Naming.ReadsNames, Steps.Concludes, Steps.Then, Texts.Asks};

use crate::answer::{Answer, Answered};
use crate::command_fault::CommandFault;
use crate::decides::decided_answer;
use crate::naming::names_and_log;
use crate::rests::run_fault_answer;
use crate::shape_faults::{bad_numbers_answer, fault_answer};
use crate::texts::Texts;
use arc_choice::Choose;
use cell_tables::Rest;
use people_names::Names;
use plan_decide::{Aim, DecideFault, Watch, decide_rest};
use run_log::rest_at;
use shop_base::{Moment, Planned, ShapeFault, Shaped};
use std::alloc::{AllocError, Global};

/// What is decided of the rest of the run of a plan in the log of a file, with the names and the clock of another.
pub(crate) fn logged_decided<T: Texts, C: Choose, W: Watch>(
    alloc: Global,
    texts: &mut T,
    shaped: Shaped,
    names: Option<&str>,
    log: &str,
    at: Option<Moment>,
    aim: Aim,
    choices: u64,
    chooser: &mut C,
    watch: &mut W,
) -> Answered
    requires present { IfSome at (λ present. present ≤ MAX_MOMENT) }
    requires job { IsInRange (whole_case shaped) aim }
    ensures { Then (ReadsNames T.gives (option_copied names.entry) shaped) (λ book. Then (Asks T.gives log.now)
        (λ text. Concludes (IsRestDecisionAnswer book at (ended_lines text) shaped aim))) texts.old result texts.new }
{
    match names_and_log(alloc, texts, &shaped, names, log) {
        Ok(read) => {
            let (names, log) = (&read.names, &read.log);
            let answer = rest_decided(alloc, names, shaped, log, at, aim, choices, chooser, watch);
            drop(read);
            answer
        }
        Err(fault) => {
            drop(shaped);
            Err(fault)
        }
    }
}

/// What is decided of the rest of the run in a log.
fn rest_decided<C: Choose, W: Watch>(
    alloc: Global,
    names: &Names,
    shaped: Shaped,
    log: &[u8],
    at: Option<Moment>,
    aim: Aim,
    choices: u64,
    chooser: &mut C,
    watch: &mut W,
) -> Answered
    requires present { IfSome at (λ present. present ≤ MAX_MOMENT) }
    requires job { IsInRange (whole_case shaped) aim }
    ensures { IsRestDecisionAnswer names.now at (ended_lines log.now) shaped aim result }
{
    match rest_at(alloc, shaped, log, at)? {
        Ok(run) => {
            let answer = answer_decided(alloc, names, &run.rest, aim, choices, chooser, watch);
            drop(run);
            answer
        }
        Err(fault) => run_fault_answer(alloc, fault),
    }
}

/// What is decided of the rest of a run.
fn answer_decided<P: Planned, C: Choose, W: Watch>(
    alloc: Global,
    names: &Names,
    rest: &Rest<P>,
    aim: Aim,
    choices: u64,
    chooser: &mut C,
    watch: &mut W,
) -> Answered
    requires { IsInRange (whole_case rest.now.plan) aim }
    ensures { let r = rest.now in IsDecisionFrom names.now aim r.plan r.cell r.present result }
{
    match decide_rest(alloc, rest, aim, choices, chooser, watch) {
        Ok(decided) => {
            let answer = decided_answer(alloc, names, &decided);
            drop(decided);
            answer
        }
        Err(DecideFault::Memory) => Err(CommandFault::Memory),
        Err(DecideFault::JobOutOfRange) => unreachable!(),
    }
}

/// The line of a plan that isn't well shaped, with its first fault.
pub(crate) fn unfit_answer(alloc: Global, fault: ShapeFault) -> Result<Answer, AllocError>
    ensures { IfOk result (IsLineOfFault (refusal fault) fault) }
{
    match fault {
        ShapeFault::OrderCount
        | ShapeFault::JobOutOfRange { .. }
        | ShapeFault::NotOnRoute { .. }
        | ShapeFault::JobTwice { .. }
        | ShapeFault::JobMissing { .. } => fault_answer(alloc, b"not shaped ", fault),
        _ => bad_numbers_answer(alloc, fault),
    }
}
