//! The command `resume`.

ghost use Rattle.std.specs.Prelude.{◌≤◌, IfSome, Ok};
ghost use Rattle.shop_base.specs.declared.limits.TheConstants.{MAX_MOMENT};
ghost use Rattle.command_run.specs.Drives.{IsEndAnswer};
ghost use Rattle.command_run.specs.Resumes.{HasAnswer, IsRecovery, IsUnrecoveredAnswer, ResumesLog, ResumesText, end_of_rest};
ghost use Rattle.command_run.specs.Program.{RunsResume};

use crate::devices::Streams;
use crate::drives::{CommandFaultOf, ended, line_answer};
use cell_drive::{
    BufferedSink, DriveFault, Protocol, RecoveredRun, RestEnd, ResumeFault, Source, recover,
    resume_in,
};
use command_answers::{
    Answered, CommandFault, InputPaths, Loaded, Texts, run_fault_answer, shape_files,
};
use plan_verifier::Verdict;
use shop_base::{Moment, Shaped};
use std::alloc::Global;
use std::marker::Model;

/// Reads a plan, and if it is well shaped recovers its run from the log, at a moment, and drives it on by this
/// protocol; else its first fault is the answer.
pub(crate) fn resume_answer<T: Texts, R: Source, W: BufferedSink>(
    alloc: Global,
    texts: &mut T,
    inputs: &InputPaths<'_>,
    log: &str,
    at: Option<Moment>,
    protocol: Protocol,
    streams: &mut Streams<R, W>,
) -> Answered
    requires { IfSome at (λ present. present ≤ MAX_MOMENT) }
    ensures { RunsResume T.gives protocol at inputs.now log.now texts.old streams.old result texts.new streams.new }
{
    match shape_files(alloc, texts, inputs)? {
        Ok(shaped) => resume_log(alloc, texts, shaped, log, at, protocol, streams),
        Err(fault) => line_answer(alloc, Loaded::NotShaped(fault)),
    }
}

/// Asks for the log of a plan, recovers its run, and drives that on by this protocol to the end of the input; why it
/// isn't recovered is an answer.
fn resume_log<T: Texts, R: Source, W: BufferedSink>(
    alloc: Global,
    texts: &mut T,
    shaped: Shaped,
    log: &str,
    at: Option<Moment>,
    protocol: Protocol,
    streams: &mut Streams<R, W>,
) -> Answered
    requires { IfSome at (λ present. present ≤ MAX_MOMENT) }
    ensures { ResumesLog T.gives protocol at log.now shaped texts.old streams.old result texts.new streams.new }
{
    match texts.text(alloc, log) {
        Ok(text) => resume_text(alloc, shaped, text, at, protocol, streams),
        Err(fault) => {
            drop(shaped);
            Err(fault)
        }
    }
}

/// Recovers the run of a plan from the text of its log, and drives it on.
fn resume_text<R: Source, W: BufferedSink>(
    alloc: Global,
    shaped: Shaped,
    text: Vec<u8>,
    at: Option<Moment>,
    protocol: Protocol,
    streams: &mut Streams<R, W>,
) -> Answered
    requires { IfSome at (λ present. present ≤ MAX_MOMENT) }
    ensures { ResumesText protocol at shaped (Ok text.items) streams.old streams.new result }
{
    match recoverable(alloc, shaped, text, at) {
        Ok(recovered) => {
            let end = resume_in(recovered, protocol, &mut streams.input, &mut streams.output);
            rest_answer(alloc, end)
        }
        Err(fault) => unrecovered_answer(alloc, fault),
    }
}

/// Recovers the run that the text records, and gives the text back.
fn recoverable(
    alloc: Global,
    shaped: Shaped,
    text: Vec<u8>,
    at: Option<Moment>,
) -> Result<RecoveredRun, ResumeFault>
    requires { IfSome at (λ present. present ≤ MAX_MOMENT) }
    ensures { IsRecovery shaped at text.items result }
{
    recover(alloc, shaped, &text, at)
}

/// What is answered where a run isn't recovered: the line of the log's first fault, of a moment that is past, or of the
/// plan.
pub(crate) fn unrecovered_answer(alloc: Global, fault: ResumeFault) -> Answered
    requires { HasAnswer fault }
    ensures { IsUnrecoveredAnswer fault result }
{
    match fault {
        ResumeFault::Run(fault) => run_fault_answer(alloc, fault),
        ResumeFault::Refused(shaped, why) => {
            line_answer(alloc, Loaded::Judged(Verdict::Refused(shaped, why)))
        }
        fault @ ResumeFault::Memory => Err(CommandFault::from(RecoverAllocFailure { fault })),
    }
}

/// What is answered at the end of a run that was driven on, whose lines are written already.
fn rest_answer(alloc: Global, end: Result<RestEnd, DriveFault>) -> Answered
    ensures { IsEndAnswer (end_of_rest end) result }
{
    match end {
        Ok(end) => Ok(ended(alloc, end.done)),
        Err(fault) => Err(CommandFaultOf::from(fault).0),
    }
}

/// A fault of recovering a run that is `Memory`.
#[derive(Drop)]
struct RecoverAllocFailure {
    fault: ResumeFault,
}

impl Model for RecoverAllocFailure {
    ghost use Rattle.std.specs.Prelude.{◌≡◌};
    ghost use Rattle.cell_drive.specs.declared.resume_fault.ResumeFault.{ResumeFault};
    ghost use Rattle.cell_drive.specs.declared.resume_fault.ResumeFault.TheVariants.{Memory};

    ghost Value = { ResumeFault };

    ghost view = { λ w. w.fault };

    ghost invariant = { λ w. w.fault ≡ Memory };
}

impl From<RecoverAllocFailure> for CommandFault {
    ghost use Rattle.std.specs.Prelude.{◌≡◌};
    ghost use Rattle.command_answers.specs.declared.command_fault.CommandFault.TheVariants.{Memory};

    ghost from_gives = { λ _ fault. fault ≡ Memory };

    fn from(cause: RecoverAllocFailure) -> CommandFault {
        match cause.fault {
            ResumeFault::Memory => CommandFault::Memory,
            ResumeFault::Run(_) | ResumeFault::Refused(_, _) => unreachable!(),
        }
    }
}
