//! What is answered of the rest of a run, of which a whole plan is one: the commands `check`, `explain` and `schedule`.

ghost use Rattle.std.specs.Prelude.{◌≡◌, ◌<◌, ◌≤◌, Ok, IfOk, IfErr, IfSome};
ghost use Rattle.shop_base.specs.Plan.{jobs};
ghost use Rattle.shop_base.specs.declared.limits.TheConstants.{MAX_MOMENT};
ghost use Rattle.command_answers.specs.Rests.{AnswersRest, HasLine, IsAnswerBy, IsPastLine, IsRunFaultAnswer};
ghost use Rattle.command_answers.specs.Rests.{IsTextOf, job_asked, rest_status};
ghost use Rattle.command_answers.specs.Steps.{IsOrMemory};
ghost use Rattle.command_answers.specs.Commands.{RunsRest};
ghost use Rattle.plan_explain.specs.Known.{IsKnownVerdict};

use crate::answer::{Answer, Answered, GOOD, REFUSED};
use crate::inputs::RunFiles;
use crate::known_rests::{KnownRest, rest_of_run};
use crate::lines::push_fact;
use crate::logs::log_fault_answer;
use crate::texts::Texts;
use cell_tables::{PresentFault, Rest};
use people_names::Names;
use plan_explain::{explain, first_line};
use plan_schedule::schedule;
use plan_verifier::{Judged, judge};
use run_log::RunFault;
use shop_base::{JobNo, Moment, Planned};
use std::alloc::{AllocError, Global};

/// What is answered for a plan, or for the rest of a run of it.
#[derive(Clone, Copy, Debug, PartialEq, Eq)]
pub enum PlanAnswer {
    /// The verdict, as `check` does.
    Verdict,
    /// Why it is so, as `explain` does, with the chain of the job that is asked for, if one is.
    Reasons(Option<JobNo>),
    /// When what begins and ends, as `schedule` does.
    Moments,
}

impl PlanAnswer {
    /// The job whose chain is asked for, if there is one.
    pub(crate) fn job_asked(self) -> Option<JobNo>
        ensures { result ≡ job_asked self }
    {
        match self {
            PlanAnswer::Reasons(job) => job,
            PlanAnswer::Verdict | PlanAnswer::Moments => None,
        }
    }
}

/// What is answered of a run: of the rest of that in a log, from a present moment on or from the last one of that run, or
/// of the whole plan, if it hasn't begun. What comes after the log's last line feed isn't looked at. A present moment
/// before the last one gets the line `log past L`. Names and the clock are those of a file, which is read once the plan
/// is shaped and the job that is asked for is one of the shop.
pub fn rest_answer<T: Texts>(
    alloc: Global,
    texts: &mut T,
    run: &RunFiles<'_>,
    wanted: PlanAnswer,
) -> Answered
    requires { IfSome run.now.at (λ present. present ≤ MAX_MOMENT) }
    ensures { RunsRest T.gives wanted run.now texts.old result texts.new }
{
    let found = rest_of_run(alloc, texts, run, wanted.job_asked())?;
    found_answer(alloc, found, wanted)
}

/// What is answered of where a run is, or the line that stands instead.
fn found_answer(alloc: Global, found: Result<KnownRest, Answer>, wanted: PlanAnswer) -> Answered
    requires job { IfOk found (λ s. IfSome (job_asked wanted) (λ j. j < jobs s.rest.plan)) }
    requires judged { IfOk found (λ s. IsKnownVerdict s.rest.plan s.rest.cell s.rest.present s.verdict) }
    ensures answer { IfOk found (λ s. IsOrMemory
        (IsAnswerBy s.names wanted s.rest.plan s.rest.cell s.rest.present s.verdict) result) }
    ensures line { IfErr found (λ line. result ≡ Ok line) }
{
    match found {
        Ok(known) => {
            let (names, rest) = (&known.names, &known.rest);
            Ok(answer_judged(alloc, names, rest, &known.verdict, wanted)?)
        }
        Err(line) => Ok(line),
    }
}

/// The line that says why there is no run up to the present moment: of the log's first fault, or of a moment that is past.
pub fn run_fault_answer(alloc: Global, fault: RunFault) -> Answered
    requires { HasLine fault }
    ensures { IsRunFaultAnswer fault result }
{
    match fault {
        RunFault::Log(fault) => log_fault_answer(alloc, fault),
        RunFault::Present(PresentFault::Past { last }) => Ok(past_answer(alloc, last)?),
        RunFault::Present(PresentFault::TooLarge) => unreachable!(),
    }
}

/// The line of a present moment before the last one.
fn past_answer(alloc: Global, last: Moment) -> Result<Answer, AllocError>
    ensures { IfOk result (IsPastLine last) }
{
    let (mut text, status) = (Vec::new(alloc), REFUSED);
    push_fact(&mut text, b"log past ", last)?;
    text.push(b'\n')?;
    Ok(Answer { text, status })
}

/// What is answered for the rest of a run: the text of the verdict on it, with its status.
pub fn answer_rest<P: Planned>(
    alloc: Global,
    names: &Names,
    rest: &Rest<P>,
    wanted: PlanAnswer,
) -> Result<Answer, AllocError>
    requires { IfSome (job_asked wanted) (λ j. j < jobs rest.now.plan) }
    ensures { IfOk result (AnswersRest names.now wanted rest.now.plan rest.now.cell rest.now.present) }
{
    let verdict = judge(alloc, rest)?;
    let answer = answer_judged(alloc, names, rest, &verdict, wanted);
    drop(verdict);
    answer
}

/// What is answered for the rest of a run by the verdict on it.
pub(crate) fn answer_judged<P: Planned>(
    alloc: Global,
    names: &Names,
    rest: &Rest<P>,
    verdict: &Judged,
    wanted: PlanAnswer,
) -> Result<Answer, AllocError>
    requires job { IfSome (job_asked wanted) (λ j. j < jobs rest.now.plan) }
    requires judged { IsKnownVerdict rest.now.plan rest.now.cell rest.now.present verdict.now }
    ensures { let r = rest.now in
        IfOk result (IsAnswerBy names.now wanted r.plan r.cell r.present verdict.now) }
{
    let text = verdict_text(alloc, names, rest, verdict, wanted)?;
    let status = rest_status(verdict);
    Ok(Answer { text, status })
}

/// The text of a verdict.
fn verdict_text<P: Planned>(
    alloc: Global,
    names: &Names,
    rest: &Rest<P>,
    verdict: &Judged,
    wanted: PlanAnswer,
) -> Result<Vec<u8>, AllocError>
    requires job { IfSome (job_asked wanted) (λ j. j < jobs rest.now.plan) }
    requires judged { IsKnownVerdict rest.now.plan rest.now.cell rest.now.present verdict.now }
    ensures { let r = rest.now in
        IfOk result (λ text. IsTextOf names.now wanted r.plan r.cell r.present verdict.now text.items) }
{
    match wanted {
        PlanAnswer::Verdict => first_line(alloc, rest, verdict),
        PlanAnswer::Reasons(job) => explain(alloc, names, job, rest, verdict),
        PlanAnswer::Moments => schedule(alloc, names, rest, verdict),
    }
}

/// The status of a verdict.
pub(crate) fn rest_status(verdict: &Judged) -> u8
    ensures { result ≡ rest_status verdict.now }
{
    match verdict {
        Judged::Accepted(_) => GOOD,
        Judged::Refused(_) => REFUSED,
    }
}
