//! The least value of an objective, by halving what lies between a bound and a plan.

ghost use Rattle.std.specs.Prelude.{◌≡◌, ◌-◌, ◌<◌, ◌≤◌, IfOk, IfSome};
ghost use Rattle.shop_base.specs.{Plan.jobs, Vectors.lists_of};
ghost use Rattle.plan_decide.specs.declared.aim.Objective.TheVariants.{Makespan, Leaving};
ghost use Rattle.plan_decide.specs.Objectives.{IsLeastValue};
ghost use Rattle.plan_decide.specs.Settings.{case_in};
ghost use Rattle.plan_decide.specs.Halves.{IsFree, IsFoundWith, IsLeavingBy, IsLooked, IsHalfway, IsNarrowed, IsHalved};

use crate::aim::Objective;
use crate::asked::Asked;
use crate::asker::{Asker, Watch};
use crate::decided::Within;
use crate::judging::{accepted_at, accepted_by};
use crate::kept::{Kept, leaving_in, makespan_of};
use crate::setting::{Setting, bound_of_job, is_waiting};
use arc_choice::Choose;
use cell_tables::copy_orders;
use plan_bounds::least_makespan;
use plan_limits::LimitsAnswer;
use plan_verifier::later;
use shop_base::limits::MAX_MOMENT;
use shop_base::{JobNo, Moment, Planned};
use std::alloc::{AllocError, Global};

/// An accepted plan, with its value of the objective. Where that is a job's leaving, it is the job's budget.
#[derive(Drop)]
pub(crate) struct Best {
    pub plan: Kept,
    pub value: Moment,
}

/// What comes of looking for a better plan.
#[derive(Drop)]
pub(crate) enum Looked {
    Better(Best),
    /// No plan has a value of at most the limit.
    Never,
    Open,
}

/// The moment below which no plan has a value.
fn bound_of<P: Planned>(setting: &Setting<'_, P>, objective: Objective) -> Moment
    requires { IsFree (case_in setting.now) objective }
    ensures { IsLeastValue (case_in setting.now) objective result }
{
    match objective {
        Objective::Makespan => {
            if setting.is_whole() {
                least_makespan(setting.cell().shaped()).at_least
            } else {
                latest_bound(setting)
            }
        }
        Objective::Leaving(job) => earliest_out(setting, job),
    }
}

/// The latest of the moments before which the jobs aren't out.
fn latest_bound<P: Planned>(setting: &Setting<'_, P>) -> Moment
    ensures { IsLeastValue (case_in setting.now) Makespan result }
{
    let mut bound = 0;
    for job in 0..setting.cell().job_count() {
        bound = later(bound, earliest_out(setting, job));
    }
    bound
}

/// Before which moment the job isn't out: its bound or, where it is gone, the moment at which it left.
fn earliest_out<P: Planned>(setting: &Setting<'_, P>, job: JobNo) -> Moment
    requires { job < jobs setting.now.plan }
    ensures leaving { IsLeastValue (case_in setting.now) (Leaving job) result }
    ensures makespan { IsLeastValue (case_in setting.now) Makespan result }
{
    let cell = setting.cell();
    if is_waiting(setting, job) {
        bound_of_job(setting, job)
    } else {
        cell.job_state(job).since
    }
}

/// The plan with these orders, if it is accepted.
pub(crate) fn plan_by<P: Planned>(
    alloc: Global,
    setting: &Setting<'_, P>,
    objective: Objective,
    order: Vec<Vec<JobNo>>,
) -> Result<Option<Best>, AllocError>
    requires { IsFree (case_in setting.now) objective }
    ensures { IfOk result (λ found. IfSome found (IsFoundWith (case_in setting.now) objective)) }
{
    match objective {
        Objective::Makespan => match accepted_by(alloc, setting, order)? {
            Some(plan) => {
                let value = makespan_of(setting, &plan);
                Ok(Some(Best { plan, value }))
            }
            None => Ok(None),
        },
        Objective::Leaving(job) => plan_at(alloc, setting, job, order),
    }
}

/// The plan with these orders and the job's leaving as its budget, if it is accepted.
fn plan_at<P: Planned>(
    alloc: Global,
    setting: &Setting<'_, P>,
    job: JobNo,
    order: Vec<Vec<JobNo>>,
) -> Result<Option<Best>, AllocError>
    requires { job < jobs setting.now.plan }
    ensures { IfOk result (λ found. IfSome found (IsFoundWith (case_in setting.now) (Leaving job))) }
{
    let Some(value) = leaving_by(alloc, setting, job, &order)? else {
        return Ok(None);
    };
    match accepted_at(alloc, setting, job, value, order)? {
        Some(plan) => Ok(Some(Best { plan, value })),
        None => Ok(None),
    }
}

/// The job's leaving by these orders, if the plan with them and no promise to the job is accepted.
fn leaving_by<P: Planned>(
    alloc: Global,
    setting: &Setting<'_, P>,
    job: JobNo,
    order: &[Vec<JobNo>],
) -> Result<Option<Moment>, AllocError>
    requires { job < jobs setting.now.plan }
    ensures { IfOk result (λ found. IfSome found (IsLeavingBy (case_in setting.now) job (lists_of order.now))) }
{
    let same = copy_orders(alloc, order)?;
    match accepted_at(alloc, setting, job, MAX_MOMENT, same)? {
        Some(loose) => {
            let value = leaving_in(setting, &loose, job);
            drop(loose);
            Ok(Some(value))
        }
        None => Ok(None),
    }
}

/// Looks for a plan with a value of at most the limit, which is better than a plan with this value.
fn look<P: Planned, C: Choose, W: Watch>(
    alloc: Global,
    setting: &Setting<'_, P>,
    asker: &mut Asker<'_, C, W>,
    objective: Objective,
    limit: Moment,
    value: Moment,
) -> Result<Looked, AllocError>
    requires { IsFree (case_in setting.now) objective }
    ensures { IfOk result (IsLooked (case_in setting.now) objective limit value) }
{
    match asker.ask(alloc, setting, Asked::AtMost(objective, limit))? {
        LimitsAnswer::Never => Ok(Looked::Never),
        LimitsAnswer::Open => Ok(Looked::Open),
        LimitsAnswer::Orders(order) => match plan_by(alloc, setting, objective, order)? {
            Some(found) => {
                if found.value < value {
                    Ok(Looked::Better(found))
                } else {
                    drop(found);
                    Ok(Looked::Open)
                }
            }
            None => Ok(Looked::Open),
        },
    }
}

/// What is known while it is halved: the best plan, the moment below which no plan is, the least that is still to be
/// asked for, and whether a search ended open.
#[derive(Drop)]
pub(crate) struct Halfway {
    pub best: Best,
    pub at_least: Moment,
    pub low: Moment,
    pub ended_open: bool,
}

/// Halves what lies between the bound and the value of a plan, and gives the best plan that it finds.
pub(crate) fn halve<P: Planned, C: Choose, W: Watch>(
    alloc: Global,
    setting: &Setting<'_, P>,
    asker: &mut Asker<'_, C, W>,
    objective: Objective,
    best: Best,
) -> Result<(Kept, Within), AllocError>
    requires free { IsFree (case_in setting.now) objective }
    requires best { IsFoundWith (case_in setting.now) objective best }
    ensures { IfOk result (IsHalved (case_in setting.now) objective) }
{
    let at_least = bound_of(setting, objective);
    let mut halfway = Halfway {
        best,
        at_least,
        low: at_least,
        ended_open: false,
    };
    while halfway.low < halfway.best.value {
        asker.report(known(&halfway));
        halfway = halve_once(alloc, setting, asker, objective, halfway)?;
    }
    let within = known(&halfway);
    let Halfway { best, .. } = halfway;
    let Best { plan, .. } = best;
    Ok((plan, within))
}

/// What is known of the objective.
fn known(halfway: &Halfway) -> Within
    ensures at_least { result.at_least ≡ halfway.now.at_least }
    ensures at_most { result.at_most ≡ halfway.now.best.value }
    ensures ended_open { result.ended_open ≡ halfway.now.ended_open }
{
    Within {
        at_least: halfway.at_least,
        at_most: halfway.best.value,
        ended_open: halfway.ended_open,
    }
}

/// Asks for the middle of what is left.
fn halve_once<P: Planned, C: Choose, W: Watch>(
    alloc: Global,
    setting: &Setting<'_, P>,
    asker: &mut Asker<'_, C, W>,
    objective: Objective,
    halfway: Halfway,
) -> Result<Halfway, AllocError>
    requires free { IsFree (case_in setting.now) objective }
    requires halfway { IsHalfway (case_in setting.now) objective halfway }
    requires more { halfway.low < halfway.best.value }
    ensures halfway { IfOk result (IsHalfway (case_in setting.now) objective) }
    ensures less { IfOk result (λ next. next.best.value - next.low < halfway.best.value - halfway.low) }
{
    let limit = halfway.low + (halfway.best.value - halfway.low) / 2;
    match look(alloc, setting, asker, objective, limit, halfway.best.value) {
        Ok(looked) => Ok(narrowed(halfway, limit, looked)),
        Err(error) => {
            drop(halfway);
            Err(error)
        }
    }
}

/// What is known once a plan with a value of at most the limit was looked for.
fn narrowed(halfway: Halfway, limit: Moment, looked: Looked) -> Halfway
    requires low { halfway.low ≤ limit }
    requires limit { limit < halfway.best.value }
    ensures { IsNarrowed halfway limit looked result }
{
    match looked {
        Looked::Better(best) => {
            let Halfway {
                best: worse,
                at_least,
                low,
                ended_open,
            } = halfway;
            drop(worse);
            Halfway {
                best,
                at_least,
                low,
                ended_open,
            }
        }
        Looked::Never => Halfway {
            at_least: limit + 1,
            low: limit + 1,
            ..halfway
        },
        Looked::Open => Halfway {
            low: limit + 1,
            ended_open: true,
            ..halfway
        },
    }
}
