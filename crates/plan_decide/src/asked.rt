//! Which promises are asked for, and the limits that they set.

ghost use Rattle.std.specs.Prelude.{◌≡◌, ◌<◌, IfOk};
ghost use Rattle.shop_base.specs.Plan.{jobs};
ghost use Rattle.plan_decide.specs.Cases.{case_jobs};
ghost use Rattle.plan_decide.specs.Asking.{promise_in, limit_asked, AreLimits};
ghost use Rattle.plan_decide.specs.Settings.{case_in};

use crate::aim::Objective;
use crate::setting::{Setting, budget_for, is_waiting};
use shop_base::limits::MAX_MOMENT;
use shop_base::{JobNo, Moment, Planned};
use std::alloc::{AllocError, Global};

/// Which promises are asked for.
#[derive(Clone, Copy)]
pub(crate) enum Asked {
    /// All of them.
    All,
    /// None of them.
    Nobody,
    /// Those of two jobs, or of one that is given twice.
    Both(JobNo, JobNo),
    /// All of them, and an objective that is at most this.
    AtMost(Objective, Moment),
}

/// The budget of a job that has a promise.
pub(crate) fn promise_to<P: Planned>(setting: &Setting<'_, P>, job: JobNo) -> Option<Moment>
    requires { job < jobs setting.now.plan }
    ensures { result ≡ promise_in (case_in setting.now) job }
{
    if !is_waiting(setting, job) {
        return None;
    }
    let budget = budget_for(setting, job);
    let is_promised = budget < MAX_MOMENT;
    if is_promised { Some(budget) } else { None }
}

/// The limit of a job, if the job is asked for.
fn limit_for<P: Planned>(setting: &Setting<'_, P>, asked: Asked, job: JobNo) -> Option<Moment>
    requires { job < jobs setting.now.plan }
    ensures { result ≡ limit_asked (case_in setting.now) asked job }
{
    match asked {
        Asked::All => promise_to(setting, job),
        Asked::Nobody => None,
        Asked::Both(one, other) => {
            if job == one || job == other {
                promise_to(setting, job)
            } else {
                None
            }
        }
        Asked::AtMost(Objective::Makespan, limit) => { Some(budget_for(setting, job).min(limit)) },
        Asked::AtMost(Objective::Leaving(last), limit) => {
            if job == last {
                Some(limit)
            } else {
                promise_to(setting, job)
            }
        }
    }
}

/// The limits of all jobs.
pub(crate) fn limits_for<P: Planned>(
    alloc: Global,
    setting: &Setting<'_, P>,
    asked: Asked,
) -> Result<Vec<Option<Moment>>, AllocError>
    ensures { let t = case_in setting.now in IfOk result (λ limits. AreLimits t asked (case_jobs t) limits.items) }
{
    let mut limits = Vec::new(alloc);
    for job in 0..setting.cell().job_count() {
        limits.push(limit_for(setting, asked, job))?;
    }
    Ok(limits)
}
