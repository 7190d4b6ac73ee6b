//! How each job's promise stands, whatever is of the others.

ghost use Rattle.std.specs.Prelude.{◌≡◌, ◌<◌, IfOk};
ghost use Rattle.shop_base.specs.Plan.{jobs};
ghost use Rattle.plan_decide.specs.Cases.{case_jobs};
ghost use Rattle.plan_decide.specs.Settings.{case_in};
ghost use Rattle.plan_decide.specs.Excluding.{IsInDoubt};
ghost use Rattle.plan_decide.specs.Listed.{AreStandings, IsStanding, standing_of};

use crate::asked::{Asked, limits_for, promise_to};
use crate::asker::{Asker, Watch};
use crate::setting::{Setting, bound_of_job};
use arc_choice::Choose;
use plan_limits::LimitsAnswer;
use shop_base::{JobNo, Planned};
use std::alloc::{AllocError, Global};

/// How a job's promise stands.
#[derive(Clone, Copy)]
pub(crate) enum Standing {
    /// The job has none.
    Unpromised,
    /// No plan keeps it.
    Late,
    /// The job's bound leaves it possible, and no search has found that no plan keeps it.
    Doubt,
}

/// How the promise of each job stands.
pub(crate) fn standings<P: Planned, C: Choose, W: Watch>(
    alloc: Global,
    setting: &Setting<'_, P>,
    asker: &mut Asker<'_, C, W>,
) -> Result<Vec<Standing>, AllocError>
    ensures { let t = case_in setting.now in IfOk result (λ found. AreStandings t (case_jobs t) found.items) }
{
    let mut found = Vec::new(alloc);
    for job in 0..setting.cell().job_count() {
        found.push(found_standing(alloc, setting, asker, job)?)?;
    }
    Ok(found)
}

/// How the promise of a job stands, which has none outside these.
pub(crate) fn standing_of(standings: &[Standing], job: JobNo) -> Standing
    ensures { result ≡ standing_of standings.now job }
{
    match standings.get(job as usize) {
        Some(standing) => *standing,
        None => Standing::Unpromised,
    }
}

/// Finds how the promise of a job stands.
fn found_standing<P: Planned, C: Choose, W: Watch>(
    alloc: Global,
    setting: &Setting<'_, P>,
    asker: &mut Asker<'_, C, W>,
    job: JobNo,
) -> Result<Standing, AllocError>
    requires { job < jobs setting.now.plan }
    ensures { IfOk result (IsStanding (case_in setting.now) job) }
{
    // Called for its clause alone: a run leads to the cell.
    let _cell = setting.cell();
    let Some(budget) = promise_to(setting, job) else {
        return Ok(Standing::Unpromised);
    };
    if budget < bound_of_job(setting, job) {
        return Ok(Standing::Late);
    }
    doubted(alloc, setting, asker, job)
}

/// How the promise of a job stands that its bound leaves possible. That of a whole plan can be kept by one in which the
/// job goes first.
fn doubted<P: Planned, C: Choose, W: Watch>(
    alloc: Global,
    setting: &Setting<'_, P>,
    asker: &mut Asker<'_, C, W>,
    job: JobNo,
) -> Result<Standing, AllocError>
    requires { IsInDoubt (case_in setting.now) job }
    ensures { IfOk result (IsStanding (case_in setting.now) job) }
{
    if setting.is_whole() {
        return Ok(Standing::Doubt);
    }
    let limits = limits_for(alloc, setting, Asked::Both(job, job))?;
    match asker.ask_few(alloc, setting, &limits)? {
        LimitsAnswer::Never => Ok(Standing::Late),
        _ => Ok(Standing::Doubt),
    }
}
