//! Promised jobs left out in turn, where the others still exclude each other.

ghost use Rattle.std.specs.Prelude.{◌≡◌, ◌+◌, ◌<◌, IfOk, IfSome, MatchOption, OnOk, length, slice_set, None};
ghost use Rattle.shop_base.specs.Plan.{jobs};
ghost use Rattle.plan_decide.specs.Asking.{NoPlanKeeps};
ghost use Rattle.plan_decide.specs.Settings.{case_in};
ghost use Rattle.plan_decide.specs.Excluding.{AreAllCyclic, IsExclusion};
ghost use Rattle.plan_decide.specs.Listed.{IsSeveral};
ghost use Rattle.plan_decide.specs.LeftOut.{ArePromised, IsSpared, IsLeft, AreLimited};

use crate::asker::{Asker, Watch};
use crate::decided::Excluded;
use crate::keeping::keeps;
use crate::setting::Setting;
use arc_choice::Choose;
use plan_limits::LimitsAnswer;
use shop_base::{JobNo, Moment, Planned};
use std::alloc::{AllocError, Global};

/// What comes of the question whether a job can be left out.
#[derive(Drop)]
pub(crate) enum Spared {
    /// The promises to the others exclude each other too: their limits.
    LeftOut(Vec<Option<Moment>>),
    /// They can be kept.
    Needed,
    /// That isn't decided.
    Open,
}

/// The limits that are left.
#[derive(Drop)]
pub(crate) struct Left {
    pub limits: Vec<Option<Moment>>,
    /// Whether a search ended open.
    pub or_fewer: bool,
}

/// The jobs that are left of those with limits, where all together exclude each other: from the greatest number down
/// each is left out without which the others still do. Where none is left, no plan is without a cycle.
pub(crate) fn leave_out<P: Planned, C: Choose, W: Watch>(
    alloc: Global,
    setting: &Setting<'_, P>,
    asker: &mut Asker<'_, C, W>,
    limits: Vec<Option<Moment>>,
) -> Result<Option<Excluded>, AllocError>
    requires promised { ArePromised (case_in setting.now) limits.items }
    requires none { NoPlanKeeps (case_in setting.now) limits.items }
    ensures found { let t = case_in setting.now in
        IfOk result (λ found. MatchOption found (AreAllCyclic t) (IsExclusion t)) }
    ensures several { IfOk result (λ found. IfSome found IsSeveral) }
{
    let mut left = Left {
        limits,
        or_fewer: false,
    };
    for job in (0..setting.cell().job_count()).rev() {
        left = leave_one(alloc, setting, asker, left, job)?;
    }
    let Left { limits, or_fewer } = left;
    let jobs = limited_jobs(alloc, setting, &limits)?;
    if jobs.is_empty() {
        return Ok(None);
    }
    Ok(Some(Excluded::Several { jobs, or_fewer }))
}

/// What is left once this job was asked about too.
fn leave_one<P: Planned, C: Choose, W: Watch>(
    alloc: Global,
    setting: &Setting<'_, P>,
    asker: &mut Asker<'_, C, W>,
    left: Left,
    job: JobNo,
) -> Result<Left, AllocError>
    requires job { job < jobs setting.now.plan }
    requires left { IsLeft (case_in setting.now) left (job + 1) }
    ensures { IfOk result (λ left. IsLeft (case_in setting.now) left job) }
{
    match spare(alloc, setting, asker, &left.limits, job)? {
        Spared::LeftOut(limits) => Ok(Left {
            limits,
            or_fewer: left.or_fewer,
        }),
        Spared::Needed => Ok(left),
        Spared::Open => Ok(Left {
            limits: left.limits,
            or_fewer: true,
        }),
    }
}

/// Whether the job can be left out. One without a limit already is.
fn spare<P: Planned, C: Choose, W: Watch>(
    alloc: Global,
    setting: &Setting<'_, P>,
    asker: &mut Asker<'_, C, W>,
    limits: &[Option<Moment>],
    job: JobNo,
) -> Result<Spared, AllocError>
    requires job { job < jobs setting.now.plan }
    requires promised { ArePromised (case_in setting.now) limits.now }
    requires none { NoPlanKeeps (case_in setting.now) limits.now }
    ensures { IfOk result (IsSpared (case_in setting.now) limits.now job) }
{
    let fewer = without(alloc, limits, job)?;
    if limits[job as usize].is_none() {
        return Ok(Spared::LeftOut(fewer));
    }
    match asker.ask_limits(alloc, setting, &fewer)? {
        LimitsAnswer::Never => Ok(Spared::LeftOut(fewer)),
        LimitsAnswer::Open => Ok(Spared::Open),
        LimitsAnswer::Orders(order) => {
            if keeps(alloc, setting, &fewer, order)? {
                Ok(Spared::Needed)
            } else {
                Ok(Spared::Open)
            }
        }
    }
}

/// The limits of the other jobs.
fn without(
    alloc: Global,
    limits: &[Option<Moment>],
    job: JobNo,
) -> Result<Vec<Option<Moment>>, AllocError>
    requires { job < length limits.now }
    ensures { IfOk result (λ fewer. fewer.items ≡ slice_set limits.now job None) }
{
    let mut fewer = limits.to_vec(alloc)?;
    fewer[job as usize] = None;
    Ok(fewer)
}

/// The jobs that have limits, in ascending order.
fn limited_jobs<P: Planned>(
    alloc: Global,
    setting: &Setting<'_, P>,
    limits: &[Option<Moment>],
) -> Result<Vec<JobNo>, AllocError>
    requires { length limits.now ≡ jobs setting.now.plan }
    ensures { IfOk result (λ found. AreLimited limits.now (jobs setting.now.plan) found.items) }
{
    let mut found = Vec::new(alloc);
    for job in 0..setting.cell().job_count() {
        add_limited(limits, job, &mut found)?;
    }
    Ok(found)
}

/// Adds the job, if it has a limit.
fn add_limited(
    limits: &[Option<Moment>],
    job: JobNo,
    found: &mut Vec<JobNo>,
) -> Result<(), AllocError>
    requires job { job < length limits.now }
    requires known { AreLimited limits.now job found.old.items }
    ensures { OnOk result (AreLimited limits.now (job + 1) found.new.items) }
{
    if limits[job as usize].is_none() {
        return Ok(());
    }
    found.push(job)?;
    Ok(())
}
