//! The jobs that leave past their budgets.

ghost use Rattle.std.specs.Prelude.{◌≡◌, ◌<◌, IfOk, slice_index_or, None};
ghost use Rattle.shop_base.specs.Plan.{jobs};
ghost use Rattle.run_picture.specs.Late.{late_leavings, late_leaving, last_machine, latest};

use crate::visit::moment_or_none;
use shop_base::{JobNo, MachineNo, Moment, Shaped};
use std::alloc::{AllocError, Global};

/// A leaving of a job past its budget: the machine that it leaves, and when.
#[derive(Clone, Copy, Debug)]
pub struct LateLeaving {
    /// The last machine of the job's route.
    pub machine: MachineNo,
    /// When the job leaves it.
    pub at: Moment,
}

/// Of each job its leaving, if that is known and past its budget. The leavings are given by job; one that isn't given
/// isn't late. Fails only when out of memory.
pub fn late_leavings(
    alloc: Global,
    shaped: &Shaped,
    leavings: &[Option<Moment>],
) -> Result<Vec<Option<LateLeaving>>, AllocError>
    ensures { IfOk result (λ late. late.items ≡ late_leavings shaped.now leavings.now) }
{
    let jobs = shaped.job_count();
    let mut late = Vec::with_capacity(alloc, jobs as usize)?;
    for job in 0..jobs {
        late.push(late_leaving(shaped, job, leaving_at(leavings, job)))?;
    }
    Ok(late)
}

/// The latest of the leavings that are known, 0 if none is: the makespan, if all are.
pub fn latest(leavings: &[Option<Moment>]) -> Moment
    ensures { result ≡ latest leavings.now }
{
    let mut last = 0;
    for leaving in leavings {
        last = last.max(moment_or_none(*leaving));
    }
    last
}

/// When the job leaves, if that is known.
fn leaving_at(leavings: &[Option<Moment>], job: JobNo) -> Option<Moment>
    ensures { result ≡ slice_index_or leavings.now job None }
{
    match leavings.get(job as usize) {
        Some(leaving) => *leaving,
        None => None,
    }
}

/// The leaving of a job, if it is past the job's budget.
fn late_leaving(shaped: &Shaped, job: JobNo, leaving: Option<Moment>) -> Option<LateLeaving>
    requires { job < jobs shaped.now }
    ensures { result ≡ late_leaving shaped.now job leaving }
{
    let at = leaving?;
    if shaped.budget_of(job) < at {
        let machine = last_machine(shaped, job);
        return Some(LateLeaving { machine, at });
    }
    None
}

/// The last machine of a job's route.
fn last_machine(shaped: &Shaped, job: JobNo) -> MachineNo
    requires { job < jobs shaped.now }
    ensures { result ≡ last_machine shaped.now job }
{
    let last = shaped.step_count(job) - 1;
    match shaped.step_of(job, last) {
        Some(step) => step.machine,
        None => unreachable!(),
    }
}
