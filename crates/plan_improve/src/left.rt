//! What a run has left of its plan.

ghost use Rattle.std.specs.Prelude.{◌≡◌, ◌<◌, ◌↔◌, false, IfOk};
ghost use Rattle.shop_base.specs.Plan.{jobs};
ghost use Rattle.plan_improve.specs.RestOf.{IsRestOf, job_rest, HasNotArrived, NothingIsDone};

use cell_tables::{Rest, WorkCell};
use plan_net::{JobAhead, PartAhead};
use shop_base::{JobNo, Moment, Planned};
use std::alloc::{AllocError, Global};

/// What is left, as an improver gets it.
pub(crate) fn left_of<P: Planned>(alloc: Global, rest: &Rest<P>) -> Result<PartAhead, AllocError>
    ensures { IfOk result (IsRestOf rest.now.plan rest.now.cell rest.now.present) }
{
    let (cell, present) = (rest.cell(), rest.present());
    let mut jobs = Vec::new(alloc);
    for job in 0..cell.job_count() {
        jobs.push(job_rest(cell, present, job))?;
    }
    let mut cleanings = Vec::new(alloc);
    for machine in 0..cell.machine_count() {
        cleanings.push(cell.cleaned_since(machine))?;
    }
    Ok(PartAhead { jobs, cleanings })
}

/// How the job goes on: not before the present moment, and not before what goes on with it is due.
fn job_rest<P: Planned>(cell: &WorkCell<P>, present: Moment, job: JobNo) -> JobAhead
    requires { job < jobs cell.now.plan }
    ensures { result ≡ job_rest cell.now.plan cell.now.cell present job }
{
    let state = cell.job_state(job);
    let bound = if cell.step_count(job) < state.made {
        state.since
    } else {
        match cell.job_due(job) {
            Some(due) => present.max(due),
            None => present,
        }
    };
    JobAhead {
        made: state.made,
        bound,
    }
}

/// Whether a job has arrived.
pub(crate) fn has_begun<P: Planned>(cell: &WorkCell<P>) -> bool
    ensures { (result ≡ false) ↔ NothingIsDone cell.now.plan cell.now.cell }
{
    for job in 0..cell.job_count() {
        if has_arrived(cell, job) {
            return true;
        }
    }
    false
}

/// Whether the job has arrived.
fn has_arrived<P: Planned>(cell: &WorkCell<P>, job: JobNo) -> bool
    requires { job < jobs cell.now.plan }
    ensures { (result ≡ false) ↔ HasNotArrived cell.now.cell job }
{
    let state = cell.job_state(job);
    if state.ready {
        return true;
    }
    state.made > 0
}
