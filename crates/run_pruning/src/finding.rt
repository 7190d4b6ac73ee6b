//! Which jobs are over.

ghost use Rattle.std.specs.Prelude.{◌≡◌, ℕ, ◌<◌, ◌↔◌, IsTrue, MatchBool, IfOk};
ghost use Rattle.shop_base.specs.Plan.{jobs};
ghost use Rattle.cell_tables.specs.{Events.events_of, Readings.IsCleanedAfter};
ghost use Rattle.run_pruning.specs.Over.{IsJobOver, DropsAllThatIsOver};
ghost use Rattle.run_pruning.specs.PruningLaw.{run_owner};

use crate::kept_jobs::KeptJobs;
use crate::leavers::last_owner;
use cell_tables::{Entry, WorkCell};
use shop_base::{JobNo, Planned};
use std::alloc::{AllocError, Global};

/// The jobs that stay at the end of a run, of which these are the entries and this is the cell: all but those that are
/// over.
pub(crate) fn jobs_to_keep<P: Planned>(
    alloc: Global,
    cell: &WorkCell<P>,
    entries: &[Entry],
) -> Result<KeptJobs, AllocError>
    ensures { let last = run_owner cell.now.plan (events_of entries.now) in
        IfOk result (DropsAllThatIsOver cell.now.plan cell.now.cell last) }
{
    let last = last_owner(alloc, cell.machine_count(), entries)?;
    let mut kept = KeptJobs::new(alloc);
    for job in 0..cell.job_count() {
        kept.note(!is_over(cell, last, job))?;
    }
    Ok(kept)
}

/// Whether the job is over, where `last` is the job whose the last event is.
fn is_over<P: Planned>(cell: &WorkCell<P>, last: Option<JobNo>, job: JobNo) -> bool
    requires { job < jobs cell.now.plan }
    ensures { IsTrue result ↔ IsJobOver cell.now.plan cell.now.cell last job }
{
    if last == Some(job) || cell.job_state(job).made <= cell.step_count(job) {
        return false;
    }
    !is_cleaned_after(cell, job)
}

/// Whether a machine is being cleaned after the job.
fn is_cleaned_after<P: Planned>(cell: &WorkCell<P>, job: JobNo) -> bool
    ensures { MatchBool result ((m : ℕ) × IsCleanedAfter cell.now.plan cell.now.cell m job)
        ((m : ℕ) → IsCleanedAfter cell.now.plan cell.now.cell m job → ⊥) }
{
    // Called for its clause alone: the cell is sound.
    let _plan = cell.shaped();
    for machine in 0..cell.machine_count() {
        if cell.cleaned_after(machine) == Some(job) {
            return true;
        }
    }
    false
}
