//! How many reports are still to come, counted from the cell.

ghost use Rattle.std.specs.Prelude.{◌≡◌, ◌<◌, ◌≤◌};
ghost use Rattle.shop_base.specs.{Plan.jobs, Plan.machines, Ends.sum_below};
ghost use Rattle.shop_base.specs.ReportsLeft.{job_reports_left, cleanings_left, reports_left};

use cell_tables::WorkCell;
use shop_base::{JobNo, MachineNo, Planned};

/// The reports still to come: arrivals, ends of operations, and ends of cleanings.
pub fn count_left<P: Planned>(cell: &WorkCell<P>) -> u64
    ensures { result ≡ reports_left cell.now.plan cell.now.cell }
{
    jobs_left(cell) + machines_left(cell)
}

/// Those of all jobs.
fn jobs_left<P: Planned>(cell: &WorkCell<P>) -> u64
    ensures left { result ≡ sum_below (job_reports_left cell.now.plan cell.now.cell) (jobs cell.now.plan) }
    ensures few { result ≤ 20200 }
{
    let mut left = 0;
    for job in 0..cell.job_count() {
        left += job_left(cell, job);
    }
    left
}

/// Those of a job: one for each step that it hasn't entered, and one for what goes on.
fn job_left<P: Planned>(cell: &WorkCell<P>, job: JobNo) -> u64
    requires job { job < jobs cell.now.plan }
    ensures left { result ≡ job_reports_left cell.now.plan cell.now.cell job }
    ensures few { result ≤ 101 }
{
    let state = cell.job_state(job);
    let steps = cell.shaped().step_count(job);
    let ahead = u64::from(steps.saturating_sub(state.made));
    if state.ready || steps < state.made {
        ahead
    } else {
        ahead + 1
    }
}

/// Those of the cleanings of all machines.
fn machines_left<P: Planned>(cell: &WorkCell<P>) -> u64
    ensures left { result ≡ sum_below (cleanings_left cell.now.plan cell.now.cell) (machines cell.now.plan) }
    ensures few { result ≤ 2000100 }
{
    let mut left = 0;
    for machine in 0..cell.machine_count() {
        left += cleaning_left(cell, machine);
    }
    left
}

/// Those of a machine's cleanings: one for each departure to come, and one for what goes on.
#[tactic(auto, using(shop_base::proofs::Sizes::order_few))]
fn cleaning_left<P: Planned>(cell: &WorkCell<P>, machine: MachineNo) -> u64
    requires machine { machine < machines cell.now.plan }
    ensures left { result ≡ cleanings_left cell.now.plan cell.now.cell machine }
    ensures few { result ≤ 20001 }
{
    // Called for its clause alone: the plan is well shaped.
    let _plan = cell.shaped();
    if cell.shaped().clean_of(machine) == 0 {
        return 0;
    }
    let ahead = cell.order_of(machine).len() as u64 - u64::from(cell.departed(machine));
    match cell.cleaned_since(machine) {
        Some(_) => ahead + 1,
        None => ahead,
    }
}
