//! The tables of a cell as another plan's tables.

ghost use Rattle.std.specs.Prelude.{◌≡◌, ◌<◌, ◌≤◌, length, IfOk, IfSome};
ghost use Rattle.shop_base.specs.{declared.limits.TheConstants.MAX_MOMENT, Plan.machines, Cell.entries};
ghost use Rattle.cell_tables.specs.Tables.{AreSound, cell_of};
ghost use Rattle.cell_tables.specs.Kept.{KeepsSoFar};
ghost use Rattle.cell_tables.specs.Carried.{carried_job, carried_cleaning, IsCarried};
ghost use Rattle.cell_tables.specs.CarriedRows.{AreCarriedJobs, AreCarriedMachines};

use crate::tables::{MachineRow, Tables};
use crate::work_cell::WorkCell;
use shop_base::{JobNo, JobState, MachineNo, Planned, Shaped};
use std::alloc::{AllocError, Global};

/// The tables of the cell by another plan, which the run so far keeps.
pub(crate) fn carry<P: Planned>(
    alloc: Global,
    cell: &WorkCell<P>,
    shaped: &Shaped,
) -> Result<Tables, AllocError>
    requires { KeepsSoFar cell.now.plan cell.now.cell shaped.now }
    ensures sound { IfOk result (AreSound shaped.now) }
    ensures carried { IfOk result
        (λ tables. IsCarried cell.now.plan cell.now.cell shaped.now (cell_of shaped.now tables)) }
{
    // Called for its clauses alone: the plan is well shaped, and the cell sound.
    let _plan = cell.shaped();
    let jobs = carry_jobs(alloc, cell, shaped.job_count())?;
    let machines = carry_machines(alloc, cell, shaped)?;
    Ok(Tables {
        jobs,
        machines,
        last: cell.last(),
    })
}

/// A row for each of `count` jobs.
fn carry_jobs<P: Planned>(
    alloc: Global,
    cell: &WorkCell<P>,
    count: u32,
) -> Result<Vec<JobState>, AllocError>
    ensures { IfOk result (λ rows. AreCarriedJobs cell.now.plan cell.now.cell count rows.items) }
{
    let mut rows = Vec::with_capacity(alloc, count as usize)?;
    for job in 0..count {
        rows.push(carry_job(cell, job))?;
    }
    Ok(rows)
}

/// The job as it is in the cell; one that its plan hasn't is awaited.
fn carry_job<P: Planned>(cell: &WorkCell<P>, job: JobNo) -> JobState
    ensures { result ≡ carried_job cell.now.plan cell.now.cell job }
{
    if job < cell.job_count() {
        cell.job_state(job)
    } else {
        JobState {
            made: 0,
            ready: false,
            since: 0,
        }
    }
}

/// A row for each machine.
fn carry_machines<P: Planned>(
    alloc: Global,
    cell: &WorkCell<P>,
    shaped: &Shaped,
) -> Result<Vec<MachineRow>, AllocError>
    ensures { IfOk result (λ rows. AreCarriedMachines cell.now.cell shaped.now (machines shaped.now) rows.items) }
{
    let mut rows = Vec::with_capacity(alloc, shaped.machine_count() as usize)?;
    for machine in 0..shaped.machine_count() {
        rows.push(carry_machine(cell, shaped, machine))?;
    }
    Ok(rows)
}

/// The machine as it is in the cell. Without a cleaning time it is clean at once.
fn carry_machine<P: Planned>(cell: &WorkCell<P>, shaped: &Shaped, machine: MachineNo) -> MachineRow
    requires { machine < machines shaped.now }
    ensures entered { result.entered ≡ length (entries cell.now.cell machine) }
    ensures cleaning { result.cleaning ≡ carried_cleaning cell.now.cell shaped.now machine }
    ensures in_range { IfSome result.cleaning (λ from. from ≤ MAX_MOMENT) }
{
    // Called for its clause alone: the cell is sound.
    let _plan = cell.shaped();
    if machine >= cell.machine_count() {
        return MachineRow {
            entered: 0,
            cleaning: None,
        };
    }
    let entered = cell.entered(machine);
    if shaped.clean_of(machine) > 0 {
        MachineRow {
            entered,
            cleaning: cell.cleaned_since(machine),
        }
    } else {
        MachineRow {
            entered,
            cleaning: None,
        }
    }
}
