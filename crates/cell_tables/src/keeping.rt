//! Whether the run so far keeps another plan.

ghost use Rattle.std.specs.Prelude.{◌≡◌, ℕ, ◌<◌, ◌↔◌, IsTrue, is_some, if◌then◌else◌};
ghost use Rattle.shop_base.specs.Plan.{jobs, machines, steps, machine_of, order, clean, Visits};
ghost use Rattle.shop_base.specs.{Cell.made, Cell.entries, Cell.cleaning, Cell.IsGone, Move.IsPrefix};
ghost use Rattle.cell_tables.specs.Kept.{KeepsJob, KeepsMachine, KeepsSoFar, KeepsCleaning};

use crate::work_cell::WorkCell;
use shop_base::{JobNo, MachineNo, Moment, Planned, Shaped};

/// Whether all that was done in the cell keeps the other plan.
pub(crate) fn keeps_so_far<P: Planned>(cell: &WorkCell<P>, shaped: &Shaped) -> bool
    ensures { IsTrue result ↔ KeepsSoFar cell.now.plan cell.now.cell shaped.now }
{
    jobs_keep(cell, shaped) && machines_keep(cell, shaped)
}

/// Whether what was done with each job does.
fn jobs_keep<P: Planned>(cell: &WorkCell<P>, shaped: &Shaped) -> bool
    ensures { let p = cell.now.plan in IsTrue result ↔ ((j : ℕ) → j < jobs p → KeepsJob p cell.now.cell shaped.now j) }
{
    for job in 0..cell.job_count() {
        if !job_keeps(cell, shaped, job) {
            return false;
        }
    }
    true
}

/// Whether what was done with the job does.
fn job_keeps<P: Planned>(cell: &WorkCell<P>, shaped: &Shaped, job: JobNo) -> bool
    requires { job < jobs cell.now.plan }
    ensures { IsTrue result ↔ KeepsJob cell.now.plan cell.now.cell shaped.now job }
{
    if job >= shaped.job_count() {
        let state = cell.job_state(job);
        return state.made == 0 && !state.ready;
    }
    end_keeps(cell, shaped, job) && steps_keep(cell, shaped, job)
}

/// Whether the job isn't gone, or has as many steps.
fn end_keeps<P: Planned>(cell: &WorkCell<P>, shaped: &Shaped, job: JobNo) -> bool
    requires job { job < jobs cell.now.plan }
    requires other { job < jobs shaped.now }
    ensures { let p = cell.now.plan in
        IsTrue result ↔ (IsGone p cell.now.cell job → steps shaped.now job ≡ steps p job) }
{
    let count = cell.step_count(job);
    if count < cell.job_state(job).made {
        shaped.step_count(job) == count
    } else {
        true
    }
}

/// Whether the steps that the job has entered are on the same machines.
fn steps_keep<P: Planned>(cell: &WorkCell<P>, shaped: &Shaped, job: JobNo) -> bool
    requires { job < jobs cell.now.plan }
    ensures { let p = cell.now.plan in
        IsTrue result
        ↔ ((k : ℕ) → k < made cell.now.cell job → k < steps p job → Visits shaped.now job k (machine_of p job k)) }
{
    for place in 0..cell.job_state(job).made {
        if !step_keeps(cell, shaped, job, place) {
            return false;
        }
    }
    true
}

/// Whether the step at this place of the job's route, if there is one, is on the same machine.
fn step_keeps<P: Planned>(cell: &WorkCell<P>, shaped: &Shaped, job: JobNo, place: u32) -> bool
    ensures { let p = cell.now.plan in
        IsTrue result ↔ (place < steps p job → Visits shaped.now job place (machine_of p job place)) }
{
    let Some(machine) = cell.machine_at(job, place) else {
        return true;
    };
    match shaped.machine_at(job, place) {
        Some(other) => other == machine,
        None => false,
    }
}

/// Whether what was done on each machine keeps the other plan.
fn machines_keep<P: Planned>(cell: &WorkCell<P>, shaped: &Shaped) -> bool
    ensures { let p = cell.now.plan in
        IsTrue result ↔ ((m : ℕ) → m < machines p → KeepsMachine p cell.now.cell shaped.now m) }
{
    for machine in 0..cell.machine_count() {
        if !machine_keeps(cell, shaped, machine) {
            return false;
        }
    }
    true
}

/// Whether what was done on the machine does.
fn machine_keeps<P: Planned>(cell: &WorkCell<P>, shaped: &Shaped, machine: MachineNo) -> bool
    requires { machine < machines cell.now.plan }
    ensures { IsTrue result ↔ KeepsMachine cell.now.plan cell.now.cell shaped.now machine }
{
    entries_keep(cell, shaped, machine) && cleaning_keeps(cell, shaped, machine)
}

/// Whether the jobs that have entered the machine begin its other order.
fn entries_keep<P: Planned>(cell: &WorkCell<P>, shaped: &Shaped, machine: MachineNo) -> bool
    requires { machine < machines cell.now.plan }
    ensures { IsTrue result ↔ IsPrefix (entries cell.now.cell machine) (order shaped.now machine) }
{
    // Called for its clause alone: the cell is sound.
    let _plan = cell.shaped();
    let count = cell.entered(machine);
    let front = &cell.order_of(machine)[..count as usize];
    other_order(shaped, machine).starts_with(front)
}

/// The order of the machine, empty if there is none.
fn other_order(shaped: &Shaped, machine: MachineNo) -> &[JobNo]
    ensures { result.now ≡ order shaped.now machine }
{
    if machine < shaped.machine_count() {
        shaped.order_of(machine)
    } else {
        &[]
    }
}

/// Whether the other cleaning time of the machine can be adopted.
fn cleaning_keeps<P: Planned>(cell: &WorkCell<P>, shaped: &Shaped, machine: MachineNo) -> bool
    requires { machine < machines cell.now.plan }
    ensures { IsTrue result ↔ KeepsCleaning cell.now.plan cell.now.cell shaped.now machine }
{
    let one = cell.shaped().clean_of(machine);
    let other = cleaning_time(shaped, machine);
    if one > 0 && other == 0 {
        return cell.departed(machine) <= cleanings_going(cell, machine);
    }
    if one == 0 && other > 0 {
        return cell.departed(machine) == 0;
    }
    true
}

/// The cleaning time of the machine, 0 if there is none.
fn cleaning_time(shaped: &Shaped, machine: MachineNo) -> Moment
    ensures { result ≡ clean shaped.now machine }
{
    if machine < shaped.machine_count() {
        shaped.clean_of(machine)
    } else {
        0
    }
}

/// 1 while the machine is being cleaned.
fn cleanings_going<P: Planned>(cell: &WorkCell<P>, machine: MachineNo) -> u32
    requires { machine < machines cell.now.plan }
    ensures { result ≡ (if is_some (cleaning cell.now.cell machine) then 1 else 0) }
{
    match cell.cleaned_since(machine) {
        Some(_) => 1,
        None => 0,
    }
}
