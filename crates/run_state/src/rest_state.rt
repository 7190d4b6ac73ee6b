//! The state of the rest of a run.

ghost use Rattle.std.specs.Prelude.{◌≡◌, ◌<◌, ◌≤◌, ◌++◌, OnOk};
ghost use Rattle.shop_base.specs.Plan.{jobs, machines};
ghost use Rattle.run_state.specs.StateText.{is_gone, jobs_gone, job_line, machine_line, job_lines, machine_lines, state_text};

use crate::standing_lines::{push_left_line, push_now_line, push_reports_line, push_standing_line};
use cell_control::count_left;
use cell_tables::{Rest, WorkCell};
use people_names::Names;
use shop_base::{JobNo, MachineNo, Moment, Planned};
use std::alloc::AllocError;

/// Adds the state of the rest of a run: `now N`, a line for each job that isn't gone, one for each machine that is being
/// cleaned, each in ascending order, `left K of J` and `reports K`. Jobs, machines and moments are written by names and
/// clock, and visits, in a shop with recirculation, with their steps. What is due before the present moment is `overdue`.
/// A plan with a cycle, and a late one, have a state too.
pub fn push_state<P: Planned>(
    text: &mut Vec<u8>,
    names: &Names,
    rest: &Rest<P>,
) -> Result<(), AllocError>
    ensures state { let r = rest.now in
        OnOk result (text.new.items ≡ text.old.items ++ state_text names.now r.plan r.cell r.present) }
{
    let (cell, at) = (rest.cell(), rest.present());
    push_now_line(text, names, at)?;
    push_jobs(text, names, cell, at)?;
    push_machines(text, names, cell, at)?;
    push_left_line(text, jobs_gone(cell), cell.job_count())?;
    push_reports_line(text, count_left(cell))
}

/// Adds the line of each job that isn't gone.
fn push_jobs<P: Planned>(
    text: &mut Vec<u8>,
    names: &Names,
    cell: &WorkCell<P>,
    at: Moment,
) -> Result<(), AllocError>
    ensures { let v = cell.now in
        OnOk result (text.new.items ≡ text.old.items ++ job_lines names.now v.plan v.cell at (jobs v.plan)) }
{
    for job in 0..cell.job_count() {
        push_job(text, names, cell, at, job)?;
    }
    Ok(())
}

/// Adds the line of each machine that is being cleaned.
fn push_machines<P: Planned>(
    text: &mut Vec<u8>,
    names: &Names,
    cell: &WorkCell<P>,
    at: Moment,
) -> Result<(), AllocError>
    ensures { let v = cell.now in
        OnOk result (text.new.items ≡ text.old.items ++ machine_lines names.now v.plan v.cell at (machines v.plan)) }
{
    for machine in 0..cell.machine_count() {
        push_machine(text, names, cell, at, machine)?;
    }
    Ok(())
}

/// Adds the line of the job, unless it is gone.
fn push_job<P: Planned>(
    text: &mut Vec<u8>,
    names: &Names,
    cell: &WorkCell<P>,
    at: Moment,
    job: JobNo,
) -> Result<(), AllocError>
    requires { job < jobs cell.now.plan }
    ensures { let v = cell.now in
        OnOk result (text.new.items ≡ text.old.items ++ job_line names.now v.plan v.cell at job) }
{
    if is_gone(cell, job) {
        return Ok(());
    }
    push_standing_line(text, names, cell.job_standing(job), at)
}

/// Adds the line of the machine, if it is being cleaned.
fn push_machine<P: Planned>(
    text: &mut Vec<u8>,
    names: &Names,
    cell: &WorkCell<P>,
    at: Moment,
    machine: MachineNo,
) -> Result<(), AllocError>
    requires { machine < machines cell.now.plan }
    ensures { let v = cell.now in
        OnOk result (text.new.items ≡ text.old.items ++ machine_line names.now v.plan v.cell at machine) }
{
    if cell.cleaned_since(machine).is_some() {
        return push_standing_line(text, names, cell.machine_standing(machine), at);
    }
    Ok(())
}

/// How many jobs are gone.
fn jobs_gone<P: Planned>(cell: &WorkCell<P>) -> u32
    ensures { result ≡ jobs_gone cell.now.plan cell.now.cell }
{
    let mut gone = 0;
    for job in 0..cell.job_count() {
        if is_gone(cell, job) {
            gone += 1;
        }
    }
    gone
}

/// Whether the job is gone.
fn is_gone<P: Planned>(cell: &WorkCell<P>, job: JobNo) -> bool
    requires { job < jobs cell.now.plan }
    ensures { result ≡ is_gone cell.now.plan cell.now.cell job }
{
    cell.step_count(job) < cell.job_state(job).made
}
