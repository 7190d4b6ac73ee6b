//! What C reads of a cell.

ghost use Rattle.std.specs.Fn.{FnOnceReturnsAt};
ghost use Rattle.std.specs.Prelude.{◌≡◌, ◌↔◌, IsTrue};
ghost use Rattle.shop_base.specs.Plan.{jobs, machines};
ghost use Rattle.shop_base.specs.Ends.{HasEnded};
ghost use Rattle.cell_tables.specs.Readings.{IsCleanedFor, IsCleanedForStep, IsCurrentStep};
ghost use Rattle.cell_control.specs.Readings.{IsJobOn, IsDueOf, IsDueOfCleaning};
ghost use Rattle.cellplan_c.specs.Readings.{Finds, Reads, IsPhaseFound, IsLeaveOf, AreReportsLeft};

use crate::cell::Cell;
use crate::numbers::{Phase, phase_numbers};
use crate::rooms::put_found;
use crate::statuses::{GOOD, NO_CELL};
use cell_control::{RestController, TourneyDues};
use std::alloc::Global;

/// Where the job is; `NONE` for a number that is no job's.
#[unsafe(no_mangle)]
pub extern "C" fn cellplan_cell_phase(
    alloc: Global,
    cell: &mut Cell,
    job: u32,
    phase: &mut Phase,
) -> u32
    ensures { Finds cell.old cell.new result phase.old phase.new (λ held. IsPhaseFound held job) }
{
    find(
        alloc,
        cell,
        phase,
        |held| held.phase(job).map(phase_numbers),
    )
}

/// The job that is on the machine; `NONE` if there is none, or if the number is no machine's.
#[unsafe(no_mangle)]
pub extern "C" fn cellplan_cell_holder(
    alloc: Global,
    cell: &mut Cell,
    machine: u32,
    job: &mut u32,
) -> u32
    ensures { Finds cell.old cell.new result job.old job.new (λ held. IsJobOn held.planned held.cell machine) }
{
    find(alloc, cell, job, |held| held.holder(machine))
}

/// When the job's activity is due; `NONE` if it has none, since it is ready or gone or no job.
#[unsafe(no_mangle)]
pub extern "C" fn cellplan_cell_due(alloc: Global, cell: &mut Cell, job: u32, at: &mut u64) -> u32
    ensures { Finds cell.old cell.new result at.old at.new (λ held. IsDueOf held.planned held.cell job) }
{
    find(alloc, cell, at, |held| held.due(job))
}

/// When the machine's cleaning is due; `NONE` if it isn't being cleaned.
#[unsafe(no_mangle)]
pub extern "C" fn cellplan_cell_clean_due(
    alloc: Global,
    cell: &mut Cell,
    machine: u32,
    at: &mut u64,
) -> u32
    ensures { Finds cell.old cell.new result at.old at.new (λ held. IsDueOfCleaning held.planned held.cell machine) }
{
    find(alloc, cell, at, |held| held.clean_due(machine))
}

/// The job after which the machine is being cleaned; `NONE` if it isn't being cleaned.
#[unsafe(no_mangle)]
pub extern "C" fn cellplan_cell_cleaned_after(
    alloc: Global,
    cell: &mut Cell,
    machine: u32,
    job: &mut u32,
) -> u32
    ensures { Finds cell.old cell.new result job.old job.new (λ held. IsCleanedFor held.planned held.cell machine) }
{
    find(alloc, cell, job, |held| held.cleaned_after(machine))
}

/// The step of the job that is on a machine; `NONE` if it is outside or gone, or no job.
#[unsafe(no_mangle)]
pub extern "C" fn cellplan_cell_step(
    alloc: Global,
    cell: &mut Cell,
    job: u32,
    step: &mut u32,
) -> u32
    ensures { Finds cell.old cell.new result step.old step.new (λ held. IsCurrentStep held.planned held.cell job) }
{
    find(alloc, cell, step, |held| held.current_step(job))
}

/// The job, and its step, after which the machine is being cleaned; `NONE` if it isn't being cleaned.
#[unsafe(no_mangle)]
pub extern "C" fn cellplan_cell_cleaned_after_step(
    alloc: Global,
    cell: &mut Cell,
    machine: u32,
    job: &mut u32,
    step: &mut u32,
) -> u32
    ensures { Finds cell.old cell.new result (job.old, step.old) (job.new, step.new)
        (λ held. IsCleanedForStep held.planned held.cell machine) }
{
    let mut both = (*job, *step);
    let status = find(
        alloc,
        cell,
        &mut both,
        |held| held.cleaned_after_step(machine),
    );
    (*job, *step) = both;
    status
}

/// The moment of the last event, 0 before the first report.
#[unsafe(no_mangle)]
pub extern "C" fn cellplan_cell_now(alloc: Global, cell: &mut Cell, at: &mut u64) -> u32
    ensures { Reads cell.old cell.new result at.old at.new (λ held at. at ≡ held.cell.last) }
{
    read(alloc, cell, at, |held| held.now())
}

/// Whether no accepted report was late since its plan began or took over, but that what was overdue then has ended
/// then.
#[unsafe(no_mangle)]
pub extern "C" fn cellplan_cell_punctual(alloc: Global, cell: &mut Cell, punctual: &mut bool) -> u32
    ensures { Reads cell.old cell.new result punctual.old punctual.new (λ held punctual. punctual ≡ held.punctual) }
{
    read(alloc, cell, punctual, |held| held.punctual())
}

/// How many reports are still to come.
#[unsafe(no_mangle)]
pub extern "C" fn cellplan_cell_reports_left(alloc: Global, cell: &mut Cell, left: &mut u64) -> u32
    ensures { Reads cell.old cell.new result left.old left.new AreReportsLeft }
{
    read(alloc, cell, left, |held| held.reports_left())
}

/// Whether the run has ended: all jobs are gone, and no machine is being cleaned.
#[unsafe(no_mangle)]
pub extern "C" fn cellplan_cell_is_done(alloc: Global, cell: &mut Cell, done: &mut bool) -> u32
    ensures { Reads cell.old cell.new result done.old done.new
        (λ held done. IsTrue done ↔ HasEnded held.planned held.cell) }
{
    read(alloc, cell, done, |held| held.is_done())
}

/// How many jobs the shop has.
#[unsafe(no_mangle)]
pub extern "C" fn cellplan_cell_jobs(alloc: Global, cell: &mut Cell, count: &mut u32) -> u32
    ensures { Reads cell.old cell.new result count.old count.new (λ held count. count ≡ jobs held.planned) }
{
    read(alloc, cell, count, |held| held.shaped().shop().jobs())
}

/// How many machines the shop has.
#[unsafe(no_mangle)]
pub extern "C" fn cellplan_cell_machines(alloc: Global, cell: &mut Cell, count: &mut u32) -> u32
    ensures { Reads cell.old cell.new result count.old count.new (λ held count. count ≡ machines held.planned) }
{
    read(alloc, cell, count, |held| held.shaped().shop().machines())
}

/// The moment kept for the job's leaving, by which it is out while no report is late: the earliest, from where its plan
/// began or took over. `NONE` for a number that is no job's.
#[unsafe(no_mangle)]
pub extern "C" fn cellplan_cell_leaves(
    alloc: Global,
    cell: &mut Cell,
    job: u32,
    at: &mut u64,
) -> u32
    ensures { Finds cell.old cell.new result at.old at.new (λ held. IsLeaveOf held job) }
{
    find(alloc, cell, at, |held| held.leave_by(job))
}

/// Writes what is found in the controller that the cell holds, if it is.
fn find<T: Copy, F: FnOnce(&RestController<TourneyDues>) -> Option<T>>(
    alloc: Global,
    cell: &mut Cell,
    room: &mut T,
    look: F,
) -> u32
    requires { F.IsAlwaysCallable look }
    ensures { Finds cell.old cell.new result room.old room.new (FnOnceReturnsAt F.FnOnce look) }
{
    let Some(inner) = cell.take(alloc) else {
        return NO_CELL;
    };
    let found = look(&inner.controller);
    cell.put(inner);
    put_found(found, room)
}

/// Writes what is read of the controller that the cell holds.
fn read<T: Copy, F: FnOnce(&RestController<TourneyDues>) -> T>(
    alloc: Global,
    cell: &mut Cell,
    room: &mut T,
    look: F,
) -> u32
    requires { F.IsAlwaysCallable look }
    ensures { Reads cell.old cell.new result room.old room.new (FnOnceReturnsAt F.FnOnce look) }
{
    let Some(inner) = cell.take(alloc) else {
        return NO_CELL;
    };
    *room = look(&inner.controller);
    cell.put(inner);
    GOOD
}
