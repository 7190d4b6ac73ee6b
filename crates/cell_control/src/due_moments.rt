//! The due moments of the cell's activities. The key of a job is its number; the key of a machine's
//! cleaning is the number of jobs plus the machine's number.

ghost use Rattle.std.specs.Prelude.{◌≡◌, ◌+◌, ◌<◌, slice_set, length};
ghost use Rattle.shop_base.specs.Plan.{jobs, machines};
ghost use Rattle.cell_control.specs.{DueMoments.AreDueMoments, Noted.AreDueMomentsOf};
ghost use Rattle.cell_control.specs.Steps.{IsJobRenewed, IsMachineRenewed};

use crate::dues::Dues;
use cell_tables::WorkCell;
use shop_base::{JobNo, MachineNo, Moment, Planned};

/// The key of the machine's cleaning.
pub(crate) fn cleaning_key<P: Planned>(cell: &WorkCell<P>, machine: MachineNo) -> u32
    requires { machine < machines cell.now.plan }
    ensures { result ≡ jobs cell.now.plan + machine }
{
    cell.shaped().job_count() + machine
}

/// Gives the key this due moment, or takes it away.
fn renew<D: Dues>(dues: &mut D, key: u32, due: Option<Moment>)
    requires { key < length (D.dues dues.old) }
    ensures { D.dues dues.new ≡ slice_set (D.dues dues.old) key due }
{
    match due {
        Some(due) => dues.set(key, due),
        None => dues.clear(key),
    }
}

/// Notes what goes on with the job, anew.
pub(crate) fn renew_job<P: Planned, D: Dues>(cell: &WorkCell<P>, dues: &mut D, job: JobNo)
    requires job { job < jobs cell.now.plan }
    requires count { length (D.dues dues.old) ≡ jobs cell.now.plan + machines cell.now.plan }
    ensures { IsJobRenewed cell.now.plan cell.now.cell (D.dues dues.old) job (D.dues dues.new) }
{
    let due = cell.job_due(job);
    renew(dues, job, due);
}

/// Notes what goes on with the machine, anew.
pub(crate) fn renew_machine<P: Planned, D: Dues>(
    cell: &WorkCell<P>,
    dues: &mut D,
    machine: MachineNo,
)
    requires machine { machine < machines cell.now.plan }
    requires count { length (D.dues dues.old) ≡ jobs cell.now.plan + machines cell.now.plan }
    ensures { IsMachineRenewed cell.now.plan cell.now.cell (D.dues dues.old) machine (D.dues dues.new) }
{
    let due = cell.cleaning_due(machine);
    renew(dues, cleaning_key(cell, machine), due);
}

/// Notes when each activity that goes on in the cell is due.
pub fn note_all<P: Planned, D: Dues>(cell: &WorkCell<P>, dues: &mut D)
    requires { length (D.dues dues.old) ≡ jobs cell.now.plan + machines cell.now.plan }
    ensures { AreDueMoments cell.now.plan cell.now.cell (D.dues dues.new) }
{
    note_jobs(cell, dues);
    note_machines(cell, dues);
}

/// Notes what goes on with the jobs.
#[tactic(auto, using(crate::proofs::DueMoments::job_renewed, crate::proofs::DueMoments::of_fewer))]
fn note_jobs<P: Planned, D: Dues>(cell: &WorkCell<P>, dues: &mut D)
    requires { length (D.dues dues.old) ≡ jobs cell.now.plan + machines cell.now.plan }
    ensures { AreDueMomentsOf cell.now.plan cell.now.cell (D.dues dues.new) (λ _. Unit {0}) (λ _. ⊥) }
{
    for job in 0..cell.job_count() {
        renew_job(cell, dues, job);
    }
}

/// Notes what goes on with the machines, once the jobs are noted.
#[tactic(auto, using(crate::proofs::DueMoments::machine_renewed, crate::proofs::DueMoments::of_fewer, crate::proofs::DueMoments::of_all))]
fn note_machines<P: Planned, D: Dues>(cell: &WorkCell<P>, dues: &mut D)
    requires { AreDueMomentsOf cell.now.plan cell.now.cell (D.dues dues.old) (λ _. Unit {0}) (λ _. ⊥) }
    ensures { AreDueMoments cell.now.plan cell.now.cell (D.dues dues.new) }
{
    for machine in 0..cell.machine_count() {
        renew_machine(cell, dues, machine);
    }
}
