ghost use Rattle.std.specs.Prelude.{◌≡◌, ◌<◌, ◌≤◌, IfOk, IfErr, IfSome};
ghost use Rattle.shop_base.specs.declared.limits.TheConstants.{MAX_MOMENT};
ghost use Rattle.shop_base.specs.Plan.{jobs, machines, IsWellShaped};
ghost use Rattle.shop_base.specs.Cell.{job_in, cleaning};
ghost use Rattle.shop_base.specs.Sound.{IsSound};

use crate::tables::Tables;
use shop_base::{JobNo, JobState, MachineNo, Moment, Planned, Shaped};
use std::alloc::{AllocError, Global};
use std::marker::Model;

/// The cell of a run of a plan, as it can be: seen as the plan and the cell of the definitions. It owns what
/// leads to its plan.
#[derive(Debug, Drop)]
pub struct WorkCell<P: Planned> {
    pub(crate) basis: P,
    pub(crate) tables: Tables,
}

impl<P: Planned> Model for WorkCell<P> {
    ghost use Rattle.cell_tables.specs.PlannedCell.{PlannedCell};
    ghost use Rattle.cell_tables.specs.Tables.{cell_of, AreSound};

    ghost Value = { PlannedCell P };

    ghost view = { λ c.
        record { basis = c.basis; plan = P.planned c.basis; cell = cell_of (P.planned c.basis) c.tables } };

    ghost invariant = { λ c. AreSound (P.planned c.basis) c.tables };
}

impl<P: Planned> WorkCell<P> {
    ghost use Rattle.cell_tables.specs.PlannedCell.{at_start};
    ghost use Rattle.cell_tables.specs.Tables.{cell_of, AreSound};

    /// The cell at the start of a run: all jobs outside, no machine entered. Where a request for memory is
    /// refused, what leads to the plan comes back with that error; when one is, no clause says.
    pub fn start(alloc: Global, basis: P) -> Result<WorkCell<P>, (AllocError, P)>
        ensures start { IfOk result (λ cell. cell ≡ at_start basis (P.planned basis)) }
        ensures handed_back { IfErr result (λ refused. refused.1 ≡ basis) }
    {
        match Tables::start(alloc, basis.shaped()) {
            Ok(tables) => Ok(WorkCell { basis, tables }),
            Err(error) => Err((error, basis)),
        }
    }

    /// The plan.
    pub fn shaped(&self) -> &Shaped
        ensures plan { result.now ≡ self.now.plan }
        ensures well_shaped { IsWellShaped self.now.plan }
        ensures sound { IsSound self.now.plan self.now.cell }
    {
        self.basis.shaped()
    }

    /// What leads to the plan.
    pub fn basis(&self) -> &P
        ensures basis { result.now ≡ self.now.basis }
        ensures plan { self.now.plan ≡ P.planned self.now.basis }
    {
        &self.basis
    }

    /// What leads to the plan, taken out.
    pub fn into_basis(self) -> P
        ensures { result ≡ self.basis }
    {
        let WorkCell { basis, tables: _ } = self;
        basis
    }

    /// The cell of these tables, by a plan whose cell it can be.
    pub fn of_parts(basis: P, tables: Tables) -> WorkCell<P>
        requires { AreSound (P.planned basis) tables }
        ensures { result ≡ record { basis = basis; plan = P.planned basis; cell = cell_of (P.planned basis) tables } }
    {
        WorkCell { basis, tables }
    }

    /// What leads to the plan, and the tables, taken out.
    pub fn into_parts(self) -> (P, Tables)
        ensures basis { result.0 ≡ self.basis }
        ensures plan { self.plan ≡ P.planned self.basis }
        ensures cell { cell_of (P.planned self.basis) result.1 ≡ self.cell }
        ensures sound { AreSound (P.planned self.basis) result.1 }
    {
        let WorkCell { basis, tables } = self;
        (basis, tables)
    }

    /// The moment of the last event, 0 before the first.
    pub fn last(&self) -> Moment
        ensures { result ≡ self.now.cell.last }
    {
        self.tables.last
    }

    /// The state of a job.
    pub fn job_state(&self, job: JobNo) -> JobState
        requires { job < jobs self.now.plan }
        ensures { result ≡ job_in self.now.cell job }
    {
        self.tables.jobs[job as usize]
    }

    /// Since when the machine is being cleaned, if it is.
    pub fn cleaned_since(&self, machine: MachineNo) -> Option<Moment>
        requires { machine < machines self.now.plan }
        ensures since { result ≡ cleaning self.now.cell machine }
        ensures in_range { IfSome result (λ since. since ≤ MAX_MOMENT) }
    {
        self.tables.machines[machine as usize].cleaning
    }
}
