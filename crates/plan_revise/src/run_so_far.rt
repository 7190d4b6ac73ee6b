//! What changes are judged by.

ghost use Rattle.std.specs.Prelude.{◌≡◌, ◌<◌, ◌≤◌, ◌↔◌, IsTrue, IfSome, length};
ghost use Rattle.shop_base.specs.{declared.limits.TheConstants.MAX_MACHINES, Plan.jobs, Plan.machines};
ghost use Rattle.shop_base.specs.Cell.{made, since, entries, IsFree};
ghost use Rattle.plan_revise.specs.{Settings.setting, Settings.moves_made, Settings.HasArrived, Answers.IsWorker};

use cell_tables::Rest;
use shop_base::{JobNo, MachineNo, Moment, Planned};
use std::marker::Model;

/// The rest of the run, and how many machines the plant has.
#[derive(Drop)]
pub(crate) struct RunSoFar<'a, P: Planned> {
    rest: &'a Rest<P>,
    pub(crate) plant: u32,
}

impl<'a, P: Planned> Model for RunSoFar<'a, P> {
    ghost use Rattle.plan_revise.specs.Settings.{RevisionSetting, setting};
    ghost use Rattle.plan_revise.specs.Fits.{IsSetting};

    ghost Value = { RevisionSetting };

    ghost view = { λ r. setting r.rest.now.plan r.rest.now.cell r.rest.now.present r.plant };

    ghost invariant = { λ r. IsSetting (setting r.rest.now.plan r.rest.now.cell r.rest.now.present r.plant) };
}

impl<'a, P: Planned> RunSoFar<'a, P> {
    ghost use Rattle.plan_revise.specs.Aside.{IsPlantOf};
    ghost use Rattle.plan_revise.specs.Fits.{IsSetting};

    /// The run so far, of which this is the rest, in a plant with so many machines.
    pub(crate) fn of(rest: &'a Rest<P>, plant: u32) -> RunSoFar<'a, P>
        requires { IsPlantOf rest.now.plan plant }
        ensures is { result ≡ setting rest.now.plan rest.now.cell rest.now.present plant }
        ensures sound { IsSetting result }
    {
        // Called for their clauses alone: the moment isn't before the last one, and the plan is well shaped.
        let _present = rest.present();
        let _plan = rest.shaped();
        RunSoFar { rest, plant }
    }

    /// The present moment.
    pub(crate) fn present(&self) -> Moment
        ensures present { result ≡ self.now.present }
        ensures sound { IsSetting self.now }
    {
        self.rest.present()
    }

    /// How many machines the plant has.
    pub(crate) fn plant(&self) -> u32
        ensures plant { result ≡ self.now.plant }
        ensures few { result ≤ MAX_MACHINES }
        ensures sound { IsSetting self.now }
    {
        let _plan = self.rest.shaped();
        self.plant
    }

    /// How many moves the job has made; none where the shop that is given hasn't the job.
    pub(crate) fn moves_made(&self, job: JobNo) -> u32
        ensures count { result ≡ moves_made self.now job }
        ensures sound { IsSetting self.now }
    {
        let cell = self.rest.cell();
        if job < cell.job_count() {
            cell.job_state(job).made
        } else {
            0
        }
    }

    /// How many jobs have entered the machine.
    pub(crate) fn entered(&self, machine: MachineNo) -> usize
        requires { machine < self.now.plant }
        ensures count { result ≡ length (entries self.now.cell machine) }
        ensures sound { IsSetting self.now }
    {
        let _plan = self.rest.shaped();
        self.rest.cell().entered(machine) as usize
    }

    /// Whether the job has come.
    pub(crate) fn has_arrived(&self, job: JobNo) -> bool
        ensures { IsTrue result ↔ HasArrived self.now job }
    {
        let cell = self.rest.cell();
        if job >= cell.job_count() {
            return false;
        }
        let state = cell.job_state(job);
        state.made > 0 || state.ready
    }

    /// Whether no job is on the machine.
    pub(crate) fn is_free(&self, machine: MachineNo) -> bool
        requires { machine < self.now.plant }
        ensures { IsTrue result ↔ IsFree self.now.given self.now.cell machine }
    {
        self.rest.cell().holder(machine).is_none()
    }

    /// The job whose operation goes on on the machine.
    pub(crate) fn worker(&self, machine: MachineNo) -> Option<JobNo>
        requires { machine < self.now.plant }
        ensures worker { IsWorker self.now machine result }
        ensures sound { IsSetting self.now }
    {
        let cell = self.rest.cell();
        let job = cell.holder(machine)?;
        if cell.job_state(job).ready {
            None
        } else {
            Some(job)
        }
    }

    /// The moment at which the job, whose operation goes on, entered its machine.
    pub(crate) fn entry_of(&self, job: JobNo) -> Moment
        requires { job < jobs self.now.given }
        ensures since { result ≡ since self.now.cell job }
        ensures begun { result ≤ self.now.cell.last }
    {
        self.rest.cell().job_state(job).since
    }
}
