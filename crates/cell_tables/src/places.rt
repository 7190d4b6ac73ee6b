//! Where the jobs of the cell are, and which can move.

ghost use Rattle.std.specs.Prelude.{◌≡◌, ◌-◌, ◌<◌, ◌≤◌, ◌↔◌, length, IsTrue, None};
ghost use Rattle.shop_base.specs.Plan.{jobs, machines, order, job_at, Visits};
ghost use Rattle.shop_base.specs.Cell.{made, entries, cleaning, IsOn, IsFree};
ghost use Rattle.shop_base.specs.ReportsLeft.{departures};
ghost use Rattle.cell_tables.specs.Readings.{IsMachineOf, IsHolder, IsNextOn, IsCleanedFor, EntersNext, CanMoveNow};
ghost use Rattle.cell_tables.specs.Readings.{IsCleanedForStep, IsLatestStep, IsCurrentStep};

use crate::work_cell::WorkCell;
use shop_base::{JobNo, MachineNo, Planned};

impl<P: Planned> WorkCell<P> {
    /// The machine that the job is on; `None` if it is outside or gone.
    #[inline(always)]
    pub fn machine_of(&self, job: JobNo) -> Option<MachineNo>
        requires { job < jobs self.now.plan }
        ensures { IsMachineOf self.now.plan self.now.cell job result }
    {
        let made = self.job_state(job).made;
        if made == 0 {
            return None;
        }
        self.machine_at(job, made - 1)
    }

    /// The step at which the job is, on a machine; `None` if it is outside or gone.
    pub fn current_step(&self, job: JobNo) -> Option<u32>
        requires { job < jobs self.now.plan }
        ensures { IsCurrentStep self.now.plan self.now.cell job result }
    {
        let made = self.job_state(job).made;
        if made == 0 || made > self.step_count(job) {
            return None;
        }
        Some(made - 1)
    }

    /// The job that is on the machine.
    pub fn holder(&self, machine: MachineNo) -> Option<JobNo>
        requires { machine < machines self.now.plan }
        ensures { IsHolder self.now.plan self.now.cell machine result }
    {
        let _plan = self.shaped();
        let entered = self.entered(machine);
        if entered == 0 {
            return None;
        }
        let newest = self.order_of(machine)[entered as usize - 1];
        if self.is_on(newest, machine) {
            Some(newest)
        } else {
            None
        }
    }

    /// Whether the job is on the machine.
    fn is_on(&self, job: JobNo, machine: MachineNo) -> bool
        requires { job < jobs self.now.plan }
        ensures { let c = self.now.cell in IsTrue result ↔ IsOn self.now.plan c job (made c job - 1) machine }
    {
        match self.machine_of(job) {
            Some(actual) => actual == machine,
            None => false,
        }
    }

    /// How many jobs have entered the machine.
    pub fn entered(&self, machine: MachineNo) -> u32
        requires machine { machine < machines self.now.plan }
        ensures count { result ≡ length (entries self.now.cell machine) }
        ensures few { result ≤ length (order self.now.plan machine) }
    {
        self.tables.machines[machine as usize].entered
    }

    /// How many jobs have left the machine.
    #[tactic(auto, using(crate::proofs::Departed::departed_on))]
    pub fn departed(&self, machine: MachineNo) -> u32
        requires machine { machine < machines self.now.plan }
        ensures count { result ≡ departures self.now.plan self.now.cell machine }
        ensures few { result ≤ length (order self.now.plan machine) }
    {
        // Called for its clause alone: the cell is sound.
        let _plan = self.shaped();
        let entered = self.entered(machine);
        match self.holder(machine) {
            Some(_) => entered - 1,
            None => entered,
        }
    }

    /// The job that is to enter the machine next; `None` if all jobs of its order have entered it.
    pub fn next_on(&self, machine: MachineNo) -> Option<JobNo>
        requires { machine < machines self.now.plan }
        ensures { IsNextOn self.now.plan self.now.cell machine result }
    {
        let entered = self.entered(machine);
        self.order_of(machine).get(entered as usize).copied()
    }

    /// The job after which the machine is being cleaned; `None` if it isn't.
    pub fn cleaned_after(&self, machine: MachineNo) -> Option<JobNo>
        requires { machine < machines self.now.plan }
        ensures { IsCleanedFor self.now.plan self.now.cell machine result }
    {
        let _plan = self.shaped();
        let _from = self.cleaned_since(machine)?;
        Some(self.last_in(machine))
    }

    /// The job, and its step, after which the machine is being cleaned; `None` if it isn't.
    pub fn cleaned_after_step(&self, machine: MachineNo) -> Option<(JobNo, u32)>
        requires { machine < machines self.now.plan }
        ensures { IsCleanedForStep self.now.plan self.now.cell machine result }
    {
        // Called for its clauses alone: the plan is well shaped, and the cell sound.
        let _plan = self.shaped();
        let job = self.cleaned_after(machine)?;
        let step = self.latest_step_on(job, machine)?;
        Some((job, step))
    }

    /// The latest step of the job on the machine that it has entered; `None` if it has entered none.
    pub(crate) fn latest_step_on(&self, job: JobNo, machine: MachineNo) -> Option<u32>
        requires { job < jobs self.now.plan }
        ensures { IsLatestStep self.now.plan self.now.cell job machine result }
    {
        let made = self.job_state(job).made;
        for step in (0..made).rev() {
            if self.machine_at(job, step) == Some(machine) {
                return Some(step);
            }
        }
        None
    }

    /// The job that entered the machine last.
    pub(crate) fn last_in(&self, machine: MachineNo) -> JobNo
        requires machine { machine < machines self.now.plan }
        requires entered { 0 < length (entries self.now.cell machine) }
        ensures { result ≡ job_at self.now.plan machine (length (entries self.now.cell machine) - 1) }
    {
        let place = self.entered(machine) as usize - 1;
        self.order_of(machine)[place]
    }

    /// Whether the job, which visits the machine next, can enter it and keep the plan.
    fn admits(&self, job: JobNo, machine: MachineNo) -> bool
        requires { Visits self.now.plan job (made self.now.cell job) machine }
        ensures { IsTrue result ↔ EntersNext self.now.plan self.now.cell job machine }
    {
        let _plan = self.shaped();
        self.is_clear(machine) && self.next_on(machine) == Some(job)
    }

    /// Whether no job is on the machine and it isn't being cleaned.
    fn is_clear(&self, machine: MachineNo) -> bool
        requires { machine < machines self.now.plan }
        ensures { IsTrue result
            ↔ (IsFree self.now.plan self.now.cell machine × (cleaning self.now.cell machine ≡ None)) }
    {
        match self.cleaned_since(machine) {
            Some(_) => false,
            None => self.holder(machine).is_none(),
        }
    }

    /// Whether the job can move at the last moment and keep the plan.
    pub fn can_move(&self, job: JobNo) -> bool
        requires { job < jobs self.now.plan }
        ensures { IsTrue result ↔ CanMoveNow self.now.plan self.now.cell job }
    {
        let _plan = self.shaped();
        let state = self.job_state(job);
        if !state.ready {
            return false;
        }
        match self.machine_at(job, state.made) {
            Some(machine) => self.admits(job, machine),
            None => true,
        }
    }
}
