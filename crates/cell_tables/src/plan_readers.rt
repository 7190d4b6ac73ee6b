//! What is read of the plan of a cell, one entry at a time.

ghost use Rattle.std.specs.Prelude.{◌≡◌, ◌<◌, ◌≤◌, MatchOption};
ghost use Rattle.shop_base.specs.Plan.{jobs, machines, steps, order, Visits};

use crate::work_cell::WorkCell;
use shop_base::limits::{MAX_JOBS, MAX_MACHINES};
use shop_base::{JobNo, MachineNo, Planned};

impl<P: Planned> WorkCell<P> {
    /// How many jobs there are.
    pub fn job_count(&self) -> u32
        ensures count { result ≡ jobs self.now.plan }
        ensures few { result ≤ MAX_JOBS }
    {
        self.shaped().job_count()
    }

    /// How many machines there are.
    pub fn machine_count(&self) -> u32
        ensures count { result ≡ machines self.now.plan }
        ensures few { result ≤ MAX_MACHINES }
    {
        self.shaped().machine_count()
    }

    /// How many steps the job has.
    pub fn step_count(&self, job: JobNo) -> u32
        requires { job < jobs self.now.plan }
        ensures { result ≡ steps self.now.plan job }
    {
        self.shaped().step_count(job)
    }

    /// The machine of the step of a job at a place of its route, none past the end of the route.
    pub fn machine_at(&self, job: JobNo, place: u32) -> Option<MachineNo>
        ensures { MatchOption result (steps self.now.plan job ≤ place) (Visits self.now.plan job place) }
    {
        self.shaped().machine_at(job, place)
    }

    /// The machine's order.
    pub fn order_of(&self, machine: MachineNo) -> &[JobNo]
        requires { machine < machines self.now.plan }
        ensures { result.now ≡ order self.now.plan machine }
    {
        self.shaped().order_of(machine)
    }
}
