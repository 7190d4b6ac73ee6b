//! The routes, orders and times of a planned shop, one at a time.

ghost use Rattle.std.specs.Prelude.{◌≡◌, ◌<◌, ◌≤◌, MatchOption, IfSome};
ghost use Rattle.shop_base.specs.Shop.{step_at};
ghost use Rattle.shop_base.specs.Plan.{jobs, machines, route, steps, order, release, budget};
ghost use Rattle.shop_base.specs.Plan.{clean, Visits, IsWellShaped};

use crate::limits::{MAX_JOBS, MAX_MACHINES};
use crate::shaped::Shaped;
use crate::shop::{JobNo, MachineNo, Moment, Step};

impl Shaped {
    /// How many jobs there are.
    pub fn job_count(&self) -> u32
        ensures count { result ≡ jobs self.now }
        ensures few { result ≤ MAX_JOBS }
        ensures well_shaped { IsWellShaped self.now }
    {
        self.shop().jobs()
    }

    /// How many machines there are.
    pub fn machine_count(&self) -> u32
        ensures count { result ≡ machines self.now }
        ensures few { result ≤ MAX_MACHINES }
        ensures well_shaped { IsWellShaped self.now }
    {
        self.shop().machines()
    }

    /// The job's route.
    pub fn route_of(&self, job: JobNo) -> &[Step]
        requires { job < jobs self.now }
        ensures route { result.now ≡ route self.now job }
        ensures well_shaped { IsWellShaped self.now }
    {
        match self.shop().route(job) {
            Some(route) => route,
            None => unreachable!(),
        }
    }

    /// How many steps the job has.
    pub fn step_count(&self, job: JobNo) -> u32
        requires { job < jobs self.now }
        ensures count { result ≡ steps self.now job }
        ensures few { result ≤ MAX_MACHINES }
        ensures well_shaped { IsWellShaped self.now }
    {
        self.route_of(job).len() as u32
    }

    /// The step of a job at a place of its route, none past its end.
    pub fn step_of(&self, job: JobNo, place: u32) -> Option<Step>
        ensures none { MatchOption result (steps self.now job ≤ place) (λ step. place < steps self.now job) }
        ensures same { IfSome result (λ step. step ≡ step_at (route self.now job) place) }
        ensures well_shaped { IsWellShaped self.now }
    {
        self.shop().route(job)?.get(place as usize).copied()
    }

    /// The machine of that step, none past the end of the route.
    pub fn machine_at(&self, job: JobNo, place: u32) -> Option<MachineNo>
        ensures machine { MatchOption result (steps self.now job ≤ place) (Visits self.now job place) }
        ensures well_shaped { IsWellShaped self.now }
    {
        let step = self.step_of(job, place)?;
        Some(step.machine)
    }

    /// The machine's order.
    pub fn order_of(&self, machine: MachineNo) -> &[JobNo]
        requires { machine < machines self.now }
        ensures order { result.now ≡ order self.now machine }
        ensures well_shaped { IsWellShaped self.now }
    {
        self.plan().order[machine as usize].as_slice()
    }

    /// The latest moment at which the job arrives.
    pub fn release_of(&self, job: JobNo) -> Moment
        requires { job < jobs self.now }
        ensures release { result ≡ release self.now job }
        ensures well_shaped { IsWellShaped self.now }
    {
        self.plan().release[job as usize]
    }

    /// The moment by which the job has to be out of the cell.
    pub fn budget_of(&self, job: JobNo) -> Moment
        requires { job < jobs self.now }
        ensures budget { result ≡ budget self.now job }
        ensures well_shaped { IsWellShaped self.now }
    {
        self.plan().budget[job as usize]
    }

    /// The machine's cleaning time, 0 in a plan without cleaning.
    pub fn clean_of(&self, machine: MachineNo) -> Moment
        requires { machine < machines self.now }
        ensures { result ≡ clean self.now machine }
    {
        match &self.plan().clean {
            Some(times) => times[machine as usize],
            None => 0,
        }
    }
}
