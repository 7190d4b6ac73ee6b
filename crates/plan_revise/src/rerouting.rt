//! A job that goes another way from here.

ghost use Rattle.std.specs.Prelude.{◌≡◌, ℕ, ◌<◌, ◌≤◌, ◌++◌, OnOk, IfOk, IfErr, length, take, slice_get, Some};
ghost use Rattle.shop_base.specs.Shop.{IsRoute, step_at};
ghost use Rattle.shop_base.specs.Plan.{jobs, machines, route, steps};
ghost use Rattle.plan_revise.specs.{Settings.moves_made, Aside.CanGoOn, Changes.IsRerouted};
ghost use Rattle.plan_revise.specs.AnotherWay.{way_on, sent_outside, IsSentInside, AreFurthestBehind};
ghost use Rattle.plan_revise.specs.Refusals.{IsRerouteFault, IsWayFault, IsNotGoing};
ghost use Rattle.plan_revise.specs.{Ended.with_job_ended, Fits.IsFit, Fits.IsRevision};
ghost use Rattle.plan_revise.specs.Answers.{UnlessMemory, IsLockAmong};

use crate::adding::steps_of;
use crate::change::{ChangeFault, Made, Refusal};
use crate::checking::check_route;
use crate::draft::Draft;
use crate::run_so_far::RunSoFar;
use shop_base::{JobNo, Planned, Step};
use std::alloc::{AllocError, Global};

impl Draft {
    /// Lets the job go another way from here, as the words say.
    pub(crate) fn reroute<P: Planned>(
        &mut self,
        alloc: Global,
        run: &RunSoFar<P>,
        job: JobNo,
        words: &[u8],
    ) -> Made
        requires { IsRevision run.now self.old }
        ensures made { OnOk result (IsRerouted run.now self.old job words.now self.new) }
        ensures refused { IfErr result (UnlessMemory (IsRerouteFault run.now self.old job words.now)) }
    {
        self.check_can_go_on(run, job)?;
        let steps = steps_of(alloc, words)?;
        self.send(alloc, run, job, steps)
    }

    /// Checks that the job can go on another way.
    fn check_can_go_on<P: Planned>(&self, run: &RunSoFar<P>, job: JobNo) -> Made
        requires { IsRevision run.now self.now }
        ensures can { OnOk result (CanGoOn run.now self.now job) }
        ensures refused { IfErr result (UnlessMemory (IsNotGoing run.now self.now job)) }
    {
        self.check_there(run, job)?;
        if run.moves_made(job) > 0 && self.is_put_aside(run, job) {
            return Err(Refusal::Fault(ChangeFault::JobAside));
        }
        Ok(())
    }

    /// Sends the job by these steps.
    fn send<P: Planned>(
        &mut self,
        alloc: Global,
        run: &RunSoFar<P>,
        job: JobNo,
        steps: Vec<Step>,
    ) -> Made
        requires revision { IsRevision run.now self.old }
        requires can { CanGoOn run.now self.old job }
        ensures sound { OnOk result
            (IsRoute run.now.plant self.old.shop.recirculates (way_on run.now self.old job steps.items)) }
        ensures outside { OnOk result
            (moves_made run.now job ≡ 0 → self.new ≡ sent_outside self.old job steps.items) }
        ensures inside { OnOk result
            (0 < moves_made run.now job → IsSentInside run.now self.old job steps.items self.new) }
        ensures refused { IfErr result (UnlessMemory (IsWayFault run.now self.old job steps.items)) }
    {
        // Called for its clause alone: what changes are judged by is sound.
        let _plant = run.plant();
        let made = run.moves_made(job) as usize;
        let way = self.way_of(alloc, job, made, &steps)?;
        if let Err(fault) = check_route(run.plant(), self.recirculates, &way) {
            return Err(Refusal::Fault(fault));
        }
        if made == 0 {
            self.send_outside(job, steps)?;
            return Ok(());
        }
        self.send_inside(alloc, run, job, &steps)
    }

    /// The job's first steps, and these behind them.
    fn way_of(
        &self,
        alloc: Global,
        job: JobNo,
        count: usize,
        rest: &[Step],
    ) -> Result<Vec<Step>, AllocError>
        requires job { job < jobs self.now }
        requires within { count ≤ steps self.now job }
        ensures { IfOk result (λ way. way.items ≡ take count (route self.now job) ++ rest.now) }
    {
        let mut way = self.routes[job as usize].as_slice()[..count].to_vec(alloc)?;
        for step in rest {
            way.push(*step)?;
        }
        Ok(way)
    }

    /// Sends the job, which is outside, by these steps: last in each order.
    fn send_outside(&mut self, job: JobNo, steps: Vec<Step>) -> Result<(), AllocError>
        requires fit { IsFit self.old }
        requires job { job < jobs self.old }
        requires in_range { (k : ℕ) → k < length steps.items → (step_at steps.items k).machine < machines self.old }
        ensures { OnOk result (self.new ≡ sent_outside self.old job steps.items) }
    {
        let release = self.release[job as usize];
        let budget = self.budget[job as usize];
        self.end_behind(job, 0);
        self.place(job, steps, release, budget)
    }

    /// Sends the job, which is in the cell, by these steps.
    fn send_inside<P: Planned>(
        &mut self,
        alloc: Global,
        run: &RunSoFar<P>,
        job: JobNo,
        steps: &[Step],
    ) -> Made
        requires revision { IsRevision run.now self.old }
        requires can { CanGoOn run.now self.old job }
        requires inside { 0 < moves_made run.now job }
        requires sound { IsRoute run.now.plant self.old.shop.recirculates (way_on run.now self.old job steps.now) }
        ensures sent { OnOk result (IsSentInside run.now self.old job steps.now self.new) }
        ensures refused { IfErr result
            (UnlessMemory (IsLockAmong run.now (with_job_ended self.old job (moves_made run.now job)) job steps.now)) }
    {
        // Called for its clause alone: what changes are judged by is sound.
        let _plant = run.plant();
        let budget = self.budget[job as usize];
        self.end_behind(job, run.moves_made(job) as usize);
        self.send_on_all(alloc, run, job, steps)?;
        self.budget[job as usize] = budget;
        Ok(())
    }

    /// Lets the job make these steps behind its others, one after another.
    fn send_on_all<P: Planned>(
        &mut self,
        alloc: Global,
        run: &RunSoFar<P>,
        job: JobNo,
        way: &[Step],
    ) -> Made
        requires revision { IsRevision run.now self.old }
        requires job { job < jobs self.old }
        requires here { moves_made run.now job ≤ steps self.old job }
        requires sound { IsRoute run.now.plant self.old.shop.recirculates (route self.old job ++ way.now) }
        ensures sent { OnOk result (AreFurthestBehind run.now self.old job way.now self.new) }
        ensures job { OnOk result (job < jobs self.new) }
        ensures revision { OnOk result (IsRevision run.now self.new) }
        ensures refused { IfErr result (UnlessMemory (IsLockAmong run.now self.old job way.now)) }
    {
        // Called for its clause alone: what changes are judged by is sound.
        let _plant = run.plant();
        for place in 0..way.len() {
            self.send_on(alloc, run, job, step_of(way, place))?;
        }
        Ok(())
    }
}

/// The step at this place.
fn step_of(steps: &[Step], place: usize) -> Step
    requires { place < length steps.now }
    ensures { slice_get steps.now place ≡ Some result }
{
    steps[place]
}
