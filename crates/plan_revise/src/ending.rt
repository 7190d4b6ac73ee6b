//! The parts of a change: a job that ends behind a step, that is placed, or that lasts; one job or machine more.

ghost use Rattle.std.specs.Prelude.{◌≡◌, ℕ, ◌<◌, ◌≤◌, OnOk, length, drop};
ghost use Rattle.shop_base.specs.{declared.limits.TheConstants.MAX_MACHINES, Shop.step_at};
ghost use Rattle.shop_base.specs.Plan.{jobs, machines, steps, HasCounts};
ghost use Rattle.plan_revise.specs.{Promises.no_promise, Ended.with_job_ended};
ghost use Rattle.plan_revise.specs.{Placed.placed, Placed.with_new_job, Placed.with_new_machine, Changes.lasting, Fits.IsFit};

use crate::draft::Draft;
use crate::orders::{put_last, take_out};
use shop_base::limits::MAX_MOMENT;
use shop_base::{JobNo, Moment, Step};
use std::alloc::{AllocError, Global};

/// The budget of a job without a promise.
pub(crate) const NO_PROMISE: Moment = MAX_MOMENT;

impl Draft {
    /// Ends the job behind its first steps: its route is cut there, and its visits behind are taken out of the orders.
    pub(crate) fn end_behind(&mut self, job: JobNo, count: usize)
        requires fit { IsFit self.old }
        requires job { job < jobs self.old }
        requires within { count ≤ steps self.old job }
        ensures { self.new ≡ with_job_ended self.old job count }
    {
        let rest = rest_of(&self.routes[job as usize], count);
        take_out(&mut self.order, job, rest);
        self.routes[job as usize].truncate(count);
        self.budget[job as usize] = NO_PROMISE;
    }

    /// Gives the job, which is in no order, a route, a release and a budget, and puts each of its visits last.
    pub(crate) fn place(
        &mut self,
        job: JobNo,
        route: Vec<Step>,
        release: Moment,
        budget: Moment,
    ) -> Result<(), AllocError>
        requires fit { IsFit self.old }
        requires job { job < jobs self.old }
        requires in_range { (k : ℕ) → k < length route.items → (step_at route.items k).machine < machines self.old }
        ensures { OnOk result (self.new ≡ placed self.old job route.items release budget) }
    {
        put_last(&mut self.order, job, &route)?;
        self.routes[job as usize] = route;
        self.release[job as usize] = release;
        self.budget[job as usize] = budget;
        Ok(())
    }

    /// One job more, without a route.
    pub(crate) fn add_job(&mut self, alloc: Global) -> Result<(), AllocError>
        ensures { OnOk result (self.new ≡ with_new_job self.old) }
    {
        self.routes.push(Vec::new(alloc))?;
        self.release.push(0)?;
        self.budget.push(0)?;
        Ok(())
    }

    /// One machine more, which nobody visits.
    pub(crate) fn add_machine(&mut self, alloc: Global) -> Result<(), AllocError>
        requires { machines self.old < MAX_MACHINES }
        ensures { OnOk result (self.new ≡ with_new_machine self.old) }
    {
        self.order.push(Vec::new(alloc))?;
        if let Some(times) = &mut self.clean {
            times.push(0)?;
        }
        self.machines += 1;
        Ok(())
    }

    /// The step of the job at this place lasts so long.
    pub(crate) fn last_for(&mut self, job: JobNo, place: usize, time: Moment)
        requires job { job < jobs self.old }
        requires place { place < steps self.old job }
        ensures { self.new ≡ lasting self.old job place time }
    {
        self.routes[job as usize][place].nominal = time;
    }
}

/// The steps of a route behind its first ones.
pub(crate) fn rest_of(route: &[Step], count: usize) -> &[Step]
    requires { count ≤ length route.now }
    ensures { result.now ≡ drop count route.now }
{
    &route[count..]
}
