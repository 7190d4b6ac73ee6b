//! Another release or another budget of a job.

ghost use Rattle.std.specs.Prelude.{◌≡◌, ◌<◌, ◌↔◌, IsTrue, OnOk, IfErr};
ghost use Rattle.shop_base.specs.Plan.{jobs};
ghost use Rattle.plan_revise.specs.{Settings.HasLeftCell, Aside.IsInLine, Aside.IsPutAside};
ghost use Rattle.plan_revise.specs.{Changes.IsReleaseMoved, Changes.IsPromiseMoved};
ghost use Rattle.plan_revise.specs.Refusals.{IsThereFault, IsOutOfLine, IsReleaseFault, IsBudgetFault};
ghost use Rattle.plan_revise.specs.{Fits.IsRevision, Answers.UnlessMemory};

use crate::change::{ChangeFault, Made, Refusal};
use crate::draft::Draft;
use crate::run_so_far::RunSoFar;
use shop_base::limits::{MAX_MOMENT, MAX_RELEASE};
use shop_base::{JobNo, Moment, Planned};

impl Draft {
    /// Lets the job, which hasn't come, be due at a moment.
    pub(crate) fn move_release<P: Planned>(
        &mut self,
        run: &RunSoFar<P>,
        job: JobNo,
        release: Moment,
    ) -> Made
        requires { IsRevision run.now self.old }
        ensures made { OnOk result (IsReleaseMoved run.now self.old job release self.new) }
        ensures refused { IfErr result (UnlessMemory (IsReleaseFault run.now self.old job release)) }
    {
        self.check_in_line(run, job)?;
        if run.has_arrived(job) {
            return Err(Refusal::Fault(ChangeFault::JobArrived));
        }
        if release > MAX_RELEASE {
            return Err(Refusal::Fault(ChangeFault::ReleaseTooLarge));
        }
        self.release[job as usize] = release;
        Ok(())
    }

    /// Lets the job's promise be a moment.
    pub(crate) fn move_budget<P: Planned>(
        &mut self,
        run: &RunSoFar<P>,
        job: JobNo,
        budget: Moment,
    ) -> Made
        requires { IsRevision run.now self.old }
        ensures made { OnOk result (IsPromiseMoved run.now self.old job budget self.new) }
        ensures refused { IfErr result (UnlessMemory (IsBudgetFault run.now self.old job budget)) }
    {
        self.check_in_line(run, job)?;
        if budget > MAX_MOMENT {
            return Err(Refusal::Fault(ChangeFault::BudgetTooLarge));
        }
        self.budget[job as usize] = budget;
        Ok(())
    }

    /// Checks that the job is there and isn't put aside.
    fn check_in_line<P: Planned>(&self, run: &RunSoFar<P>, job: JobNo) -> Made
        requires { IsRevision run.now self.now }
        ensures sound { OnOk result (IsInLine run.now self.now job) }
        ensures refused { IfErr result (UnlessMemory (IsOutOfLine run.now self.now job)) }
    {
        self.check_there(run, job)?;
        if self.is_put_aside(run, job) {
            return Err(Refusal::Fault(ChangeFault::JobAside));
        }
        Ok(())
    }

    /// Checks that there is such a job, and that it hasn't left.
    pub(crate) fn check_there<P: Planned>(&self, run: &RunSoFar<P>, job: JobNo) -> Made
        requires { IsRevision run.now self.now }
        ensures in_shop { OnOk result (job < jobs self.now) }
        ensures here { OnOk result (HasLeftCell run.now self.now job → ⊥) }
        ensures refused { IfErr result (UnlessMemory (IsThereFault run.now self.now job)) }
    {
        if job as usize >= self.routes.len() {
            return Err(Refusal::Fault(ChangeFault::JobOutOfRange));
        }
        if run.moves_made(job) as usize > self.routes[job as usize].len() {
            return Err(Refusal::Fault(ChangeFault::JobGone));
        }
        Ok(())
    }

    /// Whether the job is on the machine behind those of the plant, or put aside there.
    pub(crate) fn is_put_aside<P: Planned>(&self, run: &RunSoFar<P>, job: JobNo) -> bool
        requires { job < jobs self.now }
        ensures { IsTrue result ↔ IsPutAside run.now.plant self.now job }
    {
        match self.routes[job as usize].first() {
            Some(step) => step.machine == run.plant(),
            None => false,
        }
    }
}
