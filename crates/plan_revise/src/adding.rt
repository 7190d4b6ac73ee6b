//! One more job.

ghost use Rattle.std.specs.Prelude.{◌≡◌, ℕ, ◌<◌, OnOk, IfErr, IfOk, length};
ghost use Rattle.shop_base.specs.{declared.limits.TheConstants.MAX_JOBS, Shop.step_at, Plan.jobs, Plan.machines};
ghost use Rattle.orlib_read.specs.Kinds.{first_line, IsJobLine};
ghost use Rattle.plan_revise.specs.{Placed.added, Changes.IsAdded, Changes.given_or};
ghost use Rattle.plan_revise.specs.Refusals.{IsAddFault, IsStepsFault, IsJobLineFault};
ghost use Rattle.plan_revise.specs.{Fits.IsFit, Fits.IsRevision, Answers.UnlessMemory, Answers.AreFitFor};

use crate::change::{ChangeFault, Made, Refusal};
use crate::checking::check_route;
use crate::draft::Draft;
use crate::ending::NO_PROMISE;
use crate::run_so_far::RunSoFar;
use orlib_read::{OrFault, read_route};
use shop_base::limits::{MAX_JOBS, MAX_MOMENT, MAX_RELEASE};
use shop_base::{Moment, Planned, Step};
use std::alloc::{AllocError, Global};

impl Draft {
    /// Adds a job with the route of these words.
    pub(crate) fn add<P: Planned>(
        &mut self,
        alloc: Global,
        run: &RunSoFar<P>,
        words: &[u8],
        release: Option<Moment>,
        budget: Option<Moment>,
    ) -> Made
        requires { IsRevision run.now self.old }
        ensures added { OnOk result (IsAdded run.now self.old words.now release budget self.new) }
        ensures refused { IfErr result (UnlessMemory (IsAddFault run.now self.old words.now release budget)) }
    {
        let steps = steps_of(alloc, words)?;
        let release = given_or(release, run.present());
        let budget = given_or(budget, NO_PROMISE);
        if let Err(fault) = self.check_job(run, &steps, release, budget) {
            return Err(Refusal::Fault(fault));
        }
        self.place_new(alloc, steps, release, budget)?;
        Ok(())
    }

    /// Checks that a job with these steps can be added.
    fn check_job<P: Planned>(
        &self,
        run: &RunSoFar<P>,
        steps: &[Step],
        release: Moment,
        budget: Moment,
    ) -> Result<(), ChangeFault>
        ensures sound { OnOk result (AreFitFor run.now self.now steps.now release budget) }
        ensures fault { IfErr result (IsStepsFault run.now self.now steps.now release budget) }
    {
        if self.routes.len() >= MAX_JOBS {
            return Err(ChangeFault::TooManyJobs);
        }
        check_route(run.plant(), self.recirculates, steps)?;
        if release > MAX_RELEASE {
            return Err(ChangeFault::ReleaseTooLarge);
        }
        if budget > MAX_MOMENT {
            return Err(ChangeFault::BudgetTooLarge);
        }
        Ok(())
    }

    /// Adds a job with this route.
    pub(crate) fn place_new(
        &mut self,
        alloc: Global,
        route: Vec<Step>,
        release: Moment,
        budget: Moment,
    ) -> Result<(), AllocError>
        requires fit { IsFit self.old }
        requires few { jobs self.old < MAX_JOBS }
        requires in_range { (k : ℕ) → k < length route.items → (step_at route.items k).machine < machines self.old }
        ensures { OnOk result (self.new ≡ added self.old route.items release budget) }
    {
        let job = self.routes.len() as u32;
        self.add_job(alloc)?;
        self.place(job, route, release, budget)
    }
}

/// The steps that the words say.
pub(crate) fn steps_of(alloc: Global, words: &[u8]) -> Result<Vec<Step>, Refusal>
    ensures steps { IfOk result (λ steps. IsJobLine (first_line words.now) steps.items) }
    ensures fault { IfErr result (UnlessMemory (IsJobLineFault words.now)) }
{
    match read_route(alloc, words) {
        Ok(steps) => Ok(steps),
        Err(fault) => match fault {
            OrFault::OddWords { line: _ } => Err(Refusal::Fault(ChangeFault::OddWords)),
            OrFault::Memory => Err(Refusal::Memory),
            // A line that can't be read has no other fault.
            _ => Err(Refusal::Fault(ChangeFault::BadNumber)),
        },
    }
}

/// What is given, or else this.
fn given_or(given: Option<Moment>, moment: Moment) -> Moment
    ensures { result ≡ given_or given moment }
{
    match given {
        Some(given) => given,
        None => moment,
    }
}
