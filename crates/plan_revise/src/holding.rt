//! One job more, which holds a machine.

ghost use Rattle.std.specs.Prelude.{◌≡◌, ℕ, ◌<◌, ◌≤◌, ◌-◌, OnOk, IfErr};
ghost use Rattle.shop_base.specs.{declared.limits.TheConstants.MAX_JOBS, Plan.jobs};
ghost use Rattle.shop_base.specs.declared.limits.TheConstants.{MAX_NOMINAL, MAX_RELEASE};
ghost use Rattle.plan_revise.specs.{Held.held, Changes.IsHeld, Refusals.CanBeHeld, Refusals.IsHoldFault};
ghost use Rattle.plan_revise.specs.{Fits.IsRevision, Answers.UnlessMemory};

use crate::change::{ChangeFault, Made, Refusal};
use crate::draft::Draft;
use crate::ending::NO_PROMISE;
use crate::run_so_far::RunSoFar;
use shop_base::limits::{MAX_JOBS, MAX_NOMINAL, MAX_RELEASE};
use shop_base::{MachineNo, Moment, Planned, Step};
use std::alloc::{AllocError, Global};

impl Draft {
    /// Lets one job more hold the machine until a moment.
    pub(crate) fn hold<P: Planned>(
        &mut self,
        alloc: Global,
        run: &RunSoFar<P>,
        machine: MachineNo,
        to: Moment,
    ) -> Made
        requires { IsRevision run.now self.old }
        ensures made { OnOk result (IsHeld run.now self.old machine to self.new) }
        ensures refused { IfErr result (UnlessMemory (IsHoldFault run.now self.old machine to)) }
    {
        self.check_free(run, machine)?;
        if run.present() > MAX_RELEASE {
            return Err(Refusal::Fault(ChangeFault::ReleaseTooLarge));
        }
        if to < run.present() {
            return Err(Refusal::Fault(ChangeFault::TooSoon));
        }
        let nominal = to - run.present();
        if nominal > MAX_NOMINAL {
            return Err(Refusal::Fault(ChangeFault::NominalTooLarge));
        }
        self.place_next(alloc, run, Step { machine, nominal })?;
        Ok(())
    }

    /// Checks that no job is on the machine of the plant, and that there may be a job more.
    fn check_free<P: Planned>(&self, run: &RunSoFar<P>, machine: MachineNo) -> Made
        ensures can { OnOk result (CanBeHeld run.now self.now machine) }
        ensures refused { (to : ℕ) → IfErr result (UnlessMemory (IsHoldFault run.now self.now machine to)) }
    {
        if machine >= run.plant() {
            return Err(Refusal::Fault(ChangeFault::MachineOutOfRange));
        }
        if !run.is_free(machine) {
            return Err(Refusal::Fault(ChangeFault::Occupied));
        }
        if self.routes.len() >= MAX_JOBS {
            return Err(Refusal::Fault(ChangeFault::TooManyJobs));
        }
        Ok(())
    }

    /// Adds a job whose route is this step, released at the present moment and next in its machine's order.
    fn place_next<P: Planned>(
        &mut self,
        alloc: Global,
        run: &RunSoFar<P>,
        step: Step,
    ) -> Result<(), AllocError>
        requires revision { IsRevision run.now self.old }
        requires plant { step.machine < run.now.plant }
        requires few { jobs self.old < MAX_JOBS }
        ensures { OnOk result (self.new ≡ held run.now self.old step.machine step.nominal) }
    {
        let job = self.routes.len() as u32;
        self.place_new(alloc, Vec::new(alloc), run.present(), NO_PROMISE)?;
        self.visit_at(job, step, run.entered(step.machine))
    }
}
