//! Jobs that are stopped: in the cell they end, outside they are put aside.

ghost use Rattle.std.specs.Prelude.{◌≡◌, ℕ, ◌+◌, ◌<◌, ◌≤◌, min, OnOk, IfErr, IfSome, length, position, ◌==◌};
ghost use Rattle.shop_base.specs.declared.limits.TheConstants.{MAX_MACHINES};
ghost use Rattle.shop_base.specs.Plan.{jobs, machines, steps, Visits};
ghost use Rattle.plan_revise.specs.{Settings.moves_made, Aside.HasRoom, Aside.with_aside, Aside.put_aside};
ghost use Rattle.plan_revise.specs.Stopped.{way_to, stopped, stopped_at, without_machine};
ghost use Rattle.plan_revise.specs.{Refusals.IsDownFault, Fits.IsRevision};
ghost use Rattle.plan_revise.specs.Answers.{IsNoRoom, IsNoRoomFor, UnlessMemory};

use crate::change::{ChangeFault, Made, Refusal};
use crate::draft::Draft;
use crate::ending::{NO_PROMISE, rest_of};
use crate::run_so_far::RunSoFar;
use shop_base::limits::{MAX_MACHINES, MAX_RELEASE};
use shop_base::{JobNo, MachineNo, Planned, Step};
use std::alloc::{AllocError, Global};

impl Draft {
    /// Lets no job visit the machine any more.
    pub(crate) fn do_without<P: Planned>(
        &mut self,
        alloc: Global,
        run: &RunSoFar<P>,
        machine: MachineNo,
    ) -> Made
        requires revision { IsRevision run.now self.old }
        requires plant { machine < run.now.plant }
        ensures done { OnOk result (self.new ≡ without_machine run.now self.old machine (jobs self.old)) }
        ensures room { OnOk result
            ((j k : ℕ) → moves_made run.now j ≡ 0 → Visits self.old j k machine → HasRoom run.now self.old) }
        ensures refused { IfErr result (UnlessMemory (IsDownFault run.now self.old machine)) }
    {
        // Called for its clause alone: what changes are judged by is sound.
        let _plant = run.plant();
        for job in 0..self.routes.len() as u32 {
            self.stop_at(alloc, run, job, machine)?;
        }
        Ok(())
    }

    /// Stops the job at the machine, if it is on it or has it ahead.
    fn stop_at<P: Planned>(
        &mut self,
        alloc: Global,
        run: &RunSoFar<P>,
        job: JobNo,
        machine: MachineNo,
    ) -> Made
        requires revision { IsRevision run.now self.old }
        requires job { job < jobs self.old }
        ensures done { OnOk result
            (self.new ≡ stopped_at run.now self.old job (way_to run.now self.old job machine)) }
        ensures room { OnOk result
            ((k : ℕ) → moves_made run.now job ≡ 0 → Visits self.old job k machine → HasRoom run.now self.old) }
        ensures refused { IfErr result (UnlessMemory (IsNoRoomFor run.now self.old job machine)) }
    {
        let made = run.moves_made(job) as usize;
        let present = made.saturating_sub(1);
        let rest = rest_of(&self.routes[job as usize], present);
        let Some(further) = place_of(machine, rest) else {
            return Ok(());
        };
        let count = (present + further).max(made);
        self.stop(alloc, run, job, count)
    }

    /// Stops the job behind its first steps: in the cell it ends there, outside it is put aside.
    pub(crate) fn stop<P: Planned>(
        &mut self,
        alloc: Global,
        run: &RunSoFar<P>,
        job: JobNo,
        count: usize,
    ) -> Made
        requires revision { IsRevision run.now self.old }
        requires job { job < jobs self.old }
        requires within { count ≤ steps self.old job }
        ensures done { OnOk result (self.new ≡ stopped run.now self.old job count) }
        ensures room { OnOk result (moves_made run.now job ≡ 0 → HasRoom run.now self.old) }
        ensures refused { IfErr result (UnlessMemory (IsNoRoom run.now self.old job)) }
    {
        if run.moves_made(job) > 0 {
            self.end_behind(job, count);
            return Ok(());
        }
        if self.machines == run.plant() && self.machines == MAX_MACHINES {
            return Err(Refusal::Fault(ChangeFault::TooManyMachines));
        }
        self.put_aside(alloc, run, job)?;
        Ok(())
    }

    /// Puts the job aside, which is outside.
    fn put_aside<P: Planned>(
        &mut self,
        alloc: Global,
        run: &RunSoFar<P>,
        job: JobNo,
    ) -> Result<(), AllocError>
        requires revision { IsRevision run.now self.old }
        requires job { job < jobs self.old }
        requires room { HasRoom run.now self.old }
        ensures { OnOk result (self.new ≡ put_aside run.now self.old job) }
    {
        self.bring_aside(alloc, run)?;
        self.end_behind(job, 0);
        let route = vec![in alloc;
            Step {
                machine: run.plant(),
                nominal: 0
            },
        ]?;
        self.place(job, route, run.present().min(MAX_RELEASE), NO_PROMISE)
    }
}

impl Draft {
    /// Brings in the machine of the jobs that are put aside, where there is none.
    fn bring_aside<P: Planned>(
        &mut self,
        alloc: Global,
        run: &RunSoFar<P>,
    ) -> Result<(), AllocError>
        requires { HasRoom run.now self.old }
        ensures { OnOk result (self.new ≡ with_aside run.now self.old) }
    {
        if self.machines == run.plant() {
            self.add_machine(alloc)?;
        }
        Ok(())
    }
}

/// The first place of the machine on these steps.
fn place_of(machine: MachineNo, steps: &[Step]) -> Option<usize>
    ensures place { result ≡ position (λ step. step.machine == machine) steps.now }
    ensures within { IfSome result (λ place. place < length steps.now) }
{
    steps.iter().position(|step| step.machine == machine)
}
