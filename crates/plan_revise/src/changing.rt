//! One change.

ghost use Rattle.std.specs.Prelude.{◌≡◌, OnOk, IfErr};
ghost use Rattle.plan_revise.specs.Changes.{IsChangedTo, IsProlonged, IsScrapped, IsWithout};
ghost use Rattle.plan_revise.specs.Refusals.{IsRefusedChange, IsUntilFault, IsScrapFault, IsDownFault};
ghost use Rattle.plan_revise.specs.{Fits.IsRevision, Answers.UnlessMemory};

use crate::change::{Change, ChangeFault, Made, Refusal};
use crate::draft::Draft;
use crate::run_so_far::RunSoFar;
use shop_base::limits::MAX_NOMINAL;
use shop_base::{JobNo, MachineNo, Moment, Planned};
use std::alloc::Global;

impl Draft {
    /// Makes a change. Where it can't be made, or memory runs out, what is left is for nobody.
    pub(crate) fn make<P: Planned>(
        &mut self,
        alloc: Global,
        run: &RunSoFar<P>,
        change: Change,
    ) -> Made
        requires { IsRevision run.now self.old }
        ensures made { OnOk result (IsChangedTo run.now self.old change.entry self.new) }
        ensures refused { IfErr result (UnlessMemory (IsRefusedChange run.now self.old change.entry)) }
    {
        match change {
            Change::Until { machine, to } => self.prolong(run, machine, to),
            Change::Add {
                route,
                release,
                budget,
            } => self.add(alloc, run, route, release, budget),
            Change::Scrap { job } => self.scrap(alloc, run, job),
            Change::Down { machine } => self.shut_down(alloc, run, machine),
            Change::Route { job, route } => self.reroute(alloc, run, job, route),
            Change::Release { job, release } => self.move_release(run, job, release),
            Change::Budget { job, budget } => self.move_budget(run, job, budget),
            Change::Hold { machine, to } => self.hold(alloc, run, machine, to),
        }
    }

    /// Lets the operation that goes on on the machine last until a moment.
    fn prolong<P: Planned>(&mut self, run: &RunSoFar<P>, machine: MachineNo, to: Moment) -> Made
        requires { IsRevision run.now self.old }
        ensures made { OnOk result (IsProlonged run.now self.old machine to self.new) }
        ensures refused { IfErr result (UnlessMemory (IsUntilFault run.now self.old machine to)) }
    {
        if machine >= run.plant() {
            return Err(Refusal::Fault(ChangeFault::MachineOutOfRange));
        }
        let Some(job) = run.worker(machine) else {
            return Err(Refusal::Fault(ChangeFault::Idle));
        };
        if to < run.present() {
            return Err(Refusal::Fault(ChangeFault::TooSoon));
        }
        let time = to - run.entry_of(job);
        if time > MAX_NOMINAL {
            return Err(Refusal::Fault(ChangeFault::NominalTooLarge));
        }
        self.last_for(job, run.moves_made(job) as usize - 1, time);
        Ok(())
    }

    /// Stops the job where it is.
    fn scrap<P: Planned>(&mut self, alloc: Global, run: &RunSoFar<P>, job: JobNo) -> Made
        requires { IsRevision run.now self.old }
        ensures made { OnOk result (IsScrapped run.now self.old job self.new) }
        ensures refused { IfErr result (UnlessMemory (IsScrapFault run.now self.old job)) }
    {
        self.check_there(run, job)?;
        self.stop(alloc, run, job, run.moves_made(job) as usize)
    }

    /// Lets all jobs do without the machine.
    fn shut_down<P: Planned>(
        &mut self,
        alloc: Global,
        run: &RunSoFar<P>,
        machine: MachineNo,
    ) -> Made
        requires { IsRevision run.now self.old }
        ensures made { OnOk result (IsWithout run.now self.old machine self.new) }
        ensures refused { IfErr result (UnlessMemory (IsDownFault run.now self.old machine)) }
    {
        if machine >= run.plant() {
            return Err(Refusal::Fault(ChangeFault::MachineOutOfRange));
        }
        self.do_without(alloc, run, machine)
    }
}
