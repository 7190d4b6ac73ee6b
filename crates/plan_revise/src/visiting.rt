//! One visit more of a job in the cell, as far behind in the order as it can go without a cycle.

ghost use Rattle.std.specs.Prelude.{◌≡◌, ℕ, ◌<◌, ◌≤◌, ◌↔◌, List, [], ◌∷◌, ◌++◌, IsTrue, OnOk, IfOk, IfErr, length};
ghost use Rattle.shop_base.specs.declared.shop.Step.{Step};
ghost use Rattle.shop_base.specs.Shop.{IsRoute};
ghost use Rattle.shop_base.specs.Plan.{jobs, machines, route, steps, order, IsWellShaped};
ghost use Rattle.shop_base.specs.Graph.{leaving};
ghost use Rattle.plan_verifier.specs.Accepted.{HasNoCycle};
ghost use Rattle.plan_revise.specs.Settings.{moves_made};
ghost use Rattle.plan_revise.specs.AnotherWay.{with_visit_at, IsOpenPlace, IsFurthestBehind, LocksEverywhere};
ghost use Rattle.plan_revise.specs.{Fits.IsRevision, Answers.UnlessMemory, Answers.IsSendable, Answers.HasPlace, Answers.IsLock, Answers.IsFirstBehind, Reaching.IsFirstReached};

use crate::change::{ChangeFault, Made, Refusal};
use crate::draft::Draft;
use crate::reaching::Found;
use crate::run_so_far::RunSoFar;
use alt_graph::{Graph, Solved, solve};
use shop_base::{JobNo, MachineNo, Node, Planned, Shaped, Step};
use std::alloc::{AllocError, Global};

impl Draft {
    /// Lets the job, which is in the cell, make this step behind its others, as far behind as it can without a cycle.
    pub(crate) fn send_on<P: Planned>(
        &mut self,
        alloc: Global,
        run: &RunSoFar<P>,
        job: JobNo,
        step: Step,
    ) -> Made
        requires { IsSendable run.now self.old job step }
        ensures sent { OnOk result (IsFurthestBehind run.now self.old job step self.new) }
        ensures refused { IfErr result (UnlessMemory (IsLock run.now self.old job step)) }
    {
        // Called for its clause alone: what changes are judged by is sound.
        let _plant = run.plant();
        let first = self.first_open(run, job, step.machine);
        let place = self.furthest_place(alloc, job, step.machine, first)?;
        if self.is_free_at(alloc, job, step, place)? {
            self.visit_at(job, step, place)?;
            return Ok(());
        }
        Err(Refusal::Fault(ChangeFault::Locks))
    }

    /// The first place in the machine's order that the job can have for a visit more.
    fn first_open<P: Planned>(&self, run: &RunSoFar<P>, job: JobNo, machine: MachineNo) -> usize
        requires revision { IsRevision run.now self.now }
        requires plant { machine < run.now.plant }
        ensures exact { (a : ℕ) → IsOpenPlace run.now self.now job machine a
            ↔ ((result ≤ a) × (a ≤ length (order self.now machine))) }
    {
        first_behind(&self.order[machine as usize], job, run.entered(machine))
    }

    /// The place in the machine's order, from the first one that the job can have, before the first job that can leave the
    /// machine only behind the job's next move; the order's end if none is.
    fn furthest_place(
        &self,
        alloc: Global,
        job: JobNo,
        machine: MachineNo,
        first: usize,
    ) -> Result<usize, AllocError>
        requires shaped { IsWellShaped self.now }
        requires job { job < jobs self.now }
        requires machine { machine < machines self.now }
        requires within { first ≤ length (order self.now machine) }
        ensures { IfOk result (IsFirstReached self.now (leaving self.now job) machine first) }
    {
        let shaped = self.copy(alloc)?.into_shaped();
        let graph = Graph::new(alloc, &shaped)?;
        let place = shaped.step_count(job);
        let found = Found::from(alloc, &graph, Node { job, place })?;
        Ok(found.first_left(&graph, machine, first))
    }

    /// Whether there is no cycle where the job stands for the step at this place.
    fn is_free_at(
        &self,
        alloc: Global,
        job: JobNo,
        step: Step,
        place: usize,
    ) -> Result<bool, AllocError>
        requires place { HasPlace self.now job step place }
        requires shaped { IsWellShaped (with_visit_at self.now job step place) }
        ensures { IfOk result (λ free. IsTrue free ↔ HasNoCycle (with_visit_at self.now job step place)) }
    {
        let mut trial = self.copy(alloc)?;
        trial.visit_at(job, step, place)?;
        is_acyclic(alloc, &trial.into_shaped())
    }

    /// Lets the job make this step behind its others, and stand for it at this place.
    pub(crate) fn visit_at(
        &mut self,
        job: JobNo,
        step: Step,
        place: usize,
    ) -> Result<(), AllocError>
        requires { HasPlace self.old job step place }
        ensures { OnOk result (self.new ≡ with_visit_at self.old job step place) }
    {
        self.order[step.machine as usize].insert(place, job)?;
        self.routes[job as usize].push(step)?;
        Ok(())
    }
}

/// The first place of an order that is behind so many entries and behind all places of the job.
fn first_behind(order: &[JobNo], job: JobNo, entered: usize) -> usize
    ensures { IsFirstBehind order.now job entered result }
{
    for place in (entered..order.len()).rev() {
        if order[place] == job {
            return place + 1;
        }
    }
    entered
}

/// Whether the graph has no cycle.
fn is_acyclic(alloc: Global, shaped: &Shaped) -> Result<bool, AllocError>
    ensures { IfOk result (λ free. IsTrue free ↔ HasNoCycle shaped.now) }
{
    match solve(alloc, shaped)? {
        Solved::Ordered(_) => Ok(true),
        Solved::Cyclic(_) => Ok(false),
    }
}
