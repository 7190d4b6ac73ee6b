//! The moments that a schedule shows.

ghost use Rattle.std.specs.Prelude.{◌≡◌, ℕ, ◌+◌, ◌<◌, ◌≤◌, max, IfOk, IfSome};
ghost use Rattle.shop_base.specs.{declared.limits.TheConstants.MAX_MOMENT, Shop.step_at};
ghost use Rattle.shop_base.specs.Plan.{jobs, machines, steps, route, release, Visits};
ghost use Rattle.shop_base.specs.{Cell.job_in, Cell.made, Cell.cleaning, Graph.IsNode, Sound.IsSound};
ghost use Rattle.alt_graph.specs.Sources.{IsBlockingArc, IsTarget};
ghost use Rattle.plan_explain.specs.Labels.{label_of};
ghost use Rattle.plan_verifier.specs.Rest.{AreOrderedAhead};
ghost use Rattle.plan_schedule.specs.Schedules.{visit_of, IsCleaningDue, IsCleaningBehind};
ghost use Rattle.plan_schedule.specs.ScheduleLines.{operation_end, cleaned_by, entered_of, IsNextDue, IsCleaningOn};
ghost use Rattle.plan_schedule.specs.Calendars.{IsCalendar, calendar_of, seen, at_of, due_at, HasDeadlines};

use crate::lines::{Cleaning, ScheduledVisit};
use alt_graph::{Deadlines, Graph, Times};
use cell_tables::{Rest, WorkCell};
use plan_explain::Label;
use plan_verifier::cleanings_in_range;
use shop_base::{JobNo, JobState, MachineNo, Moment, Node, Planned, Step};
use std::alloc::{AllocError, Global};
use std::marker::Model;

/// The rest of a run from a cell and the present moment on, with the earliest moment of each node ahead, and its
/// deadlines if it is accepted. Passed nodes have moments that no line shows.
#[derive(Drop)]
pub(crate) struct Calendar<'a, P: Planned> {
    cell: &'a WorkCell<P>,
    present: Moment,
    graph: Graph<'a>,
    times: &'a Times,
    deadlines: Option<&'a Deadlines>,
}

impl<'a, P: Planned> Model for Calendar<'a, P> {
    ghost use Rattle.std.specs.Prelude.{◌≡◌};
    ghost use Rattle.plan_schedule.specs.Calendars.{PlanCalendar, IsCalendar, calendar_of, seen};

    ghost Value = { PlanCalendar };

    ghost view = { λ c.
        calendar_of c.cell.now.plan c.cell.now.cell c.present c.times.now (seen c.deadlines (λ d. d.now)) };

    ghost invariant = { λ c. (c.graph.plan ≡ c.cell.now.plan) × IsCalendar
        (calendar_of c.cell.now.plan c.cell.now.cell c.present c.times.now (seen c.deadlines (λ d. d.now))) };
}

impl<'a, P: Planned> Calendar<'a, P> {
    /// The calendar of the rest of a run by these moments and deadlines. Fails only when out of memory.
    pub(crate) fn new(
        alloc: Global,
        rest: &'a Rest<P>,
        times: &'a Times,
        deadlines: Option<&'a Deadlines>,
    ) -> Result<Calendar<'a, P>, AllocError>
        requires ordered { AreOrderedAhead rest.now.plan rest.now.cell rest.now.present times.now }
        requires deadlines { HasDeadlines rest.now.plan (seen deadlines (λ d. d.now)) }
        ensures { let r = rest.now in IfOk result
            (λ k. k ≡ calendar_of r.plan r.cell r.present times.now (seen deadlines.entry (λ d. d.now))) }
    {
        let cell = rest.cell();
        let present = rest.present();
        // Called for its clause alone: sums with these moments fit.
        cleanings_in_range(cell);
        let graph = Graph::new(alloc, cell.shaped())?;
        Ok(Calendar {
            cell,
            present,
            graph,
            times,
            deadlines,
        })
    }

    fn cell(&self) -> &'a WorkCell<P>
        ensures plan { result.now.plan ≡ self.now.plan }
        ensures cell { result.now.cell ≡ self.now.cell }
    {
        self.cell
    }

    /// How many jobs there are.
    pub(crate) fn jobs(&self) -> u32
        ensures count { result ≡ jobs self.now.plan }
        ensures sound { IsSound self.now.plan self.now.cell }
    {
        // Called for its clause alone: the cell is sound.
        let _plan = self.cell.shaped();
        self.cell.job_count()
    }

    /// How many machines there are.
    pub(crate) fn machines(&self) -> u32
        ensures count { result ≡ machines self.now.plan }
        ensures sound { IsSound self.now.plan self.now.cell }
    {
        // Called for its clause alone: the cell is sound.
        let _plan = self.cell.shaped();
        self.cell.machine_count()
    }

    /// How many steps the job has.
    pub(crate) fn steps(&self, job: JobNo) -> u32
        requires { job < jobs self.now.plan }
        ensures { result ≡ steps self.now.plan job }
    {
        self.cell.step_count(job)
    }

    /// The state of the job.
    pub(crate) fn state(&self, job: JobNo) -> JobState
        requires { job < jobs self.now.plan }
        ensures state { result ≡ job_in self.now.cell job }
        ensures made { result.made ≡ made self.now.cell job }
        ensures early { result.since ≤ MAX_MOMENT }
    {
        // Called for its clause alone: the cell is sound.
        let _plan = self.cell.shaped();
        self.cell.job_state(job)
    }

    /// When the job arrives that hasn't yet: at its release, or at the present moment where that is past.
    pub(crate) fn arrival(&self, job: JobNo) -> Moment
        requires { job < jobs self.now.plan }
        ensures { result ≡ max (release self.now.plan job) self.now.present }
    {
        self.cell.shaped().release_of(job).max(self.present)
    }

    /// The job's visit ahead by the step at a place of its route.
    #[inline(always)]
    pub(crate) fn visit(&self, job: JobNo, place: u32) -> ScheduledVisit
        requires job { job < jobs self.now.plan }
        requires place { place < steps self.now.plan job }
        requires ahead { made self.now.cell job ≤ place }
        ensures { let k = self.now in result ≡ visit_of k.plan (at_of k) (due_at k) job place }
    {
        let step = self.step(job, place);
        let from = self.at(Node { job, place });
        let next = Node {
            job,
            place: place + 1,
        };
        ScheduledVisit {
            label: self.label(job, place),
            machine: step.machine,
            from,
            to: from + step.nominal,
            due: self.due(next),
            done: false,
            leaves: self.at(next),
        }
    }

    /// The visit that the job is in, by the step at a place of its route.
    pub(crate) fn entered(&self, job: JobNo, place: u32) -> ScheduledVisit
        requires job { job < jobs self.now.plan }
        requires place { place < steps self.now.plan job }
        ensures { let k = self.now in result ≡ entered_of k.plan k.cell k.present (at_of k) (due_at k) job place }
    {
        let state = self.state(job);
        let step = self.step(job, place);
        let left = Node {
            job,
            place: place + 1,
        };
        ScheduledVisit {
            label: self.label(job, place),
            machine: step.machine,
            from: state.since,
            to: self.operation_end(job, place),
            due: self.due(left),
            done: state.ready,
            leaves: self.at(left),
        }
    }

    /// When the operation that the job is in ends, by the step at this place: when it is due, or at the present moment.
    pub(crate) fn operation_end(&self, job: JobNo, place: u32) -> Moment
        requires job { job < jobs self.now.plan }
        requires place { place < steps self.now.plan job }
        ensures { let k = self.now in result ≡ operation_end k.plan k.cell k.present job place }
    {
        let state = self.state(job);
        let step = self.step(job, place);
        let due = state.since + step.nominal;
        due.max(self.present)
    }

    /// The cleaning after the job's visit by the step at this place, if the machine has a cleaning time.
    #[inline(always)]
    pub(crate) fn cleaning(&self, job: JobNo, place: u32) -> Option<Cleaning>
        requires job { job < jobs self.now.plan }
        requires place { place < steps self.now.plan job }
        requires ahead { made self.now.cell job ≤ place + 1 }
        ensures { let k = self.now in IsCleaningBehind k.plan (at_of k) (due_at k) job place result }
    {
        let machine = self.step(job, place).machine;
        let time = self.cell.shaped().clean_of(machine);
        if time == 0 {
            return None;
        }
        let left = Node {
            job,
            place: place + 1,
        };
        let from = self.at(left);
        Some(Cleaning {
            machine,
            from,
            to: from + time,
            due: self.cleaning_due(left),
        })
    }

    /// The deadline of the cleaning after a node by which its job leaves a machine, if a job, or this one again, is to
    /// enter it.
    fn cleaning_due(&self, left: Node) -> Option<Moment>
        ensures { let k = self.now in IsCleaningDue k.plan (due_at k) left result }
    {
        match self.next_entry(left) {
            Some(next) => self.due(next),
            None => None,
        }
    }

    /// The node by which the next job in the order enters the machine that is left by this node, if there is one.
    fn next_entry(&self, left: Node) -> Option<Node>
        ensures { IsTarget (IsBlockingArc self.now.plan) left result }
    {
        self.graph.blocking_target(left)
    }

    /// The cleaning of the machine that goes on, if it is being cleaned.
    pub(crate) fn cleaning_on(&self, machine: MachineNo) -> Option<Cleaning>
        requires { machine < machines self.now.plan }
        ensures { let k = self.now in IsCleaningOn k.plan k.cell k.present (due_at k) machine result }
    {
        let from = self.cleaned_since(machine)?;
        Some(Cleaning {
            machine,
            from,
            to: self.cleaned_by(machine, from),
            due: self.next_due(machine),
        })
    }

    fn cleaned_since(&self, machine: MachineNo) -> Option<Moment>
        requires { machine < machines self.now.plan }
        ensures since { result ≡ cleaning self.now.cell machine }
        ensures early { IfSome result (λ since. since ≤ MAX_MOMENT) }
    {
        self.cell.cleaned_since(machine)
    }

    /// When the cleaning of the machine ends that goes on since a moment: when it is due, or at the present moment.
    fn cleaned_by(&self, machine: MachineNo, since: Moment) -> Moment
        requires machine { machine < machines self.now.plan }
        requires since { since ≤ MAX_MOMENT }
        ensures { let k = self.now in result ≡ cleaned_by k.plan k.cell k.present machine since }
    {
        (since + self.cell.shaped().clean_of(machine)).max(self.present)
    }

    /// The deadline of the entry of the machine by the next job in its order, if there is one, and the rest is
    /// accepted.
    fn next_due(&self, machine: MachineNo) -> Option<Moment>
        requires { machine < machines self.now.plan }
        ensures { let k = self.now in IsNextDue k.plan k.cell (due_at k) machine result }
    {
        let cell = self.cell();
        // Called for its clause alone: the plan is well shaped.
        let _plan = cell.shaped();
        match cell.next_on(machine) {
            Some(job) => {
                let place = next_place_on(cell, job, machine);
                self.due(Node { job, place })
            }
            None => None,
        }
    }

    /// What lines call the job's visit by the step at a place of its route.
    fn label(&self, job: JobNo, place: u32) -> Label
        ensures { result ≡ label_of self.now.plan.shop job place }
    {
        Label::of(self.cell.shaped().shop(), job, place)
    }

    /// The step at a place of the job's route.
    fn step(&self, job: JobNo, place: u32) -> Step
        requires { place < steps self.now.plan job }
        ensures step { result ≡ step_at (route self.now.plan job) place }
        ensures calendar { IsCalendar self.now }
    {
        match self.cell.shaped().step_of(job, place) {
            Some(step) => step,
            None => unreachable!(),
        }
    }

    /// The moment of the node's move, in time units.
    pub(crate) fn at(&self, node: Node) -> Moment
        requires { IsNode self.now.plan node }
        ensures { result ≡ at_of self.now node }
    {
        match self.times.earliest(node) {
            Some(moment) => moment,
            None => unreachable!(),
        }
    }

    /// The node's deadline, if the rest is accepted.
    pub(crate) fn due(&self, node: Node) -> Option<Moment>
        requires { IsNode self.now.plan node }
        ensures { result ≡ due_at self.now node }
    {
        match self.deadlines {
            Some(deadlines) => deadlines.deadline(node),
            None => None,
        }
    }
}

/// The place of the job's next step on the machine.
fn next_place_on<P: Planned>(cell: &WorkCell<P>, job: JobNo, machine: MachineNo) -> u32
    requires job { job < jobs cell.now.plan }
    requires visits { (k : ℕ) × (made cell.now.cell job ≤ k) × Visits cell.now.plan job k machine }
    ensures ahead { made cell.now.cell job ≤ result }
    ensures visits { Visits cell.now.plan job result machine }
    ensures next { (k : ℕ) → made cell.now.cell job ≤ k → k < result → Visits cell.now.plan job k machine → ⊥ }
{
    for place in cell.job_state(job).made..cell.step_count(job) {
        if cell.machine_at(job, place) == Some(machine) {
            return place;
        }
    }
    unreachable!()
}
