ghost use Rattle.std.specs.Prelude.{◌≡◌, ◌<◌, ◌≤◌, ◌↔◌, false, [], List, IfOk, IfErr, IsOk, IsTrue, MatchOption};
ghost use Rattle.shop_base.specs.{Plan.jobs, Report.CanReport, Run.Event, Run.IsAtRest, Ends.HasEnded, Graph.leaving};
ghost use Rattle.shop_base.specs.ReportsLeft.{reports_left};
ghost use Rattle.alt_graph.specs.Times.{earliest_of};
ghost use Rattle.cell_tables.specs.Readings.{IsCleanedFor, IsCleanedForStep, IsCurrentStep};
ghost use Rattle.cell_control.specs.{Control.IsAnswered, Control.IfEndsNow, Control.IsControl, Promises.IsCalled};
ghost use Rattle.cell_control.specs.{Fields.begun_with, Fields.IsRoomFor, Examined.IsExamined, Examined.IsPossible};
ghost use Rattle.cell_control.specs.HandedOver.{IsRestAtFault};
ghost use Rattle.cell_control.specs.Reports.{IsFirstReason, IsOnlyReason};
ghost use Rattle.cell_control.specs.Readings.{IsPhaseOf, IsJobOn, IsDueOf, IsDueOfCleaning, IsOnTime};

use crate::ack::Ack;
use crate::checking::check_report;
use crate::counting::count_left;
use crate::due_moments::{cleaning_key, note_all};
use crate::dues::Dues;
use crate::hand_over_fault::HandOverFault;
use crate::handing::take_over;
use crate::phase::{Phase, phase_of};
use crate::possible::Possible;
use crate::releasing::Orders;
use crate::report_fault::ReportFault;
use crate::room::Room;
use crate::step::{is_past_due, make_step, still_punctual};
use crate::timed::{Ranked, Timed};
use cell_tables::{Rest, WorkCell};
use plan_verifier::leave_time;
use shop_base::{JobNo, MachineNo, Moment, MoveOrder, Report, Shaped};
use std::alloc::Global;
use std::marker::Model;

/// Runs a cell by a plan without a cycle, from any cell on: it gets reports of what has ended, and orders the moves
/// that then keep the plan.
///
/// It keeps the ranks of the plan, and a moment for each node that was ahead where it began, the earliest. After each
/// report the cell is at rest, and until the run has ended something goes on that can be reported; so the cell never
/// locks, whatever ends first. While no report is late each job is out by the moment kept for it.
///
/// A [`crate::Controller`] has an accepted plan, and began with it; a [`crate::RestController`] began in mid-run, or
/// was handed over. Of the calls here only [`Core::rest_at`] takes memory.
#[derive(Drop)]
pub struct Core<P: Timed, D: Dues> {
    pub(crate) cell: WorkCell<P>,
    pub(crate) dues: D,
    pub(crate) orders: Orders,
    pub(crate) left: u64,
    pub(crate) began: Moment,
    pub(crate) punctual: bool,
}

impl<P: Timed, D: Dues> Model for Core<P, D> {
    ghost use Rattle.cell_control.specs.{Control.Control, Fields.control_of, Fields.AreFieldsOf};

    ghost Value = { Control };

    ghost view = { λ c. control_of c.cell (P.times c.cell.basis) c.orders.items c.left c.began c.punctual };

    ghost invariant = { λ c.
        AreFieldsOf (control_of c.cell (P.times c.cell.basis) c.orders.items c.left c.began c.punctual)
        (D.dues c.dues) c.orders.capacity };
}

impl<P: Timed, D: Dues> Core<P, D> {
    /// The controller of a cell at rest, from this moment on, after these orders.
    pub(crate) fn begin_at_rest(cell: WorkCell<P>, room: Room<D>, began: Moment) -> Core<P, D>
        requires room { IsRoomFor cell.plan (D.dues room.dues) room.orders.capacity }
        requires control { IsControl (begun_with cell (P.times cell.basis) room.orders.items began) }
        ensures { result ≡ begun_with cell (P.times cell.basis) room.orders.items began }
    {
        let Room { mut dues, orders } = room;
        note_all(&cell, &mut dues);
        let left = count_left(&cell);
        Core {
            cell,
            dues,
            orders,
            left,
            began,
            punctual: true,
        }
    }

    /// Takes a report. If it is possible, its activity has ended, and the moves are made that then keep
    /// the plan, until no further one can be made: they are in [`Core::orders`]. If it isn't
    /// possible, the call returns the first reason, which is unique, and nothing changes.
    pub fn report(&mut self, report: Report) -> Result<Ack, ReportFault>
        ensures possible { IsOk result ↔ CanReport self.old.planned self.old.cell report }
        ensures answered { IfOk result (λ ack. IsAnswered self.old report ack self.new) }
        ensures first_reason { IfErr result (IsFirstReason self.old.planned self.old.cell report) }
        ensures only_reason { IfErr result (IsOnlyReason self.old.planned self.old.cell report) }
        ensures unchanged { IfErr result (λ fault. self.new ≡ self.old) }
        ensures called { (es : List Event) × IsCalled self.old report es self.new }
        ensures never_refused { IfEndsNow self.old report (IsOk result) }
    {
        let possible = self.examine(report)?;
        Ok(self.accept(possible))
    }

    /// Examines a report: it is possible, and late or not, or this is the first reason for which it isn't possible.
    /// Nothing changes.
    #[inline(always)]
    pub fn examine(&self, report: Report) -> Result<Possible, ReportFault>
        ensures possible { IsOk result ↔ CanReport self.now.planned self.now.cell report }
        ensures examined { IfOk result (IsExamined self.now.planned self.now.cell report) }
        ensures first_reason { IfErr result (IsFirstReason self.now.planned self.now.cell report) }
        ensures never_refused { IfEndsNow self.now report (IsOk result) }
    {
        let cell = &self.cell;
        check_report(cell, report)?;
        Ok(self.examined(report))
    }

    /// What a possible report is examined to be.
    #[inline(always)]
    pub(crate) fn examined(&self, report: Report) -> Possible
        requires { CanReport self.now.planned self.now.cell report }
        ensures { IsExamined self.now.planned self.now.cell report result }
    {
        Possible {
            report,
            late: self.is_late(report.at()),
        }
    }

    /// Accepts a report that was found possible in this cell, as [`Core::report`] does.
    pub fn accept(&mut self, possible: Possible) -> Ack
        requires { IsPossible self.old.planned self.old.cell possible }
        ensures answered { IsAnswered self.old possible.report result self.new }
        ensures late { result.late ≡ possible.late }
    {
        let Possible { report, late } = possible;
        let ack = make_step(
            &mut self.cell,
            &mut self.dues,
            &mut self.orders,
            report,
            late,
        );
        self.left -= 1;
        self.punctual = still_punctual(self.punctual, ack, report, self.began);
        ack
    }

    /// The moves that it ordered last, in the order in which they are made: those that the last accepted report has
    /// released, or else those at its beginning.
    pub fn orders(&self) -> &[MoveOrder]
        ensures { result.now ≡ self.now.orders }
    {
        self.orders.as_slice()
    }

    /// The cell, for its own readers.
    pub fn work_cell(&self) -> &WorkCell<P>
        ensures plan { result.now.plan ≡ self.now.planned }
        ensures cell { result.now.cell ≡ self.now.cell }
    {
        &self.cell
    }

    /// The rest of its run, from a moment on. If the moment can't be the present one, that is the fault; else none but
    /// `Memory` comes.
    pub fn rest_at<'a>(
        &'a self,
        alloc: Global,
        present: Moment,
    ) -> Result<Rest<&'a Shaped>, HandOverFault>
        ensures plan { IfOk result (λ rest. rest.plan ≡ self.now.planned) }
        ensures cell { IfOk result (λ rest. rest.cell ≡ self.now.cell) }
        ensures present { IfOk result (λ rest. rest.present ≡ present) }
        ensures fault { IfErr result (IsRestAtFault self.now.cell present) }
    {
        let shaped = self.shaped();
        if let Err(fault) = self.cell.present_at(Some(present)) {
            return Err(HandOverFault::Present(fault));
        }
        match take_over(alloc, &self.cell, shaped, present) {
            Ok(rest) => Ok(rest),
            Err((fault, _shaped)) => Err(fault),
        }
    }

    /// Where the job is; `None` for a number that is no job's.
    pub fn phase(&self, job: JobNo) -> Option<Phase>
        ensures { IsPhaseOf self.now.planned self.now.cell job result }
    {
        if job < self.cell.job_count() {
            Some(phase_of(&self.cell, job))
        } else {
            None
        }
    }

    /// The job that is on the machine, if one is; `None` for a number that is no machine's.
    #[tactic(auto, using(crate::proofs::Seats::held_at))]
    pub fn holder(&self, machine: MachineNo) -> Option<JobNo>
        ensures { IsJobOn self.now.planned self.now.cell machine result }
    {
        if machine < self.cell.machine_count() {
            self.cell.holder(machine)
        } else {
            None
        }
    }

    /// When the job's activity is due; `None` if it has none, since it is ready or gone or no job.
    pub fn due(&self, job: JobNo) -> Option<Moment>
        ensures { IsDueOf self.now.planned self.now.cell job result }
    {
        if job < self.cell.job_count() {
            self.dues.get(job)
        } else {
            None
        }
    }

    /// When the machine's cleaning is due; `None` if it isn't being cleaned.
    pub fn clean_due(&self, machine: MachineNo) -> Option<Moment>
        ensures { IsDueOfCleaning self.now.planned self.now.cell machine result }
    {
        if machine < self.cell.machine_count() {
            self.dues.get(cleaning_key(&self.cell, machine))
        } else {
            None
        }
    }

    /// The job after which the machine is being cleaned, the last that was on it; `None` if it isn't being cleaned.
    pub fn cleaned_after(&self, machine: MachineNo) -> Option<JobNo>
        ensures { IsCleanedFor self.now.planned self.now.cell machine result }
    {
        if machine < self.cell.machine_count() {
            self.cell.cleaned_after(machine)
        } else {
            None
        }
    }

    /// The job, and its step, after which the machine is being cleaned; `None` if it isn't being cleaned.
    pub fn cleaned_after_step(&self, machine: MachineNo) -> Option<(JobNo, u32)>
        ensures { IsCleanedForStep self.now.planned self.now.cell machine result }
    {
        if machine < self.cell.machine_count() {
            self.cell.cleaned_after_step(machine)
        } else {
            None
        }
    }

    /// The step at which the job is, on a machine; `None` if it is outside or gone or no job.
    pub fn current_step(&self, job: JobNo) -> Option<u32>
        ensures { IsCurrentStep self.now.planned self.now.cell job result }
    {
        // Called for its clause alone: the cell is sound.
        let _plan = self.shaped();
        if job < self.cell.job_count() {
            self.cell.current_step(job)
        } else {
            None
        }
    }

    /// Whether something that is going on should have ended before this moment, so that any report would be late.
    pub fn is_late(&self, at: Moment) -> bool
        ensures { (result ≡ false) ↔ IsOnTime self.now.planned self.now.cell at }
    {
        is_past_due(&self.cell, &self.dues, at)
    }

    /// The moment of the last event, 0 before the first.
    pub fn now(&self) -> Moment
        ensures { result ≡ self.now.cell.last }
    {
        self.cell.last()
    }

    /// Whether no report was late since it began; what was overdue then counts as ended then.
    pub fn punctual(&self) -> bool
        ensures { result ≡ self.now.punctual }
    {
        self.punctual
    }

    /// How many reports are still to come: an arrival of each job, an end of each operation, and an end
    /// of each cleaning.
    pub fn reports_left(&self) -> u64
        ensures kept { result ≡ self.now.left }
        ensures left { result ≡ reports_left self.now.planned self.now.cell }
        ensures ended { HasEnded self.now.planned self.now.cell ↔ (result ≡ 0) }
    {
        self.left
    }

    /// Whether the run has ended: all jobs are gone, and no machine is being cleaned.
    pub fn is_done(&self) -> bool
        ensures { IsTrue result ↔ HasEnded self.now.planned self.now.cell }
    {
        self.left == 0
    }

    /// The plan.
    pub fn shaped(&self) -> &Shaped
        ensures plan { result.now ≡ self.now.planned }
        ensures control { IsControl self.now }
    {
        self.cell.shaped()
    }
}

impl<P: Ranked, D: Dues> Core<P, D> {
    /// The moment kept for the job's leaving: while no report is late it is out by then. Of a job that was gone where
    /// the controller began it is that at which it left. `None` for a number that is no job's.
    pub fn leave_by(&self, job: JobNo) -> Option<Moment>
        ensures { let p = self.now.planned in
            MatchOption result (jobs p ≤ job) (λ n. (job < jobs p) × (n ≡ earliest_of self.now.times (leaving p job))) }
    {
        if job < self.cell.job_count() {
            Some(leave_time(&self.cell, self.cell.basis().times(), job))
        } else {
            None
        }
    }
}
