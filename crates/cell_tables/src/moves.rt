//! The end of an activity, and a move in its parts: the job leaves its source, comes to its target, and has made one
//! more move.

ghost use Rattle.std.specs.Prelude.{◌≡◌, ◌<◌, ◌≤◌};
ghost use Rattle.shop_base.specs.Plan.{jobs, steps};
ghost use Rattle.shop_base.specs.Cell.{made};
ghost use Rattle.shop_base.specs.Report.{CanReport, after_report};
ghost use Rattle.shop_base.specs.Move.{CanMove, KeepsPlan, source, target, after_move, order_for};

use crate::work_cell::WorkCell;
use shop_base::{JobNo, JobState, Moment, MoveOrder, Planned, Report, Spot};

impl<P: Planned> WorkCell<P> {
    /// Ends the activity of a possible report.
    pub fn end(&mut self, report: Report)
        requires possible { CanReport self.old.plan self.old.cell report }
        ensures { self.new ≡ record self.old { cell = after_report self.old.cell report } }
    {
        match report {
            Report::Arrive { job, at } => self.tables.note_ready(job, at),
            Report::Finish {
                job,
                machine: _,
                at,
            } => self.tables.note_ready(job, at),
            Report::Clean { machine, at } => self.tables.put_cleaning(machine, None, at),
        }
    }

    /// Moves a job that can move at this moment, and returns the order.
    pub fn make_move(&mut self, job: JobNo, at: Moment) -> MoveOrder
        requires can { CanMove self.old.plan self.old.cell job at }
        requires keeps { KeepsPlan self.old.plan self.old.cell job }
        ensures order { result ≡ order_for self.old.plan self.old.cell job at }
        ensures moved { self.new ≡ record self.old { cell = after_move self.old.plan self.old.cell job at } }
    {
        let order = self.next_order(job, at);
        let made = self.job_state(job).made + 1;
        self.tables.leave(self.basis.shaped(), order.source, at);
        self.tables.enter(order.target);
        self.tables.put_job(
            job,
            JobState {
                made,
                ready: false,
                since: at,
            },
            at,
        );
        order
    }

    /// The order to make the next move of the job at this moment, whether it can be made or not.
    pub fn next_order(&self, job: JobNo, at: Moment) -> MoveOrder
        requires job { job < jobs self.now.plan }
        requires not_gone { made self.now.cell job ≤ steps self.now.plan job }
        ensures { result ≡ order_for self.now.plan self.now.cell job at }
    {
        MoveOrder {
            job,
            source: self.source_of(job),
            target: self.target_of(job),
            at,
        }
    }

    /// Where the job is, as it isn't gone.
    fn source_of(&self, job: JobNo) -> Spot
        requires job { job < jobs self.now.plan }
        requires not_gone { made self.now.cell job ≤ steps self.now.plan job }
        ensures { result ≡ source self.now.plan self.now.cell job }
    {
        match self.machine_of(job) {
            Some(machine) => Spot::At(machine),
            None => Spot::Out,
        }
    }

    /// Where its next move takes the job.
    pub(crate) fn target_of(&self, job: JobNo) -> Spot
        requires { job < jobs self.now.plan }
        ensures { result ≡ target self.now.plan self.now.cell job }
    {
        match self.machine_at(job, self.job_state(job).made) {
            Some(machine) => Spot::At(machine),
            None => Spot::Out,
        }
    }
}
