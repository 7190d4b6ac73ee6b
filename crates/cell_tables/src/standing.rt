//! The state of a job or a machine: what goes on, since when and until when, or what it waits for.

ghost use Rattle.std.specs.Prelude.{◌≡◌, ◌<◌};
ghost use Rattle.shop_base.specs.Plan.{jobs, machines};
ghost use Rattle.cell_tables.specs.Readings.{IsCleanedAfter};
ghost use Rattle.cell_tables.specs.Standings.{outside_standing, job_standing, machine_standing, shown_visit, latest_visit, is_overdue};

use crate::work_cell::WorkCell;
use shop_base::{JobNo, MachineNo, Moment, Planned, Spot};

/// A visit of a job to a machine, as lines tell it: by the job, and by the step where the job may visit the machine again.
#[derive(Clone, Copy, Debug)]
pub struct Visit {
    pub job: JobNo,
    pub step: Option<u32>,
}

/// The state of a job or a machine.
#[derive(Clone, Copy, Debug)]
pub enum Standing {
    /// The job hasn't arrived; it should by its release.
    Awaited {
        job: JobNo,
        due: Moment,
    },
    /// The job has arrived, and waits outside for its first machine.
    Outside {
        job: JobNo,
        target: Spot,
    },
    /// The job's operation goes on.
    Worked {
        visit: Visit,
        machine: MachineNo,
        since: Moment,
        due: Moment,
    },
    /// The job's operation is done, and it waits there for the next machine.
    Done {
        visit: Visit,
        machine: MachineNo,
        target: Spot,
    },
    /// The job has left the cell at this moment.
    Gone {
        job: JobNo,
        at: Moment,
    },
    /// The machine is being cleaned after a visit of a job.
    Cleaned {
        machine: MachineNo,
        after: Visit,
        since: Moment,
        due: Moment,
    },
    /// The machine isn't being cleaned.
    Clean {
        machine: MachineNo,
    },
}

impl Standing {
    /// Whether something goes on that should have ended before this moment.
    pub fn is_overdue(self, at: Moment) -> bool
        ensures { result ≡ is_overdue self at }
    {
        match self {
            Standing::Awaited { job: _, due } => due < at,
            Standing::Worked {
                visit: _,
                machine: _,
                since: _,
                due,
            } => due < at,
            Standing::Cleaned {
                machine: _,
                after: _,
                since: _,
                due,
            } => due < at,
            Standing::Outside { job: _, target: _ }
            | Standing::Done {
                visit: _,
                machine: _,
                target: _,
            }
            | Standing::Gone { job: _, at: _ }
            | Standing::Clean { machine: _ } => false,
        }
    }
}

impl<P: Planned> WorkCell<P> {
    /// The state of the job.
    pub fn job_standing(&self, job: JobNo) -> Standing
        requires { job < jobs self.now.plan }
        ensures { result ≡ job_standing self.now.plan self.now.cell job }
    {
        let state = self.job_state(job);
        if state.made == 0 {
            return self.standing_outside(job, state.ready);
        }
        let Some(step) = self.shaped().step_of(job, state.made - 1) else {
            return Standing::Gone {
                job,
                at: state.since,
            };
        };
        let visit = self.visit_of(job, state.made - 1);
        if state.ready {
            return Standing::Done {
                visit,
                machine: step.machine,
                target: self.target_of(job),
            };
        }
        Standing::Worked {
            visit,
            machine: step.machine,
            since: state.since,
            due: state.since + step.nominal,
        }
    }

    /// The state of a job that hasn't entered the cell.
    fn standing_outside(&self, job: JobNo, ready: bool) -> Standing
        requires { job < jobs self.now.plan }
        ensures { result ≡ outside_standing self.now.plan self.now.cell job ready }
    {
        if ready {
            Standing::Outside {
                job,
                target: self.target_of(job),
            }
        } else {
            Standing::Awaited {
                job,
                due: self.shaped().release_of(job),
            }
        }
    }

    /// The state of the machine.
    pub fn machine_standing(&self, machine: MachineNo) -> Standing
        requires { machine < machines self.now.plan }
        ensures { result ≡ machine_standing self.now.plan self.now.cell machine }
    {
        let _plan = self.shaped();
        let Some(since) = self.cleaned_since(machine) else {
            return Standing::Clean { machine };
        };
        let job = self.last_in(machine);
        Standing::Cleaned {
            machine,
            after: self.visit_before_cleaning(job, machine),
            since,
            due: since + self.shaped().clean_of(machine),
        }
    }

    /// The visit of a job by its step, as lines tell it.
    fn visit_of(&self, job: JobNo, step: u32) -> Visit
        ensures { result ≡ shown_visit self.now.plan job step }
    {
        Visit {
            job,
            step: self.shaped().shop().shown_step(step),
        }
    }

    /// The visit of the job after which the machine is being cleaned.
    fn visit_before_cleaning(&self, job: JobNo, machine: MachineNo) -> Visit
        requires { IsCleanedAfter self.now.plan self.now.cell machine job }
        ensures { result ≡ latest_visit self.now.plan self.now.cell job machine }
    {
        // Called for its clauses alone: the plan is well shaped, and the cell sound.
        let plan = self.shaped();
        let step = if plan.shop().recirculates() {
            self.latest_step_on(job, machine)
        } else {
            None
        };
        Visit { job, step }
    }
}
