//! The tables of a cell: a row for each job and for each machine, and the writes of one row.

ghost use Rattle.std.specs.Prelude.{◌≡◌, ◌<◌, ◌≤◌, length, replicate, vec_capacity, slice_index_or, true, false, IfOk};
ghost use Rattle.shop_base.specs.declared.limits.TheConstants.{MAX_MOMENT};
ghost use Rattle.shop_base.specs.Cell.{absent, start};
ghost use Rattle.shop_base.specs.Move.{after_leaving};
ghost use Rattle.cell_tables.specs.Tables.{cell_of, no_row, AreTables, IsJobPut, IsCleaningPut};
ghost use Rattle.cell_tables.specs.Moving.{IsSpotOf};
ghost use Rattle.cell_tables.specs.Entering.{HasRoom, IsEntered};

use shop_base::limits::MAX_JOBS;
use shop_base::{JobNo, JobState, MachineNo, Moment, Shaped, Spot};
use std::alloc::{AllocError, Global};

/// A machine: how many jobs have entered it, and since when it is being cleaned, if it is.
#[derive(Clone, Copy, Debug)]
pub struct MachineRow {
    pub entered: u32,
    pub cleaning: Option<Moment>,
}

/// The cell in tables. Who has entered a machine follows from its order, and who is on it from the job
/// that entered it last.
#[derive(Debug, Drop)]
pub struct Tables {
    pub jobs: Vec<JobState>,
    pub machines: Vec<MachineRow>,
    pub last: Moment,
}

impl Tables {
    /// The tables of a cell at the start of a run.
    pub(crate) fn start(alloc: Global, shaped: &Shaped) -> Result<Tables, AllocError>
        ensures tables { IfOk result (AreTables shaped.now) }
        ensures start { IfOk result (λ tables. cell_of shaped.now tables ≡ start shaped.now) }
    {
        let jobs = start_jobs(alloc, shaped.job_count() as usize)?;
        let machines = start_machines(alloc, shaped.machine_count() as usize)?;
        Ok(Tables {
            jobs,
            machines,
            last: 0,
        })
    }

    /// Puts the job into this state, at a moment that becomes the last.
    pub(crate) fn put_job(&mut self, job: JobNo, state: JobState, at: Moment)
        requires { job < length self.old.jobs.items }
        ensures { IsJobPut self.old job state at self.new }
    {
        self.jobs[job as usize] = state;
        self.last = at;
    }

    /// The job becomes ready, at a moment that becomes the last.
    pub(crate) fn note_ready(&mut self, job: JobNo, at: Moment)
        requires { job < length self.old.jobs.items }
        ensures { IsJobPut self.old job
            (record (slice_index_or self.old.jobs.items job absent) { ready = true }) at self.new }
    {
        self.jobs[job as usize].ready = true;
        self.last = at;
    }

    /// Begins the cleaning of the machine, or ends it.
    pub(crate) fn put_cleaning(
        &mut self,
        machine: MachineNo,
        cleaning: Option<Moment>,
        last: Moment,
    )
        requires { machine < length self.old.machines.items }
        ensures { IsCleaningPut self.old machine cleaning last self.new }
    {
        self.machines[machine as usize].cleaning = cleaning;
        self.last = last;
    }

    /// A job leaves its source: where that is a machine with a cleaning time, its cleaning begins.
    pub(crate) fn leave(&mut self, shaped: &Shaped, source: Spot, at: Moment)
        requires tables { AreTables shaped.now self.old }
        requires source { IsSpotOf shaped.now source }
        requires at { at ≤ MAX_MOMENT }
        ensures left { cell_of shaped.now self.new ≡ after_leaving shaped.now (cell_of shaped.now self.old) source at }
        ensures tables { AreTables shaped.now self.new }
    {
        if let Spot::At(machine) = source {
            if shaped.clean_of(machine) > 0 {
                self.put_cleaning(machine, Some(at), self.last);
            }
        }
    }

    /// One more job enters the spot, if that is a machine.
    pub(crate) fn enter(&mut self, spot: Spot)
        requires { HasRoom self.old spot }
        ensures { IsEntered self.old spot self.new }
    {
        if let Spot::At(machine) = spot {
            self.machines[machine as usize].entered += 1;
        }
    }
}

fn start_jobs(alloc: Global, count: usize) -> Result<Vec<JobState>, AllocError>
    ensures rows { IfOk result (λ rows. rows.items ≡ replicate count (record { made = 0; ready = false; since = 0 })) }
    ensures room { IfOk result (λ rows. vec_capacity rows ≡ count) }
{
    let mut rows = Vec::with_capacity(alloc, count)?;
    for _i in 0..count {
        rows.push_reserved(JobState {
            made: 0,
            ready: false,
            since: 0,
        });
    }
    Ok(rows)
}

fn start_machines(alloc: Global, count: usize) -> Result<Vec<MachineRow>, AllocError>
    ensures rows { IfOk result (λ rows. rows.items ≡ replicate count no_row) }
    ensures room { IfOk result (λ rows. vec_capacity rows ≡ count) }
{
    let mut rows = Vec::with_capacity(alloc, count)?;
    for _i in 0..count {
        rows.push_reserved(MachineRow {
            entered: 0,
            cleaning: None,
        });
    }
    Ok(rows)
}
