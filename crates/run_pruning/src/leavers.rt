//! Which job left each machine last.

ghost use Rattle.std.specs.Prelude.{◌≡◌, replicate, slice_index, None, IfOk};
ghost use Rattle.cell_tables.specs.Events.{event_of, events_of};
ghost use Rattle.run_pruning.specs.PrunedEvents.{owner, left_spot, left_after, last_owner};

use cell_tables::Entry;
use shop_base::{JobNo, Report, Spot};
use std::alloc::{AllocError, Global};
use std::marker::Model;

/// The job that left each machine last; job 0 of a machine that none has left.
#[derive(Drop)]
pub(crate) struct Leavers {
    jobs: Vec<JobNo>,
}

impl Model for Leavers {
    ghost use Rattle.std.specs.Prelude.{ℕ, List};

    ghost Value = { List ℕ };

    ghost view = { λ l. l.jobs.items };
}

impl Leavers {
    /// Before anybody has left one of so many machines.
    pub(crate) fn none(alloc: Global, machines: u32) -> Result<Leavers, AllocError>
        ensures { IfOk result (λ left. left ≡ replicate machines 0) }
    {
        let jobs = vec![in alloc; 0; machines as usize]?;
        Ok(Leavers { jobs })
    }

    /// The job whose event an entry is.
    pub(crate) fn owner(&self, entry: Entry) -> JobNo
        ensures { result ≡ owner self.now (event_of entry) }
    {
        match entry {
            Entry::Report(Report::Arrive { job, at: _ }) => job,
            Entry::Report(
                Report::Finish {
                    job,
                    machine: _,
                    at: _,
                },
            ) => job,
            Entry::Report(Report::Clean { machine, at: _ }) => self.last_of(machine as usize),
            Entry::Order(order) => order.job,
        }
    }

    /// The job that left the machine last.
    fn last_of(&self, machine: usize) -> JobNo
        ensures { result ≡ slice_index self.now machine }
    {
        match self.jobs.get(machine) {
            Some(job) => *job,
            None => 0,
        }
    }

    /// After an entry.
    pub(crate) fn pass(&mut self, entry: Entry)
        ensures { self.new ≡ left_after self.old (event_of entry) }
    {
        match entry {
            Entry::Report(_) => {}
            Entry::Order(order) => self.leave(order.source, order.job),
        }
    }

    /// After a job has left a spot.
    fn leave(&mut self, spot: Spot, job: JobNo)
        ensures { self.new ≡ left_spot self.old job spot }
    {
        match spot {
            Spot::Out => {}
            Spot::At(machine) => {
                if (machine as usize) < self.jobs.len() {
                    self.jobs[machine as usize] = job;
                }
            }
        }
    }
}

/// The job whose the last entry is, if there are any, in a shop of so many machines.
pub(crate) fn last_owner(
    alloc: Global,
    machines: u32,
    entries: &[Entry],
) -> Result<Option<JobNo>, AllocError>
    ensures { IfOk result (λ last. last ≡ last_owner None (replicate machines 0) (events_of entries.now)) }
{
    let mut left = Leavers::none(alloc, machines)?;
    let mut last = None;
    for entry in entries {
        last = Some(left.owner(*entry));
        left.pass(*entry);
    }
    Ok(last)
}
