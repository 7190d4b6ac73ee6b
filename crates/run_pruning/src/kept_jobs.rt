//! The jobs that stay, by their new numbers.

ghost use Rattle.std.specs.Prelude.{◌≡◌, ◌+◌, ◌<◌, ◌≤◌, ◌++◌, ◌∷◌, [], length, OnOk, Some, None, cond, if◌then◌else◌};
ghost use Rattle.shop_base.specs.declared.limits.TheConstants.{MAX_JOBS};
ghost use Rattle.run_pruning.specs.Numbers.{number_if_kept, number_behind};

use shop_base::JobNo;
use std::alloc::{AllocError, Global};
use std::marker::Model;

/// Which jobs stay, seen as a mark for each job. Those that stay have new numbers, from 0, in their order.
#[derive(Debug, Drop)]
pub struct KeptJobs {
    numbers: Vec<Option<JobNo>>,
    count: u32,
}

impl Model for KeptJobs {
    ghost use Rattle.std.specs.Prelude.{List, Bool};
    ghost use Rattle.run_pruning.specs.Numbers.{marks_of, AreNumbers};

    ghost Value = { List Bool };

    ghost view = { λ k. marks_of k.numbers.items };

    ghost invariant = { λ k. AreNumbers k.numbers.items k.count };
}

impl KeptJobs {
    /// Of no jobs.
    pub(crate) fn new(alloc: Global) -> KeptJobs
        ensures { result ≡ [] }
    {
        KeptJobs {
            numbers: Vec::new(alloc),
            count: 0,
        }
    }

    /// One job more, which stays or doesn't.
    pub(crate) fn note(&mut self, stays: bool) -> Result<(), AllocError>
        requires { length self.old < MAX_JOBS }
        ensures { OnOk result (self.new ≡ self.old ++ stays ∷ []) }
    {
        let count = next_count(stays, self.count);
        self.numbers.push(next_number(stays, self.count))?;
        self.count = count;
        Ok(())
    }

    /// The new number of a job; `None` if it doesn't stay.
    pub fn number_of(&self, job: JobNo) -> Option<JobNo>
        ensures { result ≡ number_if_kept self.now job }
    {
        match self.numbers.get(job as usize) {
            Some(number) => *number,
            None => None,
        }
    }

    /// The new number of a job; one behind those that there were goes on from those that stay. `None` if it doesn't stay.
    pub fn number_behind(&self, job: JobNo) -> Option<JobNo>
        ensures { result ≡ number_behind self.now job }
    {
        let were = self.len();
        if job < were {
            self.number_of(job)
        } else {
            Some(job - were + self.count)
        }
    }

    /// How many jobs there were.
    pub fn len(&self) -> u32
        ensures count { result ≡ length self.now }
        ensures few { result ≤ MAX_JOBS }
    {
        self.numbers.len() as u32
    }
}

/// The new number of a job before which so many stay, if it stays.
fn next_number(stays: bool, count: u32) -> Option<JobNo>
    ensures { result ≡ (if stays then Some count else None) }
{
    if stays { Some(count) } else { None }
}

/// How many stay behind it.
fn next_count(stays: bool, count: u32) -> u32
    requires { count < MAX_JOBS }
    ensures { result ≡ count + cond stays 1 0 }
{
    if stays { count + 1 } else { count }
}
