//! The greatest of the bounds.

ghost use Rattle.std.specs.Prelude.{◌+◌, ◌<◌, MatchOption};
ghost use Rattle.shop_base.specs.Plan.{jobs, machines, IsWellShaped};
ghost use Rattle.plan_bounds.specs.Bounds.{times_of};
ghost use Rattle.plan_bounds.specs.Greatest.{HaveNoBound, IsGreatestOfMachines, IsGreatestOfJobs};
ghost use Rattle.plan_bounds.specs.Makespan.{IsLeastMakespan};
ghost use Rattle.plan_bounds.specs.Seen.{AreVisits};

use crate::bounds::{bound_by, job_bound};
use crate::visits::{Visits, all_visits};
use shop_base::{JobNo, MachineNo, Moment, Shaped};

/// Whose bound it is.
#[derive(Clone, Copy, Debug, PartialEq, Eq, Drop)]
pub enum By {
    /// A machine.
    Machine(MachineNo),
    /// A job.
    Job(JobNo),
}

/// A lower bound of the makespan: no plan with these releases and cleaning times has all jobs out earlier.
#[derive(Clone, Copy, Debug, PartialEq, Eq, Drop)]
pub struct LeastMakespan {
    /// The moment, in whole time units from moment 0.
    pub at_least: Moment,
    /// The least machine with this bound, else the least job.
    pub by: By,
}

/// The greatest of the bounds of the machines and the jobs, with the least machine that has it, else the least job.
pub fn least_makespan(shaped: &Shaped) -> LeastMakespan
    ensures { IsLeastMakespan (times_of shaped.now) result }
{
    let (job, job_at_least) = greatest_job(shaped);
    if let Some((machine, at_least)) = greatest_machine(shaped) {
        if job_at_least <= at_least {
            return LeastMakespan {
                at_least,
                by: By::Machine(machine),
            };
        }
    }
    LeastMakespan {
        at_least: job_at_least,
        by: By::Job(job),
    }
}

/// The least machine with the greatest bound of all, if any has one.
fn greatest_machine(shaped: &Shaped) -> Option<(MachineNo, Moment)>
    ensures { let t = times_of shaped.now in
        MatchOption result (HaveNoBound t (machines shaped.now)) (IsGreatestOfMachines t (machines shaped.now)) }
{
    let all = all_visits(shaped);
    let mut greatest = None;
    for machine in 0..shaped.machine_count() {
        greatest = greater_machine(shaped, greatest, machine, all[machine as usize]);
    }
    greatest
}

/// The same when this machine was looked at too, which has these visits.
fn greater_machine(
    shaped: &Shaped,
    greatest: Option<(MachineNo, Moment)>,
    machine: MachineNo,
    visits: Visits,
) -> Option<(MachineNo, Moment)>
    requires machine { machine < machines shaped.now }
    requires shaped { IsWellShaped shaped.now }
    requires known { AreVisits (times_of shaped.now) machine visits }
    requires before { let t = times_of shaped.now in
        MatchOption greatest (HaveNoBound t machine) (IsGreatestOfMachines t machine) }
    ensures { let t = times_of shaped.now in
        MatchOption result (HaveNoBound t (machine + 1)) (IsGreatestOfMachines t (machine + 1)) }
{
    match bound_by(shaped, machine, visits) {
        Some(bound) => match greatest {
            Some((first, most)) => {
                if most < bound {
                    Some((machine, bound))
                } else {
                    Some((first, most))
                }
            }
            None => Some((machine, bound)),
        },
        None => greatest,
    }
}

/// The least job with the greatest bound of all.
fn greatest_job(shaped: &Shaped) -> (JobNo, Moment)
    ensures { IsGreatestOfJobs (times_of shaped.now) (jobs shaped.now) result }
{
    let jobs = shaped.job_count();
    let (mut first, mut most) = (0, job_bound(shaped, 0));
    for job in 1..jobs {
        let bound = job_bound(shaped, job);
        if most < bound {
            first = job;
            most = bound;
        }
    }
    (first, most)
}
