//! The bounds of the jobs and of the machines.

ghost use Rattle.std.specs.Prelude.{◌≡◌, ◌<◌, MatchOption};
ghost use Rattle.shop_base.specs.Plan.{jobs, machines, IsWellShaped};
ghost use Rattle.plan_bounds.specs.Bounds.{times_of, job_bound, HasNoBound, IsMachineBound};
ghost use Rattle.plan_bounds.specs.Seen.{AreVisits};

use crate::alone::out_alone;
use crate::visits::{Visits, all_visits};
use shop_base::{JobNo, MachineNo, Moment, Shaped};

/// The job's bound, in whole time units from moment 0: no plan with these releases and cleaning times has it out
/// earlier.
pub fn job_bound(shaped: &Shaped, job: JobNo) -> Moment
    requires { job < jobs shaped.now }
    ensures { result ≡ job_bound (times_of shaped.now) job }
{
    out_alone(shaped, job, 0, shaped.release_of(job))
}

/// The machine's bound, in whole time units from moment 0: no plan with these releases and cleaning times has all of
/// its jobs out earlier. `None` if fewer than two visits are made to the machine.
pub fn machine_bound(shaped: &Shaped, machine: MachineNo) -> Option<Moment>
    requires { machine < machines shaped.now }
    ensures { let t = times_of shaped.now in MatchOption result (HasNoBound t machine) (IsMachineBound t machine) }
{
    let all = all_visits(shaped);
    bound_by(shaped, machine, all[machine as usize])
}

/// The bound of the machine with these visits.
pub(crate) fn bound_by(shaped: &Shaped, machine: MachineNo, visits: Visits) -> Option<Moment>
    requires machine { machine < machines shaped.now }
    requires shaped { IsWellShaped shaped.now }
    requires known { AreVisits (times_of shaped.now) machine visits }
    ensures { let t = times_of shaped.now in MatchOption result (HasNoBound t machine) (IsMachineBound t machine) }
{
    match visits.ends {
        Some(ends) => {
            let cleaning = shaped.clean_of(machine) * visits.count.saturating_sub(1);
            Some(visits.work + cleaning + ends)
        }
        None => None,
    }
}
