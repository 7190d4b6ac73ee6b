//! How late the rest of a run is.

ghost use Rattle.std.specs.Prelude.{◌≡◌, ◌<◌};
ghost use Rattle.shop_base.specs.Plan.{jobs};
ghost use Rattle.alt_graph.specs.Times.{earliest_of, AreRanks};
ghost use Rattle.plan_schedule.specs.Lateness.{lateness, lateness_of};

use alt_graph::Times;
use cell_tables::WorkCell;
use plan_verifier::leave_time;
use shop_base::{JobNo, Moment, Planned};

/// By how much the rest is late, in time units: the greatest lateness of a job that hasn't left, 0 if none is late.
pub(crate) fn lateness<P: Planned>(cell: &WorkCell<P>, times: &Times) -> Moment
    requires { AreRanks cell.now.plan times.now }
    ensures { let p = cell.now.plan in result ≡ lateness p cell.now.cell (earliest_of times.now) (jobs p) }
{
    let mut most = 0;
    for job in 0..cell.job_count() {
        most = most.max(lateness_of(cell, times, job));
    }
    most
}

/// By how much the job leaves past its budget, if it hasn't left yet.
fn lateness_of<P: Planned>(cell: &WorkCell<P>, times: &Times, job: JobNo) -> Moment
    requires ranks { AreRanks cell.now.plan times.now }
    requires job { job < jobs cell.now.plan }
    ensures { result ≡ lateness_of cell.now.plan cell.now.cell (earliest_of times.now) job }
{
    let leaves = leave_time(cell, times, job);
    let late = leaves.saturating_sub(cell.shaped().budget_of(job));
    if cell.step_count(job) < cell.job_state(job).made {
        return 0;
    }
    late
}
