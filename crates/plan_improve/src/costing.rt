//! The costs of the rests of runs: that of a whole plan is the cost of the rest of a run that hasn't begun.

ghost use Rattle.std.specs.Prelude.{◌≡◌, ◌<◌, ◌≤◌, IfOk, MatchOption};
ghost use Rattle.shop_base.specs.{Plan.jobs, Ends.sum_below};
ghost use Rattle.alt_graph.specs.{Solved.HasCycle, Times.AreRanks};
ghost use Rattle.plan_verifier.specs.Leavings.{leaves_in, IsLastLeaving};
ghost use Rattle.plan_improve.specs.{RestCosts.IsCostFrom, RestCosts.late_by, RestKeeping.LeaveSoon};

use crate::cost::Cost;
use alt_graph::{Solved, Times};
use cell_tables::{Rest, WorkCell};
use plan_verifier::{cleanings_in_range, earliest_moments, leave_time, makespan};
use shop_base::{JobNo, Moment, Planned};
use std::alloc::{AllocError, Global};

/// The cost of the rest of a run; `None` if the plan has a cycle.
pub(crate) fn cost_from<P: Planned>(
    alloc: Global,
    rest: &Rest<P>,
) -> Result<Option<Cost>, AllocError>
    ensures { IfOk result
        (λ cost. MatchOption cost (HasCycle rest.now.plan)
        (IsCostFrom rest.now.plan rest.now.cell rest.now.present)) }
{
    // All called for their clauses alone: the cell is sound, its cleanings began within the limit, and so is the
    // present moment.
    let _plan = rest.shaped();
    let cell = rest.cell();
    cleanings_in_range(cell);
    let _present = rest.present();
    match earliest_moments(alloc, rest)? {
        Solved::Ordered(times) => Ok(Some(cost_in(cell, &times))),
        Solved::Cyclic(_) => Ok(None),
    }
}

/// The cost, from the moments of a rest without a cycle.
fn cost_in<P: Planned>(cell: &WorkCell<P>, times: &Times) -> Cost
    requires ranks { AreRanks cell.now.plan times.now }
    requires soon { LeaveSoon cell.now.plan cell.now.cell (leaves_in cell.now.plan times.now) }
    ensures late { let p = cell.now.plan in
        result.late ≡ sum_below (late_by p cell.now.cell (leaves_in p times.now)) (jobs p) }
    ensures makespan { IsLastLeaving cell.now.plan (leaves_in cell.now.plan times.now) result.makespan }
{
    let mut late = 0;
    for job in 0..cell.job_count() {
        late += late_of(cell, times, job);
    }
    Cost {
        late,
        makespan: makespan(cell, times),
    }
}

/// What the job leaves past its budget, if it isn't gone.
fn late_of<P: Planned>(cell: &WorkCell<P>, times: &Times, job: JobNo) -> Moment
    requires ranks { AreRanks cell.now.plan times.now }
    requires job { job < jobs cell.now.plan }
    ensures { let p = cell.now.plan in result ≡ late_by p cell.now.cell (leaves_in p times.now) job }
{
    let leaves = leave_time(cell, times, job);
    let late = leaves.saturating_sub(cell.shaped().budget_of(job));
    if cell.step_count(job) < cell.job_state(job).made {
        return 0;
    }
    late
}
