//! How a cell settles: the first job that can move is moved, until the cell is at rest.

ghost use Rattle.std.specs.Prelude.{◌≡◌, ◌≤◌, [], MatchOption};
ghost use Rattle.shop_base.specs.{Plan.jobs, Report.IsNextMoment, Run.IsAtRest};
ghost use Rattle.cell_control.specs.Settled.{IsFirstMover, HasSettled};

use crate::releasing::Orders;
use cell_tables::WorkCell;
use shop_base::{JobNo, Moment, Planned};

/// Moves all jobs that can move at this moment, always the first of them, until the cell is at rest.
pub(crate) fn dispatch_enabled<P: Planned>(cell: &mut WorkCell<P>, orders: &mut Orders, at: Moment)
    requires moment { IsNextMoment cell.old.cell at }
    requires empty { orders.old.items ≡ [] }
    requires room { jobs cell.old.plan ≤ orders.old.capacity }
    ensures settled { HasSettled cell.old.plan at cell.old.cell orders.new.items cell.new.cell }
    ensures same_plan { cell.new ≡ record cell.old { cell = cell.new.cell } }
    ensures capacity { orders.new.capacity ≡ orders.old.capacity }
{
    while let Some(job) = first_mover(cell) {
        // Called for its clauses alone: the plan is well shaped, and the cell sound.
        let _plan = cell.shaped();
        let order = cell.make_move(job, at);
        orders.push_reserved(order);
    }
}

/// The first job that can move and keep the plan; `None` if the cell is at rest.
fn first_mover<P: Planned>(cell: &WorkCell<P>) -> Option<JobNo>
    ensures { let c = cell.now.cell in
        MatchOption result (IsAtRest cell.now.plan c) (IsFirstMover cell.now.plan c c.last) }
{
    // Called for its clause alone: the cell is sound.
    let _plan = cell.shaped();
    for job in 0..cell.job_count() {
        if cell.can_move(job) {
            return Some(job);
        }
    }
    None
}
