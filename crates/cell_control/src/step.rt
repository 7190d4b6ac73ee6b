//! One step of the controlled run: a possible report, and the moves that it releases.

ghost use Rattle.std.specs.Prelude.{◌≡◌, ◌≤◌, ◌↔◌, ◌⊎◌, IsTrue, [], false};
ghost use Rattle.shop_base.specs.{Plan.jobs, Report.at, Report.CanReport, Run.IsAtRest, Punctual.IsPunctual};
ghost use Rattle.cell_control.specs.{DueMoments.AreDueMoments, Steps.IsMade, Readings.IsOnTime};

use crate::ack::Ack;
use crate::dues::Dues;
use crate::ending::{candidate_after, end_activity};
use crate::releasing::{Orders, release_moves};
use cell_tables::WorkCell;
use shop_base::{Moment, Planned, Report};

/// Makes the step of a possible report, of which it is known whether it is late. The orders of the last one are
/// dropped.
pub(crate) fn make_step<P: Planned, D: Dues>(
    cell: &mut WorkCell<P>,
    dues: &mut D,
    orders: &mut Orders,
    report: Report,
    late: bool,
) -> Ack
    requires due_moments { AreDueMoments cell.old.plan cell.old.cell (D.dues dues.old) }
    requires quiescent { IsAtRest cell.old.plan cell.old.cell }
    requires possible { CanReport cell.old.plan cell.old.cell report }
    requires late { (late ≡ false) ↔ IsPunctual cell.old.plan cell.old.cell report }
    requires room { jobs cell.old.plan ≤ orders.old.capacity }
    ensures made { IsMade cell.old.plan cell.old.cell report result orders.new.items cell.new.cell }
    ensures acknowledged { result.late ≡ late }
    ensures due_moments { AreDueMoments cell.old.plan cell.new.cell (D.dues dues.new) }
    ensures same_plan { cell.new ≡ record cell.old { cell = cell.new.cell } }
    ensures capacity { orders.new.capacity ≡ orders.old.capacity }
{
    let ack = Ack { late };
    drop_orders(orders);
    let _plan = cell.shaped();
    let candidate = candidate_after(cell, report);
    end_activity(cell, dues, report);
    release_moves(cell, dues, orders, candidate);
    ack
}

/// Whether something that is going on should have ended before this moment.
pub fn is_past_due<P: Planned, D: Dues>(cell: &WorkCell<P>, dues: &D, at: Moment) -> bool
    requires { AreDueMoments cell.now.plan cell.now.cell (D.dues dues.now) }
    ensures { (result ≡ false) ↔ IsOnTime cell.now.plan cell.now.cell at }
{
    // Called for its clause alone: the cell is sound.
    let _plan = cell.shaped();
    match dues.least() {
        Some(due) => at > due,
        None => false,
    }
}

/// Whether all reports so far and this one were punctual: one that isn't late, or comes at the moment of beginning or
/// before, so that what was overdue then ends then.
pub(crate) fn still_punctual(punctual: bool, ack: Ack, report: Report, began: Moment) -> bool
    ensures { IsTrue result ↔ (IsTrue punctual × ((ack.late ≡ false) ⊎ (at report ≤ began))) }
{
    let at = report.at();
    punctual && (!ack.late || at <= began)
}

/// Drops the orders of the last report. The memory stays reserved.
fn drop_orders(orders: &mut Orders)
    ensures none { orders.new.items ≡ [] }
    ensures capacity { orders.new.capacity ≡ orders.old.capacity }
{
    orders.clear();
}
