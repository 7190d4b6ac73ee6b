//! The moves that a report releases, one after another: after each, only the job that is next at the
//! machine that was left can move.

ghost use Rattle.std.specs.Prelude.{◌≡◌, ◌<◌, [], MatchOption, IfSome};
ghost use Rattle.smallvec.specs.SmallVec.{HasRoomFor};
ghost use Rattle.shop_base.specs.{Plan.jobs, Move.CanMove, Move.KeepsPlan, Move.after_move, Move.order_for};
ghost use Rattle.shop_base.specs.{Run.IsAtRest, Movers.ready_count};
ghost use Rattle.cell_control.specs.DueMoments.{AreDueMoments};
ghost use Rattle.cell_control.specs.Sequences.{OnlyMay, IsMover, IsSequence};

use crate::due_moments::{renew_job, renew_machine};
use crate::dues::Dues;
use cell_tables::WorkCell;
use shop_base::{JobNo, Moment, MoveOrder, Planned, Spot};
use smallvec::SmallVec;

/// The moves that a report releases. A few are kept in the value, more in memory reserved at first.
pub type Orders = SmallVec<MoveOrder, 4>;

/// Moves all jobs that can move, where none but the candidate can.
pub(crate) fn release_moves<P: Planned, D: Dues>(
    cell: &mut WorkCell<P>,
    dues: &mut D,
    orders: &mut Orders,
    candidate: Option<JobNo>,
)
    requires due_moments { AreDueMoments cell.old.plan cell.old.cell (D.dues dues.old) }
    requires only { OnlyMay cell.old.plan cell.old.cell candidate }
    requires of_shop { IfSome candidate (λ job. job < jobs cell.old.plan) }
    requires empty { orders.old.items ≡ [] }
    requires room { HasRoomFor orders.old (ready_count cell.old.plan cell.old.cell) }
    ensures sequence { let c = cell.old.cell in IsSequence cell.old.plan c c.last orders.new.items cell.new.cell }
    ensures quiescent { IsAtRest cell.old.plan cell.new.cell }
    ensures same_plan { cell.new ≡ record cell.old { cell = cell.new.cell } }
    ensures due_moments { AreDueMoments cell.old.plan cell.new.cell (D.dues dues.new) }
    ensures capacity { orders.new.capacity ≡ orders.old.capacity }
{
    let mut candidate = candidate;
    while let Some(job) = mover(cell, candidate) {
        let _plan = cell.shaped();
        candidate = follower(cell, job);
        let at = cell.last();
        let order = advance(cell, dues, job, at);
        orders.push_reserved(order);
    }
}

/// The candidate, if it can move.
fn mover<P: Planned>(cell: &WorkCell<P>, candidate: Option<JobNo>) -> Option<JobNo>
    requires only { OnlyMay cell.now.plan cell.now.cell candidate }
    requires of_shop { IfSome candidate (λ job. job < jobs cell.now.plan) }
    ensures { let c = cell.now.cell in MatchOption result (IsAtRest cell.now.plan c) (IsMover cell.now.plan c c.last) }
{
    let _plan = cell.shaped();
    let job = candidate?;
    if cell.can_move(job) { Some(job) } else { None }
}

/// The job that may follow the one that is about to move: the next at the machine that it leaves.
fn follower<P: Planned>(cell: &WorkCell<P>, job: JobNo) -> Option<JobNo>
    requires mover { let c = cell.now.cell in IsMover cell.now.plan c c.last job }
    ensures only { let c = cell.now.cell in OnlyMay cell.now.plan (after_move cell.now.plan c job c.last) result }
    ensures of_shop { IfSome result (λ next. next < jobs cell.now.plan) }
{
    let _plan = cell.shaped();
    let machine = cell.machine_of(job)?;
    cell.next_on(machine)
}

/// Moves a job that can move at this moment, and notes what begins with that.
pub fn advance<P: Planned, D: Dues>(
    cell: &mut WorkCell<P>,
    dues: &mut D,
    job: JobNo,
    at: Moment,
) -> MoveOrder
    requires due_moments { AreDueMoments cell.old.plan cell.old.cell (D.dues dues.old) }
    requires can { CanMove cell.old.plan cell.old.cell job at }
    requires keeps { KeepsPlan cell.old.plan cell.old.cell job }
    ensures order { result ≡ order_for cell.old.plan cell.old.cell job at }
    ensures moved { cell.new ≡ record cell.old { cell = after_move cell.old.plan cell.old.cell job at } }
    ensures due_moments { AreDueMoments cell.old.plan cell.new.cell (D.dues dues.new) }
{
    let _plan = cell.shaped();
    let order = cell.make_move(job, at);
    renew_job(cell, dues, job);
    if let Spot::At(machine) = order.source {
        renew_machine(cell, dues, machine);
    }
    order
}
