//! The bounds of the nodes of a cell.

ghost use Rattle.std.specs.Prelude.{◌≡◌, ◌≤◌, ◌↔◌, IsTrue, IfSome};
ghost use Rattle.shop_base.specs.{declared.limits.TheConstants.MAX_MOMENT, Plan.Visits, Graph.IsNode, Ahead.IsAhead};
ghost use Rattle.alt_graph.specs.Bounds.{MAX_BOUND};
ghost use Rattle.plan_verifier.specs.Held.{later_than};
ghost use Rattle.plan_verifier.specs.CellBounds.{rest_bounds, IsFirstAhead, is_next_in, cleaned_at};

use crate::leavings::later;
use alt_graph::Bounds;
use cell_tables::WorkCell;
use shop_base::{MachineNo, Moment, Node, Planned};

/// The bounds of the rest of a run, from a cell and a present moment on.
#[derive(Drop)]
pub(crate) struct CellBounds<'a, P: Planned> {
    pub cell: &'a WorkCell<P>,
    pub present: Moment,
    ghost in_range: { present ≤ MAX_MOMENT },
}

/// Whether the node ahead, by which its job enters the machine, is the next entry there.
pub(crate) fn is_next<P: Planned>(cell: &WorkCell<P>, machine: MachineNo, node: Node) -> bool
    requires visits { Visits cell.now.plan node.job node.place machine }
    requires ahead { IsAhead cell.now.cell node }
    ensures { result ≡ is_next_in cell.now.plan cell.now.cell machine node }
{
    // Called for its clause alone: the cell is sound.
    let _plan = cell.shaped();
    match cell.next_on(machine) {
        Some(next) => next == node.job && is_first_ahead(cell, machine, node),
        None => false,
    }
}

/// Whether no entry of the machine by the job is ahead before the node.
fn is_first_ahead<P: Planned>(cell: &WorkCell<P>, machine: MachineNo, node: Node) -> bool
    requires node { IsNode cell.now.plan node }
    ensures { IsTrue result ↔ IsFirstAhead cell.now.plan cell.now.cell machine node }
{
    let made = cell.job_state(node.job).made as usize;
    let route = cell.shaped().route_of(node.job);
    for step in (made..node.place as usize).rev() {
        if route[step].machine == machine {
            return false;
        }
    }
    true
}

/// When the cleaning of the machine that the job enters by the node ahead is due, if that is the next entry there and
/// the machine is being cleaned.
fn cleaned_by<P: Planned>(cell: &WorkCell<P>, node: Node) -> Option<Moment>
    requires node { IsNode cell.now.plan node }
    requires ahead { IsAhead cell.now.cell node }
    ensures due { result ≡ cleaned_at cell.now.plan cell.now.cell node }
    ensures limited { IfSome result (λ due. due ≤ MAX_BOUND) }
{
    // Called for its clause alone: the plan is well shaped.
    let _plan = cell.shaped();
    let machine = cell.machine_at(node.job, node.place)?;
    let due = cell.cleaning_due(machine)?;
    if is_next(cell, machine, node) {
        Some(due)
    } else {
        None
    }
}

/// The later of a moment and of another, if there is one.
pub(crate) fn later_of(one: Moment, other: Option<Moment>) -> Moment
    ensures { result ≡ later_than one other }
{
    match other {
        Some(other) => later(one, other),
        None => one,
    }
}

impl<'a, P: Planned> Bounds for CellBounds<'a, P> {
    ghost planned = { λ b. b.cell.now.plan };

    ghost bounds = { λ b. rest_bounds b.cell.now.plan b.cell.now.cell b.present };

    fn is_ahead(&self, node: Node) -> bool {
        // Called for its clause alone: the cell is sound.
        let _plan = self.cell.shaped();
        self.cell.job_state(node.job).made <= node.place
    }

    fn bound(&self, node: Node) -> Option<Moment> {
        // Called for its clause alone: the cell is sound.
        let _plan = self.cell.shaped();
        let state = self.cell.job_state(node.job);
        if node.place < state.made {
            return Some(state.since);
        }
        let cleaned = cleaned_by(self.cell, node);
        if state.made < node.place {
            return Some(later(self.present, cleaned?));
        }
        let moment = later_of(self.present, self.cell.job_due(node.job));
        Some(later_of(moment, cleaned))
    }
}
