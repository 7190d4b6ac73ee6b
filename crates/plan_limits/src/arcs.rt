//! The arcs that every plan has: those along the routes, those behind a job that is on a machine, and those to where a
//! job enters a machine again.

ghost use Rattle.std.specs.Prelude.{◌+◌, ◌<◌, ◌≤◌, ◌↔◌, IfOk, IfSome, MatchOption, OnOk, IsTrue, length};
ghost use Rattle.shop_base.specs.Plan.{jobs, steps};
ghost use Rattle.plan_bounds.specs.Bounds.{times_of, IsVisit};
ghost use Rattle.plan_limits.specs.Asked.{AreNumbered, AreFixedArcs, IsHeld, HaveArcsAgain, HasNoNext, IsNextVisit};

use crate::moments::FINE;
use crate::questions::MAX_NODES;
use arc_choice::Arc;
use cell_tables::WorkCell;
use shop_base::{MachineNo, Node, Planned};
use std::alloc::{AllocError, Global};

/// The arcs from each place of a job to its next, as long as the step's nominal time, and, as long as a machine's
/// cleaning time, those from the leaving of a job that is on the machine to all entries ahead, and those from each
/// job's leaving of the machine to its own next entry.
pub(crate) fn fixed_arcs<P: Planned>(
    alloc: Global,
    cell: &WorkCell<P>,
    nodes: &[Node],
) -> Result<Vec<Arc>, AllocError>
    requires few { length nodes.now ≤ MAX_NODES }
    requires numbered { AreNumbered (times_of cell.now.plan) cell.now.cell nodes.now }
    ensures arcs { IfOk result (λ arcs. AreFixedArcs (times_of cell.now.plan) cell.now.cell nodes.now arcs.items) }
    ensures again { IfOk result
        (λ arcs. HaveArcsAgain (times_of cell.now.plan) nodes.now (length nodes.now) arcs.items) }
{
    let mut arcs = Vec::new(alloc);
    for number in 0..nodes.len() {
        add_arc(cell, nodes, number as u32, &mut arcs)?;
        add_arcs_behind(cell, nodes, number as u32, &mut arcs)?;
    }
    add_arcs_again(cell, nodes, &mut arcs)?;
    Ok(arcs)
}

/// Adds the arc from a node to its job's next place, if there is one.
fn add_arc<P: Planned>(
    cell: &WorkCell<P>,
    nodes: &[Node],
    number: u32,
    arcs: &mut Vec<Arc>,
) -> Result<(), AllocError>
    requires few { length nodes.now ≤ MAX_NODES }
    requires number { number < length nodes.now }
    requires arcs { AreFixedArcs (times_of cell.now.plan) cell.now.cell nodes.now arcs.old.items }
    ensures { OnOk result (AreFixedArcs (times_of cell.now.plan) cell.now.cell nodes.now arcs.new.items) }
{
    let node = nodes[number as usize];
    let Some(step) = cell.shaped().step_of(node.job, node.place) else {
        return Ok(());
    };
    arcs.push(Arc {
        from: number,
        to: number + 1,
        length: step.nominal * FINE + 1,
    })?;
    Ok(())
}

/// Adds the arcs from a node to the entries of the machine that its job leaves by it, if the job is on one.
fn add_arcs_behind<P: Planned>(
    cell: &WorkCell<P>,
    nodes: &[Node],
    number: u32,
    arcs: &mut Vec<Arc>,
) -> Result<(), AllocError>
    requires few { length nodes.now ≤ MAX_NODES }
    requires numbered { AreNumbered (times_of cell.now.plan) cell.now.cell nodes.now }
    requires number { number < length nodes.now }
    requires arcs { AreFixedArcs (times_of cell.now.plan) cell.now.cell nodes.now arcs.old.items }
    ensures { OnOk result (AreFixedArcs (times_of cell.now.plan) cell.now.cell nodes.now arcs.new.items) }
{
    let Some(machine) = machine_left(cell, nodes[number as usize]) else {
        return Ok(());
    };
    let length = cell.shaped().clean_of(machine) * FINE + 1;
    for enters in 0..nodes.len() {
        if is_entry(cell, nodes[enters], machine) {
            arcs.push(Arc {
                from: number,
                to: enters as u32,
                length,
            })?;
        }
    }
    Ok(())
}

/// Adds the arcs from where each job leaves a machine to where it enters it next.
fn add_arcs_again<P: Planned>(
    cell: &WorkCell<P>,
    nodes: &[Node],
    arcs: &mut Vec<Arc>,
) -> Result<(), AllocError>
    requires few { length nodes.now ≤ MAX_NODES }
    requires numbered { AreNumbered (times_of cell.now.plan) cell.now.cell nodes.now }
    requires arcs { AreFixedArcs (times_of cell.now.plan) cell.now.cell nodes.now arcs.old.items }
    ensures arcs { OnOk result (AreFixedArcs (times_of cell.now.plan) cell.now.cell nodes.now arcs.new.items) }
    ensures again { OnOk result (HaveArcsAgain (times_of cell.now.plan) nodes.now (length nodes.now) arcs.new.items) }
{
    for number in 0..nodes.len() {
        add_arc_again(cell, nodes, number as u32, arcs)?;
    }
    Ok(())
}

/// Adds the arc from where a job leaves the machine that it enters by this node to where it enters it next, if it does.
fn add_arc_again<P: Planned>(
    cell: &WorkCell<P>,
    nodes: &[Node],
    number: u32,
    arcs: &mut Vec<Arc>,
) -> Result<(), AllocError>
    requires few { length nodes.now ≤ MAX_NODES }
    requires numbered { AreNumbered (times_of cell.now.plan) cell.now.cell nodes.now }
    requires number { number < length nodes.now }
    requires arcs { AreFixedArcs (times_of cell.now.plan) cell.now.cell nodes.now arcs.old.items }
    requires again { HaveArcsAgain (times_of cell.now.plan) nodes.now number arcs.old.items }
    ensures arcs { OnOk result (AreFixedArcs (times_of cell.now.plan) cell.now.cell nodes.now arcs.new.items) }
    ensures again { OnOk result (HaveArcsAgain (times_of cell.now.plan) nodes.now (number + 1) arcs.new.items) }
{
    let node = nodes[number as usize];
    let Some(machine) = cell.machine_at(node.job, node.place) else {
        return Ok(());
    };
    let Some(place) = next_visit(cell, node, machine) else {
        return Ok(());
    };
    arcs.push(Arc {
        from: number + 1,
        to: number + (place - node.place),
        length: cell.shaped().clean_of(machine) * FINE + 1,
    })?;
    Ok(())
}

/// The place by which the node's job enters the machine next, behind the node.
fn next_visit<P: Planned>(cell: &WorkCell<P>, node: Node, machine: MachineNo) -> Option<u32>
    requires job { node.job < jobs cell.now.plan }
    requires few { node.place < steps cell.now.plan node.job }
    ensures { let t = times_of cell.now.plan in
        MatchOption result (HasNoNext t machine node) (IsNextVisit t machine node) }
{
    let end = cell.shaped().step_count(node.job);
    for place in node.place + 1..end {
        if is_entry(
            cell,
            Node {
                job: node.job,
                place,
            },
            machine,
        ) {
            return Some(place);
        }
    }
    None
}

/// The machine that the node's job is on, and leaves by it.
fn machine_left<P: Planned>(cell: &WorkCell<P>, node: Node) -> Option<MachineNo>
    requires { node.job < jobs cell.now.plan }
    ensures { IfSome result (λ m. IsHeld (times_of cell.now.plan) cell.now.cell m node) }
{
    if node.place == 0 {
        return None;
    }
    if cell.job_state(node.job).made != node.place {
        return None;
    }
    cell.machine_at(node.job, node.place - 1)
}

/// Whether the node's job enters the machine by it.
fn is_entry<P: Planned>(cell: &WorkCell<P>, node: Node, machine: MachineNo) -> bool
    ensures { IsTrue result ↔ IsVisit (times_of cell.now.plan) machine node.job node.place }
{
    match cell.machine_at(node.job, node.place) {
        Some(entered) => entered == machine,
        None => false,
    }
}
