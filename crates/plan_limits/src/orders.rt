//! The orders that the heads of the nodes give.

ghost use Rattle.std.specs.Prelude.{◌≡◌, ◌<◌, length};
ghost use Rattle.shop_base.specs.Plan.{jobs, machines};

use crate::numbering::is_asked;
use cell_tables::WorkCell;
use shop_base::{JobNo, MachineNo, Moment, Node, Planned, Shaped};
use std::alloc::{AllocError, Global};

/// The orders in which the jobs that are asked for, and those in the cell, enter the machines at these moments, behind
/// those that have entered, the lesser job first where two are the same; the other jobs stand behind, in ascending
/// order.
pub(crate) fn orders_by<P: Planned>(
    alloc: Global,
    cell: &WorkCell<P>,
    limits: &[Option<Moment>],
    nodes: &[Node],
    heads: &[Moment],
) -> Result<Vec<Vec<JobNo>>, AllocError>
    requires { length limits.now ≡ jobs cell.now.plan }
{
    let mut orders = entered_rows(alloc, cell)?;
    add_all(alloc, cell, limits, nodes, heads, &mut orders)?;
    Ok(orders)
}

/// Adds the jobs that are ahead to the orders of their machines.
fn add_all<P: Planned>(
    alloc: Global,
    cell: &WorkCell<P>,
    limits: &[Option<Moment>],
    nodes: &[Node],
    heads: &[Moment],
    orders: &mut Vec<Vec<JobNo>>,
) -> Result<(), AllocError>
    requires { length limits.now ≡ jobs cell.now.plan }
{
    add_asked(alloc, cell.shaped(), nodes, heads, orders)?;
    add_others(cell, limits, orders)
}

/// Adds the jobs of the nodes, in the order of their heads.
fn add_asked(
    alloc: Global,
    shaped: &Shaped,
    nodes: &[Node],
    heads: &[Moment],
    orders: &mut Vec<Vec<JobNo>>,
) -> Result<(), AllocError> {
    let places = by_head(alloc, nodes, heads)?;
    add_entries(shaped, &places, orders)
}

/// Adds the jobs at these places, in their order.
fn add_entries(
    shaped: &Shaped,
    places: &[(Moment, JobNo, u32)],
    orders: &mut Vec<Vec<JobNo>>,
) -> Result<(), AllocError> {
    for (_, job, place) in places {
        add_entry(shaped, *job, *place, orders)?;
    }
    Ok(())
}

/// The jobs that have entered each machine, in order.
fn entered_rows<P: Planned>(
    alloc: Global,
    cell: &WorkCell<P>,
) -> Result<Vec<Vec<JobNo>>, AllocError> {
    let mut rows = Vec::new(alloc);
    for machine in 0..cell.machine_count() {
        add_row(alloc, cell, machine, &mut rows)?;
    }
    Ok(rows)
}

/// Adds the jobs that have entered the machine, in order.
fn add_row<P: Planned>(
    alloc: Global,
    cell: &WorkCell<P>,
    machine: MachineNo,
    rows: &mut Vec<Vec<JobNo>>,
) -> Result<(), AllocError>
    requires { machine < machines cell.now.plan }
{
    let entered = cell.entered(machine) as usize;
    rows.push(cell.order_of(machine)[..entered].to_vec(alloc)?)?;
    Ok(())
}

/// The places of the nodes, sorted by their heads and then by their jobs.
fn by_head(
    alloc: Global,
    nodes: &[Node],
    heads: &[Moment],
) -> Result<Vec<(Moment, JobNo, u32)>, AllocError> {
    let mut places = with_heads(alloc, nodes, heads)?;
    places.sort()?;
    Ok(places)
}

/// The places of the nodes, each behind its head.
fn with_heads(
    alloc: Global,
    nodes: &[Node],
    heads: &[Moment],
) -> Result<Vec<(Moment, JobNo, u32)>, AllocError> {
    let mut places = Vec::new(alloc);
    for number in 0..nodes.len().min(heads.len()) {
        let Node { job, place } = nodes[number];
        places.push((heads[number], job, place))?;
    }
    Ok(places)
}

/// Adds the jobs that aren't asked for, and haven't entered the cell, to the orders of their machines.
fn add_others<P: Planned>(
    cell: &WorkCell<P>,
    limits: &[Option<Moment>],
    orders: &mut Vec<Vec<JobNo>>,
) -> Result<(), AllocError>
    requires { length limits.now ≡ jobs cell.now.plan }
{
    for job in 0..cell.job_count() {
        if !is_asked(cell, limits, job) {
            add_job(cell.shaped(), job, orders)?;
        }
    }
    Ok(())
}

/// Adds a job to the orders of all its machines.
fn add_job(shaped: &Shaped, job: JobNo, orders: &mut Vec<Vec<JobNo>>) -> Result<(), AllocError>
    requires { job < jobs shaped.now }
{
    for place in 0..shaped.step_count(job) {
        add_entry(shaped, job, place, orders)?;
    }
    Ok(())
}

/// Adds the job to the order of the machine that it enters at this place, if it enters one.
fn add_entry(
    shaped: &Shaped,
    job: JobNo,
    place: u32,
    orders: &mut Vec<Vec<JobNo>>,
) -> Result<(), AllocError> {
    let Some(machine) = shaped.machine_at(job, place) else {
        return Ok(());
    };
    if let Some(order) = orders.get_mut(machine as usize) {
        order.push(job)?;
    }
    Ok(())
}
