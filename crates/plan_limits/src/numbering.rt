//! The nodes of the jobs that are asked for, by number.

ghost use Rattle.std.specs.Prelude.{◌≡◌, ◌+◌, ◌<◌, IfOk, OnOk, length};
ghost use Rattle.shop_base.specs.Plan.{jobs};
ghost use Rattle.plan_bounds.specs.Bounds.{times_of};
ghost use Rattle.plan_limits.specs.Asked.{AreNumbered, AreNumberedTo};

use cell_tables::WorkCell;
use shop_base::{JobNo, Moment, Node, Planned};
use std::alloc::{AllocError, Global};

/// The nodes ahead of the jobs that have a limit, and of those that are in the cell, since they hold up others: job by
/// job, and of each its places one after the other.
pub(crate) fn asked_nodes<P: Planned>(
    alloc: Global,
    cell: &WorkCell<P>,
    limits: &[Option<Moment>],
) -> Result<Vec<Node>, AllocError>
    requires { length limits.now ≡ jobs cell.now.plan }
    ensures { IfOk result (λ nodes. AreNumbered (times_of cell.now.plan) cell.now.cell nodes.items) }
{
    let mut nodes = Vec::new(alloc);
    for job in 0..cell.job_count() {
        if is_asked(cell, limits, job) {
            add_job(cell, job, &mut nodes)?;
        }
    }
    Ok(nodes)
}

/// Whether the job has a limit, or has entered the cell.
pub(crate) fn is_asked<P: Planned>(
    cell: &WorkCell<P>,
    limits: &[Option<Moment>],
    job: JobNo,
) -> bool
    requires count { length limits.now ≡ jobs cell.now.plan }
    requires job { job < jobs cell.now.plan }
{
    limits[job as usize].is_some() || cell.job_state(job).made > 0
}

/// Adds the nodes ahead of a job.
fn add_job<P: Planned>(
    cell: &WorkCell<P>,
    job: JobNo,
    nodes: &mut Vec<Node>,
) -> Result<(), AllocError>
    requires job { job < jobs cell.now.plan }
    requires numbered { AreNumberedTo (times_of cell.now.plan) cell.now.cell job 0 nodes.old.items }
    ensures { OnOk result (AreNumberedTo (times_of cell.now.plan) cell.now.cell (job + 1) 0 nodes.new.items) }
{
    let shaped = cell.shaped();
    for place in cell.job_state(job).made..shaped.step_count(job) + 1 {
        nodes.push(Node { job, place })?;
    }
    Ok(())
}
