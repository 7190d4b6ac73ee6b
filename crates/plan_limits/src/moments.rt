//! The first and the last moments of the nodes, in fine units.

ghost use Rattle.std.specs.Prelude.{◌≡◌, ℕ, ◌+◌, ◌*◌, ◌^◌, ◌<◌, ◌≤◌, IfOk, length};
ghost use Rattle.shop_base.specs.{declared.limits.TheConstants.MAX_MOMENT, declared.node.Node.Node, Plan.jobs};
ghost use Rattle.plan_bounds.specs.Bounds.{times_of};
ghost use Rattle.plan_limits.specs.{Stages.stage_of, LimitsLaw.AreFineMoments};
ghost use Rattle.plan_limits.specs.Asked.{IsPlace, IsWithinLimit, AreNumbered, AreFirst, AreLast};

use cell_tables::WorkCell;
use plan_verifier::later;
use shop_base::{JobNo, Moment, Node, Planned};
use std::alloc::{AllocError, Global};

/// How many fine units a time unit has: more than a shop within the limits has nodes.
pub(crate) const FINE: u64 = 32_768;

/// The first moments of the nodes.
pub(crate) fn first_moments<P: Planned>(
    alloc: Global,
    cell: &WorkCell<P>,
    present: Moment,
    nodes: &[Node],
) -> Result<Vec<Moment>, AllocError>
    requires numbered { AreNumbered (times_of cell.now.plan) cell.now.cell nodes.now }
    requires in_range { present ≤ MAX_MOMENT }
    ensures first { IfOk result
        (λ first. AreFirst (stage_of cell.now.plan cell.now.cell present) nodes.now first.items) }
    ensures count { IfOk result (λ first. length first.items ≡ length nodes.now) }
{
    let mut first = Vec::new(alloc);
    for node in nodes {
        first.push(first_of(cell, present, *node))?;
    }
    Ok(first)
}

/// The first moment of a node: the present one or that at which what goes on with its job is due, if it is the job's
/// next node, and that at which the cleaning of the machine that its job enters by it is due.
fn first_of<P: Planned>(cell: &WorkCell<P>, present: Moment, node: Node) -> Moment
    requires place { IsPlace (times_of cell.now.plan) cell.now.cell node }
    requires in_range { present ≤ MAX_MOMENT }
    ensures { (w : Node → ℕ) → AreFineMoments (stage_of cell.now.plan cell.now.cell present) w → result ≤ w node }
{
    later(begun_of(cell, present, node), cleaned_of(cell, node))
}

/// The first moment of a job's next node, by what goes on with the job.
fn begun_of<P: Planned>(cell: &WorkCell<P>, present: Moment, node: Node) -> Moment
    requires place { IsPlace (times_of cell.now.plan) cell.now.cell node }
    requires in_range { present ≤ MAX_MOMENT }
    ensures { (w : Node → ℕ) → AreFineMoments (stage_of cell.now.plan cell.now.cell present) w → result ≤ w node }
{
    if cell.job_state(node.job).made < node.place {
        return 0;
    }
    match cell.job_due(node.job) {
        Some(due) => later(present, due) * FINE,
        None => present * FINE,
    }
}

/// The first moment of an entry, by the cleaning of its machine.
fn cleaned_of<P: Planned>(cell: &WorkCell<P>, node: Node) -> Moment
    requires { IsPlace (times_of cell.now.plan) cell.now.cell node }
    ensures { (present : ℕ) (w : Node → ℕ)
        → AreFineMoments (stage_of cell.now.plan cell.now.cell present) w → result ≤ w node }
{
    // Called for its clause alone: the plan is well shaped.
    let _plan = cell.shaped();
    let Some(machine) = cell.machine_at(node.job, node.place) else {
        return 0;
    };
    match cell.cleaning_due(machine) {
        Some(due) => due * FINE,
        None => 0,
    }
}

/// The last moments of the nodes.
pub(crate) fn last_moments<P: Planned>(
    alloc: Global,
    cell: &WorkCell<P>,
    limits: &[Option<Moment>],
    nodes: &[Node],
) -> Result<Vec<Moment>, AllocError>
    requires count { length limits.now ≡ jobs cell.now.plan }
    requires numbered { AreNumbered (times_of cell.now.plan) cell.now.cell nodes.now }
    ensures last { IfOk result (λ last. (present : ℕ)
        → AreLast (stage_of cell.now.plan cell.now.cell present) nodes.now limits.now last.items) }
    ensures count { IfOk result (λ last. length last.items ≡ length nodes.now) }
{
    let mut last = Vec::new(alloc);
    for node in nodes {
        last.push(last_of(limits, node.job))?;
    }
    Ok(last)
}

/// The last moment of a job's nodes: that of its limit or, without one, the last one that there is.
fn last_of(limits: &[Option<Moment>], job: JobNo) -> Moment
    requires { job < length limits.now }
    ensures { (x : ℕ) → IsWithinLimit limits.now job x → x ≤ result }
{
    match limits[job as usize] {
        Some(limit) => last_within(limit),
        None => Moment::MAX,
    }
}

/// The last fine moment within a limit, or the last one that there is.
fn last_within(limit: Moment) -> Moment
    ensures { (x : ℕ) → x < limit * FINE + FINE → x < 2 ^ 64 → x ≤ result }
{
    limit.saturating_mul(FINE).saturating_add(FINE - 1)
}
