//! The question that is put to the search, and how large it may be.

ghost use Rattle.std.specs.Prelude.{◌≡◌, ◌≤◌, IfOk, length};
ghost use Rattle.shop_base.specs.{declared.limits.TheConstants.MAX_MOMENT, Plan.jobs};
ghost use Rattle.arc_choice.specs.Choices.{IsSoundQuestion};
ghost use Rattle.plan_bounds.specs.Bounds.{times_of};
ghost use Rattle.plan_limits.specs.{Stages.stage_of, Asked.AreNumbered, Asked.Asks};

use crate::arcs::fixed_arcs;
use crate::moments::{first_moments, last_moments};
use crate::pairs::machine_pairs;
use arc_choice::Question;
use cell_tables::WorkCell;
use shop_base::{Moment, Node, Planned};
use std::alloc::{AllocError, Global};

/// The most nodes of the jobs that are asked for: a job has one for each step, and its leaving.
pub(crate) const MAX_NODES: usize = 1_024;

/// The most pairs of visits to a machine, of two jobs that are asked for.
pub(crate) const MAX_PAIRS: usize = 16_384;

/// The question for these nodes. All moments that are looked for answer it, so `Never` is never wrong. A question from
/// which an arc or a pair is missing would be so too: no contract sees one that is left out.
pub(crate) fn question_of<P: Planned>(
    alloc: Global,
    cell: &WorkCell<P>,
    present: Moment,
    limits: &[Option<Moment>],
    nodes: &[Node],
) -> Result<Question, AllocError>
    requires count { length limits.now ≡ jobs cell.now.plan }
    requires numbered { AreNumbered (times_of cell.now.plan) cell.now.cell nodes.now }
    requires few { length nodes.now ≤ MAX_NODES }
    requires in_range { present ≤ MAX_MOMENT }
    ensures sound { IfOk result IsSoundQuestion }
    ensures asks { IfOk result (Asks (stage_of cell.now.plan cell.now.cell present) nodes.now limits.now) }
{
    let first = first_moments(alloc, cell, present, nodes)?;
    let last = last_moments(alloc, cell, limits, nodes)?;
    let arcs = fixed_arcs(alloc, cell, nodes)?;
    let pairs = machine_pairs(alloc, cell.shaped(), nodes)?;
    Ok(Question {
        first,
        last,
        arcs,
        pairs,
    })
}
