//! The arcs between two nodes, read from the shop and the plan.

ghost use Rattle.std.specs.Prelude.{◌≡◌, ℕ, ◌≤◌, ◌⊎◌, IfSome, MatchOption, Some};
ghost use Rattle.shop_base.specs.Plan.{IsWellShaped};
ghost use Rattle.shop_base.specs.Graph.{HasArc};
ghost use Rattle.alt_graph.specs.Sources.{IsBlockingArc, IsLongestArc};

use crate::sources::job_source;
use crate::turns::place_of;
use shop_base::{Moment, Node, Shaped};

/// The greatest length of an arc that leads from the one node to the other, if one does: where a job stands at two
/// neighbouring places of an order, and one step lies between them, its own arc and the order's both do.
pub(crate) fn arc_length(shaped: &Shaped, from: Node, to: Node) -> Option<Moment>
    ensures exact { MatchOption result (HasArc shaped.now from to → ⊥) (IsLongestArc shaped.now from to) }
    ensures sound { IsWellShaped shaped.now }
{
    let blocking = blocking_arc(shaped, from, to);
    match job_source(shaped, to) {
        Some(source) if source.node == from => Some(greater(source.length, blocking)),
        _ => blocking,
    }
}

/// The greater of a length and of another one, if there is one.
fn greater(one: Moment, other: Option<Moment>) -> Moment
    ensures first { one ≤ result }
    ensures second { IfSome other (λ n. n ≤ result) }
    ensures of_both { (result ≡ one) ⊎ (other ≡ Some result) }
{
    match other {
        Some(other) if one < other => other,
        _ => one,
    }
}

/// The length of the blocking arc: the one visit leaves the machine that the other enters, directly after it.
fn blocking_arc(shaped: &Shaped, from: Node, to: Node) -> Option<Moment>
    ensures { MatchOption result ((d : ℕ) → IsBlockingArc shaped.now from to d → ⊥) (IsBlockingArc shaped.now from to) }
{
    if from.place == 0 {
        return None;
    }
    let visit = Node {
        job: from.job,
        place: from.place - 1,
    };
    let left = shaped.machine_at(visit.job, visit.place)?;
    let entered = shaped.machine_at(to.job, to.place)?;
    if left != entered || place_of(shaped, left, visit) + 1 != place_of(shaped, left, to) {
        return None;
    }
    Some(shaped.clean_of(left))
}
