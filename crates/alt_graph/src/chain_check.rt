//! The check of a chain, a path to a node.

ghost use Rattle.std.specs.Prelude.{◌≡◌, ℕ, ◌<◌, ◌≤◌, ◌↔◌, IfSome, MatchOption, Some};
ghost use Rattle.shop_base.specs.Plan.{IsWellShaped};
ghost use Rattle.shop_base.specs.Graph.{leaving};
ghost use Rattle.shop_base.specs.ExactLaw.{IsNeverGoneBefore};
ghost use Rattle.alt_graph.specs.Evidence.{IsChain, EndsIn, node_count};
ghost use Rattle.alt_graph.specs.Bounds.{IsAheadOf, IsChainFrom, HasBound, LeadsAhead, MAX_BOUND};
ghost use Rattle.alt_graph.specs.Sources.{IsLongestArc};

use crate::arcs::arc_length;
use crate::bounds::{Bounds, Whole};
use crate::cycle_check::is_node;
use shop_base::{Moment, Node, Shaped};

/// The greatest length of a path along these nodes: the release of its first job, and the lengths of its arcs. None for a
/// list that isn't a path, or has more nodes than there are. Where the path ends in a job's leaving, no controller has
/// that job out earlier, as long as each activity takes its full time.
pub fn check_chain(shaped: &Shaped, nodes: &[Node]) -> Option<Moment>
    ensures exact { (n : ℕ) → (result ≡ Some n) ↔ IsChain shaped.now nodes.now n }
    ensures no_faster { IfSome result
        (λ n. (j : ℕ) → EndsIn nodes.now (leaving shaped.now j) → IsNeverGoneBefore shaped.now j n) }
{
    check_chain_from(shaped, &Whole { shaped }, nodes)
}

/// The greatest length of a path along these nodes from any bounds: the bound of its first node, and the lengths of its
/// arcs, each from a node ahead. None for a list that isn't such a path, or has more nodes than there are.
pub fn check_chain_from<B: Bounds>(shaped: &Shaped, bounds: &B, nodes: &[Node]) -> Option<Moment>
    requires { B.planned bounds.now ≡ shaped.now }
    ensures exact { (n : ℕ) → (result ≡ Some n) ↔ IsChainFrom shaped.now (B.bounds bounds.now) nodes.now n }
    ensures sound { IsWellShaped shaped.now }
{
    let most = count_nodes(shaped);
    if nodes.len() as u64 > most {
        return None;
    }
    let mut length = begin(shaped, bounds, *nodes.first()?)?;
    for place in 1..nodes.len() {
        length += arc_ahead(shaped, bounds, nodes[place - 1], nodes[place])?;
    }
    Some(length)
}

/// How many nodes there are.
fn count_nodes(shaped: &Shaped) -> u64
    ensures count { result ≡ node_count shaped.now }
    ensures sound { IsWellShaped shaped.now }
{
    let shop = shaped.shop();
    u64::from(shop.jobs()) + shop.operations()
}

/// The bound of the node, if it is one of the shop that has one.
fn begin<B: Bounds>(shaped: &Shaped, bounds: &B, node: Node) -> Option<Moment>
    requires { B.planned bounds.now ≡ shaped.now }
    ensures exact { MatchOption result ((n : ℕ) → HasBound shaped.now (B.bounds bounds.now) node n → ⊥)
        (HasBound shaped.now (B.bounds bounds.now) node) }
    ensures early { IfSome result (λ n. n ≤ MAX_BOUND) }
{
    if is_node(shaped, node) {
        bounds.bound(node)
    } else {
        None
    }
}

/// The greatest length of an arc that leads from the one node to the other, if one does and the first is ahead.
fn arc_ahead<B: Bounds>(shaped: &Shaped, bounds: &B, from: Node, to: Node) -> Option<Moment>
    requires { B.planned bounds.now ≡ shaped.now }
    ensures { MatchOption result (LeadsAhead shaped.now (B.bounds bounds.now) from to → ⊥)
        (λ d. IsAheadOf (B.bounds bounds.now) from × IsLongestArc shaped.now from to d) }
{
    let length = arc_length(shaped, from, to)?;
    if bounds.is_ahead(from) {
        Some(length)
    } else {
        None
    }
}
