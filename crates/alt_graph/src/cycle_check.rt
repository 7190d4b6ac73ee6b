//! The check of a cycle.

ghost use Rattle.std.specs.Prelude.{◌<◌, ◌↔◌, All, IsTrue, length};
ghost use Rattle.std.specs.Bool.{OnTrue};
ghost use Rattle.shop_base.specs.Plan.{IsWellShaped};
ghost use Rattle.shop_base.specs.Graph.{IsNode, ArcsLead, AreDistinct};
ghost use Rattle.alt_graph.specs.Evidence.{IsNodeBefore, IsCycle};
ghost use Rattle.shop_base.specs.CycleLaw.{IsNeverDone, AreNeverMade};
ghost use Rattle.alt_graph.specs.Places.{IsNewAt};

use crate::arcs::arc_length;
use crate::node_order::is_before;
use shop_base::{Node, Shaped};

/// Whether the nodes are a cycle of the graph, written from its least node on: no node comes twice, and
/// arcs lead from each node to the next and from the last to the first. If they are, no controller
/// makes a move of them, nor brings all jobs to their end.
pub fn check_cycle(shaped: &Shaped, nodes: &[Node]) -> bool
    ensures exact { IsTrue result ↔ IsCycle shaped.now nodes.now }
    ensures stops { OnTrue result (AreNeverMade shaped.now nodes.now × IsNeverDone shaped.now) }
{
    let Some((first, rest)) = nodes.split_first() else {
        return false;
    };
    if !are_nodes(shaped, nodes) || !is_least(*first, rest) {
        return false;
    }
    arcs_lead(shaped, *first, rest, *first) && are_distinct(nodes)
}

fn are_nodes(shaped: &Shaped, nodes: &[Node]) -> bool
    ensures { IsTrue result ↔ All (IsNode shaped.now) nodes.now }
{
    nodes.iter().all(|node| is_node(shaped, *node))
}

/// Whether the node is of the shop.
pub(crate) fn is_node(shaped: &Shaped, node: Node) -> bool
    ensures { IsTrue result ↔ IsNode shaped.now node }
{
    match shaped.shop().route(node.job) {
        Some(route) => node.place as usize <= route.len(),
        None => false,
    }
}

fn is_least(first: Node, rest: &[Node]) -> bool
    ensures { IsTrue result ↔ All (IsNodeBefore first) rest.now }
{
    rest.iter().all(|node| is_before(first, *node))
}

/// Whether arcs lead from a node along the others to the last one.
fn arcs_lead(shaped: &Shaped, from: Node, along: &[Node], to: Node) -> bool
    ensures exact { IsTrue result ↔ ArcsLead shaped.now from along.now to }
    ensures sound { IsWellShaped shaped.now }
{
    let mut last = from;
    for node in along {
        if arc_length(shaped, last, *node).is_none() {
            return false;
        }
        last = *node;
    }
    arc_length(shaped, last, to).is_some()
}

/// Whether no node comes twice. A list that is too long is refused at its first repetition.
fn are_distinct(nodes: &[Node]) -> bool
    ensures { IsTrue result ↔ AreDistinct nodes.now }
{
    for place in 0..nodes.len() {
        if !is_new(nodes, place) {
            return false;
        }
    }
    true
}

fn is_new(nodes: &[Node], place: usize) -> bool
    requires { place < length nodes.now }
    ensures { IsTrue result ↔ IsNewAt nodes.now place }
{
    for earlier in 0..place {
        if nodes[earlier] == nodes[place] {
            return false;
        }
    }
    true
}
