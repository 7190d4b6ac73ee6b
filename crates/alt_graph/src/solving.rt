ghost use Rattle.std.specs.Prelude.{◌≡◌, ◌↔◌, IfOk};
ghost use Rattle.shop_base.specs.Plan.{IsWellShaped};
ghost use Rattle.alt_graph.specs.Bounds.{AreRooted};
ghost use Rattle.alt_graph.specs.Solved.{OnOrdered, OnOrderedFrom, OnCyclic, IsCyclic, HasCycle};

use crate::bounds::{Bounds, Whole};
use crate::graph::Graph;
use crate::ranking::Ranking;
use crate::times::Times;
use shop_base::{Node, Shaped};
use std::alloc::{AllocError, Global};

/// What the graph of a planned shop is like.
#[derive(Debug, Drop)]
pub enum Solved {
    /// It has no cycle.
    Ordered(Times),
    /// It has this simple cycle: an arc leads from each node to the next, and from the last to the first,
    /// which is the least by job and then by place.
    Cyclic(Vec<Node>),
}

/// Ranks the nodes of the graph and finds the greatest lengths of the paths to them, or finds a cycle, in
/// time and memory linear in the nodes, the arcs and the machines. Fails only when out of memory.
pub fn solve(alloc: Global, shaped: &Shaped) -> Result<Solved, AllocError>
    ensures ordered { IfOk result (OnOrdered shaped.now) }
    ensures cyclic { IfOk result (OnCyclic shaped.now) }
    ensures exact { IfOk result (λ solved. IsCyclic solved ↔ HasCycle shaped.now) }
    ensures well_shaped { IsWellShaped shaped.now }
{
    // Called for its clause alone: the plan is well shaped.
    let _shop = shaped.shop();
    solve_from(alloc, shaped, Whole { shaped })
}

/// Ranks the nodes as [`solve`] does, and finds the greatest lengths of the paths from any bounds, over the arcs from
/// nodes ahead alone; or finds a cycle, whatever is ahead.
pub fn solve_from<B: Bounds>(
    alloc: Global,
    shaped: &Shaped,
    bounds: B,
) -> Result<Solved, AllocError>
    requires planned { B.planned bounds ≡ shaped.now }
    requires rooted { AreRooted shaped.now (B.bounds bounds) }
    ensures ordered { IfOk result (OnOrderedFrom shaped.now (B.bounds bounds)) }
    ensures cyclic { IfOk result (OnCyclic shaped.now) }
    ensures exact { IfOk result (λ solved. IsCyclic solved ↔ HasCycle shaped.now) }
    ensures well_shaped { IsWellShaped shaped.now }
{
    let graph = Graph::new(alloc, shaped)?;
    let ranking = Ranking::of(alloc, graph, bounds)?;
    match ranking.first_unranked() {
        Some(node) => {
            let nodes = ranking.cycle_from(alloc, node);
            drop(ranking);
            let nodes = nodes?;
            Ok(Solved::Cyclic(nodes))
        }
        None => Ok(Solved::Ordered(ranking.into_times())),
    }
}
