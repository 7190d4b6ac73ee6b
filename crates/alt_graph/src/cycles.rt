//! A cycle, where nodes are left without a rank.

ghost use Rattle.std.specs.Prelude.{◌+◌, ◌<◌, ◌≤◌, IfOk};
ghost use Rattle.std.specs.Option.{ForSome};
ghost use Rattle.shop_base.specs.Graph.{IsNode, HasArc};
ghost use Rattle.alt_graph.specs.Evidence.{IsCycle};
ghost use Rattle.alt_graph.specs.Ranking.{IsUnranked, AreSettled};
ghost use Rattle.alt_graph.specs.Trails.{IsTrail, IsPlaceAfter, IsLeastPlace, AreFrom, IsFreeSource, trail_length};

use crate::bounds::Bounds;
use crate::node_order::is_before;
use crate::ranking::Ranking;
use crate::sources::{ArcIn, job_source};
use crate::times::UNRANKED;
use shop_base::Node;
use std::alloc::{AllocError, Global};

/// Nodes followed backwards along arcs, until one came again: the one at place `start`.
#[derive(Drop)]
pub(crate) struct Trail {
    pub nodes: Vec<Node>,
    pub start: usize,
}

impl<B: Bounds> Ranking<'_, B> {
    /// A cycle, its least node first, from a node without a rank.
    pub(crate) fn cycle_from(&self, alloc: Global, node: Node) -> Result<Vec<Node>, AllocError>
        requires node { IsUnranked self.now node }
        requires settled { AreSettled self.now UNRANKED }
        ensures { IfOk result (λ nodes. IsCycle self.now.plan nodes.items) }
    {
        let trail = self.follow(alloc, node)?;
        let least = trail.least_place();
        let nodes = trail.turned(alloc, least);
        drop(trail);
        Ok(nodes?)
    }

    /// Follows arcs backwards among the nodes without a rank, until a node comes again.
    fn follow(&self, alloc: Global, node: Node) -> Result<Trail, AllocError>
        requires node { IsUnranked self.now node }
        requires settled { AreSettled self.now UNRANKED }
        ensures { IfOk result (IsTrail self.now.plan) }
    {
        // There is a row for each node, and none is followed twice.
        let mut seen = vec![in alloc; UNRANKED; self.rows.len()]?;
        let mut nodes = Vec::with_capacity(alloc, self.rows.len())?;
        let mut next = node;
        let mut at = self.graph.number(next);
        'back: while seen[at] == UNRANKED {
            seen[at] = nodes.len() as u32;
            nodes.push_reserved(next);
            next = self.free_source(next);
            at = self.graph.number(next);
        }
        let start = seen[at] as usize;
        Ok(Trail { nodes, start })
    }

    /// A node without a rank from which an arc leads to the node.
    fn free_source(&self, node: Node) -> Node
        requires node { IsUnranked self.now node }
        requires settled { AreSettled self.now UNRANKED }
        ensures node { IsUnranked self.now result }
        ensures arc { HasArc self.now.plan result node }
    {
        let source = job_source(self.shaped(), node);
        if let Some(free) = self.free_of(source) {
            return free;
        }
        let source = self.graph.blocking_source(node);
        match self.free_of(source) {
            Some(free) => free,
            None => unreachable!(),
        }
    }

    /// The node from which the arc comes, if there is one and it has no rank.
    fn free_of(&self, source: Option<ArcIn>) -> Option<Node>
        requires { ForSome source (λ s. IsNode self.now.plan s.node) }
        ensures { IsFreeSource self.now source result }
    {
        match source {
            Some(source) if !self.is_ranked(source.node) => Some(source.node),
            _ => None,
        }
    }
}

impl Trail {
    /// The nodes of the cycle at the end of the followed ones, along its arcs and from a place on.
    fn turned(&self, alloc: Global, place: usize) -> Result<Vec<Node>, AllocError>
        requires after { self.now.start ≤ place }
        requires within { place < trail_length self.now }
        ensures { IfOk result (λ nodes. AreFrom self.now place nodes.items) }
    {
        let count = self.nodes.len() - self.start;
        let mut nodes = Vec::with_capacity(alloc, count)?;
        for arcs in 0..count {
            nodes.push_reserved(self.nodes[self.place_after(place, arcs)]);
        }
        Ok(nodes)
    }

    /// The place that many arcs after a place of the cycle: an arc leads from each place to the one before it.
    fn place_after(&self, place: usize, arcs: usize) -> usize
        requires after { self.now.start ≤ place }
        requires within { place < trail_length self.now }
        requires arcs { self.now.start + arcs < trail_length self.now }
        ensures place { IsPlaceAfter self.now place arcs result }
        ensures within { result < trail_length self.now }
    {
        if arcs <= place - self.start {
            place - arcs
        } else {
            place + (self.nodes.len() - self.start) - arcs
        }
    }

    /// The place of the least node of the cycle.
    fn least_place(&self) -> usize
        requires { self.now.start < trail_length self.now }
        ensures { IsLeastPlace self.now result }
    {
        let mut least = self.start;
        for place in self.start..self.nodes.len() {
            if is_before(self.nodes[place], self.nodes[least]) {
                least = place;
            }
        }
        least
    }
}
