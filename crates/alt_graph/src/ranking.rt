//! Ranks and greatest lengths, by a worklist of the nodes whose arcs from before are all ranked.

ghost use Rattle.std.specs.Prelude.{◌≡◌, ◌+◌, ◌<◌, ◌≤◌, ◌↔◌, [], IsTrue, IfOk, MatchOption};
ghost use Rattle.std.specs.Prelude.{MatchBool, None, ◌⊎◌, length, replicate, vec_capacity};
ghost use Rattle.std.specs.Option.{ForSome};
ghost use Rattle.shop_base.specs.declared.limits.TheConstants.{MAX_NOMINAL};
ghost use Rattle.shop_base.specs.Plan.{jobs, IsWellShaped};
ghost use Rattle.shop_base.specs.Graph.{Arc, IsNode};
ghost use Rattle.alt_graph.specs.Bounds.{AreRooted, IsAheadOf, bound_of};
ghost use Rattle.alt_graph.specs.Sources.{IsJobArc};
ghost use Rattle.alt_graph.specs.Times.{AreOrderedFrom, rank_of, time_at, no_time};
ghost use Rattle.alt_graph.specs.Ranking.{IsRanked, IsUnranked, AreRanked, AreAllRanked, IsJobRanked, IsLongest};
ghost use Rattle.alt_graph.specs.Ranking.{IsFromBound, IsOver, IsWith, WaitsFor, Grows, IsSettled, AreSettled};

use crate::bounds::Bounds;
use crate::graph::Graph;
use crate::sources::{ArcIn, job_source, job_target};
use crate::times::{NodeTime, Times, UNRANKED};
use shop_base::{JobNo, Moment, Node, Shaped};
use std::alloc::{AllocError, Global};
use std::marker::Model;

/// A graph with bounds, the nodes ranked so far, in the order of their ranks, and what is known of each node.
#[derive(Drop)]
pub(crate) struct Ranking<'a, B: Bounds> {
    pub graph: Graph<'a>,
    pub bounds: B,
    pub done: Vec<Node>,
    pub rows: Vec<NodeTime>,
}

impl<'a, B: Bounds> Model for Ranking<'a, B> {
    ghost use Rattle.std.specs.Prelude.{vec_capacity};
    ghost use Rattle.alt_graph.specs.Ranking.{PlanRanking, ranking_of, IsRanking};

    ghost Value = { PlanRanking };

    ghost view = { λ r. ranking_of r.graph (B.bounds r.bounds) r.done.items r.rows.items };

    ghost invariant = { λ r.
        IsRanking r.graph (B.planned r.bounds) (B.bounds r.bounds) r.done.items r.rows.items (vec_capacity r.done) };
}

/// The greatest length of a path to a node, and the node before it on such a path.
#[derive(Clone, Copy)]
pub(crate) struct Longest {
    pub length: Moment,
    pub before: Option<Node>,
}

fn no_times(alloc: Global, count: usize) -> Result<Vec<NodeTime>, AllocError>
    ensures { IfOk result (λ rows. rows.items ≡ replicate count no_time) }
{
    let time = NodeTime {
        rank: UNRANKED,
        earliest: 0,
        before: None,
    };
    vec![in alloc; time; count]
}

/// Room for the nodes to be ranked, and what is known of each before any is.
fn room_for(alloc: Global, count: usize) -> Result<(Vec<Node>, Vec<NodeTime>), AllocError>
    ensures none { IfOk result (λ room. room.0.items ≡ []) }
    ensures enough { IfOk result (λ room. count ≤ vec_capacity room.0) }
    ensures times { IfOk result (λ room. room.1.items ≡ replicate count no_time) }
{
    let done = Vec::with_capacity(alloc, count)?;
    let rows = no_times(alloc, count)?;
    Ok((done, rows))
}

/// The longer of two.
fn longer(one: Longest, other: Longest) -> Longest
    ensures { ((result ≡ one) × (other.length ≤ one.length)) ⊎ ((result ≡ other) × (one.length ≤ other.length)) }
{
    if one.length < other.length {
        other
    } else {
        one
    }
}

impl<'a, B: Bounds> Ranking<'a, B> {
    /// Ranks all nodes of a graph that can be.
    pub(crate) fn of(
        alloc: Global,
        graph: Graph<'a>,
        bounds: B,
    ) -> Result<Ranking<'a, B>, AllocError>
        requires planned { B.planned bounds ≡ graph.plan }
        requires rooted { AreRooted graph.plan (B.bounds bounds) }
        ensures plan { IfOk result (λ ranking. ranking.plan ≡ graph.entry.plan) }
        ensures bounds { IfOk result (λ ranking. ranking.bounds ≡ B.bounds bounds) }
        ensures settled { IfOk result (λ ranking. AreSettled ranking UNRANKED) }
    {
        let mut ranking = Ranking::none(alloc, graph, bounds)?;
        ranking.rank_first();
        let mut next = 0;
        while next < ranking.done.len() {
            ranking.rank_after(next);
            next += 1;
        }
        Ok(ranking)
    }

    /// No node is ranked.
    fn none(alloc: Global, graph: Graph<'a>, bounds: B) -> Result<Ranking<'a, B>, AllocError>
        requires planned { B.planned bounds ≡ graph.plan }
        requires rooted { AreRooted graph.plan (B.bounds bounds) }
        ensures plan { IfOk result (λ ranking. ranking.plan ≡ graph.entry.plan) }
        ensures bounds { IfOk result (λ ranking. ranking.bounds ≡ B.bounds bounds) }
        ensures none { IfOk result (λ ranking. ranking.done ≡ []) }
    {
        let nodes = graph.node_count();
        let (done, rows) = room_for(alloc, nodes)?;
        Ok(Ranking {
            graph,
            bounds,
            done,
            rows,
        })
    }

    /// The planned shop.
    pub(crate) fn shaped(&self) -> &'a Shaped
        ensures plan { result.now ≡ self.now.plan }
        ensures sound { IsWellShaped self.now.plan }
    {
        self.graph.shaped()
    }

    /// Ranks the nodes that no arc leads to.
    fn rank_first(&mut self)
        ensures grows { Grows self.old self.new }
        ensures settled { AreSettled self.new 0 }
    {
        for job in 0..self.shaped().job_count() {
            self.try_rank(Node { job, place: 0 });
        }
    }

    /// Ranks those nodes after the next ranked one that can be ranked now.
    fn rank_after(&mut self, next: usize)
        requires next { next < length self.old.done }
        requires settled { AreSettled self.old next }
        ensures grows { Grows self.old self.new }
        ensures settled { AreSettled self.new (next + 1) }
    {
        let node = self.done[next];
        let target = job_target(self.shaped(), node);
        self.try_target(target);
        let target = self.graph.blocking_target(node);
        self.try_target(target);
    }

    /// Ranks the node, if there is one, and if it can be ranked now.
    fn try_target(&mut self, target: Option<Node>)
        requires { ForSome target (IsNode self.old.plan) }
        ensures grows { Grows self.old self.new }
        ensures settled { ForSome target (IsSettled self.new UNRANKED) }
    {
        if let Some(node) = target {
            self.try_rank(node);
        }
    }

    /// Ranks the node if it isn't ranked and all arcs to it come from ranked nodes.
    fn try_rank(&mut self, node: Node)
        requires { IsNode self.old.plan node }
        ensures grows { Grows self.old self.new }
        ensures settled { IsSettled self.new UNRANKED node }
    {
        if self.is_ranked(node) {
            return;
        }
        if let Some(longest) = self.longest_to(node) {
            self.rank_next(node, longest);
        }
    }

    /// Gives the node the next rank.
    fn rank_next(&mut self, node: Node, longest: Longest)
        requires unranked { IsUnranked self.old node }
        requires longest { IsLongest self.old (Arc self.old.plan) node longest }
        ensures grows { Grows self.old self.new }
        ensures ranked { IsRanked self.new.times node }
    {
        let at = self.graph.number(node);
        self.rows[at] = NodeTime {
            rank: self.done.len() as u32,
            earliest: longest.length,
            before: longest.before,
        };
        self.done.push_reserved(node);
    }

    /// Whether the node has a rank.
    pub(crate) fn is_ranked(&self, node: Node) -> bool
        requires { IsNode self.now.plan node }
        ensures { MatchBool result (IsRanked self.now.times node) (IsUnranked self.now node) }
    {
        self.row_of(node).rank != UNRANKED
    }

    /// What is known of the node.
    fn row_of(&self, node: Node) -> NodeTime
        requires { IsNode self.now.plan node }
        ensures row { result ≡ time_at self.now.times node }
        ensures sound { AreRanked self.now }
    {
        self.rows[self.graph.number(node)]
    }

    /// The longest path to the node; `None` if an arc to it comes from a node without a rank.
    fn longest_to(&self, node: Node) -> Option<Longest>
        requires { IsNode self.now.plan node }
        ensures { MatchOption result (WaitsFor self.now UNRANKED node) (IsLongest self.now (Arc self.now.plan) node) }
    {
        let along = self.longest_in_job(node)?;
        match self.graph.blocking_source(node) {
            Some(source) => self.longest_with(along, source),
            None => Some(along),
        }
    }

    /// The longest path to the node over the place before it in its job, or from its bound; `None` if the place
    /// before has no rank.
    fn longest_in_job(&self, node: Node) -> Option<Longest>
        requires { IsNode self.now.plan node }
        ensures { MatchOption result (WaitsFor self.now UNRANKED node)
            (IsLongest self.now (IsJobArc self.now.plan) node) }
    {
        let shaped = self.shaped();
        match job_source(shaped, node) {
            Some(source) => match self.from_bound(node) {
                Some(base) => self.longest_with(base, source),
                None => self.longest_over(source),
            },
            None => self.from_bound(node),
        }
    }

    /// The path that begins with the node, at its bound, if it has one.
    fn from_bound(&self, node: Node) -> Option<Longest>
        requires { IsNode self.now.plan node }
        ensures exact { MatchOption result (bound_of self.now.bounds node ≡ None) (IsFromBound self.now node) }
        ensures rooted { AreRooted self.now.plan self.now.bounds }
    {
        let length = self.bounds.bound(node)?;
        Some(Longest {
            length,
            before: None,
        })
    }

    /// Whether the node is ahead.
    fn is_ahead(&self, node: Node) -> bool
        requires { IsNode self.now.plan node }
        ensures { IsTrue result ↔ IsAheadOf self.now.bounds node }
    {
        self.bounds.is_ahead(node)
    }

    /// The longer of a path and one over an arc, if that comes from a node ahead; `None` if it comes from a node
    /// without a rank.
    fn longest_with(&self, base: Longest, source: ArcIn) -> Option<Longest>
        requires node { IsNode self.now.plan source.node }
        requires short { source.length ≤ MAX_NOMINAL }
        ensures { MatchOption result (rank_of self.now.times source.node ≡ UNRANKED) (IsWith self.now base source) }
    {
        let over = self.longest_over(source)?;
        if self.is_ahead(source.node) {
            Some(longer(base, over))
        } else {
            Some(base)
        }
    }

    /// The longest path over an arc; `None` if it comes from a node without a rank.
    fn longest_over(&self, source: ArcIn) -> Option<Longest>
        requires node { IsNode self.now.plan source.node }
        requires short { source.length ≤ MAX_NOMINAL }
        ensures { MatchOption result (rank_of self.now.times source.node ≡ UNRANKED) (IsOver self.now source) }
    {
        let row = self.row_of(source.node);
        if row.rank == UNRANKED {
            return None;
        }
        Some(Longest {
            length: row.earliest + source.length,
            before: Some(source.node),
        })
    }

    /// A node without a rank, if there is one.
    pub(crate) fn first_unranked(&self) -> Option<Node>
        ensures { MatchOption result (AreAllRanked self.now) (IsUnranked self.now) }
    {
        if self.done.len() == self.rows.len() {
            return None;
        }
        for job in 0..self.shaped().job_count() {
            if let Some(node) = self.first_unranked_of(job) {
                return Some(node);
            }
        }
        None
    }

    /// A node of the job without a rank, if there is one.
    fn first_unranked_of(&self, job: JobNo) -> Option<Node>
        requires { job < jobs self.now.plan }
        ensures { MatchOption result (IsJobRanked self.now job) (IsUnranked self.now) }
    {
        for place in 0..self.shaped().step_count(job) + 1 {
            let node = Node { job, place };
            if !self.is_ranked(node) {
                return Some(node);
            }
        }
        None
    }

    /// What is known of the nodes, where all are ranked.
    pub(crate) fn into_times(self) -> Times
        requires { AreAllRanked self }
        ensures { AreOrderedFrom self.entry.plan self.entry.bounds result }
    {
        let Ranking { graph, rows, .. } = self;
        Times::of(graph.into_firsts(), rows)
    }
}
