ghost use Rattle.std.specs.Prelude.{◌≡◌, IfOk, MatchOption, IsSome, IfSome, reverse};
ghost use Rattle.alt_graph.specs.Times.{IsTimed, IsPathBy, IsPathFromBy, rank_of, earliest_of, before_of, time_at};
ghost use Rattle.alt_graph.specs.Layout.{AreLinked, LeadsBack, by_job};

use crate::numbers::counted_number;
use shop_base::{Moment, Node};
use std::alloc::{AllocError, Global};
use std::marker::Model;

/// The rank of a node that has none yet.
pub(crate) const UNRANKED: u32 = u32::MAX;

/// What is known of a node: its rank, the greatest length of a path to it, and the node before it on such a
/// path, if it isn't the first.
#[derive(Clone, Copy, Debug, Drop)]
pub struct NodeTime {
    pub rank: u32,
    pub earliest: Moment,
    pub before: Option<Node>,
}

/// The ranks of the nodes of a planned shop without a cycle, and the greatest lengths of the paths to them.
/// Made by [`crate::solve`] alone.
#[derive(Debug, Drop)]
pub struct Times {
    firsts: Vec<u32>,
    rows: Vec<NodeTime>,
}

impl Model for Times {
    ghost use Rattle.alt_graph.specs.Times.{NodeTimes};
    ghost use Rattle.alt_graph.specs.Layout.{AreLinked, by_job};

    ghost Value = { NodeTimes };

    ghost view = { λ t. by_job t.firsts.items t.rows.items };

    ghost invariant = { λ t. AreLinked t.firsts.items t.rows.items };
}

impl Times {
    pub(crate) fn of(firsts: Vec<u32>, rows: Vec<NodeTime>) -> Times
        requires { AreLinked firsts.items rows.items }
        ensures { result ≡ by_job firsts.items rows.items }
    {
        Times { firsts, rows }
    }

    /// The node's rank, which rises strictly along every arc; `None` for a node that isn't of the shop.
    pub fn rank(&self, node: Node) -> Option<u32>
        ensures { MatchOption result (IsTimed self.now node → ⊥)
            (λ rank. IsTimed self.now node × (rank ≡ rank_of self.now node)) }
    {
        match self.time(node) {
            Some(time) => Some(time.rank),
            None => None,
        }
    }

    /// The greatest length of a path to the node, in time units: the moment at which it is reached at the
    /// earliest. None for a node that isn't of the shop.
    pub fn earliest(&self, node: Node) -> Option<Moment>
        ensures { MatchOption result (IsTimed self.now node → ⊥)
            (λ moment. IsTimed self.now node × (moment ≡ earliest_of self.now node)) }
    {
        match self.time(node) {
            Some(time) => Some(time.earliest),
            None => None,
        }
    }

    /// A path of the greatest length to the node, from a bounded node on (of a whole plan a job's first place); `None`
    /// for a node that isn't of the shop, and then never an error.
    pub fn chain(&self, alloc: Global, node: Node) -> Result<Option<Vec<Node>>, AllocError>
        ensures outside { (IsTimed self.now node → ⊥) → result ≡ Ok None }
        ensures inside { IsTimed self.now node → IfOk result IsSome }
        ensures path { IfOk result (λ found. IfSome found (λ nodes. IsPathBy self.now node nodes.items)) }
        ensures path_from { IfOk result (λ found. IfSome found (λ nodes. IsPathFromBy self.now node nodes.items)) }
    {
        match self.time(node) {
            Some(time) => {
                let mut nodes = self.walk_back(alloc, node, time.rank)?;
                nodes.reverse();
                Ok(Some(nodes))
            }
            None => Ok(None),
        }
    }

    /// What is known of the node, if it is known.
    fn time(&self, node: Node) -> Option<NodeTime>
        ensures known { MatchOption result (IsTimed self.now node → ⊥)
            (λ time. IsTimed self.now node × (time ≡ time_at self.now node)) }
        ensures back { IfSome result (λ time. LeadsBack self.now node time.before) }
    {
        let at = counted_number(&self.firsts, node)?;
        Some(self.rows[at])
    }

    /// The node before a known one on a longest path to it, if there is one.
    fn before(&self, node: Node) -> Option<Node>
        requires { IsTimed self.now node }
        ensures before { result ≡ before_of self.now node }
        ensures back { LeadsBack self.now node result }
    {
        match self.time(node) {
            Some(time) => time.before,
            None => unreachable!(),
        }
    }

    /// The nodes of a longest path to a known node, backwards; it has no more than its rank and one.
    fn walk_back(&self, alloc: Global, node: Node, rank: u32) -> Result<Vec<Node>, AllocError>
        requires { IsTimed self.now node }
        ensures { IfOk result (λ nodes. IsPathFromBy self.now node (reverse nodes.items)) }
    {
        let mut nodes = Vec::with_capacity(alloc, rank as usize + 1)?;
        let mut last = node;
        'back: while let Some(before) = self.before(last) {
            nodes.push(last)?;
            last = before;
        }
        nodes.push(last)?;
        Ok(nodes)
    }
}
