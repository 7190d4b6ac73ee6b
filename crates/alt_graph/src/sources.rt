//! The arcs into a node and out of it.

ghost use Rattle.std.specs.Prelude.{ℕ, ◌<◌, MatchOption};
ghost use Rattle.shop_base.specs.Plan.{steps, Visits, Stands, IsWellShaped};
ghost use Rattle.shop_base.specs.Graph.{IsNode};
ghost use Rattle.alt_graph.specs.PlanGraph.{IsSoundGraph};
ghost use Rattle.alt_graph.specs.Sources.{IsJobArc, IsBlockingArc, IsArcIn, IsTarget, AreNeighbours, IsLast};

use crate::graph::Graph;
use crate::lookups::NOBODY;
use crate::numbers::number;
use shop_base::{Moment, Node, Shaped};

/// The node from which an arc comes, and the arc's length.
#[derive(Clone, Copy)]
pub struct ArcIn {
    pub node: Node,
    pub length: Moment,
}

/// The job arc into the node, if there is one.
pub fn job_source(shaped: &Shaped, node: Node) -> Option<ArcIn>
    ensures arc { IsArcIn (IsJobArc shaped.now) node result }
    ensures well_shaped { IsWellShaped shaped.now }
{
    // Called for its clause alone: the plan is well shaped.
    let _shop = shaped.shop();
    if node.place == 0 {
        return None;
    }
    let place = node.place - 1;
    let length = shaped.step_of(node.job, place)?.nominal;
    let node = Node {
        job: node.job,
        place,
    };
    Some(ArcIn { node, length })
}

/// The node to which the job arc out of the node leads, if there is one.
pub(crate) fn job_target(shaped: &Shaped, node: Node) -> Option<Node>
    requires { IsNode shaped.now node }
    ensures { IsTarget (IsJobArc shaped.now) node result }
{
    if node.place as usize == shaped.route_of(node.job).len() {
        return None;
    }
    Some(Node {
        job: node.job,
        place: node.place + 1,
    })
}

impl Graph<'_> {
    /// The blocking arc into the node, if there is one.
    pub fn blocking_source(&self, node: Node) -> Option<ArcIn>
        ensures arc { IsArcIn (IsBlockingArc self.now.plan) node result }
        ensures sound { IsSoundGraph self.now }
    {
        let shaped = self.shaped();
        let machine = shaped.machine_at(node.job, node.place)?;
        let ahead = self.ahead_of(node)?;
        let length = shaped.clean_of(machine);
        let node = Node {
            job: ahead.job,
            place: ahead.place + 1,
        };
        Some(ArcIn { node, length })
    }

    /// The node to which the blocking arc out of the node leads, if there is one: the entry of the machine that the
    /// node's job leaves by it, by the next job in the machine's order.
    pub fn blocking_target(&self, node: Node) -> Option<Node>
        ensures { IsTarget (IsBlockingArc self.now.plan) node result }
    {
        if node.place == 0 {
            return None;
        }
        let visit = Node {
            job: node.job,
            place: node.place - 1,
        };
        let _machine = self.shaped().machine_at(visit.job, visit.place)?;
        self.behind(visit)
    }

    /// The visit ahead of this one in its machine's order, if there is one.
    fn ahead_of(&self, visit: Node) -> Option<Node>
        requires { visit.place < steps self.now.plan visit.job }
        ensures { (m : ℕ) → Visits self.now.plan visit.job visit.place m
            → MatchOption result (Stands self.now.plan m 0 visit.job visit.place)
            (λ ahead. AreNeighbours self.now.plan m ahead visit) }
    {
        let place = self.lookups.places[number(&self.lookups.firsts, visit)] as usize;
        let ahead = self.lookups.visits[place - 1];
        if ahead.job == NOBODY {
            None
        } else {
            Some(ahead)
        }
    }

    /// The visit behind this one in its machine's order, if there is one.
    fn behind(&self, visit: Node) -> Option<Node>
        requires { visit.place < steps self.now.plan visit.job }
        ensures { (m : ℕ) → Visits self.now.plan visit.job visit.place m
            → MatchOption result (IsLast self.now.plan m visit) (λ next. AreNeighbours self.now.plan m visit next) }
    {
        let place = self.lookups.places[number(&self.lookups.firsts, visit)] as usize;
        let next = self.lookups.visits[place + 1];
        if next.job == NOBODY { None } else { Some(next) }
    }
}
