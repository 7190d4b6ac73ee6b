//! The nodes of a plan's graph to which arcs lead from one of them.

ghost use Rattle.std.specs.Prelude.{◌≡◌, ℕ, ◌+◌, ◌<◌, ◌≤◌, ◌↔◌, OnOk, IfOk, IsTrue, length};
ghost use Rattle.std.specs.Option.{ForSome};
ghost use Rattle.shop_base.specs.declared.limits.TheConstants.{MAX_STEPS};
ghost use Rattle.shop_base.specs.Plan.{jobs, machines, steps, order, Stands, IsWellShaped};
ghost use Rattle.shop_base.specs.Graph.{node, IsNode};
ghost use Rattle.alt_graph.specs.PlanGraph.{IsSoundGraph};
ghost use Rattle.alt_graph.specs.Sources.{IsJobArc, IsTarget};
ghost use Rattle.plan_revise.specs.Reaching.{Reaches, IsMarked, AreFound, AreFollowed, HasFoundMore, AreReached, IsFirstReached};

use alt_graph::Graph;
use shop_base::{MachineNo, Node, Shaped};
use std::alloc::{AllocError, Global};

/// A node, those found to which arcs lead from it, each once, and by number which nodes these are.
#[derive(Drop)]
pub(crate) struct Found {
    origin: Node,
    nodes: Vec<Node>,
    marks: Vec<bool>,
}

impl Found {
    /// The node and all nodes to which arcs lead from it.
    pub(crate) fn from(alloc: Global, graph: &Graph<'_>, origin: Node) -> Result<Found, AllocError>
        requires { IsNode graph.now.plan origin }
        ensures { IfOk result (AreReached graph.now origin) }
    {
        let mut found = Found {
            origin,
            nodes: Vec::new(alloc),
            marks: vec![in alloc; false; graph.node_count()]?,
        };
        found.mark(graph, Some(origin))?;
        let mut followed = 0;
        'found: while followed < found.nodes.len() {
            found.follow(graph, followed)?;
            followed += 1;
        }
        Ok(found)
    }

    /// Follows the arcs out of the node at this place.
    fn follow(&mut self, graph: &Graph<'_>, place: usize) -> Result<(), AllocError>
        requires found { AreFound graph.now self.old }
        requires followed { AreFollowed graph.now place self.old }
        requires within { place < length self.old.nodes.items }
        ensures found { OnOk result (AreFound graph.now self.new) }
        ensures followed { OnOk result (AreFollowed graph.now (place + 1) self.new) }
        ensures more { OnOk result (HasFoundMore graph.now self.old self.new) }
    {
        let node = self.nodes[place];
        self.mark(graph, job_target(graph.shaped(), node))?;
        self.mark(graph, graph.blocking_target(node))
    }

    /// Marks the node, if there is one.
    fn mark(&mut self, graph: &Graph<'_>, node: Option<Node>) -> Result<(), AllocError>
        requires found { AreFound graph.now self.old }
        requires node { ForSome node (IsNode graph.now.plan) }
        requires reached { ForSome node (Reaches graph.now.plan self.old.origin) }
        ensures found { OnOk result (AreFound graph.now self.new) }
        ensures marked { OnOk result (ForSome node (IsMarked graph.now self.new.marks.items)) }
        ensures more { OnOk result (HasFoundMore graph.now self.old self.new) }
    {
        let Some(node) = node else {
            return Ok(());
        };
        let at = graph.number(node);
        if self.marks[at] {
            return Ok(());
        }
        self.marks[at] = true;
        self.nodes.push(node)?;
        Ok(())
    }

    /// The first place of the machine's order, from this one on, whose job's leaving of the machine is found, or its end.
    pub(crate) fn first_left(&self, graph: &Graph<'_>, machine: MachineNo, first: usize) -> usize
        requires reached { AreReached graph.now self.now.origin self.now }
        requires machine { machine < machines graph.now.plan }
        requires within { first ≤ length (order graph.now.plan machine) }
        ensures { IsFirstReached graph.now.plan self.now.origin machine first result }
    {
        let end = graph.shaped().order_of(machine).len();
        if first == end {
            return end;
        }
        let mut visit = visit_at(graph, machine, first);
        for place in first..end {
            if self.has_left(graph, visit) {
                return place;
            }
            match graph.blocking_target(leaving_of(visit)) {
                Some(next) => visit = next,
                None => return end,
            }
        }
        end
    }

    /// Whether the leaving of the visit's machine is found.
    fn has_left(&self, graph: &Graph<'_>, visit: Node) -> bool
        requires reached { AreReached graph.now self.now.origin self.now }
        requires visit { visit.place < steps graph.now.plan visit.job }
        ensures { IsTrue result ↔ Reaches graph.now.plan self.now.origin (node visit.job (visit.place + 1)) }
    {
        self.marks[graph.number(leaving_of(visit))]
    }
}

/// The node to which the job arc out of the node leads, if there is one.
fn job_target(shaped: &Shaped, node: Node) -> Option<Node>
    requires { IsNode shaped.now node }
    ensures { IsTarget (IsJobArc shaped.now) node result }
{
    if node.place == shaped.step_count(node.job) {
        return None;
    }
    Some(leaving_of(node))
}

/// The job's next node, by which it leaves the machine of this visit.
fn leaving_of(visit: Node) -> Node
    requires { visit.place < MAX_STEPS }
    ensures { result ≡ node visit.job (visit.place + 1) }
{
    Node {
        job: visit.job,
        place: visit.place + 1,
    }
}

/// The visit that stands at this place of the machine's order.
fn visit_at(graph: &Graph<'_>, machine: MachineNo, place: usize) -> Node
    requires machine { machine < machines graph.now.plan }
    requires within { place < length (order graph.now.plan machine) }
    ensures { Stands graph.now.plan machine place result.job result.place }
{
    let mut visit = first_visit(graph.shaped(), machine);
    for _ in 0..place {
        match graph.blocking_target(leaving_of(visit)) {
            Some(next) => visit = next,
            None => unreachable!(),
        }
    }
    visit
}

/// The visit that stands first in the machine's order.
fn first_visit(shaped: &Shaped, machine: MachineNo) -> Node
    requires machine { machine < machines shaped.now }
    requires some { 0 < length (order shaped.now machine) }
    ensures { Stands shaped.now machine 0 result.job result.place }
{
    let job = shaped.order_of(machine)[0];
    let route = shaped.route_of(job);
    for step in 0..route.len() {
        if route[step].machine == machine {
            let place = step as u32;
            return Node { job, place };
        }
    }
    unreachable!()
}
