//! The latest moments of the nodes: one pass backwards over their ranks, from the budgets.

ghost use Rattle.std.specs.Prelude.{◌≡◌, ℕ, ◌<◌, ◌≤◌, ◌⊎◌, ◌↔◌, IfOk, MatchOption, length};
ghost use Rattle.shop_base.specs.Plan.{jobs, steps};
ghost use Rattle.shop_base.specs.Cell.{start};
ghost use Rattle.shop_base.specs.Graph.{Arc, IsNode, MeetBudgets, node};
ghost use Rattle.shop_base.specs.Deadlines.{AreDeadlines};
ghost use Rattle.alt_graph.specs.Evidence.{node_count};
ghost use Rattle.alt_graph.specs.Sources.{IsJobArc, IsBlockingArc};
ghost use Rattle.alt_graph.specs.Times.{AreRanks, AreOrdered, earliest_of};
ghost use Rattle.alt_graph.specs.Latest.{HasMoment, AreLatest, IsLatest, moment_of};
ghost use Rattle.alt_graph.specs.ByRank.{IsAtItsRank, AreAtTheirRanks};
ghost use Rattle.alt_graph.specs.LatestRows.{HasRows, moment_in};

use crate::graph::Graph;
use crate::numbers::counted_number;
use crate::sources::job_target;
use crate::times::Times;
use shop_base::{JobNo, Moment, Node, Shaped};
use std::alloc::{AllocError, Global};
use std::marker::Model;

/// The latest moments of the nodes of a planned shop. Of an accepted plan they are the nodes' deadlines. Made by
/// [`latest_moments`] alone.
#[derive(Debug, Drop)]
pub struct Deadlines {
    firsts: Vec<u32>,
    moments: Vec<Moment>,
}

impl Model for Deadlines {
    ghost use Rattle.alt_graph.specs.Latest.{NodeMoments, AreInside};

    ghost Value = { NodeMoments };

    ghost view = { λ d. record { firsts = d.firsts.items; moments = d.moments.items } };

    ghost invariant = { λ d. AreInside (record { firsts = d.firsts.items; moments = d.moments.items }) };
}

impl Deadlines {
    /// The latest moment of the node, in time units from moment 0. Of an accepted plan: if its move is made later, and
    /// nothing after it ends early, some job isn't out by its budget. None for a node that isn't of the shop.
    pub fn deadline(&self, node: Node) -> Option<Moment>
        ensures { MatchOption result (HasMoment self.now node → ⊥)
            (λ moment. HasMoment self.now node × (moment ≡ moment_of self.now node)) }
    {
        let at = counted_number(&self.firsts, node)?;
        Some(self.moments[at])
    }
}

/// The latest moments of the nodes of the plan that these times rank: a leaving's is its budget, and each node's is no
/// later than each arc out of it allows (0 where that is longer). They depend on the plan alone, so they are the same
/// whatever bounds the times were found from. Linear in the nodes, the arcs and the machines; fails only when out of
/// memory.
pub fn latest_moments(
    alloc: Global,
    shaped: &Shaped,
    times: &Times,
) -> Result<Deadlines, AllocError>
    requires { AreRanks shaped.now times.now }
    ensures nodes { IfOk result (λ found. (v : Node) → IsNode shaped.now v ↔ HasMoment found v) }
    ensures latest { IfOk result (λ found. AreLatest shaped.now (moment_of found)) }
    ensures deadlines { AreOrdered shaped.now times.now → MeetBudgets shaped.now (earliest_of times.now)
        → IfOk result (λ found. AreDeadlines shaped.now (start shaped.now) (moment_of found)) }
{
    let graph = Graph::new(alloc, shaped)?;
    let order = by_rank(alloc, shaped, times, graph.node_count())?;
    let mut moments = vec![in alloc; 0; order.len()]?;
    let mut left = order.len();
    'back: while left > 0 {
        left -= 1;
        if let Some(node) = order[left] {
            let at = graph.number(node);
            moments[at] = latest_of(&graph, &moments, node);
        }
    }
    let firsts = graph.into_firsts();
    Ok(Deadlines { firsts, moments })
}

/// The nodes by their ranks. Fails only when out of memory.
pub fn by_rank(
    alloc: Global,
    shaped: &Shaped,
    times: &Times,
    count: usize,
) -> Result<Vec<Option<Node>>, AllocError>
    requires ranks { AreRanks shaped.now times.now }
    requires count { count ≡ node_count shaped.now }
    ensures size { IfOk result (λ nodes. length nodes.items ≡ count) }
    ensures ranked { IfOk result (λ nodes. AreAtTheirRanks shaped.now times.now nodes.items) }
    ensures all { IfOk result (λ nodes. (v : Node) → IsNode shaped.now v → IsAtItsRank times.now nodes.items v) }
{
    let mut nodes = vec![in alloc; None; count]?;
    for job in 0..shaped.job_count() {
        note_ranks(shaped, times, job, &mut nodes);
    }
    Ok(nodes)
}

/// Writes the nodes of the job at the places of their ranks.
fn note_ranks(shaped: &Shaped, times: &Times, job: JobNo, nodes: &mut [Option<Node>])
    requires ranks { AreRanks shaped.now times.now }
    requires job { job < jobs shaped.now }
    requires size { length nodes.old ≡ node_count shaped.now }
    requires ranked { AreAtTheirRanks shaped.now times.now nodes.old }
    ensures ranked { AreAtTheirRanks shaped.now times.now nodes.new }
    ensures noted { (k : ℕ) → k ≤ steps shaped.now job → IsAtItsRank times.now nodes.new (node job k) }
    ensures still { (v : Node) → IsNode shaped.now v → IsAtItsRank times.now nodes.old v
        → IsAtItsRank times.now nodes.new v }
{
    for place in 0..shaped.step_count(job) + 1 {
        let node = Node { job, place };
        match times.rank(node) {
            Some(rank) => nodes[rank as usize] = Some(node),
            None => unreachable!(),
        }
    }
}

/// The latest moment of the node, by the latest moments of the nodes to which arcs lead from it.
fn latest_of(graph: &Graph<'_>, moments: &[Moment], node: Node) -> Moment
    requires node { IsNode graph.now.plan node }
    requires rows { HasRows graph.now.plan graph.now.firsts moments.now }
    ensures { let p = graph.now.plan in IsLatest p (moment_in graph.now.firsts moments.now) (Arc p) node result }
{
    let along = latest_in_job(graph, moments, node);
    match graph.blocking_target(node) {
        Some(next) => {
            let entered = moments[graph.number(next)];
            earlier(
                along,
                entered.saturating_sub(clean_behind(graph.shaped(), node)),
            )
        }
        None => along,
    }
}

/// The latest moment of the node by the next place of its job, or its job's budget if it is the leaving.
fn latest_in_job(graph: &Graph<'_>, moments: &[Moment], node: Node) -> Moment
    requires node { IsNode graph.now.plan node }
    requires rows { HasRows graph.now.plan graph.now.firsts moments.now }
    ensures { let p = graph.now.plan in IsLatest p (moment_in graph.now.firsts moments.now) (IsJobArc p) node result }
{
    let shaped = graph.shaped();
    match job_target(shaped, node) {
        Some(next) => {
            let after = moments[graph.number(next)];
            after.saturating_sub(nominal_at(shaped, node))
        }
        None => shaped.budget_of(node.job),
    }
}

/// The nominal time of the step that begins at the node, 0 if none does.
fn nominal_at(shaped: &Shaped, node: Node) -> Moment
    ensures { (w : Node) (d : ℕ) → IsJobArc shaped.now node w d → d ≡ result }
{
    match shaped.step_of(node.job, node.place) {
        Some(step) => step.nominal,
        None => 0,
    }
}

/// The cleaning time of the machine that the node's job leaves by it, 0 if it leaves none.
fn clean_behind(shaped: &Shaped, node: Node) -> Moment
    ensures { (w : Node) (d : ℕ) → IsBlockingArc shaped.now node w d → d ≡ result }
{
    if node.place == 0 {
        return 0;
    }
    match shaped.machine_at(node.job, node.place - 1) {
        Some(machine) => shaped.clean_of(machine),
        None => 0,
    }
}

/// The earlier of two moments.
fn earlier(one: Moment, other: Moment) -> Moment
    ensures { ((result ≡ one) × (one ≤ other)) ⊎ ((result ≡ other) × (other ≤ one)) }
{
    if other < one { other } else { one }
}
