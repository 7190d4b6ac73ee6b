//! The greatest lengths of paths, in thousandths, where everything takes longer.

ghost use Rattle.std.specs.Prelude.{◌≡◌, ◌+◌, ◌≤◌, MatchOption};
ghost use Rattle.shop_base.specs.{declared.node.Node.Node, Graph.Arc};
ghost use Rattle.alt_graph.specs.{LatestRows.HasRows, LatestRows.moment_in, Sources.IsJobArc};
ghost use Rattle.plan_margin.specs.{declared.margin.TheConstants.MAX_MARGIN, Longer.longer};
ghost use Rattle.plan_margin.specs.Lengths.{AreLengths, AreReached, IsLength, IsNext};
ghost use Rattle.plan_margin.specs.{Lengths.AreAllWithin, Lengths.IsFirstOver, Lengths.MAX_LENGTH, Order.IsInOrder};

use alt_graph::{ArcIn, Graph, job_source};
use plan_verifier::leaving_of;
use shop_base::{JobNo, Moment, Node};

/// Writes the greatest length of a path to each node, in thousandths of a time unit.
pub(crate) fn fill_lengths(
    graph: &Graph<'_>,
    nodes: &[Option<Node>],
    lengths: &mut [Moment],
    thousandths: u32,
)
    requires order { IsInOrder graph.now.plan nodes.now }
    requires rows { HasRows graph.now.plan graph.now.firsts lengths.old }
    requires most { thousandths ≤ MAX_MARGIN }
    ensures rows { HasRows graph.now.plan graph.now.firsts lengths.new }
    ensures lengths { AreLengths graph.now.plan thousandths (moment_in graph.now.firsts lengths.new) }
    ensures reached { AreReached graph.now.plan thousandths (moment_in graph.now.firsts lengths.new) }
{
    for at in 0..nodes.len() {
        if let Some(node) = nodes[at] {
            let length = length_to(graph, lengths, node, thousandths);
            lengths[graph.number(node)] = length;
        }
    }
}

/// The greatest length of a path to the node, by those of the nodes from which arcs lead to it.
fn length_to(graph: &Graph<'_>, lengths: &[Moment], node: Node, thousandths: u32) -> Moment
    requires { IsNext graph.now.plan graph.now.firsts lengths.now thousandths node }
    ensures { let p = graph.now.plan in
        IsLength p thousandths (moment_in graph.now.firsts lengths.now) (Arc p) node result }
{
    let along = length_in_job(graph, lengths, node, thousandths);
    match graph.blocking_source(node) {
        Some(source) => along.max(length_over(graph, lengths, source, thousandths)),
        None => along,
    }
}

/// The same over the place before it in its job; at a job's first place its release.
fn length_in_job(graph: &Graph<'_>, lengths: &[Moment], node: Node, thousandths: u32) -> Moment
    requires { IsNext graph.now.plan graph.now.firsts lengths.now thousandths node }
    ensures { let p = graph.now.plan in
        IsLength p thousandths (moment_in graph.now.firsts lengths.now) (IsJobArc p) node result }
{
    match job_source(graph.shaped(), node) {
        Some(source) => length_over(graph, lengths, source, thousandths),
        None => graph.shaped().release_of(node.job) * 1000,
    }
}

/// The same over an arc.
fn length_over(graph: &Graph<'_>, lengths: &[Moment], source: ArcIn, thousandths: u32) -> Moment
    requires rows { HasRows graph.now.plan graph.now.firsts lengths.now }
    requires most { thousandths ≤ MAX_MARGIN }
    requires arc { (v : Node) × Arc graph.now.plan source.node v source.length }
    requires short { moment_in graph.now.firsts lengths.now source.node ≤ MAX_LENGTH }
    ensures { result ≡ moment_in graph.now.firsts lengths.now source.node + longer thousandths source.length }
{
    lengths[graph.number(source.node)] + made_longer(source.length, thousandths)
}

/// The time in thousandths, where it is so many thousandths longer.
fn made_longer(time: Moment, thousandths: u32) -> Moment
    requires most { thousandths ≤ MAX_MARGIN }
    requires time { time ≤ 1000000 }
    ensures { result ≡ longer thousandths time }
{
    time * (1000 + u64::from(thousandths))
}

/// The first job whose leaving is past its budget, if one is.
pub(crate) fn first_past(graph: &Graph<'_>, lengths: &[Moment]) -> Option<JobNo>
    requires { HasRows graph.now.plan graph.now.firsts lengths.now }
    ensures { let p = graph.now.plan in let kept = moment_in graph.now.firsts lengths.now in
        MatchOption result (AreAllWithin p kept) (IsFirstOver p kept) }
{
    let shaped = graph.shaped();
    for job in 0..shaped.job_count() {
        let leaves = lengths[graph.number(leaving_of(shaped, job))];
        if leaves > shaped.budget_of(job) * 1000 {
            return Some(job);
        }
    }
    None
}
