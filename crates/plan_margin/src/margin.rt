//! The margin: by halving between a margin that every job keeps its budget with and one that some job doesn't.

ghost use Rattle.std.specs.Prelude.{◌≡◌, ◌<◌, ◌≤◌, IfOk, MatchOption, length};
ghost use Rattle.alt_graph.specs.LatestRows.{HasRows};
ghost use Rattle.plan_margin.specs.{declared.margin.TheConstants.MAX_MARGIN, Lengths.HasLongerSchedule};
ghost use Rattle.plan_margin.specs.{Longer.IsFirstPast, Margins.IsMargin, Order.IsInOrder};
ghost use Rattle.plan_margin.specs.WithinMargin.{IsInTimeWithin, IsInTimeAtTheEndWithin};
ghost use Rattle.alt_graph.specs.Evidence.{node_count};

use crate::lengths::{fill_lengths, first_past};
use alt_graph::{Graph, by_rank};
use plan_verifier::Verified;
use shop_base::{JobNo, Moment, Node};
use std::alloc::{AllocError, Global};

/// The greatest margin that is looked for: everything takes eleven times as long.
pub const MAX_MARGIN: u32 = 10_000;

/// The greatest margin that is looked for, in numbers.
pub fn the_greatest_margin_in_numbers()
    ensures { MAX_MARGIN ≡ 10000 }
{}

/// How much longer everything may take.
#[derive(Clone, Copy, Debug, Drop)]
pub struct Margin {
    /// By how many thousandths, at most [`MAX_MARGIN`].
    pub thousandths: u32,
    /// The first job that is late with one thousandth more; none at [`MAX_MARGIN`].
    pub then: Option<JobNo>,
}

/// The margin of an accepted plan: the greatest number of thousandths by which each nominal and each cleaning time can
/// be longer, not rounded, so that each job's earliest leaving keeps its budget. While each job has come by its
/// release, and nothing takes longer than that, every job is out by its budget. Linear in the nodes, the arcs and the
/// machines, some fifteen times over; fails only when out of memory.
pub fn find_margin(alloc: Global, verified: &Verified) -> Result<Margin, AllocError>
    ensures exact { IfOk result (IsMargin verified.now.planned) }
    ensures in_time { IfOk result (λ margin. IsInTimeWithin verified.now.planned margin.thousandths) }
    ensures ended { IfOk result (λ margin. IsInTimeAtTheEndWithin verified.now.planned margin.thousandths) }
{
    let shaped = verified.shaped();
    let graph = Graph::new(alloc, shaped)?;
    let nodes = in_order(alloc, verified, graph.node_count())?;
    let mut lengths = vec![in alloc; 0; nodes.len()]?;
    Ok(greatest(&graph, &nodes, &mut lengths))
}

/// The margin. The lengths are written anew.
fn greatest(graph: &Graph<'_>, nodes: &[Option<Node>], lengths: &mut [Moment]) -> Margin
    requires order { IsInOrder graph.now.plan nodes.now }
    requires rows { HasRows graph.now.plan graph.now.firsts lengths.old }
    requires kept { HasLongerSchedule graph.now.plan 0 }
    ensures margin { IsMargin graph.now.plan result }
    ensures kept { HasLongerSchedule graph.now.plan result.thousandths }
{
    match late_with(graph, nodes, lengths, MAX_MARGIN) {
        Some(job) => halved(graph, nodes, lengths, job),
        None => Margin {
            thousandths: MAX_MARGIN,
            then: None,
        },
    }
}

/// The first job that is late where everything takes so many thousandths longer, if one is. The lengths are written
/// anew.
fn late_with(
    graph: &Graph<'_>,
    nodes: &[Option<Node>],
    lengths: &mut [Moment],
    thousandths: u32,
) -> Option<JobNo>
    requires order { IsInOrder graph.now.plan nodes.now }
    requires rows { HasRows graph.now.plan graph.now.firsts lengths.old }
    requires most { thousandths ≤ MAX_MARGIN }
    ensures late { let p = graph.now.plan in
        MatchOption result (HasLongerSchedule p thousandths) (IsFirstPast p thousandths) }
    ensures rows { HasRows graph.now.plan graph.now.firsts lengths.new }
{
    fill_lengths(graph, nodes, lengths, thousandths);
    first_past(graph, lengths)
}

/// The margin, where this is the first job that is late with the greatest.
fn halved(graph: &Graph<'_>, nodes: &[Option<Node>], lengths: &mut [Moment], job: JobNo) -> Margin
    requires order { IsInOrder graph.now.plan nodes.now }
    requires rows { HasRows graph.now.plan graph.now.firsts lengths.old }
    requires kept { HasLongerSchedule graph.now.plan 0 }
    requires late { IsFirstPast graph.now.plan MAX_MARGIN job }
    ensures margin { IsMargin graph.now.plan result }
    ensures kept { HasLongerSchedule graph.now.plan result.thousandths }
{
    let (mut kept, mut past, mut then) = (0, MAX_MARGIN, job);
    'halve: while kept + 1 < past {
        let middle = kept + (past - kept) / 2;
        match late_with(graph, nodes, lengths, middle) {
            Some(late) => {
                past = middle;
                then = late;
            }
            None => kept = middle,
        }
    }
    Margin {
        thousandths: kept,
        then: Some(then),
    }
}

/// The nodes of an accepted plan, so that no arc leads to an earlier one.
fn in_order(
    alloc: Global,
    verified: &Verified,
    count: usize,
) -> Result<Vec<Option<Node>>, AllocError>
    requires count { count ≡ node_count verified.now.planned }
    requires few { count ≤ 20200 }
    ensures size { IfOk result (λ nodes. length nodes.items ≡ count) }
    ensures order { IfOk result (λ nodes. IsInOrder verified.now.planned nodes.items) }
{
    by_rank(alloc, verified.shaped(), verified.times(), count)
}
