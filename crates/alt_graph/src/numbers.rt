//! The numbers of nodes: job after job, and within a job by place.

ghost use Rattle.std.specs.Prelude.{◌≡◌, ◌+◌, ◌<◌, IfOk, MatchOption, length};
ghost use Rattle.shop_base.specs.Plan.{IsWellShaped};
ghost use Rattle.alt_graph.specs.Lookups.{AreFirsts};
ghost use Rattle.alt_graph.specs.Layout.{number_of, IsCounted};

use shop_base::{Node, Shaped};
use std::alloc::{AllocError, Global};

/// The number of each job's first node, and last the count of all nodes.
pub(crate) fn first_numbers(alloc: Global, shaped: &Shaped) -> Result<Vec<u32>, AllocError>
    ensures firsts { IfOk result (λ firsts. AreFirsts shaped.now firsts.items) }
    ensures well_shaped { IsWellShaped shaped.now }
{
    let jobs = shaped.job_count();
    let mut firsts = Vec::with_capacity(alloc, jobs as usize + 1)?;
    let mut next = 0;
    firsts.push_reserved(next);
    for job in 0..jobs {
        next += shaped.step_count(job) + 1;
        firsts.push_reserved(next);
    }
    Ok(firsts)
}

/// The node's number, if it is one of the nodes that are counted.
pub(crate) fn counted_number(firsts: &[u32], node: Node) -> Option<usize>
    ensures { MatchOption result (IsCounted firsts.now node → ⊥)
        (λ at. IsCounted firsts.now node × (at ≡ number_of firsts.now node)) }
{
    let job = node.job as usize;
    if job + 1 >= firsts.len() {
        return None;
    }
    let at = number(firsts, node);
    if at < firsts[job + 1] as usize {
        Some(at)
    } else {
        None
    }
}

/// The node's number.
pub(crate) fn number(firsts: &[u32], node: Node) -> usize
    requires { node.job < length firsts.now }
    ensures { result ≡ number_of firsts.now node }
{
    firsts[node.job as usize] as usize + node.place as usize
}
