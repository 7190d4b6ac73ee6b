//! The orders of the best plan that a large neighbourhood search meets.

ghost use Rattle.std.specs.Prelude.{◌≡◌, map, length, IfOk, IfSome};
ghost use Rattle.shop_base.specs.Vectors.{lists_of};

use crate::draws::Draws;
use crate::known::Known;
use crate::opening::Opening;
use crate::visits::Visits;
use plan_net::{PartAhead, net_of, orders_of};
use shop_base::{JobNo, Shaped};
use std::alloc::{AllocError, Global};

/// The most nodes of a shop: one for each step, and one for each job.
const MOST_NODES: usize = 2000;

/// The most pairs of visits to a machine.
const MOST_PAIRS: usize = 131_072;

/// The most places in the table of pairs: a row of whole words of visits for each node.
const MOST_PLACES: usize = 1_048_576;

/// Whether a shop is small enough for the large neighbourhood search.
pub fn can_open(shaped: &Shaped) -> bool {
    let mut nodes = shaped.shop().jobs() as usize;
    let mut pairs = 0usize;
    let mut most = 0;
    for machine in 0..shaped.machine_count() {
        let visits = shaped.order_of(machine).len();
        nodes = nodes.wrapping_add(visits);
        pairs = pairs.wrapping_add(visits.wrapping_mul(visits) / 2);
        most = visits.max(most);
    }
    let row = most.wrapping_add(64);
    nodes <= MOST_NODES && pairs <= MOST_PAIRS && nodes.wrapping_mul(row) <= MOST_PLACES
}

/// The order of each machine in the best plan that a large neighbourhood search meets; `None` if that is no better than
/// this one, or if the shop is too large. The search goes on from the plan at hand at the end of its last round, if the
/// best one that it has met is at most 2 % longer than this one, else from this one. Where jobs visit a machine again,
/// in a small shop, it begins anew from another plan after each round that has met no better one. In each step the
/// pairs of a few drawn jobs with all others are opened, and a complete search decides them anew, in a limited number
/// of choices: for a plan that is better or, in a walk, for one that may be a little worse. The more often there is
/// none, the more jobs are opened. A round does about the same amount of work for each large shop, some 0.4 s, and for
/// a small one in proportion to the square of the number of operations. Better is a lesser total lateness or, with the
/// same, a lesser makespan. Other seeds and rounds draw other jobs, and the same ones draw the same again. Where the
/// rest of a run is given, only entries that are ahead are placed anew, a job that is gone is never late, and no job
/// makes its next move before its bound. It is proved only that there are as many orders as machines, each with as many
/// places as in this plan, or none.
pub fn opened_orders(
    alloc: Global,
    shaped: &Shaped,
    rest: Option<&PartAhead>,
    seed: u32,
    round: u32,
    known: &mut Known,
) -> Result<Option<Vec<Vec<JobNo>>>, AllocError>
    ensures each_order { IfOk result (λ answer. IfSome answer (λ orders.
        map length (lists_of orders.items) ≡ map length shaped.now.plan.order)) }
{
    if !can_open(shaped) {
        return Ok(None);
    }
    let mut net = net_of(alloc, shaped, rest)?;
    let visits = Visits::new(alloc, &net)?;
    let mut opening = Opening::new(alloc, visits, Draws::new(seed, round))?;
    if !opening.search(&net, known)? {
        return Ok(None);
    }
    opening.leave(alloc, &mut net)?;
    let orders = orders_of(alloc, &mut net, shaped)?;
    Ok(Some(orders))
}
