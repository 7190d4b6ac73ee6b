//! The orders of the best plan that an annealing meets.

ghost use Rattle.std.specs.Prelude.{◌≡◌, map, length, IfOk, IfSome};
ghost use Rattle.shop_base.specs.Vectors.{lists_of};

use crate::annealing::anneal;
use crate::draws::Draws;
use crate::moves::Moves;
use crate::passing::Pass;
use plan_net::{Net, PartAhead, net_of, orders_of};
use shop_base::{JobNo, Shaped};
use std::alloc::{AllocError, Global};

/// The order of each machine in the best plan that an annealing from this one meets; `None` if this one is the best. In
/// a neighbour of a plan two jobs that meet on a critical path have changed places there, for one visit of each, and
/// one of the two has moved at other visits where it had to. Better is a lesser total lateness or, with the same, a
/// lesser makespan. Every fourth round (1, 5, ..) is hotter, and all late jobs count in it. The others are cooler from
/// the third round on, if no job is late and there are more than 100 operations; where a job visits a machine again
/// ahead, they begin as hot as that. A round looks at some 20 million nodes at most, and tries no more neighbours than
/// 50 times the square of the number of operations. Other seeds and rounds draw other neighbours, and the same ones
/// draw the same again. Where the rest of a run is given, only entries that are ahead are exchanged, a job that is gone
/// is never late, and no job makes its next move before its bound. It is proved only that there are as many orders as
/// machines, each with as many places as in this plan, or none.
pub fn annealed_orders(
    alloc: Global,
    shaped: &Shaped,
    rest: Option<&PartAhead>,
    seed: u32,
    round: u32,
) -> Result<Option<Vec<Vec<JobNo>>>, AllocError>
    ensures each_order { IfOk result (λ answer. IfSome answer (λ orders.
        map length (lists_of orders.items) ≡ map length shaped.now.plan.order)) }
{
    let mut net = net_of(alloc, shaped, rest)?;
    if !is_bettered(alloc, &mut net, seed, round)? {
        return Ok(None);
    }
    let orders = orders_of(alloc, &mut net, shaped)?;
    Ok(Some(orders))
}

/// Searches from the plan of the net, and leaves the best plan that it meets there. Whether that is better.
fn is_bettered(alloc: Global, net: &mut Net, seed: u32, round: u32) -> Result<bool, AllocError> {
    let nodes = net.spots.len();
    let mut pass = Pass::new(alloc, nodes)?;
    let mut moves = Moves::new(alloc, nodes)?;
    Ok(anneal(net, &mut pass, &mut moves, Draws::new(seed, round), round))
}
