//! Neighbours of a plan: two jobs that meet on a machine change places, and if that makes a cycle, the one of them
//! that moves does so at other visits too (job insertion: Groeflin and Klinkert, A new neighborhood and tabu search
//! for the blocking job shop, Discrete Applied Mathematics 157, 2009). Its own visits to a machine keep their turns.
//!
//! Of two nodes on a path the later one's moment is no less, what follows it is no longer, and it comes later in the
//! order of the nodes. So if a node comes after the bound of a search, in the plan before the move, the search needn't
//! go on from there.

use crate::moves::Moves;
use crate::timing::Row;
use plan_net::{NONE, Net, spot_at};
use shop_base::Moment;

/// Moves the job that enters here to the left, past the one before it, and past further ones there and at other visits
/// until there is no cycle, or the plan is past the limit.
pub(crate) fn move_left(moves: &mut Moves, net: &mut Net, rows: &[Row], entry: u32, limit: Moment) {
    let most = moves.begin(limit);
    let job = spot_at(&net.spots, entry).job;
    if net.recurs {
        moves.close(net, job, NONE);
    }
    turn_left(moves, net, rows, entry);
    for _ in 0..most {
        let Some(at) = moves.next() else {
            return;
        };
        look_left(moves, net, rows, job, at);
    }
}

/// Looks where paths lead from a node that the moving job has come before.
#[inline]
fn look_left(moves: &mut Moves, net: &mut Net, rows: &[Row], job: u32, at: u32) {
    let bound = moves.met(at).unwrap_or(0);
    let spot = spot_at(&net.spots, at);
    reach_left(moves, rows, spot.next, bound);
    let after = spot_at(&net.spots, spot.target);
    if after.job != job {
        reach_left(moves, rows, spot.target, bound);
    } else if spot.target != NONE {
        reach_left(moves, rows, spot_at(&net.spots, after.next).target, bound);
        if spot.target <= bound {
            turn_left(moves, net, rows, spot.target);
        }
    }
}

/// Lets the job that enters here come before the one before it, and before further ones that were met.
fn turn_left(moves: &mut Moves, net: &mut Net, rows: &[Row], entry: u32) {
    for _ in 0..net.spots.len() {
        let other = moves.turn(net, rows, entry);
        if other == NONE {
            return;
        }
        reach_left(moves, rows, other, entry.wrapping_add(1));
        let next = spot_at(&net.spots, entry).source;
        if net.recurs {
            let at = spot_at(&net.spots, other).next;
            let left = spot_at(&net.spots, at).target;
            if is_at_own(moves, net, entry, at, left, next) {
                return;
            }
        }
        match moves.met(next) {
            Some(bound) if bound >= entry => (),
            _ => return,
        }
    }
}

/// Meets a node to which a path leads from the bound.
#[inline]
fn reach_left(moves: &mut Moves, rows: &[Row], at: u32, bound: u32) {
    if !leads(rows, at, bound) {
        return;
    }
    match moves.met(at) {
        Some(known) if known >= bound => (),
        _ => moves.meet(at, bound),
    }
}

/// Moves the job before the one that enters here to the right, past it, and past further ones there and at other visits
/// until there is no cycle, or the plan is past the limit.
pub(crate) fn move_right(
    moves: &mut Moves,
    net: &mut Net,
    rows: &[Row],
    entry: u32,
    limit: Moment,
) {
    let most = moves.begin(limit);
    let leave = spot_at(&net.spots, spot_at(&net.spots, entry).source);
    if net.recurs {
        moves.close(net, leave.job, 0);
    }
    turn_right(moves, net, rows, leave.back);
    for _ in 0..most {
        let Some(at) = moves.next() else {
            return;
        };
        look_right(moves, net, rows, leave.job, at);
    }
}

/// Looks from where paths lead to a node that the moving job now comes after.
#[inline]
fn look_right(moves: &mut Moves, net: &mut Net, rows: &[Row], job: u32, at: u32) {
    let bound = moves.met(at).unwrap_or(0);
    let spot = spot_at(&net.spots, at);
    reach_right(moves, rows, spot.back, bound);
    let ahead = spot_at(&net.spots, spot.source);
    if ahead.job != job {
        reach_right(moves, rows, spot.source, bound);
    } else if spot.source != NONE {
        reach_right(moves, rows, spot_at(&net.spots, ahead.back).source, bound);
        if spot.source >= bound {
            turn_right(moves, net, rows, ahead.back);
        }
    }
}

/// Puts the job that enters here after the one that follows it, and after further ones that were met.
fn turn_right(moves: &mut Moves, net: &mut Net, rows: &[Row], entry: u32) {
    for _ in 0..net.spots.len() {
        let leave = spot_at(&net.spots, entry).next;
        let after = spot_at(&net.spots, leave).target;
        if moves.turn(net, rows, after) == NONE {
            return;
        }
        reach_right(moves, rows, spot_at(&net.spots, after).next, entry);
        let next = spot_at(&net.spots, leave).target;
        if net.recurs {
            let left = spot_at(&net.spots, after).source;
            if is_at_own(moves, net, entry, after, left, next) {
                return;
            }
        }
        match moves.met(next) {
            Some(bound) if bound <= leave => (),
            _ => return,
        }
    }
}

/// Meets a node from which a path leads to the bound.
#[inline]
fn reach_right(moves: &mut Moves, rows: &[Row], at: u32, bound: u32) {
    if !leads(rows, bound, at) {
        return;
    }
    match moves.met(at) {
        Some(known) if known <= bound => (),
        _ => moves.meet(at, bound),
    }
}

/// Whether the job that has moved here is now beside a visit of its own, at the next node, which keeps its turn. Where
/// it has another visit on the side that it has left, the node there is to be looked at again.
fn is_at_own(moves: &mut Moves, net: &Net, entry: u32, at: u32, left: u32, next: u32) -> bool {
    let job = spot_at(&net.spots, entry).job;
    if spot_at(&net.spots, left).job == job {
        if let Some(bound) = moves.met(at) {
            moves.meet(at, bound);
        }
    }
    spot_at(&net.spots, next).job == job
}

/// Whether a path may lead from the one node to the other in the plan before the move.
#[inline]
fn leads(rows: &[Row], from: u32, to: u32) -> bool {
    let Some(from) = rows.get(from as usize) else {
        return false;
    };
    let Some(to) = rows.get(to as usize) else {
        return false;
    };
    from.head <= to.head && from.tail >= to.tail && from.place <= to.place
}
