//! A node's moment, from the moments of the nodes before it.

use plan_net::{NONE, Spot, count, spot_at};
use shop_base::Moment;

/// Added to the place of a node that is put off: it is after all places then.
pub(crate) const OFF: u32 = 0x8000_0000;

/// What is known of a node.
#[derive(Clone, Copy)]
pub(crate) struct Row {
    /// Its moment, which is the greatest length of a path to it.
    pub head: Moment,
    /// The greatest length of a path from it, with what the leaving at its end counts for the aim.
    pub tail: Moment,
    /// The node before it on a longest path to it.
    pub before: u32,
    /// Its place in the order of the nodes.
    pub place: u32,
}

/// What a node's row was before the pass.
#[derive(Clone, Copy)]
pub(crate) struct Old {
    pub head: Moment,
    pub before: u32,
    pub node: u32,
}

/// The places between which arcs have changed, the first and the last one, and what no path there may be past.
#[derive(Clone, Copy)]
pub(crate) struct Part {
    pub first: u32,
    pub last: u32,
    pub limit: Moment,
}

/// What came of looking at a node.
#[derive(Clone, Copy)]
pub(crate) enum Look {
    /// It has its moment.
    Timed,
    /// An arc to it comes from a node that has none yet.
    Waits,
    /// Its moment is so late that the plan is past the limit.
    Late,
}

/// The node's moment in the kept rows.
#[inline]
pub(crate) fn head_in(rows: &[Row], number: u32) -> Moment {
    match rows.get(number as usize) {
        Some(row) => row.head,
        None => 0,
    }
}

/// Finds the node's moment, if the nodes before it have theirs: they are up to this place, and aren't put off. Its row
/// before that goes to this turn of the old ones.
#[inline(always)]
pub(crate) fn time(
    spots: &[Spot],
    rows: &mut [Row],
    olds: &mut [Old],
    turn: u32,
    at: u32,
    place: u32,
    part: Part,
) -> Look {
    let Some(spot) = spots.get(at as usize) else {
        return Look::Late;
    };
    let mut head = spot.lag;
    let mut before = spot.back;
    if let Some(row) = rows.get(spot.back as usize) {
        if row.place > place {
            return Look::Waits;
        }
        head = row.head.wrapping_add(spot.lag);
    }
    if let Some(row) = rows.get(spot.source as usize) {
        if row.place > place {
            return Look::Waits;
        }
        let moment = row.head.wrapping_add(spot.clean);
        if moment > head {
            head = moment;
            before = spot.source;
        }
    }
    let rest = known_rest(spots, rows, spot, part.last);
    if let Some(row) = rows.get_mut(at as usize) {
        if let Some(old) = olds.get_mut(turn as usize) {
            *old = Old {
                head: row.head,
                before: row.before,
                node: at,
            };
        }
        row.head = head;
        row.before = before;
    }
    if head.wrapping_add(rest) > part.limit {
        Look::Late
    } else {
        Look::Timed
    }
}

/// The greatest length that is known of a path from a node: along its job, or on from a node after the last place.
#[inline(always)]
fn known_rest(spots: &[Spot], rows: &[Row], spot: &Spot, last: u32) -> Moment {
    let along = match rows.get(spot.next as usize) {
        Some(row) if is_behind(row.place, last) => {
            spot_at(spots, spot.next).lag.wrapping_add(row.tail)
        }
        _ => 0,
    };
    let clean = spot_at(spots, spot.target).clean;
    let across = match rows.get(spot.target as usize) {
        Some(row) if is_behind(row.place, last) => clean.wrapping_add(row.tail),
        _ => clean,
    };
    spot.rest.max(along).max(across)
}

/// Whether a node with this place comes after the last place, and isn't put off.
#[inline(always)]
fn is_behind(place: u32, last: u32) -> bool {
    let first = last.wrapping_add(1);
    place.wrapping_sub(first) < OFF.wrapping_sub(first)
}

/// Finds the moments of the nodes from a place on, if the nodes before it have theirs. What their rows were goes to the
/// old ones from this turn on. Gives the turn after the last of these.
pub(crate) fn time_from(
    spots: &[Spot],
    order: &[u32],
    first: u32,
    rows: &mut [Row],
    olds: &mut [Old],
    turn: u32,
) -> u32 {
    let free = Part {
        first: 0,
        last: NONE,
        limit: Moment::MAX,
    };
    let mut turn = turn;
    for place in first..count(order.len()) {
        time(spots, rows, olds, turn, node_at(order, place), NONE, free);
        turn = turn.wrapping_add(1);
    }
    turn
}

/// The node at a place in the order.
#[inline(always)]
pub(crate) fn node_at(order: &[u32], place: u32) -> u32 {
    match order.get(place as usize) {
        Some(at) => *at,
        None => NONE,
    }
}

/// Finds how long the paths from the nodes up to this place are, if the later nodes' are known.
pub(crate) fn find_tails(spots: &[Spot], order: &[u32], rows: &mut [Row], last: u32) {
    for turn in 0..last.wrapping_add(1) {
        let at = node_at(order, last.wrapping_sub(turn));
        if let Some(spot) = spots.get(at as usize) {
            let tail = tail_of(spots, rows, spot);
            if let Some(row) = rows.get_mut(at as usize) {
                row.tail = tail;
            }
        }
    }
}

/// The greatest length of a path from a node, by the lengths from the nodes after it.
#[inline(always)]
fn tail_of(spots: &[Spot], rows: &[Row], spot: &Spot) -> Moment {
    let along = match rows.get(spot.next as usize) {
        Some(row) => spot_at(spots, spot.next).lag.wrapping_add(row.tail),
        None => spot.rest,
    };
    let across = match rows.get(spot.target as usize) {
        Some(row) => spot_at(spots, spot.target).clean.wrapping_add(row.tail),
        None => 0,
    };
    along.max(across)
}

/// The greatest length of a path from the node in the kept rows.
#[inline(always)]
pub(crate) fn tail_in(rows: &[Row], number: u32) -> Moment {
    match rows.get(number as usize) {
        Some(row) => row.tail,
        None => 0,
    }
}
