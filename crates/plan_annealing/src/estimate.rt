//! An estimate of what a plan weighs once two jobs have changed places, by the moments of the plan before.

use crate::timing::{Row, head_in, tail_in};
use plan_net::{Spot, spot_at};
use shop_base::Moment;

/// An estimate of what the plan weighs once the job that enters here comes before the one now before it: the length of
/// the path over both of them, which goes on in that other job, or to the next job on this machine. If the job moves on
/// other machines too, the plan may weigh less.
pub(crate) fn weight_after_swap(spots: &[Spot], rows: &[Row], entry: u32) -> Moment {
    let enters = spot_at(spots, entry);
    let other_leaves = spot_at(spots, enters.source);
    let other_enters = spot_at(spots, other_leaves.back);
    let moment = head_in(rows, other_leaves.back);
    free_at(rows, &other_enters)
        .max(ready_at(rows, &enters, moment))
        .wrapping_add(spot_at(spots, enters.next).lag)
        .wrapping_add(enters.clean)
        .wrapping_add(other_leaves.lag)
        .wrapping_add(rest_after(spots, rows, &other_leaves, enters.next))
}

/// When the machine that is entered here is free.
fn free_at(rows: &[Row], enters: &Spot) -> Moment {
    match rows.get(enters.source as usize) {
        Some(row) => row.head.wrapping_add(enters.clean),
        None => 0,
    }
}

/// When a job is ready to enter, as far as that doesn't hang on what happens from a moment on.
fn ready_at(rows: &[Row], enters: &Spot, moment: Moment) -> Moment {
    let before = head_in(rows, enters.back);
    if before < moment {
        before.wrapping_add(enters.lag)
    } else {
        enters.lag
    }
}

/// The greatest length of a path from where the other job leaves, once the one that leaves at this node has come before
/// it. What follows in that other job counts in full where no path leads from there to the node.
fn rest_after(spots: &[Spot], rows: &[Row], other_leaves: &Spot, leaving: u32) -> Moment {
    let behind = spot_at(spots, leaving).target;
    let across = spot_at(spots, behind)
        .clean
        .wrapping_add(tail_in(rows, behind));
    let rest = other_leaves.rest.max(across);
    let tail = tail_in(rows, other_leaves.next);
    if tail < tail_in(rows, leaving) {
        let lag = spot_at(spots, other_leaves.next).lag;
        rest.max(lag.wrapping_add(tail))
    } else {
        rest
    }
}
