//! What a move keeps in mind: its swaps, and the nodes that are still to be looked at.

use crate::estimate::weight_after_swap;
use crate::timing::Row;
use plan_net::{NONE, Net, spot_at, swap};
use shop_base::Moment;
use std::alloc::{AllocError, Global};

/// How often a move looks at a node, on average, before it is cut off. The plan may have a cycle then; if it has, the
/// move is undone.
const LOOKS_A_NODE: u64 = 8;

/// Whether a node was met in this move, and with which bound: to the left the last node of the moving job from which a
/// path leads to it, to the right the first one to which a path leads from it.
#[derive(Clone, Copy)]
struct Mark {
    stamp: u32,
    bound: u32,
}

/// The swaps of a move, and its search through the graph.
#[derive(Drop)]
pub(crate) struct Moves {
    swaps: Vec<u32>,
    made: u32,
    /// The first and the last place, in the order of the nodes, between which arcs have changed.
    pub first: u32,
    pub last: u32,
    /// What the plan may weigh, and the greatest estimate of what it weighs after the swaps.
    limit: Moment,
    pub least: Moment,
    marks: Vec<Mark>,
    stamp: u32,
    stack: Vec<u32>,
    height: u32,
    /// How many nodes all moves have looked at.
    pub looks: u64,
}

impl Moves {
    pub(crate) fn new(alloc: Global, nodes: usize) -> Result<Moves, AllocError> {
        Ok(Moves {
            swaps: vec![in alloc; NONE; nodes]?,
            made: 0,
            first: 0,
            last: 0,
            limit: 0,
            least: 0,
            marks: vec![in alloc; Mark { stamp: 0, bound: 0 }; nodes]?,
            stamp: 0,
            stack: vec![in alloc; NONE; nodes]?,
            height: 0,
            looks: 0,
        })
    }

    /// Begins a move that ends where the plan is past the limit. Gives how many nodes it may look at.
    pub(crate) fn begin(&mut self, limit: Moment) -> u64 {
        self.limit = limit;
        self.least = 0;
        self.made = 0;
        self.first = NONE;
        self.last = 0;
        self.height = 0;
        self.stamp = self.stamp.wrapping_add(1);
        (self.marks.len() as u64).wrapping_mul(LOOKS_A_NODE)
    }

    /// Lets no node of the job be met in this move: it is as if each was, with this bound.
    pub(crate) fn close(&mut self, net: &Net, job: u32, bound: u32) {
        let Some(span) = net.spans.get(job as usize) else {
            return;
        };
        for at in span.first..span.last.wrapping_add(1) {
            if let Some(mark) = self.marks.get_mut(at as usize) {
                *mark = Mark {
                    stamp: self.stamp,
                    bound,
                };
            }
        }
    }

    /// Takes the swaps of the last move back.
    pub(crate) fn undo(&mut self, net: &mut Net) {
        for turn in 0..self.made {
            let last = self.made.wrapping_sub(turn).wrapping_sub(1);
            if let Some(place) = self.swaps.get(last as usize) {
                swap(&mut net.spots, *place);
            }
        }
        self.made = 0;
    }

    /// Lets the job that enters here come before the one before it, if the plan isn't past the limit then. Gives the
    /// entry of that one, if there is one.
    pub(crate) fn turn(&mut self, net: &mut Net, rows: &[Row], entry: u32) -> u32 {
        self.looks = self.looks.wrapping_add(1);
        self.least = self.least.max(weight_after_swap(&net.spots, rows, entry));
        if self.is_past() {
            return NONE;
        }
        let Some(place) = self.swaps.get_mut(self.made as usize) else {
            return NONE;
        };
        let other = swap(&mut net.spots, entry);
        if let Some(row) = rows.get(other as usize) {
            *place = other;
            self.made = self.made.wrapping_add(1);
            self.first = self.first.min(row.place);
        }
        if let Some(row) = rows.get(spot_at(&net.spots, entry).next as usize) {
            self.last = self.last.max(row.place);
        }
        other
    }

    /// Whether the plan is past the limit after the swaps.
    pub(crate) fn is_past(&self) -> bool {
        self.least > self.limit
    }

    /// The bound with which a node was met in this move.
    #[inline]
    pub(crate) fn met(&self, at: u32) -> Option<u32> {
        match self.marks.get(at as usize) {
            Some(mark) if mark.stamp == self.stamp => Some(mark.bound),
            _ => None,
        }
    }

    /// Notes that the node is met with this bound, and that it is to be looked at. Where there is no room it isn't
    /// looked at, and the plan may have a cycle.
    #[inline]
    pub(crate) fn meet(&mut self, at: u32, bound: u32) {
        if let Some(mark) = self.marks.get_mut(at as usize) {
            *mark = Mark {
                stamp: self.stamp,
                bound,
            };
            if let Some(place) = self.stack.get_mut(self.height as usize) {
                *place = at;
                self.height = self.height.wrapping_add(1);
            }
        }
    }

    /// The next node that is to be looked at; `None` if all were.
    #[inline]
    pub(crate) fn next(&mut self) -> Option<u32> {
        self.looks = self.looks.wrapping_add(1);
        if self.height == 0 || self.is_past() {
            return None;
        }
        self.height = self.height.wrapping_sub(1);
        self.stack.get(self.height as usize).copied()
    }
}
