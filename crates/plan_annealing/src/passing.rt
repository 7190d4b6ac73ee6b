//! The greatest lengths of the paths to the nodes and from them, kept from one plan to its neighbour.
//!
//! The nodes are in an order along which all arcs lead. A move changes arcs from nodes and to nodes between two places,
//! so a pass finds the moments there. A node that is met before the source of an arc to it is put off until that one
//! has its moment. What follows the later nodes is as it was, so then it is known whether a path is past a limit, and
//! the later moments are found only if none is.

use crate::neighbours::Neighbours;
use crate::timing::{Look, OFF, Old, Part, Row, find_tails, head_in, node_at, time, time_from};
use plan_net::{NONE, Net, Spot, count, spot_at};
use shop_base::Moment;
use std::alloc::{AllocError, Global};

/// The rows of all nodes, in their order, and what a pass needs.
#[derive(Drop)]
pub(crate) struct Pass {
    pub rows: Vec<Row>,
    order: Vec<u32>,
    /// Where the arcs have changed, and how many nodes were timed there.
    part: Part,
    changed: u32,
    /// The nodes that were timed in the last pass, in order, and how many they are.
    olds: Vec<Old>,
    timed: u32,
    /// The nodes that were put off, how many they are, and how many still wait.
    off: Vec<u32>,
    off_count: u32,
    waiting: u32,
    /// What can be tried next.
    pub neighbours: Neighbours,
    /// How many nodes were looked at, along noted paths too.
    pub looks: u64,
}

/// The row of no node.
const NO_ROW: Old = Old {
    head: 0,
    before: NONE,
    node: NONE,
};

/// The rows of so many nodes in the order of their numbers, without moments.
fn rows_of(alloc: Global, nodes: usize) -> Result<Vec<Row>, AllocError> {
    let mut rows = Vec::with_capacity(alloc, nodes)?;
    for number in 0..count(nodes) {
        rows.push(Row {
            head: 0,
            tail: 0,
            before: NONE,
            place: number,
        })?;
    }
    Ok(rows)
}

/// The numbers of so many nodes.
fn numbers(alloc: Global, nodes: usize) -> Result<Vec<u32>, AllocError> {
    let mut numbers = Vec::with_capacity(alloc, nodes)?;
    for number in 0..count(nodes) {
        numbers.push(number)?;
    }
    Ok(numbers)
}

impl Pass {
    /// The nodes in the order of their numbers, without moments.
    pub(crate) fn new(alloc: Global, nodes: usize) -> Result<Pass, AllocError> {
        Ok(Pass {
            rows: rows_of(alloc, nodes)?,
            order: numbers(alloc, nodes)?,
            part: Part {
                first: 0,
                last: 0,
                limit: 0,
            },
            changed: 0,
            olds: vec![in alloc; NO_ROW; nodes]?,
            timed: 0,
            off: vec![in alloc; NONE; nodes]?,
            off_count: 0,
            waiting: 0,
            neighbours: Neighbours::new(alloc, nodes)?,
            looks: 0,
        })
    }

    /// Finds the moments in the part where arcs have changed. Whether there is no cycle, and no path there is past the
    /// limit.
    pub(crate) fn run(&mut self, spots: &[Spot], part: Part) -> bool {
        self.part = part;
        self.timed = 0;
        self.off_count = 0;
        self.waiting = 0;
        let mut is_within = true;
        for place in part.first..part.last.wrapping_add(1) {
            if !self.look(spots, place, part) {
                is_within = false;
                break;
            }
        }
        let looks = self.timed.wrapping_add(self.off_count);
        self.looks = self.looks.wrapping_add(u64::from(looks));
        self.changed = self.timed;
        is_within && self.waiting == 0
    }

    /// Finds the moments after that part.
    pub(crate) fn continue_pass(&mut self, spots: &[Spot]) {
        self.timed = time_from(
            spots,
            &self.order,
            self.part.last.wrapping_add(1),
            &mut self.rows,
            &mut self.olds,
            self.timed,
        );
        let looks = self.timed.wrapping_sub(self.changed);
        self.looks = self.looks.wrapping_add(u64::from(looks));
    }

    /// Finds how long the paths from the nodes up to this place are, if the later nodes' are known.
    pub(crate) fn find_tails(&mut self, spots: &[Spot], last: u32) {
        find_tails(spots, &self.order, &mut self.rows, last);
        self.looks = self.looks.wrapping_add(u64::from(last)).wrapping_add(1);
    }

    /// Looks at the node at a place, and at those that have waited for it. Whether nothing is past the limit.
    #[inline(always)]
    fn look(&mut self, spots: &[Spot], place: u32, part: Part) -> bool {
        let at = node_at(&self.order, place);
        let from = self.timed;
        match time(spots, &mut self.rows, &mut self.olds, from, at, place, part) {
            Look::Waits => {
                self.put_off(at, place);
                true
            }
            Look::Timed => {
                self.timed = from.wrapping_add(1);
                self.waiting == 0 || self.follow(spots, from, place, part)
            }
            Look::Late => {
                self.timed = from.wrapping_add(1);
                false
            }
        }
    }

    /// Puts the node at this place off.
    fn put_off(&mut self, at: u32, place: u32) {
        if let Some(row) = self.rows.get_mut(at as usize) {
            row.place = place | OFF;
        }
        if let Some(place) = self.off.get_mut(self.off_count as usize) {
            *place = at;
        }
        self.off_count = self.off_count.wrapping_add(1);
        self.waiting = self.waiting.wrapping_add(1);
    }

    /// Looks again at the nodes that have waited for those that were timed since. Whether nothing is past the limit.
    fn follow(&mut self, spots: &[Spot], from: u32, place: u32, part: Part) -> bool {
        for turn in from..count(self.olds.len()) {
            if turn >= self.timed {
                return true;
            }
            let spot = match self.olds.get(turn as usize) {
                Some(old) => spot_at(spots, old.node),
                None => return true,
            };
            if self.is_off(spot.next) && !self.look_again(spots, spot.next, place, part) {
                return false;
            }
            if self.is_off(spot.target) && !self.look_again(spots, spot.target, place, part) {
                return false;
            }
        }
        true
    }

    /// Whether the node is put off.
    #[inline(always)]
    fn is_off(&self, at: u32) -> bool {
        match self.rows.get(at as usize) {
            Some(row) => row.place >= OFF,
            None => false,
        }
    }

    /// Looks again at a node that was put off. Whether nothing is past the limit.
    fn look_again(&mut self, spots: &[Spot], at: u32, place: u32, part: Part) -> bool {
        let timed = self.timed;
        match time(
            spots,
            &mut self.rows,
            &mut self.olds,
            timed,
            at,
            place,
            part,
        ) {
            Look::Waits => true,
            Look::Timed => {
                self.timed = timed.wrapping_add(1);
                self.put_on(at);
                self.waiting = self.waiting.wrapping_sub(1);
                true
            }
            Look::Late => {
                self.timed = timed.wrapping_add(1);
                false
            }
        }
    }

    /// Keeps the moments of the last pass, and the order in which it found those where arcs have changed.
    pub(crate) fn keep(&mut self) {
        for turn in 0..self.changed {
            let place = self.part.first.wrapping_add(turn);
            let at = match self.olds.get(turn as usize) {
                Some(old) => old.node,
                None => NONE,
            };
            if let Some(row) = self.rows.get_mut(at as usize) {
                row.place = place;
            }
            if let Some(node) = self.order.get_mut(place as usize) {
                *node = at;
            }
        }
    }

    /// Takes the last pass back.
    pub(crate) fn undo(&mut self) {
        self.put_all_on();
        for turn in 0..self.timed {
            if let Some(old) = self.olds.get(turn as usize) {
                if let Some(row) = self.rows.get_mut(old.node as usize) {
                    row.head = old.head;
                    row.before = old.before;
                }
            }
        }
    }

    /// Lets no node be put off any more.
    fn put_all_on(&mut self) {
        for turn in 0..self.off_count {
            let at = match self.off.get(turn as usize) {
                Some(at) => *at,
                None => NONE,
            };
            self.put_on(at);
        }
    }

    /// Lets the node no longer be put off.
    fn put_on(&mut self, at: u32) {
        if let Some(row) = self.rows.get_mut(at as usize) {
            row.place &= !OFF;
        }
    }

    /// Finds the machine arcs on a longest path to the node.
    pub(crate) fn find_neighbours(&mut self, net: &Net, node: u32) {
        self.neighbours.clear();
        let looks = self
            .neighbours
            .join(&net.spots, &self.rows, node, net.recurs);
        self.looks = self.looks.wrapping_add(u64::from(looks));
    }

    /// Finds the machine arcs on a longest path to the leaving of each late job, and to this node.
    pub(crate) fn find_all_neighbours(&mut self, net: &Net, node: u32) {
        self.neighbours.clear();
        let mut looks = count(net.spans.len()) / 4;
        for span in &net.spans {
            if head_in(&self.rows, span.last) > span.budget {
                let more = self
                    .neighbours
                    .join(&net.spots, &self.rows, span.last, net.recurs);
                looks = looks.wrapping_add(more);
            }
        }
        let more = self
            .neighbours
            .join(&net.spots, &self.rows, node, net.recurs);
        self.looks = self.looks.wrapping_add(u64::from(looks.wrapping_add(more)));
    }
}
