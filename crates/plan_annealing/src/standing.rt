//! A plan as the complete search takes it and leaves it.

use crate::propagation::Propagation;
use crate::state::State;
use crate::visits::{Visits, number_at};
use plan_net::{NONE, Net, count, spot_at};
use shop_base::Moment;
use std::alloc::{AllocError, Global};

/// The moment 0 in a state: a moment before it may be the latest one of a node.
pub(crate) const ORIGIN: Moment = 1 << 60;

/// How late a plan is, how long it takes, and by how much the latest job is late.
#[derive(Clone, Copy)]
pub(crate) struct Lateness {
    pub total: Moment,
    pub makespan: Moment,
    pub worst: Moment,
}

impl Lateness {
    /// Worse than that of any plan.
    pub(crate) const NONE: Lateness = Lateness {
        total: Moment::MAX,
        makespan: Moment::MAX,
        worst: Moment::MAX,
    };

    /// Whether it is less: the total lateness decides, and if that is the same, the makespan.
    pub(crate) fn is_less(&self, other: &Lateness) -> bool {
        self.total < other.total || self.total == other.total && self.makespan < other.makespan
    }

    /// That of the earliest moments in a state.
    pub(crate) fn of(visits: &Visits, state: &State) -> Lateness {
        let mut lateness = Lateness {
            total: 0,
            makespan: 0,
            worst: 0,
        };
        for leaving in &visits.leavings {
            let leaves = state.early(leaving.node).wrapping_sub(ORIGIN);
            let late = leaves.saturating_sub(leaving.budget);
            lateness.total = lateness.total.wrapping_add(late);
            lateness.makespan = lateness.makespan.max(leaves);
            lateness.worst = lateness.worst.max(late);
        }
        lateness
    }
}

/// A plan: how many visits come before each on its machine, and an order of the nodes along which all arcs lead.
#[derive(Drop)]
pub(crate) struct Standing {
    pub places: Vec<u32>,
    pub order: Vec<u32>,
    pub lateness: Lateness,
}

impl Standing {
    /// Room for a plan of so many nodes.
    pub(crate) fn new(alloc: Global, nodes: usize) -> Result<Standing, AllocError> {
        Ok(Standing {
            places: vec![in alloc; 0; nodes]?,
            order: vec![in alloc; 0; nodes]?,
            lateness: Lateness::NONE,
        })
    }

    /// Becomes the same as another one.
    pub(crate) fn copy(&mut self, from: &Standing) {
        self.copy_from(&from.places, &from.order, from.lateness);
    }

    /// Becomes the plan with these places and this order.
    pub(crate) fn copy_from(&mut self, places: &[u32], order: &[u32], lateness: Lateness) {
        self.lateness = lateness;
        for (place, other) in self.places.iter_mut().zip(places.iter()) {
            *place = *other;
        }
        for (node, other) in self.order.iter_mut().zip(order.iter()) {
            *node = *other;
        }
    }

    /// Becomes the plan of a state in which nothing is open. Nodes are in order by how many come before them.
    pub(crate) fn take(&mut self, visits: &Visits, known: &mut Propagation, counts: &mut [u32]) {
        self.lateness = Lateness::of(visits, &known.state);
        for (node, place) in self.places.iter_mut().enumerate() {
            *place = bits_of(&known.state, known.state.sooner(count(node)), visits.span);
        }
        count_nodes(known, count(self.order.len()), counts);
        for node in 0..count(self.order.len()) {
            let before = known.count_before(node);
            if let Some(number) = counts.get_mut(before as usize) {
                let place = *number;
                *number = place.wrapping_add(1);
                self.put(place, node);
            }
        }
    }

    /// Becomes the plan of a net. Whether that has no cycle.
    pub(crate) fn read(&mut self, net: &Net, visits: &Visits, counts: &mut [u32]) -> bool {
        let mut found = self.put_first(net, counts);
        for turn in 0..self.order.len() {
            if turn >= found as usize {
                return false;
            }
            let node = number_at(&self.order, turn);
            let spot = spot_at(&net.spots, node);
            self.set_place(net, visits, node);
            for next in [spot.next, spot.target] {
                if take_one(counts, next) {
                    self.put(found, next);
                    found = found.wrapping_add(1);
                }
            }
        }
        true
    }

    /// Puts the nodes of a net that come after no other one first in the order, and counts those right before each. How
    /// many were put there.
    fn put_first(&mut self, net: &Net, counts: &mut [u32]) -> u32 {
        let mut found = 0u32;
        for (number, before) in counts.iter_mut().enumerate() {
            *before = before_in(net, count(number));
            if *before == 0 && number < net.spots.len() {
                self.put(found, count(number));
                found = found.wrapping_add(1);
            }
        }
        found
    }

    /// Puts a node at a place in the order.
    fn put(&mut self, place: u32, node: u32) {
        if let Some(at) = self.order.get_mut(place as usize) {
            *at = node;
        }
    }

    /// Notes how many visits come before that which begins at a node, if that is known of the one before it.
    fn set_place(&mut self, net: &Net, visits: &Visits, node: u32) {
        let source = spot_at(&net.spots, node).source;
        let place = if source == NONE {
            0
        } else if visits.node(source).follows {
            number_at(&self.places, (source as usize).wrapping_sub(1)).wrapping_add(1)
        } else {
            1
        };
        if let Some(noted) = self.places.get_mut(node as usize) {
            *noted = place;
        }
    }

    /// Leaves the plan in the net's kept sources: `ends` gets the node at which the visit at each place ends.
    pub(crate) fn leave(&self, net: &mut Net, visits: &Visits, ends: &mut [u32]) {
        for number in 0..count(self.places.len()) {
            self.note_ends(visits, number, ends);
        }
        for (number, saved) in net.saved.iter_mut().enumerate() {
            let machine = visits.node(count(number)).enters;
            let place = number_at(&self.places, number);
            *saved = if machine == NONE {
                NONE
            } else {
                number_at(ends, end_place(visits, machine, place))
            };
        }
    }

    /// Notes where the visit ends that begins at a node, and the one that has begun before it.
    fn note_ends(&self, visits: &Visits, number: u32, ends: &mut [u32]) {
        let node = visits.node(number);
        if node.enters != NONE {
            let place = number_at(&self.places, number as usize).wrapping_add(1);
            note_end(
                ends,
                end_place(visits, node.enters, place),
                number.wrapping_add(1),
            );
        }
        if !node.follows && node.leaves != NONE {
            note_end(ends, end_place(visits, node.leaves, 1), number);
        }
    }
}

/// Counts how many nodes come before others that so many come before in all, themselves too.
fn count_nodes(known: &mut Propagation, nodes: u32, counts: &mut [u32]) {
    for number in counts.iter_mut() {
        *number = 0;
    }
    for node in 0..nodes {
        let before = known.count_before(node).wrapping_add(1);
        if let Some(number) = counts.get_mut(before as usize) {
            *number = number.wrapping_add(1);
        }
    }
    let mut sum = 0u32;
    for number in counts.iter_mut() {
        sum = sum.wrapping_add(*number);
        *number = sum;
    }
}

/// Where the end of the visit is noted before which so many end on its machine, itself too.
fn end_place(visits: &Visits, machine: u32, place: u32) -> usize {
    let row = (machine as usize).wrapping_mul((visits.room() as usize).wrapping_add(1));
    row.wrapping_add(place as usize)
}

/// Notes where a visit ends.
fn note_end(ends: &mut [u32], place: usize, number: u32) {
    if let Some(end) = ends.get_mut(place) {
        *end = number;
    }
}

/// How many nodes come right before a node in a net.
fn before_in(net: &Net, number: u32) -> u32 {
    let spot = spot_at(&net.spots, number);
    u32::from(spot.back != NONE).wrapping_add(u32::from(spot.source != NONE))
}

/// Takes one from a node's count. Whether none is left.
fn take_one(counts: &mut [u32], number: u32) -> bool {
    match counts.get_mut(number as usize) {
        Some(left) => {
            *left = left.wrapping_sub(1);
            *left == 0
        }
        None => false,
    }
}

/// How many bits a row has that begins at a place.
fn bits_of(state: &State, row: usize, words: usize) -> u32 {
    let mut sum = 0u32;
    for word in 0..words {
        sum = sum.wrapping_add(state.word(row.wrapping_add(word)).count_ones());
    }
    sum
}
