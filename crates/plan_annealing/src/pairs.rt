//! The pairs of visits to a machine by two jobs that are still open, and which of them is decided next.

use crate::state::State;
use crate::visits::{Visits, number_at};
use plan_net::{NONE, count};
use std::alloc::{AllocError, Global};

/// What a pair weighs at first.
const WEIGHT: u64 = 1 << 10;

/// The most that is added to a weight; past that all weights are made less.
const MOST_GAIN: u64 = 1 << 36;

/// By how many halvings.
const HALVINGS: u64 = 20;

/// The least by which the gain grows: by one in so many.
const GROWTH: u64 = 2000;

/// More room than this counts as this much.
const MOST_ROOM: u64 = 1 << 22;

/// Two entries of one machine, by the nodes at which they begin: the first one's number is less.
#[derive(Clone, Copy)]
pub(crate) struct Pair {
    pub one: u32,
    pub other: u32,
}

/// All pairs, those that are open, and how often each has failed.
#[derive(Drop)]
pub(crate) struct Pairs {
    pub all: Vec<Pair>,
    /// The numbers of all pairs: those that may be open are the first ones, `left` of them.
    open: Vec<u32>,
    left: u32,
    weights: Vec<u64>,
    gain: u64,
    /// The number of each pair, by the node of the one and the visit of the other.
    numbers: Vec<u32>,
    room: u32,
}

impl Pairs {
    /// The pairs of all visits.
    pub(crate) fn new(alloc: Global, visits: &Visits) -> Result<Pairs, AllocError> {
        let room = visits.room();
        let mut pairs = Pairs {
            all: Vec::new(alloc),
            open: Vec::new(alloc),
            left: 0,
            weights: Vec::new(alloc),
            gain: WEIGHT,
            numbers: vec![in alloc; NONE; visits.nodes.len().wrapping_mul(room as usize)]?,
            room,
        };
        for one in 0..count(visits.nodes.len()) {
            for visit in 0..room {
                pairs.add(visits, one, visit)?;
            }
        }
        Ok(pairs)
    }

    /// Adds the pair of the visit that begins at a node and another one, if it comes from a later job.
    fn add(&mut self, visits: &Visits, one: u32, visit: u32) -> Result<(), AllocError> {
        let node = visits.node(one);
        let other = visits.entry(node.enters, visit);
        if other == NONE || other <= one || visits.node(other).job == node.job {
            return Ok(());
        }
        let number = count(self.all.len());
        self.all.push(Pair { one, other })?;
        self.open.push(number)?;
        self.weights.push(WEIGHT)?;
        self.note(one, visit, number);
        self.note(other, node.visit, number);
        Ok(())
    }

    /// Notes the number of a pair.
    fn note(&mut self, node: u32, visit: u32, number: u32) {
        let place = (node as usize)
            .wrapping_mul(self.room as usize)
            .wrapping_add(visit as usize);
        if let Some(noted) = self.numbers.get_mut(place) {
            *noted = number;
        }
    }

    /// Lets no pair be open.
    pub(crate) fn close_all(&mut self) {
        self.left = 0;
    }

    /// Lets a pair be open that isn't.
    pub(crate) fn open(&mut self, number: u32) {
        if let Some(place) = self.open.get_mut(self.left as usize) {
            *place = number;
            self.left = self.left.wrapping_add(1);
        }
    }

    /// How many pairs may be open.
    pub(crate) fn left(&self) -> u32 {
        self.left
    }

    /// Lets the first so many pairs be open again.
    pub(crate) fn reopen(&mut self, left: u32) {
        self.left = left;
    }

    /// The pair of a number.
    #[inline(always)]
    pub(crate) fn pair(&self, number: u32) -> Pair {
        match self.all.get(number as usize) {
            Some(pair) => *pair,
            None => Pair {
                one: NONE,
                other: NONE,
            },
        }
    }

    /// The number at a place among those that may be open.
    #[inline(always)]
    pub(crate) fn open_at(&self, place: u32) -> u32 {
        number_at(&self.open, place as usize)
    }

    /// Lets a weight be this.
    pub(crate) fn weigh(&mut self, number: u32, weight: u64) {
        if let Some(place) = self.weights.get_mut(number as usize) {
            *place = weight.wrapping_mul(WEIGHT);
        }
    }

    /// Lets the gain be what it was at first.
    pub(crate) fn begin(&mut self) {
        self.gain = WEIGHT;
    }

    /// The pair with the least room for its weight; `NONE` if all are decided. Those that are decided are no longer
    /// open.
    pub(crate) fn choose(&mut self, visits: &Visits, state: &State) -> u32 {
        let mut best = NONE;
        let mut best_room = 1u64;
        let mut best_weight = 0u64;
        let mut kept = 0;
        let mut place = 0;
        for _ in 0..self.left {
            let number = self.open_at(place);
            let pair = self.pair(number);
            if is_decided(visits, state, pair) {
                self.close(place);
                continue;
            }
            let room = room_of(visits, state, pair);
            let weight = self.weights.get(number as usize).copied().unwrap_or(0);
            if best == NONE || room.wrapping_mul(best_weight) < best_room.wrapping_mul(weight) {
                best = number;
                best_room = room;
                best_weight = weight;
                kept = place;
            }
            place = place.wrapping_add(1);
        }
        if best != NONE {
            self.close(kept);
        }
        best
    }

    /// Lets the pair at a place no longer be open: it changes places with the last one that is.
    #[inline(always)]
    fn close(&mut self, place: u32) {
        let last = self.left.wrapping_sub(1);
        let moved = self.open_at(last);
        if let Some(number) = self.open.get_mut(place as usize) {
            let closed = *number;
            *number = moved;
            if let Some(end) = self.open.get_mut(last as usize) {
                *end = closed;
            }
        }
        self.left = last;
    }

    /// Notes that a pair has failed both ways, and the pair of two visits at which that was seen.
    pub(crate) fn fail(&mut self, number: u32, node: u32, visit: u32) {
        self.gain = self.gain.wrapping_add(self.gain / GROWTH).wrapping_add(1);
        let place = (node as usize)
            .wrapping_mul(self.room as usize)
            .wrapping_add(visit as usize);
        let seen = number_at(&self.numbers, place);
        for failed in [number, seen] {
            if let Some(weight) = self.weights.get_mut(failed as usize) {
                *weight = weight.wrapping_add(self.gain);
            }
        }
        if self.gain > MOST_GAIN {
            self.gain >>= HALVINGS;
            for weight in self.weights.iter_mut() {
                *weight = (*weight >> HALVINGS).wrapping_add(1);
            }
        }
    }
}

/// Whether it is decided which visit of a pair is sooner.
#[inline(always)]
fn is_decided(visits: &Visits, state: &State, pair: Pair) -> bool {
    let one = visits.node(pair.one).visit;
    let other = visits.node(pair.other).visit;
    state.has(state.sooner(pair.one), other) || state.has(state.sooner(pair.other), one)
}

/// How much later than they must be the two may come, in both orders together, and 2.
#[inline(always)]
fn room_of(visits: &Visits, state: &State, pair: Pair) -> u64 {
    let clean = visits.clean(visits.node(pair.one).enters);
    let late = state.late(pair.one).wrapping_add(state.late(pair.other));
    let early = state
        .early(pair.one.wrapping_add(1))
        .wrapping_add(state.early(pair.other.wrapping_add(1)));
    late.wrapping_sub(early)
        .wrapping_sub(clean.wrapping_mul(2))
        .wrapping_add(2)
        .min(MOST_ROOM)
}

/// By how much the one visit of a pair may wait for the other to end.
#[inline(always)]
pub(crate) fn room_between(visits: &Visits, state: &State, sooner: u32, later: u32) -> u64 {
    let clean = visits.clean(visits.node(later).enters);
    state
        .late(later)
        .wrapping_sub(state.early(sooner.wrapping_add(1)))
        .wrapping_sub(clean)
}
