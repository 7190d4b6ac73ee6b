//! What a complete search begins with: the pairs of a few jobs are open, and all others are decided as in a plan.

use crate::complete::Search;
use crate::standing::ORIGIN;
use crate::visits::{Visits, number_at, number_of, take_bit};
use plan_net::count;
use shop_base::Moment;

/// What it takes to begin, for each node, besides what its rows take.
const BEGINNING: u64 = 10;

impl Search {
    /// Begins with what holds in each plan whose jobs leave by these moments, where the pairs of these jobs alone are
    /// open. Whether there may be one.
    pub(crate) fn begin(
        &mut self,
        visits: &Visits,
        order: &[u32],
        free: &[bool],
        latest: &[Moment],
    ) -> bool {
        self.known.begin(visits, order, free);
        self.known.state.clear();
        self.mark_fixed(visits);
        self.open_pairs(visits, free);
        for node in order {
            self.reach_from_before(visits, *node);
        }
        let node_work = BEGINNING.wrapping_add(visits.words as u64);
        let work = (order.len() as u64).wrapping_mul(node_work);
        self.known.work = self.known.work.wrapping_add(work);
        let is_left = self.reach_back(visits, order, latest);
        self.known.state.commit();
        if is_left {
            self.check(visits);
        }
        is_left
    }

    /// Lets the pairs of these jobs be open, and decides all others as in the plan at hand.
    fn open_pairs(&mut self, visits: &Visits, free: &[bool]) {
        self.pairs.close_all();
        for number in 0..count(self.pairs.all.len()) {
            let pair = self.pairs.pair(number);
            if is_free(visits, free, pair.one) || is_free(visits, free, pair.other) {
                self.pairs.open(number);
            } else if number_at(&self.places, pair.one as usize)
                < number_at(&self.places, pair.other as usize)
            {
                self.mark(visits, pair.one, pair.other);
            } else {
                self.mark(visits, pair.other, pair.one);
            }
        }
    }

    /// Finds the latest moments of all nodes, from the last one in the order. Whether each may still come.
    fn reach_back(&mut self, visits: &Visits, order: &[u32], latest: &[Moment]) -> bool {
        let mut is_left = true;
        for turn in 0..order.len() {
            let node = number_at(order, order.len().wrapping_sub(turn).wrapping_sub(1));
            is_left &= self.reach_from_after(visits, node, latest);
        }
        is_left
    }

    /// Looks at all open pairs.
    fn check(&mut self, visits: &Visits) {
        for place in 0..self.pairs.left() {
            let pair = self.pairs.pair(self.pairs.open_at(place));
            self.known.check(visits, pair.one, pair.other);
        }
    }

    /// Notes which visits are sooner in each plan.
    fn mark_fixed(&mut self, visits: &Visits) {
        let state = &mut self.known.state;
        let (later, sooner) = (state.later(0), state.sooner(0));
        for (number, word) in visits.later.iter().enumerate() {
            state.write(later.wrapping_add(number), *word);
        }
        for (number, word) in visits.sooner.iter().enumerate() {
            state.write(sooner.wrapping_add(number), *word);
        }
    }

    /// Notes that one visit is sooner than the other, by the nodes at which they begin.
    fn mark(&mut self, visits: &Visits, one: u32, other: u32) {
        let state = &mut self.known.state;
        let exit = one.wrapping_add(1);
        state.mark(state.later(exit), visits.node(other).visit);
        state.mark(state.sooner(other), visits.node(one).visit);
    }

    /// Finds the earliest moment of a node and the nodes before it, from those.
    fn reach_from_before(&mut self, visits: &Visits, at: u32) {
        let state = &mut self.known.state;
        let node = visits.node(at);
        let row = state.before(at);
        state.mark(row, at);
        let mut early = ORIGIN.wrapping_add(node.lag);
        if node.follows {
            let back = at.wrapping_sub(1);
            early = state.early(back).wrapping_add(node.lag);
            state.join(state.before(back), row);
        }
        let clean = visits.clean(node.enters);
        for word in 0..visits.span {
            let mut left = state.word(state.sooner(at).wrapping_add(word));
            for _ in 0..left.count_ones() {
                let visit = number_of(word, take_bit(&mut left));
                let exit = visits.exit(node.enters, visit);
                early = early.max(state.early(exit).wrapping_add(clean));
                if !state.has(row, exit) {
                    state.join(state.before(exit), row);
                }
            }
        }
        state.write(state.early_place(at), early);
    }

    /// Finds the latest moment of a node and the nodes after it, from those. Whether it may still come.
    fn reach_from_after(&mut self, visits: &Visits, at: u32, latest: &[Moment]) -> bool {
        let state = &mut self.known.state;
        let node = visits.node(at);
        let row = state.after(at);
        state.mark(row, at);
        let mut late = match latest.get(node.job as usize) {
            Some(moment) => *moment,
            None => Moment::MAX / 2,
        };
        let next = at.wrapping_add(1);
        if visits.node(next).follows {
            late = state.late(next).wrapping_sub(visits.node(next).lag);
            state.join(state.after(next), row);
        }
        let clean = visits.clean(node.leaves);
        for word in 0..visits.span {
            let mut left = state.word(state.later(at).wrapping_add(word));
            for _ in 0..left.count_ones() {
                let visit = number_of(word, take_bit(&mut left));
                let entry = visits.entry(node.leaves, visit);
                late = late.min(state.late(entry).wrapping_sub(clean));
                if !state.has(row, entry) {
                    state.join(state.after(entry), row);
                }
            }
        }
        state.write(state.late_place(at), late);
        state.early(at) <= late
    }
}

/// Whether the pairs of the job of a node are open.
fn is_free(visits: &Visits, free: &[bool], node: u32) -> bool {
    match free.get(visits.node(node).job as usize) {
        Some(is_free) => *is_free,
        None => false,
    }
}
