//! What follows from a decision on two visits: by which nodes come before which, and by the moments between which they
//! have to lie.

use crate::due::Due;
use crate::state::State;
use crate::visits::{Visits, has_bit, number_at, number_of, set_bit, take_bit, word_at};
use plan_net::{NONE, count};
use shop_base::Moment;
use std::alloc::{AllocError, Global};

/// The most steps between two choices.
const STEPS: u32 = 0x100_0000;

/// The most halvings of the nodes of a job.
const HALVINGS: u32 = 32;

/// A decision: the visit that begins at the one node is sooner than that which begins at the other, on one machine.
#[derive(Clone, Copy)]
pub(crate) struct Decision {
    pub sooner: u32,
    pub later: u32,
}

/// No decision.
pub(crate) const NO_DECISION: Decision = Decision {
    sooner: NONE,
    later: NONE,
};

/// The nodes of an open job: the first and the last one, the first one that comes after some node, and the first one
/// that doesn't come before some node.
#[derive(Clone, Copy)]
struct Range {
    first: u32,
    last: u32,
    ahead: u32,
    behind: u32,
}

/// The nodes of no job.
const NO_RANGE: Range = Range {
    first: 0,
    last: NONE,
    ahead: 0,
    behind: 0,
};

/// The state, and what is still to be followed in it.
#[derive(Drop)]
pub(crate) struct Propagation {
    pub state: State,
    /// Decisions that have to be made, `waiting` of them.
    decisions: Vec<Decision>,
    waiting: u32,
    /// The nodes whose earliest moments have risen, and those whose latest ones have fallen.
    risen: Due,
    fallen: Due,
    /// The place of each node in the order of the plan at hand, and the node at each place.
    places: Vec<u32>,
    order: Vec<u32>,
    /// The nodes of the jobs whose pairs are open, as bits. The rows of the others alone stay as they were at first.
    open: Vec<u64>,
    ranges: Vec<Range>,
    open_jobs: usize,
    /// The nodes that come after a node, and those that come before one.
    after: Vec<u64>,
    before: Vec<u64>,
    /// The last decision that was made.
    pub last: Decision,
    /// How much was done, in some 100 ns each.
    pub work: u64,
}

impl Propagation {
    /// Room for these visits, and for so many pairs.
    pub(crate) fn new(
        alloc: Global,
        visits: &Visits,
        pairs: usize,
    ) -> Result<Propagation, AllocError> {
        let nodes = visits.nodes.len();
        let words = visits.words;
        Ok(Propagation {
            state: State::new(alloc, nodes, visits.span, words)?,
            decisions: vec![in alloc; NO_DECISION; pairs]?,
            waiting: 0,
            risen: Due::new(alloc, words)?,
            fallen: Due::new(alloc, words)?,
            places: vec![in alloc; NONE; nodes]?,
            order: vec![in alloc; NONE; nodes]?,
            open: vec![in alloc; 0; words]?,
            ranges: vec![in alloc; NO_RANGE; visits.leavings.len()]?,
            open_jobs: 0,
            after: vec![in alloc; 0; words]?,
            before: vec![in alloc; 0; words]?,
            last: NO_DECISION,
            work: 0,
        })
    }

    /// Lets nothing be to be followed, in the order of a plan, where these jobs are open.
    pub(crate) fn begin(&mut self, visits: &Visits, order: &[u32], free: &[bool]) {
        self.stop();
        self.open_jobs_of(visits, free);
        for (place, (at, node)) in self.order.iter_mut().zip(order.iter()).enumerate() {
            *at = *node;
            if let Some(noted) = self.places.get_mut(*node as usize) {
                *noted = count(place);
            }
        }
    }

    /// Lets these jobs be open, and no others.
    fn open_jobs_of(&mut self, visits: &Visits, free: &[bool]) {
        for bits in self.open.iter_mut() {
            *bits = 0;
        }
        self.open_jobs = 0;
        let mut first = 0;
        for (is_free, leaving) in free.iter().zip(visits.leavings.iter()) {
            if *is_free {
                self.open_job(first, leaving.node);
            }
            first = leaving.node.wrapping_add(1);
        }
    }

    /// Lets the job with these nodes be open.
    fn open_job(&mut self, first: u32, last: u32) {
        if let Some(range) = self.ranges.get_mut(self.open_jobs) {
            *range = Range {
                first,
                last,
                ahead: first,
                behind: first,
            };
            self.open_jobs = self.open_jobs.wrapping_add(1);
        }
        for node in first..last.wrapping_add(1) {
            set_bit(&mut self.open, 0, node);
        }
    }

    /// Lets nothing be to be followed.
    pub(crate) fn stop(&mut self) {
        self.waiting = 0;
        self.risen.clear();
        self.fallen.clear();
    }

    /// Notes a decision that has to be made, if it isn't yet.
    #[inline(always)]
    pub(crate) fn put(&mut self, visits: &Visits, sooner: u32, later: u32) {
        let row = self.state.later(sooner.wrapping_add(1));
        if self.state.has(row, visits.node(later).visit) {
            return;
        }
        if let Some(decision) = self.decisions.get_mut(self.waiting as usize) {
            *decision = Decision { sooner, later };
            self.waiting = self.waiting.wrapping_add(1);
        }
    }

    /// Follows all that is to be followed. Whether some plan may be left.
    pub(crate) fn settle(&mut self, visits: &Visits) -> bool {
        for _ in 0..STEPS {
            let is_left = if self.waiting > 0 {
                self.waiting = self.waiting.wrapping_sub(1);
                let decision = self.decision(self.waiting);
                self.decide(visits, decision)
            } else if let Some(place) = self.risen.take_first() {
                let node = number_at(&self.order, place as usize);
                self.spread_early(visits, node)
            } else if let Some(place) = self.fallen.take_last() {
                let node = number_at(&self.order, place as usize);
                self.spread_late(visits, node)
            } else {
                return true;
            };
            if !is_left {
                self.stop();
                return false;
            }
        }
        false
    }

    /// The decision at a place of those that wait.
    fn decision(&self, place: u32) -> Decision {
        match self.decisions.get(place as usize) {
            Some(decision) => *decision,
            None => NO_DECISION,
        }
    }

    /// Makes a decision. Whether some plan may be left.
    fn decide(&mut self, visits: &Visits, decision: Decision) -> bool {
        let Decision { sooner, later } = decision;
        let exit = sooner.wrapping_add(1);
        let one = visits.node(sooner);
        let other = visits.node(later);
        if self.state.has(self.state.later(exit), other.visit) {
            return true;
        }
        self.last = decision;
        self.work = self.work.wrapping_add(3);
        if self.leads(later, exit) {
            return false;
        }
        add_bit(&mut self.state, exit, other.visit, true);
        add_bit(&mut self.state, later, one.visit, false);
        if !self.leads(exit, later) {
            self.connect(visits, exit, later);
        }
        let clean = visits.clean(one.enters);
        let early = self.state.early(exit).wrapping_add(clean);
        let late = self.state.late(later).wrapping_sub(clean);
        self.rise(later, early) && self.fall(exit, late)
    }

    /// Whether the one node comes before the other, or is the same, where one of them is of an open job.
    #[inline(always)]
    pub(crate) fn leads(&self, from: u32, to: u32) -> bool {
        if has_bit(&self.open, 0, from) {
            self.state.has(self.state.after(from), to)
        } else {
            self.state.has(self.state.before(to), from)
        }
    }

    /// The same, found by the row of the other node where that is of an open job.
    #[inline(always)]
    fn leads_back(&self, from: u32, to: u32) -> bool {
        if has_bit(&self.open, 0, to) {
            self.state.has(self.state.before(to), from)
        } else {
            self.state.has(self.state.after(from), to)
        }
    }

    /// Lets the one node come before the other, and with it all that come before it.
    fn connect(&mut self, visits: &Visits, from: u32, to: u32) {
        self.find_after(to);
        self.find_before(from);
        self.add_to_before(visits, to);
        self.add_to_after(visits, from);
    }

    /// Adds the nodes that were found after a node to those after each that was found to come before it.
    fn add_to_before(&mut self, visits: &Visits, to: u32) {
        for turn in 0..self.open_jobs {
            let range = self.range(turn);
            for step in 0..range.behind.wrapping_sub(range.first) {
                let node = range.behind.wrapping_sub(step).wrapping_sub(1);
                if self.state.has(self.state.after(node), to) {
                    break;
                }
                self.add_after(visits, node);
            }
        }
    }

    /// Adds the nodes that were found before a node to those before each that was found to come after it.
    fn add_to_after(&mut self, visits: &Visits, from: u32) {
        for turn in 0..self.open_jobs {
            let range = self.range(turn);
            for node in range.ahead..range.last.wrapping_add(1) {
                if self.state.has(self.state.before(node), from) {
                    break;
                }
                self.add_before(visits, node);
            }
        }
    }

    /// The range of this number.
    #[inline(always)]
    fn range(&self, number: usize) -> Range {
        match self.ranges.get(number) {
            Some(range) => *range,
            None => NO_RANGE,
        }
    }

    /// How many nodes come before a node, itself too.
    pub(crate) fn count_before(&mut self, node: u32) -> u32 {
        self.find_before(node);
        let mut sum = 0u32;
        for bits in &self.before {
            sum = sum.wrapping_add(bits.count_ones());
        }
        sum
    }

    /// Finds all nodes that come after a node, and which are the first of these in the open jobs.
    fn find_after(&mut self, from: u32) {
        let row = self.state.after(from);
        for (word, bits) in self.after.iter_mut().enumerate() {
            *bits = self.state.word(row.wrapping_add(word));
        }
        let is_whole = has_bit(&self.open, 0, from);
        for turn in 0..self.open_jobs {
            let range = self.range(turn);
            let ahead = self.first_after(range, from);
            if let Some(range) = self.ranges.get_mut(turn) {
                range.ahead = ahead;
            }
            if !is_whole && ahead <= range.last {
                self.state.gather(self.state.after(ahead), &mut self.after);
            }
        }
    }

    /// Finds all nodes that come before a node, and behind which of these there are no more in the open jobs.
    fn find_before(&mut self, to: u32) {
        let row = self.state.before(to);
        for (word, bits) in self.before.iter_mut().enumerate() {
            *bits = self.state.word(row.wrapping_add(word));
        }
        let is_whole = has_bit(&self.open, 0, to);
        for turn in 0..self.open_jobs {
            let range = self.range(turn);
            let behind = self.first_not_before(range, to);
            if let Some(range) = self.ranges.get_mut(turn) {
                range.behind = behind;
            }
            if !is_whole && behind > range.first {
                let last = behind.wrapping_sub(1);
                self.state.gather(self.state.before(last), &mut self.before);
            }
        }
    }

    /// The first node of an open job that comes after a node, or is the same; the one after its last one if none does.
    #[inline(always)]
    fn first_after(&self, range: Range, from: u32) -> u32 {
        let mut least = range.first;
        let mut most = range.last.wrapping_add(1);
        for _ in 0..HALVINGS {
            if least >= most {
                break;
            }
            let middle = least.wrapping_add(most.wrapping_sub(least) / 2);
            if self.leads(from, middle) {
                most = middle;
            } else {
                least = middle.wrapping_add(1);
            }
        }
        least
    }

    /// The first node of an open job that doesn't come before a node and isn't the same; the one after its last one if
    /// all do.
    #[inline(always)]
    fn first_not_before(&self, range: Range, to: u32) -> u32 {
        let mut least = range.first;
        let mut most = range.last.wrapping_add(1);
        for _ in 0..HALVINGS {
            if least >= most {
                break;
            }
            let middle = least.wrapping_add(most.wrapping_sub(least) / 2);
            if self.leads_back(middle, to) {
                least = middle.wrapping_add(1);
            } else {
                most = middle;
            }
        }
        least
    }

    /// Adds nodes to those after a node. A visit that ends at a new one can't be sooner on the machine that is entered
    /// here.
    #[inline(always)]
    fn add_after(&mut self, visits: &Visits, node: u32) {
        let machine = visits.node(node).enters;
        let row = self.state.after(node);
        self.work = self.work.wrapping_add(visits.words as u64 / 8 + 1);
        for word in 0..visits.words {
            let new = self
                .state
                .add(row.wrapping_add(word), word_at(&self.after, word));
            let mut ends = new & visits.ends_in(machine, word);
            for _ in 0..ends.count_ones() {
                let end = number_of(word, take_bit(&mut ends));
                self.put(visits, node, end.wrapping_sub(1));
            }
        }
    }

    /// Adds nodes to those before a node. A visit of a job that isn't open that begins at a new one can't be later on
    /// the machine that is left here.
    #[inline(always)]
    fn add_before(&mut self, visits: &Visits, node: u32) {
        let machine = visits.node(node).leaves;
        let row = self.state.before(node);
        self.work = self.work.wrapping_add(visits.words as u64 / 8 + 1);
        for word in 0..visits.words {
            let new = self
                .state
                .add(row.wrapping_add(word), word_at(&self.before, word));
            let mut begins = new & visits.begins_in(machine, word) & !word_at(&self.open, word);
            for _ in 0..begins.count_ones() {
                let begin = number_of(word, take_bit(&mut begins));
                self.put(visits, begin, node.wrapping_sub(1));
            }
        }
    }

    /// Lets a node not come before a moment. Whether it may still come.
    #[inline(always)]
    fn rise(&mut self, node: u32, moment: Moment) -> bool {
        if moment <= self.state.early(node) {
            return true;
        }
        let place = self.state.early_place(node);
        self.state.set(place, moment);
        self.risen.put(number_at(&self.places, node as usize));
        moment <= self.state.late(node)
    }

    /// Lets a node not come after a moment. Whether it may still come.
    #[inline(always)]
    fn fall(&mut self, node: u32, moment: Moment) -> bool {
        if moment >= self.state.late(node) {
            return true;
        }
        let place = self.state.late_place(node);
        self.state.set(place, moment);
        self.fallen.put(number_at(&self.places, node as usize));
        moment >= self.state.early(node)
    }

    /// Follows a node's earliest moment to the nodes after it. Whether all of them may still come.
    fn spread_early(&mut self, visits: &Visits, at: u32) -> bool {
        self.work = self.work.wrapping_add(2);
        let node = visits.node(at);
        let early = self.state.early(at);
        let next = at.wrapping_add(1);
        let after = visits.node(next);
        if after.follows && !self.rise(next, early.wrapping_add(after.lag)) {
            return false;
        }
        if node.leaves == NONE {
            return true;
        }
        let moment = early.wrapping_add(visits.clean(node.leaves));
        for word in 0..visits.span {
            let later = self.state.word(self.state.later(at).wrapping_add(word));
            let mut left = later;
            for _ in 0..left.count_ones() {
                let visit = number_of(word, take_bit(&mut left));
                if !self.rise(visits.entry(node.leaves, visit), moment) {
                    return false;
                }
            }
            if node.follows {
                self.exclude_later(visits, at.wrapping_sub(1), word, later, moment);
            }
        }
        true
    }

    /// The visits that can't be later than the one which begins at a node, as that ends too late, are sooner.
    #[inline(always)]
    fn exclude_later(
        &mut self,
        visits: &Visits,
        entry: u32,
        word: usize,
        later: u64,
        moment: Moment,
    ) {
        let sooner = self.state.word(self.state.sooner(entry).wrapping_add(word));
        let mut open = visits.rivals_in(entry, word) & !later & !sooner;
        let machine = visits.node(entry).enters;
        for _ in 0..open.count_ones() {
            let other = visits.entry(machine, number_of(word, take_bit(&mut open)));
            if moment > self.state.late(other) {
                self.put(visits, other, entry);
            }
        }
    }

    /// Follows a node's latest moment to the nodes before it. Whether all of them may still come.
    fn spread_late(&mut self, visits: &Visits, at: u32) -> bool {
        self.work = self.work.wrapping_add(2);
        let node = visits.node(at);
        let late = self.state.late(at);
        if node.follows && !self.fall(at.wrapping_sub(1), late.wrapping_sub(node.lag)) {
            return false;
        }
        if node.enters == NONE {
            return true;
        }
        let moment = late.wrapping_sub(visits.clean(node.enters));
        for word in 0..visits.span {
            let sooner = self.state.word(self.state.sooner(at).wrapping_add(word));
            let mut left = sooner;
            for _ in 0..left.count_ones() {
                let visit = number_of(word, take_bit(&mut left));
                if !self.fall(visits.exit(node.enters, visit), moment) {
                    return false;
                }
            }
            self.exclude_sooner(visits, at, word, sooner, moment);
        }
        true
    }

    /// The visits that can't be sooner than the one which begins at a node, as they end too late, are later.
    #[inline(always)]
    fn exclude_sooner(
        &mut self,
        visits: &Visits,
        entry: u32,
        word: usize,
        sooner: u64,
        moment: Moment,
    ) {
        let exit = entry.wrapping_add(1);
        let later = self.state.word(self.state.later(exit).wrapping_add(word));
        let mut open = visits.rivals_in(entry, word) & !later & !sooner;
        let machine = visits.node(entry).enters;
        for _ in 0..open.count_ones() {
            let other = visits.entry(machine, number_of(word, take_bit(&mut open)));
            if self.state.early(other.wrapping_add(1)) > moment {
                self.put(visits, entry, other);
            }
        }
    }

    /// The orders that are excluded of a pair from the start have to be the other way round.
    pub(crate) fn check(&mut self, visits: &Visits, one: u32, other: u32) {
        for (sooner, later) in [(one, other), (other, one)] {
            let exit = sooner.wrapping_add(1);
            let clean = visits.clean(visits.node(later).enters);
            let early = self.state.early(exit).wrapping_add(clean);
            if early > self.state.late(later) || self.leads(later, exit) {
                self.put(visits, later, sooner);
            }
        }
    }
}

/// Notes a visit as later than the one that ends at a node, or as sooner than the one that begins there.
#[inline(always)]
fn add_bit(state: &mut State, node: u32, visit: u32, is_later: bool) {
    let row = if is_later {
        state.later(node)
    } else {
        state.sooner(node)
    };
    state.add(row.wrapping_add(visit as usize / 64), 1 << (visit & 63));
}
