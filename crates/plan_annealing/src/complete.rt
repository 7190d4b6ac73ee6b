//! A complete search, depth first, over the open pairs of a shop: each is decided one way and, where that fails, the
//! other way.

use crate::pairs::{Pairs, room_between};
use crate::propagation::{Decision, NO_DECISION, Propagation};
use crate::standing::Lateness;
use crate::visits::{Visits, number_at};
use plan_net::{NONE, count};
use shop_base::Moment;
use std::alloc::{AllocError, Global};

/// How many pairs may be decided one way at a time.
const DEPTH: usize = 1024;

/// Which way a pair is decided first.
#[derive(Clone, Copy, PartialEq, Eq)]
pub(crate) enum Way {
    /// That with more room.
    Wide,
    /// As in the plan at hand.
    Same,
}

/// What came of a search.
#[derive(Clone, Copy, PartialEq, Eq)]
pub(crate) enum Found {
    /// The state is a plan.
    Plan,
    /// There is none.
    Never,
    /// Nothing, in so many choices.
    Unknown,
}

/// A pair that is decided one way, the other way, and how things were before.
#[derive(Clone, Copy)]
struct Choice {
    pair: u32,
    second: Decision,
    height: usize,
    left: u32,
}

/// What is searched, and how.
#[derive(Drop)]
pub(crate) struct Search {
    pub known: Propagation,
    pub pairs: Pairs,
    choices: Vec<Choice>,
    depth: usize,
    pub way: Way,
    /// The places of the plan at hand.
    pub places: Vec<u32>,
    /// What all jobs together may be late.
    pub most: Moment,
}

impl Search {
    /// A search among these visits.
    pub(crate) fn new(alloc: Global, visits: &Visits) -> Result<Search, AllocError> {
        let pairs = Pairs::new(alloc, visits)?;
        let no_choice = Choice {
            pair: NONE,
            second: NO_DECISION,
            height: 0,
            left: 0,
        };
        Ok(Search {
            known: Propagation::new(alloc, visits, pairs.all.len())?,
            pairs,
            choices: vec![in alloc; no_choice; DEPTH]?,
            depth: 0,
            way: Way::Same,
            places: vec![in alloc; 0; visits.nodes.len()]?,
            most: 0,
        })
    }

    /// Searches from the state on, with at most so many choices.
    pub(crate) fn run(&mut self, visits: &Visits, choices: u32) -> Found {
        self.depth = 0;
        if !self.follow(visits) {
            return Found::Never;
        }
        self.known.state.commit();
        let mut made = 0u32;
        for _ in 0..choices {
            if made >= choices || self.depth >= self.choices.len() {
                return Found::Unknown;
            }
            let pair = self.choose(visits);
            if pair == NONE {
                return Found::Plan;
            }
            made = made.wrapping_add(1);
            if !self.decide(visits, pair) {
                match self.back(visits) {
                    Some(more) => made = made.wrapping_add(more),
                    None => return Found::Never,
                }
            }
            if self.known.state.is_full {
                return Found::Unknown;
            }
        }
        Found::Unknown
    }

    /// Chooses a pair; `NONE` if none is open.
    fn choose(&mut self, visits: &Visits) -> u32 {
        let looks = u64::from(self.pairs.left()) / 4;
        self.known.work = self.known.work.wrapping_add(looks);
        self.pairs.choose(visits, &self.known.state)
    }

    /// Decides a pair the first way. Whether some plan may be left.
    fn decide(&mut self, visits: &Visits, number: u32) -> bool {
        let pair = self.pairs.pair(number);
        let one_first = match self.way {
            Way::Wide => {
                room_between(visits, &self.known.state, pair.one, pair.other)
                    >= room_between(visits, &self.known.state, pair.other, pair.one)
            }
            Way::Same => {
                number_at(&self.places, pair.one as usize)
                    < number_at(&self.places, pair.other as usize)
            }
        };
        let (sooner, later) = if one_first {
            (pair.one, pair.other)
        } else {
            (pair.other, pair.one)
        };
        if let Some(choice) = self.choices.get_mut(self.depth) {
            *choice = Choice {
                pair: number,
                second: Decision {
                    sooner: later,
                    later: sooner,
                },
                height: self.known.state.height(),
                left: self.pairs.left(),
            };
            self.depth = self.depth.wrapping_add(1);
        }
        self.known.put(visits, sooner, later);
        self.follow(visits)
    }

    /// Decides the last pair that can be decided the other way so. How many were, `None` if no plan is left.
    fn back(&mut self, visits: &Visits) -> Option<u32> {
        for turn in 0..count(self.choices.len()) {
            if self.depth == 0 {
                return None;
            }
            self.depth = self.depth.wrapping_sub(1);
            let choice = match self.choices.get(self.depth) {
                Some(choice) => *choice,
                None => return None,
            };
            let seen = self.known.last;
            self.pairs
                .fail(choice.pair, seen.sooner, visits.node(seen.later).visit);
            self.known.state.undo(choice.height);
            self.pairs.reopen(choice.left);
            self.known
                .put(visits, choice.second.sooner, choice.second.later);
            if self.follow(visits) {
                return Some(turn.wrapping_add(1));
            }
        }
        None
    }

    /// Follows all that is known. Whether a plan may be left that isn't too late in all.
    fn follow(&mut self, visits: &Visits) -> bool {
        self.known.settle(visits)
            && (self.most == Moment::MAX
                || Lateness::of(visits, &self.known.state).total <= self.most)
    }
}
