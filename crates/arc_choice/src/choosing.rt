//! Which pair is decided next, and first which of its sides.

use crate::branch::State;
use crate::question::{Arc, Question, Side};
use std::alloc::{AllocError, Global};

/// Says which pair is decided next. It needn't be trusted: whatever it says, what the search answers is so.
pub trait Choose {
    /// A question is searched from now on. Called once for each question.
    fn begin(&mut self, alloc: Global, question: &Question) -> Result<(), AllocError>;

    /// An open pair, and its side that is tried first; the other follows where that fails. Called once for each
    /// choice, while a pair is open. No side, or one of a pair that isn't open, ends the search.
    fn choose(&mut self, question: &Question, state: &State) -> Option<Side>;

    /// The side of `pair` that was decided last leaves no answer: of the pair `at` neither side can be, or, where that
    /// is none, some node would come too late.
    fn clashed(&mut self, pair: usize, at: Option<usize>);
}

/// What a pair weighs, and gains at a clash, at first.
const FIRST_WEIGHT: u64 = 1 << 10;

/// The gain grows by one of so many parts at each clash.
const PARTS: u64 = 2_000;

/// Where the gain is past this, it and all weights are divided by `SCALE`.
const MOST_GAIN: u64 = 1 << 40;

const SCALE: u64 = 1 << 20;

/// Decides the pair with the least slack for its weight, and first its side that has less: the slack of a side is how
/// much later than its earliest moment its source may be at most. Pairs at which the search fails gain weight, the more
/// the later they do.
#[derive(Drop)]
pub struct LeastSlack {
    weights: Vec<u64>,
    gain: u64,
}

/// A pair that may be decided.
#[derive(Clone, Copy)]
struct Candidate {
    side: Side,
    slack: u64,
    weight: u64,
}

impl Candidate {
    /// Whether it has less slack for its weight.
    fn is_before(&self, other: &Candidate) -> bool {
        let this = u128::from(self.slack).saturating_mul(u128::from(other.weight));
        this < u128::from(other.slack).saturating_mul(u128::from(self.weight))
    }
}

impl LeastSlack {
    /// For any number of questions, one after the other.
    pub fn new(alloc: Global) -> LeastSlack {
        LeastSlack {
            weights: Vec::new(alloc),
            gain: FIRST_WEIGHT,
        }
    }

    /// What the pair weighs.
    fn weight(&self, pair: usize) -> u64 {
        match self.weights.get(pair) {
            Some(weight) => *weight,
            None => FIRST_WEIGHT,
        }
    }

    /// The pair and its side with less slack.
    fn candidate(&self, question: &Question, state: &State, pair: usize) -> Option<Candidate> {
        let sides = question.pairs.get(pair)?;
        let one = slack(state, sides.one);
        let other = slack(state, sides.other);
        Some(Candidate {
            side: Side {
                pair,
                one: one < other,
            },
            slack: one.saturating_add(other).saturating_add(2),
            weight: self.weight(pair),
        })
    }

    /// The pair gains weight.
    fn add_weight(&mut self, pair: usize) {
        if let Some(weight) = self.weights.get_mut(pair) {
            *weight = weight.saturating_add(self.gain);
        }
    }

    /// The gain and all weights are divided.
    fn scale(&mut self) {
        self.gain /= SCALE;
        for weight in self.weights.iter_mut() {
            *weight = *weight / SCALE + 1;
        }
    }
}

/// How much later than its earliest moment the arc's source may be at most.
fn slack(state: &State, arc: Arc) -> u64 {
    let head = state.heads.get(arc.from as usize);
    let last = state.latest.get(arc.to as usize);
    match (head, last) {
        (Some(head), Some(last)) => last.saturating_sub(head.saturating_add(arc.length)),
        _ => 0,
    }
}

/// The one with less slack for its weight, the first if both have the same.
fn lesser(first: Option<Candidate>, second: Candidate) -> Candidate {
    match first {
        Some(first) if !second.is_before(&first) => first,
        _ => second,
    }
}

impl Choose for LeastSlack {
    fn begin(&mut self, alloc: Global, question: &Question) -> Result<(), AllocError> {
        self.weights = vec![in alloc; FIRST_WEIGHT; question.pairs.len()]?;
        self.gain = FIRST_WEIGHT;
        Ok(())
    }

    fn choose(&mut self, question: &Question, state: &State) -> Option<Side> {
        let mut best = None;
        for pair in &state.open {
            let candidate = self.candidate(question, state, *pair)?;
            best = Some(lesser(best, candidate));
        }
        Some(best?.side)
    }

    fn clashed(&mut self, pair: usize, at: Option<usize>) {
        self.gain = self.gain.saturating_add(self.gain / PARTS + 1);
        self.add_weight(pair);
        if let Some(at) = at {
            self.add_weight(at);
        }
        if self.gain > MOST_GAIN {
            self.scale();
        }
    }
}
