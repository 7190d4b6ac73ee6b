//! What a complete search knows of the plans that it may still find, and how it was before its choices: each word that
//! is written is noted, so that a choice is taken back by the words that it changed.

use crate::visits::{has_bit, set_bit, word_at};
use plan_net::count;
use shop_base::Moment;
use std::alloc::{AllocError, Global};

/// How many words may be written for each node before they are taken back.
const TRAIL_A_NODE: usize = 256;

/// How many may be written at most.
const TRAIL: usize = 0x4_0000;

/// A word, and what it was.
#[derive(Clone, Copy)]
struct Change {
    place: u32,
    word: u64,
}

/// The change of no word.
const NO_CHANGE: Change = Change { place: 0, word: 0 };

/// The words of all nodes: the earliest and the latest moment of each, the visits that are decided to be later than the
/// one that ends there and sooner than the one that begins there, and the nodes after it and before it, itself too.
#[derive(Drop)]
pub(crate) struct State {
    nodes: usize,
    span: usize,
    width: usize,
    words: Vec<u64>,
    trail: Vec<Change>,
    height: usize,
    /// Whether there was no room to note a change.
    pub is_full: bool,
}

impl State {
    /// Room for so many nodes, with rows of so many words for the visits of a machine and for all nodes.
    pub(crate) fn new(
        alloc: Global,
        nodes: usize,
        span: usize,
        width: usize,
    ) -> Result<State, AllocError> {
        let row = span.wrapping_add(width).wrapping_add(1).wrapping_mul(2);
        Ok(State {
            nodes,
            span,
            width,
            words: vec![in alloc; 0; nodes.wrapping_mul(row)]?,
            trail: vec![in alloc; NO_CHANGE; nodes.wrapping_mul(TRAIL_A_NODE).min(TRAIL)]?,
            height: 0,
            is_full: false,
        })
    }

    /// Lets nothing be known.
    pub(crate) fn clear(&mut self) {
        for word in self.words.iter_mut() {
            *word = 0;
        }
        self.commit();
    }

    /// Lets nothing be taken back.
    pub(crate) fn commit(&mut self) {
        self.height = 0;
        self.is_full = false;
    }

    /// How many changes are noted.
    pub(crate) fn height(&self) -> usize {
        self.height
    }

    /// Takes the changes back that were noted after the first so many.
    pub(crate) fn undo(&mut self, height: usize) {
        for _ in height..self.height {
            self.height = self.height.wrapping_sub(1);
            if let Some(change) = self.trail.get(self.height) {
                if let Some(word) = self.words.get_mut(change.place as usize) {
                    *word = change.word;
                }
            }
        }
    }

    /// The word at a place.
    #[inline(always)]
    pub(crate) fn word(&self, place: usize) -> u64 {
        word_at(&self.words, place)
    }

    /// Writes a word whose change isn't noted.
    #[inline(always)]
    pub(crate) fn write(&mut self, place: usize, word: u64) {
        if let Some(old) = self.words.get_mut(place) {
            *old = word;
        }
    }

    /// Writes a word.
    #[inline(always)]
    pub(crate) fn set(&mut self, place: usize, word: u64) {
        if let Some(old) = self.words.get_mut(place) {
            match self.trail.get_mut(self.height) {
                Some(change) => {
                    *change = Change {
                        place: count(place),
                        word: *old,
                    };
                    self.height = self.height.wrapping_add(1);
                }
                None => self.is_full = true,
            }
            *old = word;
        }
    }

    /// Adds bits to a word. Gives those that are new.
    #[inline(always)]
    pub(crate) fn add(&mut self, place: usize, bits: u64) -> u64 {
        let old = self.word(place);
        let new = bits & !old;
        if new != 0 {
            self.set(place, old | bits);
        }
        new
    }

    /// Adds the bits of a row to the one at another place, where no change is noted.
    #[inline(always)]
    pub(crate) fn join(&mut self, from: usize, to: usize) {
        for word in 0..self.width {
            let bits = self.word(from.wrapping_add(word));
            if let Some(old) = self.words.get_mut(to.wrapping_add(word)) {
                *old |= bits;
            }
        }
    }

    /// Adds the bits of a row to these.
    #[inline(always)]
    pub(crate) fn gather(&self, row: usize, bits: &mut [u64]) {
        for (word, place) in bits.iter_mut().enumerate() {
            *place |= self.word(row.wrapping_add(word));
        }
    }

    /// Sets a bit of a row, where no change is noted.
    pub(crate) fn mark(&mut self, row: usize, bit: u32) {
        set_bit(&mut self.words, row, bit);
    }

    /// Whether a row has a bit.
    #[inline(always)]
    pub(crate) fn has(&self, row: usize, bit: u32) -> bool {
        has_bit(&self.words, row, bit)
    }

    /// Where the earliest moment of a node is.
    #[inline(always)]
    pub(crate) fn early_place(&self, node: u32) -> usize {
        node as usize
    }

    /// Where the latest moment of a node is.
    #[inline(always)]
    pub(crate) fn late_place(&self, node: u32) -> usize {
        self.nodes.wrapping_add(node as usize)
    }

    /// The earliest moment of a node.
    #[inline(always)]
    pub(crate) fn early(&self, node: u32) -> Moment {
        self.word(self.early_place(node))
    }

    /// The latest moment of a node.
    #[inline(always)]
    pub(crate) fn late(&self, node: u32) -> Moment {
        self.word(self.late_place(node))
    }

    /// The row of the visits that are later than the one that ends at a node.
    #[inline(always)]
    pub(crate) fn later(&self, node: u32) -> usize {
        self.nodes
            .wrapping_mul(2)
            .wrapping_add((node as usize).wrapping_mul(self.span))
    }

    /// The row of the visits that are sooner than the one that begins at a node.
    #[inline(always)]
    pub(crate) fn sooner(&self, node: u32) -> usize {
        self.nodes
            .wrapping_mul(self.span.wrapping_add(2))
            .wrapping_add((node as usize).wrapping_mul(self.span))
    }

    /// The row of the nodes after a node.
    #[inline(always)]
    pub(crate) fn after(&self, node: u32) -> usize {
        self.nodes
            .wrapping_mul(self.span.wrapping_mul(2).wrapping_add(2))
            .wrapping_add((node as usize).wrapping_mul(self.width))
    }

    /// The row of the nodes before a node.
    #[inline(always)]
    pub(crate) fn before(&self, node: u32) -> usize {
        self.nodes
            .wrapping_mul(
                self.span
                    .wrapping_mul(2)
                    .wrapping_add(self.width)
                    .wrapping_add(2),
            )
            .wrapping_add((node as usize).wrapping_mul(self.width))
    }
}
