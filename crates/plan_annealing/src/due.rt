//! Places that are to be looked at, first or last one first.

use crate::visits::{number_of, take_bit, word_at};
use std::alloc::{AllocError, Global};

/// A set of places, as bits, and words between which they all are.
#[derive(Drop)]
pub(crate) struct Due {
    words: Vec<u64>,
    first: usize,
    last: usize,
}

impl Due {
    /// Room for the places in so many words.
    pub(crate) fn new(alloc: Global, words: usize) -> Result<Due, AllocError> {
        Ok(Due {
            words: vec![in alloc; 0; words]?,
            first: words,
            last: 0,
        })
    }

    /// Takes all out.
    pub(crate) fn clear(&mut self) {
        for word in self.words.iter_mut() {
            *word = 0;
        }
        self.first = self.words.len();
        self.last = 0;
    }

    /// Puts a place in.
    #[inline(always)]
    pub(crate) fn put(&mut self, place: u32) {
        let number = place as usize / 64;
        if let Some(word) = self.words.get_mut(number) {
            *word |= 1 << (place & 63);
            self.first = self.first.min(number);
            self.last = self.last.max(number);
        }
    }

    /// Takes the first place out.
    #[inline(always)]
    pub(crate) fn take_first(&mut self) -> Option<u32> {
        for number in self.first..self.words.len() {
            if let Some(word) = self.words.get_mut(number) {
                if *word != 0 {
                    self.first = number;
                    let bit = take_bit(word);
                    return Some(number_of(number, bit));
                }
            }
        }
        self.first = self.words.len();
        self.last = 0;
        None
    }

    /// Takes the last place out.
    #[inline(always)]
    pub(crate) fn take_last(&mut self) -> Option<u32> {
        let last = self.last;
        for turn in 0..last.wrapping_add(1) {
            let number = last.wrapping_sub(turn);
            let word = word_at(&self.words, number);
            if word != 0 {
                self.last = number;
                let bit = 63u32.wrapping_sub(word.leading_zeros());
                if let Some(left) = self.words.get_mut(number) {
                    *left = word & !(1 << (bit & 63));
                }
                return Some(number_of(number, bit));
            }
        }
        self.first = self.words.len();
        self.last = 0;
        None
    }
}
