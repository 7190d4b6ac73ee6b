//! Which nodes come after which, as far as it is known.

ghost use Rattle.std.specs.Prelude.{◌≡◌, ℕ, ◌+◌, ◌*◌, ◌/◌, ◌^◌, ◌<◌, ◌≤◌, ◌↔◌, IfOk, length, true};
ghost use Rattle.arc_choice.specs.Reach.{HasBit, Says, Owns, JoinsWord, Joins, ConnectsOne, Connects};

use std::alloc::{AllocError, Global};
use std::marker::Model;

/// For each two nodes, whether the first is known to come before the second or with it.
#[derive(Drop)]
pub(crate) struct Reach {
    nodes: usize,
    words: usize,
    bits: Vec<u64>,
}

impl Model for Reach {
    ghost use Rattle.arc_choice.specs.Reach.{Order, IsSized};

    ghost Value = { Order };

    ghost view = { λ r. record { nodes = r.nodes; words = r.words; bits = r.bits.items } };

    ghost invariant = { λ r. IsSized (record { nodes = r.nodes; words = r.words; bits = r.bits.items }) };
}

impl Reach {
    /// Each node comes with itself, and nothing else is known.
    pub(crate) fn new(alloc: Global, nodes: usize) -> Result<Reach, AllocError>
        requires { nodes < 2 ^ 32 }
        ensures bits { IfOk result (λ reach. Says nodes reach (λ a b. a ≡ b)) }
        ensures nodes { IfOk result (λ reach. reach.nodes ≡ nodes) }
    {
        let mut reach = Reach::empty(alloc, nodes)?;
        for node in 0..nodes {
            reach.own(node);
        }
        Ok(reach)
    }

    /// Nothing is known.
    fn empty(alloc: Global, nodes: usize) -> Result<Reach, AllocError>
        requires { nodes < 2 ^ 32 }
        ensures bits { IfOk result (λ reach. (a b : ℕ) → HasBit reach a b → ⊥) }
        ensures nodes { IfOk result (λ reach. reach.nodes ≡ nodes) }
    {
        let words = nodes / 64 + 1;
        let bits = vec![in alloc; 0; nodes * words]?;
        Ok(Reach { nodes, words, bits })
    }

    /// The same again.
    pub(crate) fn copy(&self, alloc: Global) -> Result<Reach, AllocError>
        ensures { IfOk result (λ copy. copy ≡ self.now) }
    {
        let bits = Vec::from_slice(alloc, self.bits.as_slice())?;
        Ok(Reach {
            nodes: self.nodes,
            words: self.words,
            bits,
        })
    }

    /// How many nodes there are.
    fn node_count(&self) -> usize
        ensures { result ≡ self.now.nodes }
    {
        self.nodes
    }

    /// How many words a node's row has.
    pub(crate) fn word_count(&self) -> usize
        ensures words { result ≡ self.now.words }
        ensures wide { self.now.nodes ≤ result * 64 }
    {
        self.words
    }

    /// Where a word of a node's row is.
    fn place(&self, node: usize, word: usize) -> usize
        requires node { node < self.now.nodes }
        requires word { word < self.now.words }
        ensures place { result ≡ node * self.now.words + word }
        ensures inside { result < length self.now.bits }
    {
        node * self.words + word
    }

    /// Where the word with a node's bit is in another node's row.
    fn place_of(&self, node: usize, to: usize) -> usize
        requires node { node < self.now.nodes }
        requires to { to < self.now.nodes }
        ensures place { result ≡ node * self.now.words + to / 64 }
        ensures inside { result < length self.now.bits }
    {
        node * self.words + to / 64
    }

    /// Whether node `to` is known to come after node `from`, or with it.
    pub(crate) fn has(&self, from: usize, to: usize) -> bool
        requires from { from < self.now.nodes }
        requires to { to < self.now.nodes }
        ensures { (result ≡ true) ↔ HasBit self.now from to }
    {
        let place = self.place_of(from, to);
        (self.bits[place] >> (to % 64)) & 1 == 1
    }

    /// A node comes with itself.
    fn own(&mut self, node: usize)
        requires { node < self.old.nodes }
        ensures bits { Says self.old.nodes self.new (Owns self.old node) }
        ensures nodes { self.new.nodes ≡ self.old.nodes }
    {
        let place = self.place_of(node, node);
        self.bits[place] |= 1 << (node % 64);
    }

    /// What comes after node `to` comes after node `from`.
    fn join(&mut self, from: usize, to: usize)
        requires from { from < self.old.nodes }
        requires to { to < self.old.nodes }
        ensures bits { Says self.old.nodes self.new (Joins self.old from to) }
        ensures nodes { self.new.nodes ≡ self.old.nodes }
    {
        for word in 0..self.word_count() {
            self.join_word(from, to, word);
        }
    }

    /// The same of the nodes of one word.
    fn join_word(&mut self, from: usize, to: usize, word: usize)
        requires from { from < self.old.nodes }
        requires to { to < self.old.nodes }
        requires word { word < self.old.words }
        ensures bits { Says self.old.nodes self.new (JoinsWord self.old from to word) }
        ensures nodes { self.new.nodes ≡ self.old.nodes }
        ensures words { self.new.words ≡ self.old.words }
    {
        let there = self.place(to, word);
        let here = self.place(from, word);
        let more = self.bits[there];
        self.bits[here] |= more;
    }

    /// Node `to`, and what comes after it, comes after node `from` and all that come before that.
    pub(crate) fn connect(&mut self, from: usize, to: usize)
        requires from { from < self.old.nodes }
        requires to { to < self.old.nodes }
        ensures bits { Says self.old.nodes self.new (Connects self.old from to) }
        ensures nodes { self.new.nodes ≡ self.old.nodes }
    {
        for node in 0..self.node_count() {
            self.connect_one(node, from, to);
        }
    }

    /// The same for one node that may come before `from`.
    fn connect_one(&mut self, node: usize, from: usize, to: usize)
        requires node { node < self.old.nodes }
        requires from { from < self.old.nodes }
        requires to { to < self.old.nodes }
        ensures bits { Says self.old.nodes self.new (ConnectsOne self.old node from to) }
        ensures nodes { self.new.nodes ≡ self.old.nodes }
    {
        if !self.has(node, from) {
            return;
        }
        self.join(node, to);
    }
}
