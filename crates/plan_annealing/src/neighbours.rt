//! The neighbours of a plan, and what is known of them.

use crate::timing::Row;
use plan_net::{NONE, Spot, count, spot_at};
use shop_base::Moment;
use std::alloc::{AllocError, Global};

/// The machine arcs on the paths that are to be shortened. Each can be turned round in two ways: neighbour 2 `i` moves
/// a job at arc `i` to the left, and neighbour 2 `i` + 1 one to the right.
#[derive(Drop)]
pub(crate) struct Neighbours {
    /// The arcs by their targets, and how many they are.
    arcs: Vec<u32>,
    arc_count: u32,
    /// An estimate of what each neighbour weighs, 0 where there is none.
    leasts: Vec<Moment>,
    /// In which search each node was met last, and the number of this one.
    met: Vec<u32>,
    search: u32,
}

impl Neighbours {
    pub(crate) fn new(alloc: Global, nodes: usize) -> Result<Neighbours, AllocError> {
        Ok(Neighbours {
            arcs: vec![in alloc; NONE; nodes]?,
            arc_count: 0,
            leasts: vec![in alloc; 0; nodes.wrapping_mul(2)]?,
            met: vec![in alloc; 0; nodes]?,
            search: 0,
        })
    }

    /// How many they are.
    pub(crate) fn count(&self) -> u32 {
        self.arc_count.wrapping_mul(2)
    }

    /// The entry that the arc of a neighbour leads to.
    pub(crate) fn entry(&self, number: u32) -> u32 {
        match self.arcs.get((number >> 1) as usize) {
            Some(entry) => *entry,
            None => NONE,
        }
    }

    /// Whether a neighbour is known to be past the limit.
    pub(crate) fn is_past(&self, number: u32, limit: Moment) -> bool {
        match self.leasts.get(number as usize) {
            Some(least) => *least > limit,
            None => true,
        }
    }

    /// Notes an estimate of what a neighbour weighs.
    pub(crate) fn note(&mut self, number: u32, weight: Moment) {
        if let Some(least) = self.leasts.get_mut(number as usize) {
            *least = weight;
        }
    }

    /// Begins a search for neighbours: there are none yet.
    pub(crate) fn clear(&mut self) {
        self.arc_count = 0;
        self.search = self.search.wrapping_add(1);
    }

    /// Adds the machine arcs between two jobs on a longest path to the node, up to where this search has been, but for
    /// those from a job that has entered its machine. Nothing is known of these neighbours. Gives how many nodes were
    /// looked at.
    pub(crate) fn join(&mut self, spots: &[Spot], rows: &[Row], node: u32, recurs: bool) -> u32 {
        let mut to = node;
        for looks in 0..rows.len() {
            if !self.is_new(to) {
                return count(looks);
            }
            let from = match rows.get(to as usize) {
                Some(row) => row.before,
                None => NONE,
            };
            if from == NONE {
                return count(looks);
            }
            if spot_at(spots, to).back != from
                && spot_at(spots, from).back != NONE
                && !(recurs && is_own(spots, from, to))
            {
                self.add(to);
            }
            to = from;
        }
        count(rows.len())
    }

    /// Whether this search meets a node for the first time, which is noted.
    fn is_new(&mut self, at: u32) -> bool {
        let search = self.search;
        match self.met.get_mut(at as usize) {
            Some(last) if *last != search => {
                *last = search;
                true
            }
            _ => false,
        }
    }

    fn add(&mut self, entry: u32) {
        let number = self.count();
        if let Some(place) = self.arcs.get_mut(self.arc_count as usize) {
            *place = entry;
            self.arc_count = self.arc_count.wrapping_add(1);
            self.note(number, 0);
            self.note(number.wrapping_add(1), 0);
        }
    }
}

/// Whether the two nodes are of one job. So a machine arc between them isn't turned round.
#[inline(never)]
fn is_own(spots: &[Spot], from: u32, to: u32) -> bool {
    spot_at(spots, from).job == spot_at(spots, to).job
}
