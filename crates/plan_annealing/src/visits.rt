//! The nodes of a net by the machines on which their jobs meet: a visit is a job's stay on a machine, from the node at
//! which it enters to the next one, at which it leaves.

use plan_net::{NONE, Net, Spot, count, spot_at};
use shop_base::Moment;
use std::alloc::{AllocError, Global};

/// A node, by the visits that begin and end there.
#[derive(Clone, Copy)]
pub(crate) struct Node {
    pub job: u32,
    /// The machine that is entered here, and the number of the visit among those of the machine.
    pub enters: u32,
    pub visit: u32,
    /// The machine that is left here, and the number of the visit that ends.
    pub leaves: u32,
    pub ended: u32,
    /// The time that passes from the node before it in its job or, if it is the first one, from moment 0.
    pub lag: Moment,
    /// Whether its job has a node before it.
    pub follows: bool,
}

/// A node of no job.
const NO_NODE: Node = Node {
    job: NONE,
    enters: NONE,
    visit: NONE,
    leaves: NONE,
    ended: NONE,
    lag: 0,
    follows: false,
};

/// A job, or a cleaning that goes on: its last node, and its budget.
#[derive(Clone, Copy)]
pub(crate) struct Leaving {
    pub node: u32,
    pub budget: Moment,
}

/// The nodes, job after job, and the visits of each machine.
#[derive(Drop)]
pub(crate) struct Visits {
    pub nodes: Vec<Node>,
    pub leavings: Vec<Leaving>,
    /// How many words a row of a machine's visits has, and a row of all nodes.
    pub span: usize,
    pub words: usize,
    /// The node at which a visit begins, and that at which it ends, machine after machine in rows of `64 * span`.
    entries: Vec<u32>,
    exits: Vec<u32>,
    /// How long each machine is cleaned.
    cleans: Vec<Moment>,
    /// Of each node at which a visit ends, the visits that are later in every plan; of each at which one begins, those
    /// that are sooner in every plan, and those of other jobs. In rows of bits.
    pub later: Vec<u64>,
    pub sooner: Vec<u64>,
    pub rivals: Vec<u64>,
    /// Of each machine the nodes at which a visit ends that is still to begin, in rows of bits.
    ends: Vec<u64>,
    /// And those at which one begins.
    begins: Vec<u64>,
}

impl Visits {
    /// The visits of a net.
    pub(crate) fn new(alloc: Global, net: &Net) -> Result<Visits, AllocError> {
        let nodes = net.spots.len();
        let machines = net.entered.len();
        let span = words_for(most_visits(alloc, net)?);
        let words = words_for(count(nodes));
        let room = machines.wrapping_mul(span).wrapping_mul(64);
        let rows = nodes.wrapping_mul(span);
        let mut visits = Visits {
            nodes: vec![in alloc; NO_NODE; nodes]?,
            leavings: Vec::new(alloc),
            span,
            words,
            entries: vec![in alloc; NONE; room]?,
            exits: vec![in alloc; NONE; room]?,
            cleans: vec![in alloc; 0; machines]?,
            later: vec![in alloc; 0; rows]?,
            sooner: vec![in alloc; 0; rows]?,
            rivals: vec![in alloc; 0; rows]?,
            ends: vec![in alloc; 0; machines.wrapping_mul(words)]?,
            begins: vec![in alloc; 0; machines.wrapping_mul(words)]?,
        };
        let mut counts = vec![in alloc; 0; machines]?;
        visits.add_leavings(net)?;
        visits.add_all(net, &mut counts);
        for number in 0..count(nodes) {
            visits.relate(number);
        }
        Ok(visits)
    }

    /// Adds the leavings of all jobs.
    fn add_leavings(&mut self, net: &Net) -> Result<(), AllocError> {
        for span in &net.spans {
            self.leavings.push(Leaving {
                node: span.last,
                budget: span.budget,
            })?;
        }
        Ok(())
    }

    /// Adds all nodes.
    fn add_all(&mut self, net: &Net, counts: &mut [u32]) {
        for number in 0..count(net.spots.len()) {
            self.add(net, number, counts);
        }
    }

    /// Adds a node, with the visits that begin and end there.
    fn add(&mut self, net: &Net, number: u32, counts: &mut [u32]) {
        let spot = spot_at(&net.spots, number);
        let enters = spot.machine;
        let stays_on = machine_before(net, &spot);
        let ended = if spot.back == NONE {
            next_count(counts, stays_on)
        } else {
            self.node(spot.back).visit
        };
        let visit = next_count(counts, enters);
        if let Some(node) = self.nodes.get_mut(number as usize) {
            *node = Node {
                job: spot.job,
                enters,
                visit,
                leaves: stays_on,
                ended,
                lag: spot.lag,
                follows: spot.back != NONE,
            };
        }
        if let Some(clean) = self.cleans.get_mut(enters as usize) {
            *clean = spot.clean;
        }
        self.note_entry(number, enters, visit);
        self.note_exit(number, spot.back != NONE, stays_on, ended);
    }

    /// Notes where a visit begins.
    fn note_entry(&mut self, number: u32, machine: u32, visit: u32) {
        let place = self.place(machine, visit);
        if let Some(entry) = self.entries.get_mut(place) {
            *entry = number;
            let row = (machine as usize).wrapping_mul(self.words);
            set_bit(&mut self.begins, row, number);
        }
    }

    /// Notes where a visit ends.
    fn note_exit(&mut self, number: u32, begins: bool, machine: u32, visit: u32) {
        let place = self.place(machine, visit);
        if let Some(exit) = self.exits.get_mut(place) {
            *exit = number;
        }
        if begins {
            let row = (machine as usize).wrapping_mul(self.words);
            set_bit(&mut self.ends, row, number);
        }
    }

    /// Finds how the visit that begins at a node stands to the others of its machine.
    fn relate(&mut self, number: u32) {
        let node = self.node(number);
        for visit in 0..self.room() {
            let entry = self.entry(node.enters, visit);
            let exit = self.exit(node.enters, visit);
            if exit == NONE || entry == number {
                continue;
            }
            let row = (number as usize).wrapping_mul(self.span);
            let own = self.node(entry).job == node.job;
            if entry == NONE || own && entry < number {
                set_bit(&mut self.sooner, row, visit);
                set_bit(
                    &mut self.later,
                    (exit as usize).wrapping_mul(self.span),
                    node.visit,
                );
            } else if !own {
                set_bit(&mut self.rivals, row, visit);
            }
        }
    }

    /// The place of a visit in the tables; past all of them for none.
    #[inline(always)]
    fn place(&self, machine: u32, visit: u32) -> usize {
        if machine == NONE {
            return NONE as usize;
        }
        (machine as usize)
            .wrapping_mul(self.span)
            .wrapping_mul(64)
            .wrapping_add(visit as usize)
    }

    /// How many visits the tables have room for, on each machine.
    pub(crate) fn room(&self) -> u32 {
        count(self.span).wrapping_mul(64)
    }

    /// How many machines there are.
    pub(crate) fn machines(&self) -> u32 {
        count(self.cleans.len())
    }

    /// The node at which a visit begins, `NONE` if it has begun.
    #[inline(always)]
    pub(crate) fn entry(&self, machine: u32, visit: u32) -> u32 {
        number_at(&self.entries, self.place(machine, visit))
    }

    /// The node at which a visit ends, `NONE` if there is no such visit.
    #[inline(always)]
    pub(crate) fn exit(&self, machine: u32, visit: u32) -> u32 {
        number_at(&self.exits, self.place(machine, visit))
    }

    /// How long a machine is cleaned.
    #[inline(always)]
    pub(crate) fn clean(&self, machine: u32) -> Moment {
        match self.cleans.get(machine as usize) {
            Some(clean) => *clean,
            None => 0,
        }
    }

    /// The node of this number; if there is none, one of no job.
    #[inline(always)]
    pub(crate) fn node(&self, number: u32) -> Node {
        match self.nodes.get(number as usize) {
            Some(node) => *node,
            None => NO_NODE,
        }
    }

    /// Of the visits of other jobs to the machine that is entered at a node, those of this word.
    #[inline(always)]
    pub(crate) fn rivals_in(&self, entry: u32, word: usize) -> u64 {
        let row = (entry as usize).wrapping_mul(self.span);
        word_at(&self.rivals, row.wrapping_add(word))
    }

    /// Of the nodes at which a visit to the machine ends, those of this word.
    #[inline(always)]
    pub(crate) fn ends_in(&self, machine: u32, word: usize) -> u64 {
        word_at(&self.ends, self.nodes_row(machine, word))
    }

    /// Of the nodes at which a visit to the machine begins, those of this word.
    #[inline(always)]
    pub(crate) fn begins_in(&self, machine: u32, word: usize) -> u64 {
        word_at(&self.begins, self.nodes_row(machine, word))
    }

    /// The place of a word of a machine's nodes.
    #[inline(always)]
    fn nodes_row(&self, machine: u32, word: usize) -> usize {
        (machine as usize)
            .wrapping_mul(self.words)
            .wrapping_add(word)
    }
}

/// How many words have room for so many bits.
fn words_for(bits: u32) -> usize {
    (bits as usize).wrapping_add(63) / 64
}

/// The most visits that a machine has.
fn most_visits(alloc: Global, net: &Net) -> Result<u32, AllocError> {
    let mut counts = vec![in alloc; 0; net.entered.len()]?;
    let mut most = 0;
    for spot in &net.spots {
        if spot.back == NONE {
            let visit = next_count(&mut counts, machine_before(net, spot));
            most = most.max(visit.wrapping_add(1));
        }
        let visit = next_count(&mut counts, spot.machine);
        most = most.max(visit.wrapping_add(1));
    }
    Ok(most)
}

/// The machine that is left at a node; `NONE` if none is, or if nobody enters it after that.
fn machine_before(net: &Net, spot: &Spot) -> u32 {
    if spot.back == NONE {
        spot_at(&net.spots, spot.target).machine
    } else {
        spot_at(&net.spots, spot.back).machine
    }
}

/// The number of the next visit to a machine, `NONE` for no machine.
fn next_count(counts: &mut [u32], machine: u32) -> u32 {
    match counts.get_mut(machine as usize) {
        Some(next) => {
            let visit = *next;
            *next = visit.wrapping_add(1);
            visit
        }
        None => NONE,
    }
}

/// The number at a place, `NONE` if there is none.
#[inline(always)]
pub(crate) fn number_at(numbers: &[u32], place: usize) -> u32 {
    match numbers.get(place) {
        Some(number) => *number,
        None => NONE,
    }
}

/// The word at a place, 0 if there is none.
#[inline(always)]
pub(crate) fn word_at(words: &[u64], place: usize) -> u64 {
    match words.get(place) {
        Some(word) => *word,
        None => 0,
    }
}

/// Sets a bit of the row that begins at a place.
#[inline(always)]
pub(crate) fn set_bit(words: &mut [u64], row: usize, bit: u32) {
    if let Some(word) = words.get_mut(row.wrapping_add(bit as usize / 64)) {
        *word |= 1 << (bit & 63);
    }
}

/// Whether the row that begins at a place has a bit.
#[inline(always)]
pub(crate) fn has_bit(words: &[u64], row: usize, bit: u32) -> bool {
    let word = word_at(words, row.wrapping_add(bit as usize / 64));
    (word >> (bit & 63)) & 1 == 1
}

/// The lowest bit of a word, which is taken from it.
#[inline(always)]
pub(crate) fn take_bit(word: &mut u64) -> u32 {
    let bit = word.trailing_zeros();
    *word &= word.wrapping_sub(1);
    bit
}

/// The number that is a bit of this word in a row.
#[inline(always)]
pub(crate) fn number_of(word: usize, bit: u32) -> u32 {
    count(word).wrapping_mul(64).wrapping_add(bit)
}
