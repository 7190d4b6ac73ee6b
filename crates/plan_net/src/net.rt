//! The graph of a plan as rows of numbers, in which two neighbours of a machine's order change places by six writes.

use shop_base::Moment;
use shop_base::limits::MAX_MOMENT;

/// The number of no node. It is past all rows.
pub const NONE: u32 = u32::MAX;

/// A node: the entry of a step, or the leaving of a job.
#[derive(Clone, Copy)]
pub struct Spot {
    /// The nominal time of the step before, and at a job's first node the release or, in mid-run, its bound.
    pub lag: Moment,
    /// The cleaning time of the machine that is entered here.
    pub clean: Moment,
    /// The least time from here to the job's leaving, and what that counts: see `set_rests`.
    pub rest: Moment,
    /// The nodes before and after it in its job.
    pub back: u32,
    pub next: u32,
    /// The node at which the job before, in the order of the machine that is entered here, leaves it.
    pub source: u32,
    /// The node at which the job after, in the order of the machine that is left here, enters it.
    pub target: u32,
    pub job: u32,
    /// The machine that is entered here.
    pub machine: u32,
}

/// A job: its first and its last node, the machine that it is on before these, and its budget. Or a cleaning that goes
/// on, with one node.
#[derive(Clone, Copy)]
pub struct Span {
    pub first: u32,
    pub last: u32,
    pub on: u32,
    /// The node behind its last visit that is linked, while a machine's visits are being linked.
    pub behind: u32,
    pub budget: Moment,
}

/// The nodes, job after job, and the jobs; then the cleanings that go on.
#[derive(Drop)]
pub struct Net {
    pub spots: Vec<Spot>,
    pub spans: Vec<Span>,
    /// How often each machine has been entered.
    pub entered: Vec<u32>,
    /// Whether a job has two visits to a machine ahead.
    pub recurs: bool,
    /// The sources of all nodes in the best plan that was met.
    pub saved: Vec<u32>,
}

impl Net {
    /// How many steps all jobs have ahead.
    pub fn steps(&self) -> u64 {
        self.spots.len().wrapping_sub(self.spans.len()) as u64
    }

    /// Keeps the sources of all nodes.
    pub fn save(&mut self) {
        for (spot, place) in self.spots.iter().zip(self.saved.iter_mut()) {
            *place = spot.source;
        }
    }

    /// Sets what is left from each node on, where a job's leaving counts as it is or, with budgets, by how much it is
    /// past its budget, `MAX_MOMENT` added.
    pub fn set_rests(&mut self, with_budgets: bool) {
        for span in &self.spans {
            if with_budgets {
                set_rest(&mut self.spots, span, MAX_MOMENT.wrapping_sub(span.budget));
            } else {
                set_rest(&mut self.spots, span, 0);
            }
        }
    }
}

/// Sets what is left from each node of a job on, where its leaving counts so much.
fn set_rest(spots: &mut [Spot], span: &Span, leaving: Moment) {
    let mut rest = leaving;
    for turn in span.first..span.last.wrapping_add(1) {
        let at = span.last.wrapping_sub(turn.wrapping_sub(span.first));
        if let Some(spot) = spots.get_mut(at as usize) {
            spot.rest = rest;
            rest = rest.wrapping_add(spot.lag);
        }
    }
}

/// A length as a number of nodes.
pub fn count(length: usize) -> u32 {
    (length & 0xffff_ffff) as u32
}

/// The node of this number; if there is none, one of no job.
#[inline]
pub fn spot_at(spots: &[Spot], number: u32) -> Spot {
    match spots.get(number as usize) {
        Some(spot) => *spot,
        None => Spot {
            lag: 0,
            clean: 0,
            rest: 0,
            back: NONE,
            next: NONE,
            source: NONE,
            target: NONE,
            job: NONE,
            machine: NONE,
        },
    }
}

/// Makes the one node the source of the other, if there are such nodes.
#[inline]
pub fn link(spots: &mut [Spot], from: u32, to: u32) {
    if let Some(spot) = spots.get_mut(from as usize) {
        spot.target = to;
    }
    if let Some(spot) = spots.get_mut(to as usize) {
        spot.source = from;
    }
}

/// Puts the job that enters here before the other one, whose visit is now before its own in the order of the machine.
/// Returns that one's entry, where a second call takes the first one back, or `NONE` if there is no other one.
pub fn swap(spots: &mut [Spot], entry: u32) -> u32 {
    let from = spot_at(spots, entry).source;
    let other = spot_at(spots, from).back;
    let leave = spot_at(spots, entry).next;
    if other == NONE || leave == NONE {
        return NONE;
    }
    let ahead = spot_at(spots, other).source;
    let behind = spot_at(spots, leave).target;
    link(spots, ahead, entry);
    link(spots, leave, other);
    link(spots, from, behind);
    other
}
