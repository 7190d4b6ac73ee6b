//! A large neighbourhood search (Shaw, CP 1998): the pairs of a few jobs of the plan at hand are opened, and a complete
//! search decides them anew.

use crate::complete::{Found, Search, Way};
use crate::draws::Draws;
use crate::known::Known;
use crate::standing::{Lateness, ORIGIN, Standing};
use crate::visits::{Visits, number_at};
use plan_net::{NONE, Net, count};
use shop_base::Moment;
use std::alloc::{AllocError, Global};

/// How much is done in a round at most, in some 100 ns each.
const WORK: u64 = 4_000_000;

/// How much is done at most, for each pair of operations.
const WORK_A_PAIR: u64 = 400;

/// The most steps of a round.
const STEPS: u32 = 1_000_000;

/// The choices that a step may take.
const CHOICES: u32 = 300;

/// The logarithm of 2, in 1/65536.
const LOGARITHM: u64 = 45426;

/// How far a walk may go, in thousandths of the makespan.
const HEAT: u64 = 10;

/// In a walk the pairs weigh from 1 to this.
const SPREAD: u32 = 4;

/// A search goes on from its own plan if its best one is longer than the best of all by at most one part in so many.
const NEAR: u64 = 50;

/// The most operations of a small shop.
const FEW_STEPS: u64 = 128;

/// How many jobs are opened in each of the walks by which a search begins anew, in 1/16, and how many walks these are.
const ANEW_SIZE: u32 = 48;

const ANEW_WALKS: u32 = 30;

/// How many jobs are opened at first, in 1/16.
pub(crate) const FIRST_SIZE: u32 = 48;

/// What the search goes on from, and how many jobs it opens, in 1/16.
#[derive(Drop)]
pub(crate) struct Opening {
    visits: Visits,
    /// The plan at hand, and the best one that was met or given.
    now: Standing,
    best: Standing,
    /// The best that the search has met since it has gone on from another plan than its own, and whether this round has
    /// met it.
    least: Lateness,
    is_better: bool,
    size: u32,
    problem: Search,
    draws: Draws,
    /// The jobs that have an entry ahead, and which of all are opened.
    jobs: Vec<u32>,
    free: Vec<bool>,
    /// The latest moment at which each job may leave.
    latest: Vec<Moment>,
    /// How many nodes come before each one, while the nodes are put in order.
    counts: Vec<u32>,
    /// Whether there are few operations.
    is_small: bool,
    /// How much is done in a round.
    work: u64,
}

impl Opening {
    /// A search among these visits that begins nowhere yet, with these draws.
    pub(crate) fn new(alloc: Global, visits: Visits, draws: Draws) -> Result<Opening, AllocError> {
        let nodes = visits.nodes.len();
        let jobs = visits.leavings.len();
        let problem = Search::new(alloc, &visits)?;
        let steps = nodes.wrapping_sub(jobs) as u64;
        Ok(Opening {
            now: Standing::new(alloc, nodes)?,
            best: Standing::new(alloc, nodes)?,
            least: Lateness::NONE,
            is_better: false,
            size: FIRST_SIZE,
            problem,
            draws,
            jobs: movable_jobs(alloc, &visits)?,
            free: vec![in alloc; false; jobs]?,
            latest: vec![in alloc; 0; jobs]?,
            counts: vec![in alloc; 0; nodes.wrapping_add(2)]?,
            is_small: steps <= FEW_STEPS,
            work: WORK_A_PAIR
                .wrapping_mul(steps)
                .wrapping_mul(steps)
                .min(WORK),
            visits,
        })
    }

    /// Begins from the plan of a net. Whether that has no cycle.
    fn read(&mut self, net: &Net) -> bool {
        if !self.now.read(net, &self.visits, &mut self.counts) {
            return false;
        }
        self.open_none();
        for latest in self.latest.iter_mut() {
            *latest = Moment::MAX / 2;
        }
        self.put_places();
        self.problem
            .begin(&self.visits, &self.now.order, &self.free, &self.latest);
        self.now
            .take(&self.visits, &mut self.problem.known, &mut self.counts);
        self.best.copy(&self.now);
        true
    }

    /// Opens no job.
    fn open_none(&mut self) {
        for free in self.free.iter_mut() {
            *free = false;
        }
    }

    /// Lets the complete search know the plan at hand.
    fn put_places(&mut self) {
        for (place, at) in self.problem.places.iter_mut().zip(self.now.places.iter()) {
            *place = *at;
        }
    }

    /// Goes on from what is known, if the best plan that the search itself has met isn't much worse than this one. In a
    /// small shop where a job visits a machine again it does so, once no job is late, as long as each round betters
    /// that plan, and begins anew else.
    fn resume(&mut self, net: &Net, known: &Known) {
        self.size = known.size;
        let best = self.best.lateness;
        let restarts = self.is_small && net.recurs && best.total == 0;
        let goes_on = if restarts {
            !known.is_stuck
        } else {
            is_near(known.least.total, best.total) && is_near(known.least.makespan, best.makespan)
        };
        if goes_on && known.places.len() == self.now.places.len() {
            self.now
                .copy_from(&known.places, &known.order, known.lateness);
            self.least = known.least;
        } else if restarts && known.is_stuck {
            self.begin_anew();
        } else {
            self.least = best;
        }
        self.is_better = false;
    }

    /// Begins anew: walks to some other plan in which no job is late, however long it takes.
    fn begin_anew(&mut self) {
        let size = self.size;
        self.size = ANEW_SIZE;
        for _ in 0..ANEW_WALKS {
            self.problem.most = Moment::MAX;
            self.set_latest(0, Moment::MAX / 4);
            self.attempt(true);
        }
        self.size = size;
        self.least = self.now.lateness;
    }

    /// Keeps what the next round goes on from.
    fn keep(&self, known: &mut Known) -> Result<(), AllocError> {
        known.size = self.size;
        known.is_stuck = !self.is_better;
        known.lateness = self.now.lateness;
        known.least = self.least;
        known.places.clear();
        known.order.clear();
        for place in &self.now.places {
            known.places.push(*place)?;
        }
        for node in &self.now.order {
            known.order.push(*node)?;
        }
        Ok(())
    }

    /// Leaves the best plan in the net.
    pub(crate) fn leave(&self, alloc: Global, net: &mut Net) -> Result<(), AllocError> {
        let row = (self.visits.room() as usize).wrapping_add(1);
        let mut ends = vec![in alloc; NONE; row.wrapping_mul(self.visits.machines() as usize)]?;
        self.best.leave(net, &self.visits, &mut ends);
        Ok(())
    }

    /// Searches for a round, from the plan of a net or from what is known. Whether a better plan than that of the net
    /// is found.
    pub(crate) fn search(&mut self, net: &Net, known: &mut Known) -> Result<bool, AllocError> {
        if !self.read(net) {
            return Ok(false);
        }
        let first = self.best.lateness;
        self.resume(net, known);
        for _ in 0..STEPS {
            if self.problem.known.work >= self.work || self.jobs.len() < 2 {
                break;
            }
            self.step();
        }
        self.keep(known)?;
        Ok(self.best.lateness.is_less(&first))
    }

    /// Asks for a plan, and goes on from it.
    fn step(&mut self) {
        let walks = self.draws.below(16) < if self.is_small { 8 } else { 4 };
        self.ask(walks);
        match self.attempt(walks) {
            Found::Plan => (),
            Found::Never => {
                if !walks {
                    self.size = self.size.wrapping_add(1).wrapping_add(self.draws.below(2));
                }
            }
            Found::Unknown => self.size = self.size.saturating_sub(3).max(16),
        }
        self.size = self.size.min(count(self.jobs.len()).wrapping_mul(16));
    }

    /// Opens some jobs, and goes on from the plan that is found.
    fn attempt(&mut self, walks: bool) -> Found {
        self.open_some();
        self.put_places();
        self.problem.way = if walks { Way::Wide } else { Way::Same };
        self.weigh(walks);
        let found = if self
            .problem
            .begin(&self.visits, &self.now.order, &self.free, &self.latest)
        {
            self.problem.run(&self.visits, CHOICES)
        } else {
            Found::Never
        };
        if found == Found::Plan {
            self.take();
        }
        found
    }

    /// Goes on from the plan of the state.
    fn take(&mut self) {
        self.now
            .take(&self.visits, &mut self.problem.known, &mut self.counts);
        if self.now.lateness.is_less(&self.least) {
            self.least = self.now.lateness;
            self.is_better = true;
        }
        if self.now.lateness.is_less(&self.best.lateness) {
            self.best.copy(&self.now);
        }
    }

    /// Says by when each job has to leave, and how late all together may be.
    fn ask(&mut self, walks: bool) {
        let Lateness {
            total,
            makespan,
            worst,
        } = self.now.lateness;
        let more = if walks {
            let drawn = self.draws.halvings().wrapping_mul(LOGARITHM);
            (makespan.wrapping_mul(HEAT) / 1000).wrapping_mul(drawn) >> 32
        } else {
            0
        };
        let less = u64::from(!walks);
        self.problem.most = Moment::MAX;
        if total == 0 {
            self.set_latest(0, makespan.wrapping_add(more).wrapping_sub(less));
        } else if self.draws.below(2) == 0 {
            self.set_latest(worst.wrapping_add(more).wrapping_sub(less), Moment::MAX / 4);
        } else {
            let aims = self.draws.below(4) == 0 && !walks;
            let most = if aims {
                total
            } else {
                total.wrapping_add(more).wrapping_sub(less)
            };
            self.problem.most = most;
            let limit = if aims {
                makespan.wrapping_sub(1)
            } else {
                Moment::MAX / 4
            };
            self.set_latest(most, limit);
        }
    }

    /// Each job has to leave by a moment, and be no later than so much.
    fn set_latest(&mut self, late: Moment, limit: Moment) {
        for (latest, leaving) in self.latest.iter_mut().zip(self.visits.leavings.iter()) {
            *latest = leaving
                .budget
                .wrapping_add(late)
                .min(limit)
                .wrapping_add(ORIGIN);
        }
    }

    /// Draws the jobs that are opened.
    fn open_some(&mut self) {
        self.open_none();
        let jobs = count(self.jobs.len());
        for turn in 0..(self.size / 16).min(jobs) {
            let drawn = turn.wrapping_add(self.draws.below(jobs.wrapping_sub(turn)));
            let job = number_at(&self.jobs, drawn as usize);
            let other = number_at(&self.jobs, turn as usize);
            if let Some(place) = self.jobs.get_mut(drawn as usize) {
                *place = other;
            }
            if let Some(place) = self.jobs.get_mut(turn as usize) {
                *place = job;
            }
            if let Some(free) = self.free.get_mut(job as usize) {
                *free = true;
            }
        }
    }

    /// Weighs the pairs anew.
    fn weigh(&mut self, walks: bool) {
        self.problem.pairs.begin();
        for number in 0..count(self.problem.pairs.all.len()) {
            let weight = if walks {
                u64::from(self.draws.below(SPREAD)).wrapping_add(1)
            } else {
                1
            };
            self.problem.pairs.weigh(number, weight);
        }
    }
}

/// The jobs that have an entry ahead.
fn movable_jobs(alloc: Global, visits: &Visits) -> Result<Vec<u32>, AllocError> {
    let mut jobs = Vec::new(alloc);
    let mut last = NONE;
    for node in &visits.nodes {
        if node.enters != NONE && node.job != last {
            last = node.job;
            jobs.push(last)?;
        }
    }
    Ok(jobs)
}

/// Whether a length is at most a little more than another one.
fn is_near(length: Moment, other: Moment) -> bool {
    length <= other.saturating_add(other / NEAR)
}
