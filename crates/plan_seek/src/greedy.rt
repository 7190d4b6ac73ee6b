use crate::orders::empty_orders;
use crate::proposer::{Proposed, Proposer};
use crate::safe_sequence::{Transfer, place_in, safe_sequence};
use crate::simulated_cell::SimulatedCell;
use shop_base::{JobNo, Moment, Shop};
use std::alloc::{AllocError, Global};

/// How many choices looking ahead makes at most. So many moves and waits no shop takes: there are 20,200 moves at most,
/// and 20,000 ends of operations to wait for.
const MAX_CHOICES: u32 = 100_000;

/// A planner that simulates the cell at nominal times, as if all releases were 0 and no machine had to be cleaned. At
/// each choice the first job that can move does so, and if none can, it waits for the next operation to end. No move is
/// made after which it finds no safe sequence of moves for all jobs in the cell. In round `r` the choice begins at job
/// `r`, with job 0 after the last, and in odd rounds no more jobs are let in once more than half of the machines hold
/// one. Looking ahead makes 100,000 choices at most. At the limit it only empties the cell by the known moves; if jobs
/// are then still outside, it proposes no plan. By its clause it may propose anything: it is only proved that it is
/// safe and ends.
#[derive(Clone, Copy, Debug, Default)]
pub struct GreedyProposer;

impl GreedyProposer {
    /// The planner, which keeps nothing between its rounds.
    pub fn new() -> GreedyProposer {
        GreedyProposer
    }
}

impl Proposer for GreedyProposer {
    ghost may = { λ proposer shop round proposal. Unit {0} };

    fn propose(&self, alloc: Global, shop: &Shop, round: u32) -> Proposed {
        simulate(alloc, shop, round)
    }
}

/// The state of the simulation.
#[derive(Drop)]
struct Simulation {
    cell: SimulatedCell,
    /// The jobs that have entered each machine, in order.
    orders: Vec<Vec<JobNo>>,
    /// Moves by which all jobs that are in the cell can leave it, one after the other.
    way: Vec<Transfer>,
    now: Moment,
    /// How many choices of looking ahead are left.
    choices: u32,
}

/// The orders in which the jobs enter the machines in the simulated cell.
fn simulate(alloc: Global, shop: &Shop, round: u32) -> Proposed {
    let mut simulation = Simulation::start(alloc, shop)?;
    for _ in 0..MAX_CHOICES {
        if simulation.cell.is_done() {
            let Simulation { orders, .. } = simulation;
            return Ok(Some(orders));
        }
        match simulation.next_mover(alloc, shop, round)? {
            Some(job) => simulation.make_move(shop, job)?,
            None => match simulation.cell.next_end(simulation.now) {
                Some(moment) => simulation.now = moment,
                None => return Ok(None),
            },
        }
    }
    Ok(None)
}

impl Simulation {
    fn start(alloc: Global, shop: &Shop) -> Result<Simulation, AllocError> {
        Ok(Simulation {
            orders: empty_orders(alloc, shop)?,
            cell: SimulatedCell::new(alloc, shop)?,
            way: Vec::new(alloc),
            now: 0,
            choices: MAX_CHOICES,
        })
    }

    /// The first job, counted round from the round's number on, that can move so that a safe sequence is known
    /// afterwards.
    fn next_mover(
        &mut self,
        alloc: Global,
        shop: &Shop,
        round: u32,
    ) -> Result<Option<JobNo>, AllocError> {
        let jobs = shop.jobs();
        let first = round % jobs;
        for turn in 0..jobs {
            let job = (first + turn) % jobs;
            if self.is_admitted(shop, round, job) && self.keeps_way(alloc, shop, job)? {
                return Ok(Some(job));
            }
        }
        Ok(None)
    }

    /// Whether the job can move now, and isn't kept outside in this round.
    fn is_admitted(&self, shop: &Shop, round: u32, job: JobNo) -> bool {
        if !self.cell.is_ready(job, self.now) || !self.cell.can_move(shop, job) {
            return false;
        }
        let many = round % 2 == 1 && self.cell.inside() > shop.machines() as usize / 2;
        self.cell.is_inside(job) || !many
    }

    /// Whether a safe sequence is known after the job's move. It is then the one that is kept.
    fn keeps_way(&mut self, alloc: Global, shop: &Shop, job: JobNo) -> Result<bool, AllocError> {
        let target = self.cell.next_step(shop, job).map(|step| step.machine);
        if let Some(place) = place_in(&self.way, job, target) {
            let _ = self.way.remove(place);
            return Ok(true);
        }
        if self.choices == 0 || self.cell.closes_cycle(shop, job) {
            return Ok(false);
        }
        self.choices -= 1;
        let mut ahead = self.cell.copy(alloc)?;
        ahead.advance(shop, job, 0);
        match safe_sequence(alloc, shop, ahead, &mut self.choices)? {
            Some(way) => {
                self.way = way;
                Ok(true)
            }
            None => Ok(false),
        }
    }

    /// Makes the job's move.
    fn make_move(&mut self, shop: &Shop, job: JobNo) -> Result<(), AllocError> {
        if let Some(step) = self.cell.next_step(shop, job) {
            if let Some(order) = self.orders.get_mut(step.machine as usize) {
                order.push(job)?;
            }
        }
        self.cell.advance(shop, job, self.now);
        Ok(())
    }
}
