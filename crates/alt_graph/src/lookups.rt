//! Which visits stand next to each visit in its machine's order, to be looked up.

ghost use Rattle.std.specs.Prelude.{◌≡◌, ◌+◌, ◌*◌, ◌<◌, IfOk};
ghost use Rattle.std.specs.Result.{OnOk};
ghost use Rattle.shop_base.specs.Plan.{jobs, machines, IsWellShaped};
ghost use Rattle.alt_graph.specs.Lookups.{AreLookups};
ghost use Rattle.alt_graph.specs.Placing.{AreRoutesNoted, AreOrdersPlaced, slot_of};

use crate::numbers::{first_numbers, number};
use shop_base::limits::MAX_JOBS;
use shop_base::{JobNo, MachineNo, Node, Shaped};
use std::alloc::{AllocError, Global};

/// The job of the gaps between the machines' visits.
pub(crate) const NOBODY: JobNo = u32::MAX;

/// The numbers of the jobs' first nodes; machine after machine the visits in its order, with a gap before the first and
/// behind the last; and by node number the place of the visit there.
#[derive(Drop)]
pub(crate) struct Lookups {
    pub firsts: Vec<u32>,
    pub visits: Vec<Node>,
    pub places: Vec<u32>,
}

impl Lookups {
    /// The lookups of a planned shop.
    pub(crate) fn new(alloc: Global, shaped: &Shaped) -> Result<Lookups, AllocError>
        ensures lookups { IfOk result (AreLookups shaped.now) }
        ensures well_shaped { IsWellShaped shaped.now }
    {
        let mut placing = Placing::of(alloc, shaped)?;
        for machine in 0..shaped.machine_count() {
            placing.place_order(shaped, machine)?;
        }
        Ok(placing.lookups)
    }
}

/// Lookups under way; by machine and job the step of the job's next visit that has no place yet; and by node number the
/// step of the job's visit behind it, to the same machine.
#[derive(Drop)]
struct Placing {
    lookups: Lookups,
    next: Vec<u8>,
    behind: Vec<u8>,
}

impl Placing {
    /// No visit has its place.
    fn of(alloc: Global, shaped: &Shaped) -> Result<Placing, AllocError>
        ensures placed { IfOk result (λ placing. AreOrdersPlaced shaped.now placing 0) }
        ensures well_shaped { IsWellShaped shaped.now }
    {
        let mut placing = Placing::empty(alloc, shaped)?;
        for job in 0..shaped.job_count() {
            placing.note_route(shaped, job);
        }
        Ok(placing)
    }

    /// No route is noted.
    fn empty(alloc: Global, shaped: &Shaped) -> Result<Placing, AllocError>
        ensures noted { IfOk result (λ placing. AreRoutesNoted shaped.now placing 0) }
        ensures well_shaped { IsWellShaped shaped.now }
    {
        let firsts = first_numbers(alloc, shaped)?;
        let machines = shaped.machine_count() as usize;
        let nodes = firsts[shaped.job_count() as usize] as usize;
        let mut visits = Vec::with_capacity(alloc, nodes + machines + 1)?;
        visits.push_reserved(gap());
        let places = vec![in alloc; 0; nodes]?;
        let lookups = Lookups {
            firsts,
            visits,
            places,
        };
        let next = vec![in alloc; 0; machines * MAX_JOBS]?;
        let behind = vec![in alloc; 0; nodes]?;
        Ok(Placing {
            lookups,
            next,
            behind,
        })
    }

    /// Notes each visit of the job and the one behind it, its last step first.
    fn note_route(&mut self, shaped: &Shaped, job: JobNo)
        requires job { job < jobs shaped.now }
        requires noted { AreRoutesNoted shaped.now self.old job }
        ensures { AreRoutesNoted shaped.now self.new (job + 1) }
    {
        let first = self.lookups.firsts[job as usize] as usize;
        let route = shaped.route_of(job);
        for step in (0..route.len()).rev() {
            let slot = slot(route[step].machine, job);
            self.behind[first + step] = self.next[slot];
            self.next[slot] = step as u8;
        }
    }

    /// Gives the visits of the machine their places.
    fn place_order(&mut self, shaped: &Shaped, machine: MachineNo) -> Result<(), AllocError>
        requires machine { machine < machines shaped.now }
        requires placed { AreOrdersPlaced shaped.now self.old machine }
        ensures { OnOk result (AreOrdersPlaced shaped.now self.new (machine + 1)) }
    {
        let order = shaped.order_of(machine);
        self.lookups.visits.reserve(order.len() + 1)?;
        for place in 0..order.len() {
            let job = order[place];
            let slot = slot(machine, job);
            let visit = Node {
                job,
                place: u32::from(self.next[slot]),
            };
            let at = number(&self.lookups.firsts, visit);
            self.next[slot] = self.behind[at];
            self.lookups.places[at] = self.lookups.visits.len() as u32;
            self.lookups.visits.push_reserved(visit);
        }
        self.lookups.visits.push_reserved(gap());
        Ok(())
    }
}

/// No visit.
fn gap() -> Node
    ensures { result.job ≡ NOBODY }
{
    Node {
        job: NOBODY,
        place: 0,
    }
}

/// Where the machine and the job are in the table of the jobs' next visits.
fn slot(machine: MachineNo, job: JobNo) -> usize
    ensures { result ≡ slot_of machine job }
{
    machine as usize * MAX_JOBS + job as usize
}
