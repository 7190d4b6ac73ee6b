ghost use Rattle.std.specs.Prelude.{◌≡◌, ◌↔◌, ◌^◌, ◌<◌, ◌≤◌, MatchBool, MatchOption, sum_by, IfOk, IfErr};
ghost use Rattle.std.specs.Prelude.{IsOk, OnOk, length, slice_get, Some, Bool, true, false, List};
ghost use Rattle.shop_base.specs.Shop.{IsShop, IsRoute, AreCounts, IsSoundStep, operations_of, route_at, step_at, shown_step};
ghost use Rattle.shop_base.specs.Vectors.{lists_of};
ghost use Rattle.shop_base.specs.Work.{work_of, route_work};
ghost use Rattle.shop_base.specs.declared.shop_fault.ShopFault.{ShopFault};
ghost use Rattle.shop_base.specs.ShopFault.{AreRoutes, IsFirstFault, AreSoundBefore, IsStepReached, IsTooLong, IsTwice};
ghost use Rattle.shop_base.specs.Marks.{AreMarks, IsVisitedBefore};

use crate::limits::{MAX_JOBS, MAX_MACHINES, MAX_NOMINAL, MAX_STEPS};
use crate::routes::Routes;
use crate::shop_fault::ShopFault;
use std::marker::Model;

/// The number of a job, from 0.
pub type JobNo = u32;

/// The number of a machine, from 0.
pub type MachineNo = u32;

/// A moment or a length of time, in whole time units; moments are counted from moment 0.
pub type Moment = u64;

/// One operation of a job: the machine that it needs, and the longest time that it should take there.
#[derive(Clone, Copy, Debug, PartialEq, Eq)]
pub struct Step {
    pub machine: MachineNo,
    pub nominal: Moment,
}

/// A job shop: a number of machines, for each job its route over some of them, in order, and whether a job may visit
/// a machine again (Pinedo, Scheduling: `Jm`, with or without `recrc`).
#[derive(Debug, Drop)]
pub struct Shop {
    pub(crate) machines: u32,
    pub(crate) routes: Routes,
    pub(crate) recirculates: bool,
}

impl Model for Shop {
    ghost use Rattle.shop_base.specs.Shop.{JobShop, IsShop};

    ghost Value = { JobShop };

    ghost view = { λ s. record { machines = s.machines; routes = s.routes; recirculates = s.recirculates } };

    ghost invariant = { λ s. IsShop (record { machines = s.machines; routes = s.routes; recirculates = s.recirculates }) };
}

impl Shop {
    /// The shop with these machines and routes, one route per job, each of which visits a machine at most once.
    /// On a refusal the routes are dropped.
    pub fn new(machines: u32, routes: Vec<Vec<Step>>) -> Result<Shop, ShopFault>
        ensures shop { IfOk result (λ shop. shop ≡ record { machines = machines; routes = lists_of routes.items; recirculates = false }) }
        ensures sound { OnOk result (IsShop (record { machines = machines; routes = lists_of routes.items; recirculates = false })) }
        ensures exact { IsOk result ↔ IsShop (record { machines = machines; routes = lists_of routes.items; recirculates = false }) }
        ensures first_fault { IfErr result (IsFirstFault machines false (lists_of routes.items)) }
        ensures only_fault { IfErr result (λ fault.
            (other : ShopFault) → IsFirstFault machines false (lists_of routes.items) other → other ≡ fault) }
    {
        Shop::of_kind(machines, routes, false)
    }

    /// The shop with these machines and routes, one route per job, in which a job may visit a machine again, but not in its
    /// next step (Pinedo, Scheduling: `recrc`). On a refusal the routes are dropped.
    pub fn with_recirculation(machines: u32, routes: Vec<Vec<Step>>) -> Result<Shop, ShopFault>
        ensures shop { IfOk result (λ shop. shop ≡ record { machines = machines; routes = lists_of routes.items; recirculates = true }) }
        ensures sound { OnOk result (IsShop (record { machines = machines; routes = lists_of routes.items; recirculates = true })) }
        ensures exact { IsOk result ↔ IsShop (record { machines = machines; routes = lists_of routes.items; recirculates = true }) }
        ensures first_fault { IfErr result (IsFirstFault machines true (lists_of routes.items)) }
        ensures only_fault { IfErr result (λ fault.
            (other : ShopFault) → IsFirstFault machines true (lists_of routes.items) other → other ≡ fault) }
    {
        Shop::of_kind(machines, routes, true)
    }

    /// The shop with these machines and routes, with recirculation or without. On a refusal the routes are dropped.
    pub fn of_kind(
        machines: u32,
        routes: Vec<Vec<Step>>,
        recirculates: bool,
    ) -> Result<Shop, ShopFault>
        ensures shop { IfOk result (λ shop. shop ≡ record { machines = machines; routes = lists_of routes.items; recirculates = recirculates }) }
        ensures sound { OnOk result (IsShop (record { machines = machines; routes = lists_of routes.items; recirculates = recirculates })) }
        ensures exact { IsOk result ↔ IsShop (record { machines = machines; routes = lists_of routes.items; recirculates = recirculates }) }
        ensures first_fault { IfErr result (IsFirstFault machines recirculates (lists_of routes.items)) }
        ensures only_fault { IfErr result (λ fault.
            (other : ShopFault) → IsFirstFault machines recirculates (lists_of routes.items) other → other ≡ fault) }
    {
        check_size(machines, recirculates, &routes)?;
        check_routes(machines, recirculates, &routes)?;
        Ok(Shop {
            machines,
            routes: Routes::own(routes),
            recirculates,
        })
    }

    /// Whether a job may visit a machine again.
    pub fn recirculates(&self) -> bool
        ensures { result ≡ self.now.recirculates }
    {
        self.recirculates
    }

    /// The step by which lines tell a visit of a job from its others: none where a job visits a machine once.
    pub fn shown_step(&self, step: u32) -> Option<u32>
        ensures { result ≡ shown_step self.now step }
    {
        if self.recirculates { Some(step) } else { None }
    }

    /// How many jobs there are.
    pub fn jobs(&self) -> u32
        ensures count { result ≡ length self.now.routes }
        ensures sound { IsShop self.now }
    {
        self.routes.rows().len() as u32
    }

    /// How many machines there are.
    pub fn machines(&self) -> u32
        ensures count { result ≡ self.now.machines }
        ensures sound { IsShop self.now }
    {
        self.machines
    }

    /// How many steps there are in all routes.
    pub fn operations(&self) -> u64
        ensures { result ≡ operations_of self.now }
    {
        operation_count(self.routes.rows())
    }

    /// The sum of all nominal times.
    pub fn work(&self) -> Moment
        ensures { result ≡ work_of self.now }
    {
        total_work(self.routes.rows())
    }

    /// The route of a job, none for a number that is no job's.
    pub fn route(&self, job: JobNo) -> Option<&[Step]>
        ensures { MatchOption result (length self.now.routes ≤ job)
            (λ route. slice_get self.now.routes job ≡ Some route.now) }
    {
        self.routes.row(job)
    }
}

fn operation_count(routes: &[Vec<Step>]) -> u64
    requires { sum_by length (lists_of routes.now) < 2 ^ 64 }
    ensures { result ≡ sum_by length (lists_of routes.now) }
{
    let mut count = 0;
    for route in routes {
        count += route.len() as u64;
    }
    count
}

fn total_work(routes: &[Vec<Step>]) -> Moment
    requires { sum_by route_work (lists_of routes.now) < 2 ^ 64 }
    ensures { result ≡ sum_by route_work (lists_of routes.now) }
{
    let mut work = 0;
    for route in routes {
        work += route_sum(route);
    }
    work
}

fn route_sum(route: &[Step]) -> Moment
    requires { route_work route.now < 2 ^ 64 }
    ensures { result ≡ route_work route.now }
{
    route.iter().map(|step| step.nominal).sum()
}

/// Checks how many jobs and machines there are.
fn check_size(machines: u32, recirculates: bool, routes: &[Vec<Step>]) -> Result<(), ShopFault>
    ensures sound { OnOk result (AreCounts machines (length routes.now)) }
    ensures first_fault { IfErr result (IsFirstFault machines recirculates (lists_of routes.now)) }
{
    if routes.is_empty() {
        return Err(ShopFault::NoJobs);
    }
    if routes.len() > MAX_JOBS {
        return Err(ShopFault::TooManyJobs);
    }
    if machines == 0 {
        return Err(ShopFault::NoMachines);
    }
    if machines > MAX_MACHINES {
        return Err(ShopFault::TooManyMachines);
    }
    Ok(())
}

fn check_routes(machines: u32, recirculates: bool, routes: &[Vec<Step>]) -> Result<(), ShopFault>
    requires { AreCounts machines (length routes.now) }
    ensures sound { OnOk result (AreRoutes machines recirculates (lists_of routes.now) (length routes.now)) }
    ensures first_fault { IfErr result (IsFirstFault machines recirculates (lists_of routes.now)) }
{
    for job in 0..routes.len() {
        check_length(machines, recirculates, routes, job)?;
        check_route(machines, recirculates, routes, job)?;
    }
    Ok(())
}

/// Checks how many steps a route has. Without recirculation it can't have too many where its steps are sound.
fn check_length(
    machines: u32,
    recirculates: bool,
    routes: &[Vec<Step>],
    job: usize,
) -> Result<(), ShopFault>
    requires { AreSoundBefore machines recirculates (lists_of routes.now) job }
    ensures some { OnOk result (0 < length (route_at (lists_of routes.now) job)) }
    ensures short { OnOk result (IsTooLong recirculates (route_at (lists_of routes.now) job) → ⊥) }
    ensures first_fault { IfErr result (IsFirstFault machines recirculates (lists_of routes.now)) }
{
    let route = steps_of(routes, job);
    let job = job as u32;
    if route.is_empty() {
        return Err(ShopFault::EmptyRoute { job });
    }
    if recirculates && route.len() > MAX_STEPS {
        return Err(ShopFault::TooManySteps { job });
    }
    Ok(())
}

fn check_route(
    machines: u32,
    recirculates: bool,
    routes: &[Vec<Step>],
    job: usize,
) -> Result<(), ShopFault>
    requires reached { AreSoundBefore machines recirculates (lists_of routes.now) job }
    requires some { 0 < length (route_at (lists_of routes.now) job) }
    requires short { IsTooLong recirculates (route_at (lists_of routes.now) job) → ⊥ }
    ensures sound { OnOk result (IsRoute machines recirculates (route_at (lists_of routes.now) job)) }
    ensures first_fault { IfErr result (IsFirstFault machines recirculates (lists_of routes.now)) }
{
    let route = steps_of(routes, job);
    let mut visited = [false; MAX_MACHINES as usize];
    for step in 0..route.len() {
        check_step(machines, recirculates, routes, job, step, &visited)?;
        visited[route[step].machine as usize] = true;
    }
    Ok(())
}

/// Checks a step of a route, on whose earlier steps are the machines that are marked as visited.
fn check_step(
    machines: u32,
    recirculates: bool,
    routes: &[Vec<Step>],
    job: usize,
    step: usize,
    visited: &[bool; MAX_MACHINES as usize],
) -> Result<(), ShopFault>
    requires reached { IsStepReached machines recirculates (lists_of routes.now) job step }
    requires marked { AreMarks visited.now (IsVisitedBefore (route_at (lists_of routes.now) job) step) }
    ensures sound { OnOk result (IsSoundStep machines recirculates (route_at (lists_of routes.now) job) step) }
    ensures first_fault { IfErr result (IsFirstFault machines recirculates (lists_of routes.now)) }
{
    let route = steps_of(routes, job);
    let job = job as u32;
    if route[step].machine >= machines {
        return Err(ShopFault::MachineOutOfRange { job, step });
    }
    if is_twice(recirculates, route, step, visited) {
        return Err(ShopFault::MachineTwice { job, step });
    }
    if route[step].nominal > MAX_NOMINAL {
        return Err(ShopFault::NominalTooLarge { job, step });
    }
    Ok(())
}

/// Whether the machine of a step may not be visited again.
fn is_twice(
    recirculates: bool,
    route: &[Step],
    step: usize,
    visited: &[bool; MAX_MACHINES as usize],
) -> bool
    requires in_range { step < length route.now }
    requires on_machine { (step_at route.now step).machine < MAX_MACHINES }
    requires marked { AreMarks visited.now (IsVisitedBefore route.now step) }
    ensures { MatchBool result (IsTwice recirculates route.now step) (IsTwice recirculates route.now step → ⊥) }
{
    if recirculates {
        step > 0 && route[step - 1].machine == route[step].machine
    } else {
        visited[route[step].machine as usize]
    }
}

fn steps_of(routes: &[Vec<Step>], job: usize) -> &[Step]
    requires { job < length routes.now }
    ensures { result.now ≡ route_at (lists_of routes.now) job }
{
    routes[job].as_slice()
}
