//! The checks of a plan's shape, in the order of their faults.

ghost use Rattle.std.specs.Prelude.{◌≡◌, ℕ, ◌<◌, ◌≤◌, IfOk, OnOk, IfErr, length, slice_index_or, []};
ghost use Rattle.shop_base.specs.Shop.{step_at};
ghost use Rattle.shop_base.specs.Plan.{IsWellShaped, HasCounts, IsOrder};
ghost use Rattle.shop_base.specs.declared.limits.TheConstants.{MAX_MACHINES};
ghost use Rattle.shop_base.specs.ShapeFault.{IsFirstShapeFault, IsMachineReached, AreGoodPlaces, place_count};
ghost use Rattle.shop_base.specs.Marks.{AreTheCounts, AreVisits, AreVisited, visits_in};

use crate::limit_check::check_limits;
use crate::limits::{MAX_JOBS, MAX_MACHINES};
use crate::plan::Plan;
use crate::shape_fault::ShapeFault;
use crate::shop::{JobNo, MachineNo, Shop, Step};

/// For each job how often its route visits each machine.
type Visits = [[u8; MAX_MACHINES as usize]; MAX_JOBS];

/// The first fault of a plan's shape, if there is one.
pub fn check_shape(shop: &Shop, plan: &Plan) -> Result<(), ShapeFault>
    ensures sound { OnOk result (IsWellShaped (record { shop = shop.now; plan = plan.now })) }
    ensures first_fault { IfErr result (IsFirstShapeFault (record { shop = shop.now; plan = plan.now })) }
{
    check_counts(shop, plan)?;
    // Called for its clause alone: the shop is sound, so it has few jobs and machines.
    let _jobs = shop.jobs();
    check_limits(&plan.release, &plan.budget, &plan.clean)?;
    let mut visits = [[0; MAX_MACHINES as usize]; MAX_JOBS];
    count_visits(shop, &mut visits);
    for machine in 0..shop.machines() {
        check_order(shop, plan, &visits, machine)?;
    }
    Ok(())
}

/// Checks that each list of the plan has an entry for each job or machine.
fn check_counts(shop: &Shop, plan: &Plan) -> Result<(), ShapeFault>
    ensures sound { OnOk result (HasCounts (record { shop = shop.now; plan = plan.now })) }
    ensures first_fault { IfErr result (IsFirstShapeFault (record { shop = shop.now; plan = plan.now })) }
{
    if plan.release.len() != shop.jobs() as usize {
        return Err(ShapeFault::ReleaseCount);
    }
    if plan.budget.len() != shop.jobs() as usize {
        return Err(ShapeFault::BudgetCount);
    }
    if plan.order.len() != shop.machines() as usize {
        return Err(ShapeFault::OrderCount);
    }
    match &plan.clean {
        Some(times) if times.len() != shop.machines() as usize => Err(ShapeFault::CleanCount),
        _ => Ok(()),
    }
}

fn check_order(
    shop: &Shop,
    plan: &Plan,
    visits: &Visits,
    machine: MachineNo,
) -> Result<(), ShapeFault>
    requires reached { IsMachineReached (record { shop = shop.now; plan = plan.now }) machine }
    requires marked { AreVisits visits.now shop.now.routes }
    ensures sound { OnOk result (IsOrder (record { shop = shop.now; plan = plan.now }) machine) }
    ensures first_fault { IfErr result (IsFirstShapeFault (record { shop = shop.now; plan = plan.now })) }
{
    let listed = check_places(shop, plan, visits, machine)?;
    for job in 0..shop.jobs() {
        if listed[job as usize] < visits_on(shop, visits, job, machine) {
            return Err(ShapeFault::JobMissing { machine, job });
        }
    }
    Ok(())
}

/// Checks each place of the machine's order, and counts how often each job stands in it.
fn check_places(
    shop: &Shop,
    plan: &Plan,
    visits: &Visits,
    machine: MachineNo,
) -> Result<[u8; MAX_JOBS], ShapeFault>
    requires reached { IsMachineReached (record { shop = shop.now; plan = plan.now }) machine }
    requires marked { AreVisits visits.now shop.now.routes }
    ensures good { OnOk result (AreGoodPlaces (record { shop = shop.now; plan = plan.now }) machine) }
    ensures listed { IfOk result
        (λ listed. AreTheCounts listed (place_count (record { shop = shop.now; plan = plan.now }) machine)) }
    ensures first_fault { IfErr result (IsFirstShapeFault (record { shop = shop.now; plan = plan.now })) }
{
    let order = order_of(plan, machine);
    let mut listed = [0; MAX_JOBS];
    for place in 0..order.len() {
        let job = order[place];
        if job >= shop.jobs() {
            return Err(ShapeFault::JobOutOfRange { machine, place });
        }
        let visits = visits_on(shop, visits, job, machine);
        if visits == 0 {
            return Err(ShapeFault::NotOnRoute { machine, place });
        }
        if listed[job as usize] >= visits {
            return Err(ShapeFault::JobTwice { machine, place });
        }
        listed[job as usize] += 1;
    }
    Ok(listed)
}

/// Counts for each job how often its route visits each machine. The table is too large to be moved.
fn count_visits(shop: &Shop, visits: &mut Visits)
    ensures { AreVisits visits.new shop.now.routes }
{
    *visits = [[0; MAX_MACHINES as usize]; MAX_JOBS];
    for job in 0..shop.jobs() {
        if let Some(route) = shop.route(job) {
            visits[job as usize] = visited_by(route);
        }
    }
}

/// How often the route of the job visits the machine.
fn visits_on(shop: &Shop, visits: &Visits, job: JobNo, machine: MachineNo) -> u8
    requires in_range { machine < MAX_MACHINES }
    requires job { job < length shop.now.routes }
    requires marked { AreVisits visits.now shop.now.routes }
    ensures { result ≡ visits_in shop.now.routes job machine }
{
    // Called for its clause alone: the shop is sound, so it has few jobs.
    let _jobs = shop.jobs();
    visits[job as usize][machine as usize]
}

/// Counts how often the route visits each machine.
fn visited_by(route: &[Step]) -> [u8; MAX_MACHINES as usize]
    requires few { length route.now ≤ MAX_MACHINES }
    requires in_range { (k : ℕ) → k < length route.now → (step_at route.now k).machine < MAX_MACHINES }
    ensures { AreVisited result route.now }
{
    let mut visited = [0; MAX_MACHINES as usize];
    for k in 0..route.len() {
        visited[route[k].machine as usize] += 1;
    }
    visited
}

fn order_of(plan: &Plan, machine: MachineNo) -> &[JobNo]
    requires { machine < length plan.now.order }
    ensures { result.now ≡ slice_index_or plan.now.order machine [] }
{
    plan.order[machine as usize].as_slice()
}
