//! The planned shop and the entries of the jobs that stay alone.

ghost use Rattle.std.specs.Prelude.{◌≡◌, IfOk, MatchOption, false, true, length, map};
ghost use Rattle.shop_base.specs.{Plan.IsWellShaped, Vectors.lists_of, Vectors.list_of};
ghost use Rattle.cell_tables.specs.Events.{event_of, events_of};
ghost use Rattle.run_pruning.specs.Staying.{stays, staying, renumbered};
ghost use Rattle.run_pruning.specs.{Pruned.pruned, PrunedEvents.owner, PrunedEvents.renamed};
ghost use Rattle.run_pruning.specs.PruningLaw.{IsChoice, pruned_run};

use crate::kept_jobs::KeptJobs;
use crate::leavers::Leavers;
use cell_tables::Entry;
use shop_base::{JobNo, Moment, MoveOrder, Plan, Report, Shaped, Shop, Step, shape};
use std::alloc::{AllocError, Global};

/// The planned shop of the jobs that stay alone. At least one has to stay.
pub(crate) fn prune(alloc: Global, shaped: &Shaped, kept: &KeptJobs) -> Result<Shaped, AllocError>
    requires { IsChoice shaped.now kept.now }
    ensures { IfOk result (λ left. left ≡ pruned kept.now shaped.now) }
{
    let plan = shaped.plan();
    let routes = kept_routes(alloc, shaped, kept)?;
    let left = Plan {
        release: kept_times(alloc, plan.release.as_slice(), kept)?,
        budget: kept_times(alloc, plan.budget.as_slice(), kept)?,
        order: kept_orders(alloc, shaped, kept)?,
        clean: copy_cleanings(alloc, plan)?,
    };
    Ok(planned(
        shaped.machine_count(),
        shaped.shop().recirculates(),
        routes,
        left,
    ))
}

/// A shop and its plan, which is well shaped.
pub(crate) fn planned(
    machines: u32,
    recirculates: bool,
    routes: Vec<Vec<Step>>,
    plan: Plan,
) -> Shaped
    requires { IsWellShaped (record {
      shop = record { machines = machines; routes = lists_of routes.items; recirculates = recirculates };
      plan = plan;
    }) }
    ensures { result ≡ record {
      shop = record { machines = machines; routes = lists_of routes.items; recirculates = recirculates };
      plan = plan;
    } }
{
    match Shop::of_kind(machines, routes, recirculates) {
        Ok(shop) => shaped_of(shop, plan),
        Err(_) => unreachable!(),
    }
}

/// The shop and a plan that is well shaped for it.
fn shaped_of(shop: Shop, plan: Plan) -> Shaped
    requires { IsWellShaped (record { shop = shop; plan = plan }) }
    ensures { result ≡ record { shop = shop; plan = plan } }
{
    match shape(shop, plan) {
        Ok(shaped) => shaped,
        Err(_) => unreachable!(),
    }
}

/// The routes of the jobs that stay.
fn kept_routes(
    alloc: Global,
    shaped: &Shaped,
    kept: &KeptJobs,
) -> Result<Vec<Vec<Step>>, AllocError>
    requires { length shaped.now.shop.routes ≡ length kept.now }
    ensures { IfOk result (λ left. lists_of left.items ≡ staying kept.now shaped.now.shop.routes) }
{
    let mut left = Vec::new(alloc);
    for job in 0..shaped.job_count() {
        if kept.number_of(job).is_some() {
            left.push(copy_route(alloc, shaped.route_of(job))?)?;
        }
    }
    Ok(left)
}

/// A route once more.
pub(crate) fn copy_route(alloc: Global, route: &[Step]) -> Result<Vec<Step>, AllocError>
    ensures { IfOk result (λ copy. copy.items ≡ route.now) }
{
    route.to_vec(alloc)
}

/// The releases or budgets of the jobs that stay.
fn kept_times(alloc: Global, times: &[Moment], kept: &KeptJobs) -> Result<Vec<Moment>, AllocError>
    requires { length times.now ≡ length kept.now }
    ensures { IfOk result (λ left. left.items ≡ staying kept.now times.now) }
{
    let mut left = Vec::new(alloc);
    for job in 0..kept.len() {
        if kept.number_of(job).is_some() {
            left.push(times[job as usize])?;
        }
    }
    Ok(left)
}

/// The orders without the jobs that don't stay.
fn kept_orders(
    alloc: Global,
    shaped: &Shaped,
    kept: &KeptJobs,
) -> Result<Vec<Vec<JobNo>>, AllocError>
    ensures { IfOk result (λ left. lists_of left.items ≡ map (renumbered kept.now) shaped.now.plan.order) }
{
    let mut left = Vec::new(alloc);
    for machine in 0..shaped.machine_count() {
        left.push(kept_order(alloc, shaped.order_of(machine), kept)?)?;
    }
    Ok(left)
}

/// An order without them.
fn kept_order(alloc: Global, order: &[JobNo], kept: &KeptJobs) -> Result<Vec<JobNo>, AllocError>
    ensures { IfOk result (λ left. left.items ≡ renumbered kept.now order.now) }
{
    let mut left = Vec::new(alloc);
    for job in order {
        if let Some(number) = kept.number_of(*job) {
            left.push(number)?;
        }
    }
    Ok(left)
}

fn copy_cleanings(alloc: Global, plan: &Plan) -> Result<Option<Vec<Moment>>, AllocError>
    ensures { IfOk result (λ copy. list_of copy ≡ plan.now.clean) }
{
    match &plan.clean {
        Some(times) => Ok(Some(times.as_slice().to_vec(alloc)?)),
        None => Ok(None),
    }
}

/// The entries of a run that are those of the jobs that stay, by their new numbers.
pub(crate) fn prune_entries(
    alloc: Global,
    shaped: &Shaped,
    kept: &KeptJobs,
    entries: &[Entry],
) -> Result<Vec<Entry>, AllocError>
    ensures { IfOk result
        (λ left. events_of left.items ≡ pruned_run kept.now shaped.now (events_of entries.now)) }
{
    let mut leavers = Leavers::none(alloc, shaped.machine_count())?;
    let mut left = Vec::new(alloc);
    for entry in entries {
        if let Some(entry) = kept_entry(&leavers, kept, *entry) {
            left.push(entry)?;
        }
        leavers.pass(*entry);
    }
    Ok(left)
}

/// An entry by the new number of its job; `None` if that doesn't stay.
fn kept_entry(leavers: &Leavers, kept: &KeptJobs, entry: Entry) -> Option<Entry>
    ensures { MatchOption result (stays kept.now (owner leavers.now (event_of entry)) ≡ false)
        (λ left. (stays kept.now (owner leavers.now (event_of entry)) ≡ true)
        × (event_of left ≡ renamed kept.now (event_of entry))) }
{
    let number = kept.number_of(leavers.owner(entry))?;
    Some(match entry {
        Entry::Report(Report::Arrive { job: _, at }) => Entry::Report(Report::Arrive {
            job: number,
            at,
        }),
        Entry::Report(
            Report::Finish {
                job: _,
                machine,
                at,
            },
        ) => Entry::Report(Report::Finish {
            job: number,
            machine,
            at,
        }),
        Entry::Report(Report::Clean { machine, at }) => Entry::Report(Report::Clean {
            machine,
            at,
        }),
        Entry::Order(order) => Entry::Order(of_job(number, order)),
    })
}

/// The order, with this number of its job.
fn of_job(job: JobNo, order: MoveOrder) -> MoveOrder
    ensures { result ≡ record order { job = job } }
{
    MoveOrder { job, ..order }
}
