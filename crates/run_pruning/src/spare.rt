//! A planned shop without a machine that nobody visits.

ghost use Rattle.std.specs.Prelude.{◌≡◌, ◌+◌, ◌≤◌, IfOk, take, length};
ghost use Rattle.shop_base.specs.{Vectors.lists_of, Vectors.list_of};
ghost use Rattle.run_pruning.specs.Spare.{first_cleanings, has_spare, without_spare};

use crate::pruning::{copy_route, planned};
use shop_base::{JobNo, Moment, Plan, Shaped, Step};
use std::alloc::{AllocError, Global};

/// The planned shop without the machine behind those of the plant, of which there are so many, where nobody visits that
/// machine and it has no cleaning time. Any other comes back as it is. On an error it is gone.
pub fn without_spare(alloc: Global, shaped: Shaped, plant: u32) -> Result<Shaped, AllocError>
    ensures { IfOk result (λ left. left ≡ without_spare shaped plant) }
{
    if !has_spare(&shaped, plant) {
        return Ok(shaped);
    }
    let routes = copy_routes(alloc, &shaped)?;
    let recirculates = shaped.shop().recirculates();
    let (_, plan) = shaped.into_parts();
    Ok(planned(plant, recirculates, routes, narrowed_plan(plan, plant)))
}

/// Whether just one machine stands behind those of the plant, which nobody visits and which has no cleaning time.
fn has_spare(shaped: &Shaped, plant: u32) -> bool
    ensures { result ≡ has_spare shaped.now plant }
{
    let machines = shaped.machine_count();
    if plant >= machines || machines - plant > 1 {
        return false;
    }
    shaped.order_of(plant).is_empty() && shaped.clean_of(plant) == 0
}

fn copy_routes(alloc: Global, shaped: &Shaped) -> Result<Vec<Vec<Step>>, AllocError>
    ensures { IfOk result (λ copy. lists_of copy.items ≡ shaped.now.shop.routes) }
{
    let mut copy = Vec::new(alloc);
    for job in 0..shaped.job_count() {
        copy.push(copy_route(alloc, shaped.route_of(job))?)?;
    }
    Ok(copy)
}

/// The plan for so many machines alone.
fn narrowed_plan(plan: Plan, machines: u32) -> Plan
    ensures { result ≡ record {
      release = plan.release;
      budget = plan.budget;
      order = take machines plan.order;
      clean = first_cleanings machines plan.clean;
    } }
{
    let Plan {
        release,
        budget,
        order,
        clean,
    } = plan;
    Plan {
        release,
        budget,
        order: first_orders(order, machines),
        clean: first_cleanings(clean, machines),
    }
}

fn first_orders(mut orders: Vec<Vec<JobNo>>, machines: u32) -> Vec<Vec<JobNo>>
    ensures { lists_of result.items ≡ take machines (lists_of orders.items) }
{
    orders.truncate(machines as usize);
    orders
}

fn first_cleanings(clean: Option<Vec<Moment>>, machines: u32) -> Option<Vec<Moment>>
    ensures { list_of result ≡ first_cleanings machines (list_of clean) }
{
    match clean {
        Some(mut times) => {
            times.truncate(machines as usize);
            Some(times)
        }
        None => None,
    }
}
