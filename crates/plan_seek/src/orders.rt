//! Orders in which all machines take their jobs in one row, each for all its visits in a row, and the planner that
//! proposes such ones.

ghost use Rattle.std.specs.Prelude.{◌≡◌, ◌-◌, ◌<◌, ◌≤◌, ℕ, [], length, replicate, IfOk, OnOk, Some};
ghost use Rattle.std.specs.List.{range_with_len};
ghost use Rattle.shop_base.specs.{Shop.step_at, Vectors.lists_of};
ghost use Rattle.plan_seek.specs.Orders.{orders_along, shifted_order, jobs_from, visitors, visits_of, visits_in};
ghost use Rattle.plan_seek.specs.Growing.{IsGrown};

use crate::proposer::{Proposed, Proposer};
use shop_base::{JobNo, Shop, Step};
use std::alloc::{AllocError, Global};

/// A planner that gives all machines their jobs in the same order: ascending, in round `r` from job `r` on, with job 0
/// after the last, each as often as it visits the machine. It proposes exactly these lists.
#[derive(Clone, Copy, Debug, Default)]
pub struct ShiftProposer;

impl ShiftProposer {
    /// The planner, which keeps nothing between its rounds.
    pub fn new() -> ShiftProposer {
        ShiftProposer
    }
}

impl Proposer for ShiftProposer {
    ghost may = { λ proposer shop round proposal. proposal ≡ Some (shifted_order shop round) };

    fn propose(&self, alloc: Global, shop: &Shop, round: u32) -> Proposed {
        let orders = orders_from(alloc, shop, round % shop.jobs())?;
        Ok(Some(orders))
    }
}

/// An order for each machine: its jobs from `first` on, ascending, and then those from job 0 on.
pub(crate) fn orders_from(
    alloc: Global,
    shop: &Shop,
    first: JobNo,
) -> Result<Vec<Vec<JobNo>>, AllocError>
    requires { first < length shop.now.routes }
    ensures { IfOk result
        (λ orders. lists_of orders.items ≡ orders_along shop.now (jobs_from (length shop.now.routes) first)) }
{
    let mut orders = empty_orders(alloc, shop)?;
    add_jobs(shop, first, shop.jobs(), &mut orders)?;
    add_jobs(shop, 0, first, &mut orders)?;
    Ok(orders)
}

/// An order without jobs for each machine.
pub(crate) fn empty_orders(alloc: Global, shop: &Shop) -> Result<Vec<Vec<JobNo>>, AllocError>
    ensures { IfOk result (λ orders. lists_of orders.items ≡ orders_along shop.now []) }
{
    let mut orders = Vec::new(alloc);
    for _ in 0..shop.machines() {
        orders.push(Vec::new(alloc))?;
    }
    Ok(orders)
}

/// Adds the jobs from `from` on and below `to` to the orders.
fn add_jobs(
    shop: &Shop,
    from: JobNo,
    to: JobNo,
    orders: &mut Vec<Vec<JobNo>>,
) -> Result<(), AllocError>
    requires ascending { from ≤ to }
    requires inside { to ≤ length shop.now.routes }
    requires count { length orders.old.items ≡ shop.now.machines }
    ensures { OnOk result (IsGrown (lists_of orders.old.items) (lists_of orders.new.items)
        (visitors shop.now (range_with_len from (to - from)))) }
{
    for job in from..to {
        add_job(shop, job, orders)?;
    }
    Ok(())
}

/// Adds the job to the order of each machine, as often as it visits it.
fn add_job(shop: &Shop, job: JobNo, orders: &mut Vec<Vec<JobNo>>) -> Result<(), AllocError>
    requires job { job < length shop.now.routes }
    requires count { length orders.old.items ≡ shop.now.machines }
    ensures { OnOk result (IsGrown (lists_of orders.old.items) (lists_of orders.new.items) (visits_of shop.now job)) }
{
    // Called for its clause alone: the shop is sound.
    let _machines = shop.machines();
    match shop.route(job) {
        Some(route) => add_visits(route, job, orders),
        None => unreachable!(),
    }
}

/// Adds the job to the order of each step's machine.
fn add_visits(route: &[Step], job: JobNo, orders: &mut Vec<Vec<JobNo>>) -> Result<(), AllocError>
    requires { (k : ℕ) → k < length route.now → (step_at route.now k).machine < length orders.old.items }
    ensures { OnOk result (IsGrown (lists_of orders.old.items) (lists_of orders.new.items)
        (λ m. replicate (visits_in route.now m) job)) }
{
    for step in route {
        orders[step.machine as usize].push(job)?;
    }
    Ok(())
}
