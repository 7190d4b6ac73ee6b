//! The serial plan, which comes last: it has no cycle, so it is accepted unless it is late.

ghost use Rattle.std.specs.Prelude.{◌≡◌, IfOk};
ghost use Rattle.shop_base.specs.{Vectors.lists_of, Plan.IsWellShaped};
ghost use Rattle.plan_seek.specs.{Orders.serial_order, Tasks.PlanTask, Tasks.serial_plan, Search.AreSoundNumbers};
ghost use Rattle.plan_seek.specs.Outcomes.{IsSerialOutcome};

use crate::orders::orders_from;
use crate::seek_fault::{NotFound, SeekFault};
use crate::task::Task;
use plan_verifier::{Verdict, Verified, verify};
use shop_base::{JobNo, Shaped, Shop, shape};
use std::alloc::{AllocError, Global};

/// The serial plan, if it isn't late.
pub(crate) fn try_serial(alloc: Global, task: Task) -> Result<Verified, NotFound>
    requires { AreSoundNumbers task }
    ensures { IsSerialOutcome task result }
{
    match serial_orders(alloc, &task.shop) {
        Ok(order) => shape_serial(alloc, task, order),
        Err(error) => Err(task.not_found(SeekFault::from(error))),
    }
}

/// The orders of the serial plan: each machine takes its jobs in ascending order.
pub fn serial_orders(alloc: Global, shop: &Shop) -> Result<Vec<Vec<JobNo>>, AllocError>
    ensures { IfOk result (λ orders. lists_of orders.items ≡ serial_order shop.now) }
{
    // Called for its clause alone: there is a job.
    let _jobs = shop.jobs();
    orders_from(alloc, shop, 0)
}

/// Shapes and verifies the serial plan.
fn shape_serial(alloc: Global, task: Task, order: Vec<Vec<JobNo>>) -> Result<Verified, NotFound>
    requires sound { AreSoundNumbers task }
    requires serial { lists_of order.items ≡ serial_order task.shop }
    ensures { IsSerialOutcome task result }
{
    let (shop, plan) = task.with_order(order);
    match shape(shop, plan) {
        Ok(shaped) => verify_serial(alloc, shaped),
        Err(_) => unreachable!(),
    }
}

/// Verifies the serial plan.
fn verify_serial(alloc: Global, shaped: Shaped) -> Result<Verified, NotFound>
    requires { IsWellShaped shaped }
    ensures { (task : PlanTask) → shaped ≡ serial_plan task → IsSerialOutcome task result }
{
    match verify(alloc, shaped) {
        Ok(Verdict::Accepted(verified)) => Ok(verified),
        Ok(Verdict::Refused(shaped, _)) => {
            Err(Task::of_shaped(shaped).not_found(SeekFault::Exhausted))
        }
        Err((error, shaped)) => Err(Task::of_shaped(shaped).not_found(SeekFault::from(error))),
    }
}
