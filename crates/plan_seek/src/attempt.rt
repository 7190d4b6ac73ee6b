//! One proposal put to the test.

ghost use Rattle.std.specs.Prelude.{◌≡◌, Some};
ghost use Rattle.shop_base.specs.Vectors.{lists_of};
ghost use Rattle.plan_verifier.specs.Accepted.{IsAcceptable};
ghost use Rattle.plan_seek.specs.{Tasks.task_in, Turns.IsInVain, Outcomes.IsOutcome};

use crate::task::Task;
use plan_verifier::{Verdict, Verified, verify};
use shop_base::{JobNo, Shaped, shape};
use std::alloc::{AllocError, Global};

/// What came of a proposal, or of several.
#[derive(Drop)]
pub(crate) enum Attempt {
    /// The plan is accepted.
    Accepted(Verified),
    /// There is no plan, or it isn't accepted.
    InVain(Task),
    /// Out of memory: what the request was refused with, and the task.
    NoMemory(AllocError, Task),
}

/// Shapes and verifies the plan with these orders.
pub(crate) fn try_orders(alloc: Global, task: Task, order: Vec<Vec<JobNo>>) -> Attempt
    ensures { IsOutcome task (λ found. found ≡ lists_of order.items)
        (IsInVain task (Some (lists_of order.items))) result }
{
    let (shop, plan) = task.with_order(order);
    match shape(shop, plan) {
        Ok(shaped) => try_shaped(alloc, shaped),
        Err(refused) => Attempt::InVain(Task::of(refused.shop, refused.plan)),
    }
}

/// Verifies a plan.
fn try_shaped(alloc: Global, shaped: Shaped) -> Attempt
    ensures { IsOutcome (task_in shaped) (λ found. found ≡ shaped.plan.order) (IsAcceptable shaped → ⊥) result }
{
    match verify(alloc, shaped) {
        Ok(Verdict::Accepted(verified)) => Attempt::Accepted(verified),
        Ok(Verdict::Refused(shaped, _)) => Attempt::InVain(Task::of_shaped(shaped)),
        Err((error, shaped)) => Attempt::NoMemory(error, Task::of_shaped(shaped)),
    }
}
