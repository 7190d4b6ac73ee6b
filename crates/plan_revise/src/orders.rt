//! Orders that visits of a job are taken out of, or put last in.

ghost use Rattle.std.specs.Prelude.{◌≡◌, ℕ, ◌<◌, OnOk, length};
ghost use Rattle.shop_base.specs.{Shop.step_at, Vectors.lists_of};
ghost use Rattle.plan_revise.specs.Orders.{without_last, removed, put_last};

use shop_base::{JobNo, Step};
use std::alloc::AllocError;

/// Takes these steps of the job out of the orders of their machines: each time the last of the job's places there.
pub(crate) fn take_out(orders: &mut Vec<Vec<JobNo>>, job: JobNo, steps: &[Step])
    requires { (k : ℕ) → k < length steps.now → (step_at steps.now k).machine < length orders.old.items }
    ensures { lists_of orders.new.items ≡ removed job steps.now (lists_of orders.old.items) }
{
    for step in steps {
        take_last_out_of(&mut orders[step.machine as usize], job);
    }
}

/// Takes the job out of the last of its places in an order.
fn take_last_out_of(order: &mut Vec<JobNo>, job: JobNo)
    ensures { order.new.items ≡ without_last job order.old.items }
{
    for place in (0..order.len()).rev() {
        if order[place] == job {
            order.remove(place);
            return;
        }
    }
}

/// Puts these steps of the job last in the orders of their machines.
pub(crate) fn put_last(
    orders: &mut Vec<Vec<JobNo>>,
    job: JobNo,
    steps: &[Step],
) -> Result<(), AllocError>
    requires { (k : ℕ) → k < length steps.now → (step_at steps.now k).machine < length orders.old.items }
    ensures { OnOk result (lists_of orders.new.items ≡ put_last job steps.now (lists_of orders.old.items)) }
{
    for step in steps {
        orders[step.machine as usize].push(job)?;
    }
    Ok(())
}
