//! Plans whose orders are replaced.

ghost use Rattle.std.specs.Prelude.{◌≡◌, IfOk};
ghost use Rattle.shop_base.specs.{Plan.IsWellShaped, Vectors.lists_of};
ghost use Rattle.cell_tables.specs.Reordered.{with_orders, reordered, IsReplaced};

use shop_base::{JobNo, Plan, Shaped, Shop, shape};
use std::alloc::{AllocError, Global};

/// What came of replacing a plan's orders.
#[derive(Drop)]
pub enum Replaced {
    /// The plan with the new orders, and the old ones.
    Fits(Shaped, Vec<Vec<JobNo>>),
    /// The new orders don't fit the shop, and the plan is as it was.
    Stays(Shaped),
}

/// The plan with other orders, if they fit the shop. Takes no memory.
pub fn replace(shaped: Shaped, order: Vec<Vec<JobNo>>) -> Replaced
    ensures { IsReplaced shaped (lists_of order.items) result }
{
    // Called for its clause alone: the plan is well shaped.
    let _shop = shaped.shop();
    let (shop, plan) = shaped.into_parts();
    let (plan, old) = exchange(plan, order);
    match shape(shop, plan) {
        Ok(shaped) => Replaced::Fits(shaped, old),
        Err(refused) => Replaced::Stays(shape_with(refused.shop, refused.plan, old)),
    }
}

/// The plan with orders that fit it. It takes no memory.
pub fn put_back(shaped: Shaped, order: Vec<Vec<JobNo>>) -> Shaped
    requires { IsWellShaped (reordered shaped (lists_of order.items)) }
    ensures { result ≡ reordered shaped (lists_of order.items) }
{
    let (shop, plan) = shaped.into_parts();
    shape_with(shop, plan, order)
}

/// The shop and the plan with orders that fit it.
fn shape_with(shop: Shop, plan: Plan, order: Vec<Vec<JobNo>>) -> Shaped
    requires { IsWellShaped (reordered (record { shop = shop; plan = plan }) (lists_of order.items)) }
    ensures { result ≡ reordered (record { shop = shop; plan = plan }) (lists_of order.items) }
{
    let (plan, _) = exchange(plan, order);
    match shape(shop, plan) {
        Ok(shaped) => shaped,
        Err(_) => unreachable!(),
    }
}

/// The plan with these orders, and its old ones.
fn exchange(plan: Plan, order: Vec<Vec<JobNo>>) -> (Plan, Vec<Vec<JobNo>>)
    ensures new { result.0 ≡ with_orders plan (lists_of order.items) }
    ensures old { lists_of result.1.items ≡ plan.order }
{
    let Plan {
        release,
        budget,
        order: old,
        clean,
    } = plan;
    let new = Plan {
        release,
        budget,
        order,
        clean,
    };
    (new, old)
}

/// A copy of the orders.
pub fn copy_orders(alloc: Global, orders: &[Vec<JobNo>]) -> Result<Vec<Vec<JobNo>>, AllocError>
    ensures { IfOk result (λ copy. lists_of copy.items ≡ lists_of orders.now) }
{
    let mut copy = Vec::new(alloc);
    for order in orders {
        copy.push(copy_order(alloc, order.as_slice())?)?;
    }
    Ok(copy)
}

/// A copy of an order.
fn copy_order(alloc: Global, order: &[JobNo]) -> Result<Vec<JobNo>, AllocError>
    ensures { IfOk result (λ copy. copy.items ≡ order.now) }
{
    order.to_vec(alloc)
}
