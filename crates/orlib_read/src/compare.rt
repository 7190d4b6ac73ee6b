//! Whether an instance that was read is the one that was written.

ghost use Rattle.std.specs.Prelude.{◌≡◌, ◌<◌, MatchBool, length};
ghost use Rattle.shop_base.specs.Shop.{route_at};

use crate::named::Named;
use shop_base::{Shop, Step};

pub(crate) fn is_same(named: &Named, description: &[u8], shop: &Shop) -> bool
    ensures { let same = (named.now.description.items ≡ description.now) × (named.now.shop ≡ shop.now) in
        MatchBool result same (same → ⊥) }
{
    named.description.as_slice() == description && is_same_shop(&named.shop, shop)
}

fn is_same_shop(a: &Shop, b: &Shop) -> bool
    ensures { MatchBool result (a.now ≡ b.now) (a.now ≡ b.now → ⊥) }
{
    if a.machines() != b.machines()
        || a.recirculates() != b.recirculates()
        || a.jobs() != b.jobs()
    {
        return false;
    }
    for job in 0..a.jobs() {
        if !are_same_steps(route_of(a, job), route_of(b, job)) {
            return false;
        }
    }
    true
}

/// The route of a job of the shop.
pub(crate) fn route_of(shop: &Shop, job: u32) -> &[Step]
    requires { job < length shop.now.routes }
    ensures { result.now ≡ route_at shop.now.routes job }
{
    match shop.route(job) {
        Some(route) => route,
        None => unreachable!(),
    }
}

fn are_same_steps(a: &[Step], b: &[Step]) -> bool
    ensures { MatchBool result (a.now ≡ b.now) (a.now ≡ b.now → ⊥) }
{
    if a.len() != b.len() {
        return false;
    }
    for place in 0..a.len() {
        if a[place] != b[place] {
            return false;
        }
    }
    true
}
