//! Copies of shops and of numbers, for each plan that is judged.

ghost use Rattle.std.specs.Prelude.{◌≡◌, IfOk};
ghost use Rattle.shop_base.specs.Vectors.{lists_of, list_of};

use shop_base::{Moment, Shaped, Shop, Step};
use std::alloc::{AllocError, Global};

/// A copy of the shop.
pub(crate) fn copy_shop(alloc: Global, shaped: &Shaped) -> Result<Shop, AllocError>
    ensures { IfOk result (λ copy. copy ≡ shaped.now.shop) }
{
    let routes = copy_routes(alloc, shaped)?;
    match Shop::of_kind(shaped.machine_count(), routes, shaped.shop().recirculates()) {
        Ok(shop) => Ok(shop),
        Err(_) => unreachable!(),
    }
}

/// A copy of the routes.
fn copy_routes(alloc: Global, shaped: &Shaped) -> Result<Vec<Vec<Step>>, AllocError>
    ensures { IfOk result (λ copy. lists_of copy.items ≡ shaped.now.shop.routes) }
{
    let mut routes = Vec::new(alloc);
    for job in 0..shaped.job_count() {
        routes.push(copy_route(alloc, shaped.route_of(job))?)?;
    }
    Ok(routes)
}

/// A copy of a route.
fn copy_route(alloc: Global, route: &[Step]) -> Result<Vec<Step>, AllocError>
    ensures { IfOk result (λ copy. copy.items ≡ route.now) }
{
    route.to_vec(alloc)
}

/// A copy of the moments.
pub(crate) fn copy_moments(alloc: Global, moments: &[Moment]) -> Result<Vec<Moment>, AllocError>
    ensures { IfOk result (λ copy. copy.items ≡ moments.now) }
{
    moments.to_vec(alloc)
}

/// A copy of the cleaning times.
pub(crate) fn copy_cleanings(
    alloc: Global,
    clean: &Option<Vec<Moment>>,
) -> Result<Option<Vec<Moment>>, AllocError>
    ensures { IfOk result (λ copy. list_of copy ≡ list_of clean.now) }
{
    match clean {
        Some(times) => Ok(Some(copy_moments(alloc, times.as_slice())?)),
        None => Ok(None),
    }
}
