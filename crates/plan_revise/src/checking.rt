//! The checks of the route of a job that is added.

ghost use Rattle.std.specs.Prelude.{◌≡◌, ℕ, ◌<◌, ◌≤◌, ◌↔◌, IsTrue, OnOk, IfErr, MatchBool, length};
ghost use Rattle.shop_base.specs.Shop.{IsRoute, IsSoundStep, step_at};
ghost use Rattle.shop_base.specs.declared.limits.TheConstants.{MAX_MACHINES};
ghost use Rattle.shop_base.specs.ShopFault.{AreSoundSteps, IsLaterVisit, IsTwice, IsTooLong};
ghost use Rattle.plan_revise.specs.Routes.{IsRouteFault, IsStepFault};

use crate::change::ChangeFault;
use shop_base::Step;
use shop_base::limits::{MAX_NOMINAL, MAX_STEPS};

/// Checks that the steps are a route over so many machines, with recirculation or without.
pub(crate) fn check_route(
    machines: u32,
    recirculates: bool,
    route: &[Step],
) -> Result<(), ChangeFault>
    requires { machines ≤ MAX_MACHINES }
    ensures sound { OnOk result (IsRoute machines recirculates route.now) }
    ensures fault { IfErr result (IsRouteFault machines recirculates route.now) }
{
    check_length(machines, recirculates, route)?;
    check_steps(machines, recirculates, route)
}

/// Checks how many steps a route has. Without recirculation it can't have too many where its steps are sound.
fn check_length(machines: u32, recirculates: bool, route: &[Step]) -> Result<(), ChangeFault>
    ensures some { OnOk result (0 < length route.now) }
    ensures short { OnOk result (IsTooLong recirculates route.now → ⊥) }
    ensures fault { IfErr result (IsRouteFault machines recirculates route.now) }
{
    if route.is_empty() {
        return Err(ChangeFault::EmptyRoute);
    }
    if recirculates && route.len() > MAX_STEPS {
        return Err(ChangeFault::TooManySteps);
    }
    Ok(())
}

/// Checks the steps of a route that isn't too long.
fn check_steps(machines: u32, recirculates: bool, route: &[Step]) -> Result<(), ChangeFault>
    requires few_machines { machines ≤ MAX_MACHINES }
    requires some { 0 < length route.now }
    requires short { IsTooLong recirculates route.now → ⊥ }
    ensures sound { OnOk result (IsRoute machines recirculates route.now) }
    ensures fault { IfErr result (IsRouteFault machines recirculates route.now) }
{
    for place in 0..route.len() {
        check_step(machines, recirculates, route, place)?;
    }
    Ok(())
}

/// Checks the step at this place of a route whose earlier steps are sound.
fn check_step(
    machines: u32,
    recirculates: bool,
    route: &[Step],
    place: usize,
) -> Result<(), ChangeFault>
    requires { place < length route.now }
    ensures sound { OnOk result (IsSoundStep machines recirculates route.now place) }
    ensures fault { IfErr result (IsStepFault machines recirculates route.now place) }
{
    let step = route[place];
    if step.machine >= machines {
        return Err(ChangeFault::MachineOutOfRange);
    }
    if is_twice(recirculates, route, place) {
        return Err(ChangeFault::MachineTwice);
    }
    if step.nominal > MAX_NOMINAL {
        return Err(ChangeFault::NominalTooLarge);
    }
    Ok(())
}

/// Whether the machine of the step at this place may not be visited again.
fn is_twice(recirculates: bool, route: &[Step], place: usize) -> bool
    requires { place < length route.now }
    ensures { MatchBool result (IsTwice recirculates route.now place) (IsTwice recirculates route.now place → ⊥) }
{
    if recirculates {
        place > 0 && route[place - 1].machine == route[place].machine
    } else {
        is_later_visit(route, place)
    }
}

/// Whether an earlier step is on the machine of the step at this place.
fn is_later_visit(route: &[Step], place: usize) -> bool
    requires { place < length route.now }
    ensures { IsTrue result ↔ IsLaterVisit route.now place }
{
    for earlier in 0..place {
        if route[earlier].machine == route[place].machine {
            return true;
        }
    }
    false
}
