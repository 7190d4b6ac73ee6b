//! A cell handed over to another plan in mid-run, called from C.

ghost use Rattle.std.specs.Prelude.{◌≡◌, ◌≢◌, ◌≤◌, ◌↔◌, None, IsSome};
ghost use Rattle.shop_base.specs.declared.limits.TheConstants.{MAX_MOMENT};
ghost use Rattle.shop_base.specs.Plan.{PlannedShop};
ghost use Rattle.command_answers.specs.Shapes.{IsShapedOrNot};
ghost use Rattle.cell_control.specs.HandedOver.{IsHandedOver};
ghost use Rattle.cellplan_c.specs.Numbers.{named};
ghost use Rattle.cellplan_c.specs.Cells.{Holding, GoesAsPromised, Handing, WritesOrders};
ghost use Rattle.cellplan_c.specs.HandOvers.{IsHandOver, IsHandOverStatus, hand_over_status};

use crate::cell::Cell;
use crate::inner::Inner;
use crate::instances::name_in;
use crate::numbers::Order;
use crate::promised::is_as_promised;
use crate::rooms::put_back;
use crate::statuses::{BACKWARDS, GOOD, KEEPS_NOT, MOMENT_TOO_LARGE, NO_CELL, REFUSED};
use cell_control::HandOverFault;
use cell_tables::PresentFault;
use command_answers::load_shaped;
use shop_base::limits::MAX_MOMENT;
use shop_base::{ShapeFault, Shaped};
use std::alloc::Global;

/// Hands the cell over to the plan of the two texts, from a moment on. As many of the orders that are then due are
/// written as there is room for, and their true number; `cellplan_cell_orders` gives the others. Where it is refused,
/// the cell holds what it held.
#[unsafe(no_mangle)]
pub extern "C" fn cellplan_cell_hand_over(
    alloc: Global,
    cell: &mut Cell,
    instance: &[u8],
    name: &[u8],
    plan: &[u8],
    at: u64,
    orders: &mut [Order],
    count: &mut usize,
) -> u32
    ensures full { IsSome cell.old.slot.held → IsSome cell.new.slot.held }
    ensures no_cell { (cell.old.slot.held ≡ None) ↔ (result ≡ 8) }
    ensures handed_over { Handing cell.old cell.new (IsHandOver instance.now (named name.now) plan.now at result) }
    ensures unchanged { result ≢ 0 → cell.new.slot.held ≡ cell.old.slot.held }
    ensures never_wrong { Holding cell.new GoesAsPromised }
    ensures orders { WritesOrders cell.new result 0 orders.old orders.new count.new }
{
    *count = 0;
    let Some(mut inner) = cell.take(alloc) else {
        return NO_CELL;
    };
    let status = hand_over_to(alloc, &mut inner, instance, name, plan, at);
    is_as_promised(&inner.controller);
    put_back(cell, inner, status, 0, orders, count);
    status
}

/// Hands over to the plan of the two texts, and gives 0 or the status of the reason why not.
fn hand_over_to(
    alloc: Global,
    inner: &mut Inner,
    instance: &[u8],
    name: &[u8],
    plan: &[u8],
    at: u64,
) -> u32
    ensures handed_over { IsHandOver instance.now
        (named name.now) plan.now at result inner.old.controller inner.new.controller }
    ensures unchanged { result ≢ 0 → inner.new ≡ inner.old }
    ensures statuses { result ≢ 8 }
{
    if at > MAX_MOMENT {
        return MOMENT_TOO_LARGE;
    }
    match load_shaped(alloc, instance, name_in(name), plan) {
        Ok(loaded) => hand_over_plan(alloc, inner, loaded, at),
        Err(fault) => u32::from(fault.status()),
    }
}

/// Hands over to a plan that is given, if it is well shaped.
fn hand_over_plan(
    alloc: Global,
    inner: &mut Inner,
    loaded: Result<Shaped, ShapeFault>,
    at: u64,
) -> u32
    requires { at ≤ MAX_MOMENT }
    ensures status { (q : PlannedShop) → IsShapedOrNot q loaded → IsHandOverStatus inner.old.controller q at result }
    ensures handed_over { (q : PlannedShop) → IsShapedOrNot q loaded → result ≡ 0
        → IsHandedOver inner.old.controller q at inner.new.controller }
    ensures unchanged { result ≢ 0 → inner.new ≡ inner.old }
    ensures statuses { (result ≢ 3) × (result ≢ 8) × (result ≢ 18) }
{
    let Ok(shaped) = loaded else {
        return REFUSED;
    };
    match inner.controller.hand_over(alloc, shaped, at) {
        Ok(()) => GOOD,
        Err((fault, _shaped)) => hand_over_status(fault),
    }
}

/// The status of a reason why another plan doesn't take over, or why there is no rest from a moment on.
pub(crate) fn hand_over_status(fault: HandOverFault) -> u32
    ensures { result ≡ hand_over_status fault }
{
    match fault {
        HandOverFault::Present(PresentFault::TooLarge) => MOMENT_TOO_LARGE,
        HandOverFault::Present(PresentFault::Past { last: _ }) => BACKWARDS,
        HandOverFault::IncompatiblePlan => KEEPS_NOT,
        HandOverFault::Cycle(_) => REFUSED,
        HandOverFault::Memory => 4,
    }
}
