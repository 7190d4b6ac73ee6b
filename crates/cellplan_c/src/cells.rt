//! A cell begun and freed, called from C.

ghost use Rattle.std.specs.Prelude.{◌≡◌, ◌≢◌, ◌≤◌, ◌⊎◌, None, IfOk, IsSome};
ghost use Rattle.shop_base.specs.Plan.{PlannedShop};
ghost use Rattle.orlib_read.specs.declared.or_fault.OrFault.{OrFault};
ghost use Rattle.plan_text.specs.declared.plan_fault.PlanFault.{PlanFault};
ghost use Rattle.plan_text.specs.Documents.{IsFirstPlanFault};
ghost use Rattle.plan_verifier.specs.Accepted.{IsVerified};
ghost use Rattle.cell_control.specs.Control.{control_at_start};
ghost use Rattle.command_answers.specs.declared.command_fault.CommandFault.{CommandFault};
ghost use Rattle.command_answers.specs.Instances.{IsFirstInstanceFault};
ghost use Rattle.command_answers.specs.Plans.{BothParse, ParsesAsShop};
ghost use Rattle.cellplan_c.specs.Numbers.{named};
ghost use Rattle.cellplan_c.specs.Calls.{IsTextFault, IsStarted, loaded_status, IsStatusOfBoth, IsStatusOfPlan};
ghost use Rattle.cellplan_c.specs.Cells.{Holding, GoesAsPromised};
ghost use Rattle.cellplan_c.specs.Begun.{IsControllerOf};

use crate::cell::Cell;
use crate::inner::Inner;
use crate::instances::name_in;
use crate::promised::is_as_promised;
use crate::statuses::{GOOD, REFUSED, status_of_refused};
use cell_control::{Controller, RestController};
use command_answers::{Loaded, load};
use plan_verifier::{Verdict, Verified};
use std::alloc::{AllocError, Global};

/// Makes the controller of an accepted plan, and puts it in the place of what the cell held. For the line of a plan
/// that isn't accepted, or of a fault, call [`crate::answers::cellplan_check`].
#[unsafe(no_mangle)]
pub extern "C" fn cellplan_cell_new(
    alloc: Global,
    instance: &[u8],
    name: &[u8],
    plan: &[u8],
    cell: &mut Cell,
) -> u32
    ensures started { result ≡ 0 → Holding cell.new (IsStarted instance.now (named name.now) plan.now) }
    ensures full { result ≡ 0 → IsSome cell.new.slot.held }
    ensures never_wrong { result ≡ 0 → Holding cell.new GoesAsPromised }
    ensures judged { result ≤ 1 → IsStatusOfBoth instance.now (named name.now) plan.now result }
    ensures fault { result ≡ 3 → (fault : CommandFault) × IsTextFault instance.now (named name.now) plan.now fault }
    ensures only { (p : PlannedShop) → BothParse instance.now (named name.now) plan.now p → IsStatusOfPlan p result }
    ensures first { (fault : OrFault) → IsFirstInstanceFault instance.now (named name.now) fault → 3 ≤ result }
    ensures second { (fault : PlanFault) → ParsesAsShop instance.now (named name.now)
        → IsFirstPlanFault plan.now fault → 3 ≤ result }
    ensures unchanged { result ≢ 0 → cell.new.slot.held ≡ cell.old.slot.held }
    ensures statuses { (result ≤ 4) × (result ≢ 2) }
{
    match load(alloc, instance, name_in(name), plan) {
        Ok(loaded) => begun(alloc, loaded, cell),
        Err(fault) => u32::from(fault.status()),
    }
}

/// Frees what the cell holds; it holds none then.
#[unsafe(no_mangle)]
pub extern "C" fn cellplan_cell_free(alloc: Global, cell: &mut Cell)
    ensures { cell.new.slot.held ≡ None }
{
    drop(cell.take(alloc));
}

/// Puts the controller of an accepted plan in the place of what the cell held. Returns the status of what is said of
/// the plan, or of the request for memory that was refused.
fn begun(alloc: Global, loaded: Loaded, cell: &mut Cell) -> u32
    ensures status { (result ≡ 4) ⊎ (result ≡ loaded_status loaded) }
    ensures started { result ≡ 0 → Holding cell.new (IsControllerOf loaded) }
    ensures full { result ≡ 0 → IsSome cell.new.slot.held }
    ensures never_wrong { result ≡ 0 → Holding cell.new GoesAsPromised }
    ensures unchanged { result ≢ 0 → cell.new.slot.held ≡ cell.old.slot.held }
{
    match loaded {
        Loaded::Judged(Verdict::Accepted(verified)) => match boxed(alloc, verified) {
            Ok(inner) => {
                cellplan_cell_free(alloc, cell);
                cell.put(inner);
                GOOD
            }
            Err(error) => status_of_refused(error),
        },
        _ => REFUSED,
    }
}

/// The box of the controller of an accepted plan, or the error of the request for memory that was refused.
fn boxed(alloc: Global, verified: Verified) -> Result<Box<Inner>, AllocError>
    ensures verified { IsVerified verified }
    ensures start { IfOk result (λ inner. inner.value.controller ≡ control_at_start verified) }
    ensures never_wrong { IfOk result (λ inner. GoesAsPromised inner.value.controller) }
{
    let _plan = verified.shaped();
    match Controller::new(alloc, verified) {
        Ok(controller) => {
            let controller = RestController::of(controller);
            is_as_promised(&controller);
            Ok(Box::new(alloc, Inner { controller })?)
        }
        Err((error, _verified)) => Err(error),
    }
}
