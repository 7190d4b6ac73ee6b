ghost use Rattle.std.specs.Prelude.{◌≡◌, [], OnOk, IfOk, IfErr};
ghost use Rattle.plan_verifier.specs.Rest.{AreOrderedAhead};
ghost use Rattle.cell_control.specs.{Begun.IsBegun, Begun.IsRestFault, Fields.IsRoomFor};
ghost use Rattle.cell_control.specs.HandedOver.{IsHandedOver, IsHandOverFault};

use crate::controller::Controller;
use crate::core_controller::Core;
use crate::dispatching::dispatch_enabled;
use crate::dues::Dues;
use crate::hand_over_fault::HandOverFault;
use crate::handing::take_over;
use crate::preparing::prepare;
use crate::rest_fault::RestFault;
use crate::room::Room;
use crate::timed::Held;
use alt_graph::Times;
use cell_tables::{Rest, WorkCell};
use shop_base::{Moment, Shaped};
use std::alloc::Global;
use std::mem::replace;

/// Runs the rest of a run by a plan without a cycle: a [`Core`] that was begun in mid-run or handed over, with its plan
/// and the moments kept. No budgets are asked for.
///
/// Only [`RestController::begin`] and [`RestController::hand_over`] take memory.
pub type RestController<D> = Core<Held, D>;

/// The cell, with what is known of the nodes of its plan.
fn hold(cell: WorkCell<Shaped>, times: Times) -> WorkCell<Held>
    ensures plan { result.plan ≡ cell.plan }
    ensures cell { result.cell ≡ cell.cell }
    ensures times { result.basis.times ≡ times }
{
    let (shaped, tables) = cell.into_parts();
    WorkCell::of_parts(Held { shaped, times }, tables)
}

/// The plan of a rest, taken out.
fn plan_of(rest: Rest<Shaped>) -> Shaped
    ensures { result ≡ rest.basis }
{
    let (cell, _present) = rest.into_parts();
    cell.into_basis()
}

impl<D: Dues> Core<Held, D> {
    /// Begins with the rest of a run. All jobs that can move are moved at its present moment, always the first of them,
    /// until the cell is at rest: these moves are in [`Core::orders`]. If the call is refused, the rest comes back as
    /// it was.
    pub fn begin(
        alloc: Global,
        rest: Rest<Shaped>,
    ) -> Result<RestController<D>, (RestFault, Rest<Shaped>)>
        ensures begun { IfOk result (IsBegun rest.plan rest.cell rest.present) }
        ensures fault { IfErr result (λ refused. IsRestFault rest.plan refused.0) }
        ensures handed_back { IfErr result (λ refused. refused.1 ≡ rest) }
    {
        match prepare(alloc, &rest) {
            Ok((times, room)) => Ok(RestController::settled(rest, times, room)),
            Err(fault) => Err((fault, rest)),
        }
    }

    /// Settles the cell, and begins.
    fn settled(rest: Rest<Shaped>, times: Times, room: Room<D>) -> RestController<D>
        requires ordered { AreOrderedAhead rest.plan rest.cell rest.present times }
        requires room { IsRoomFor rest.plan (D.dues room.dues) room.orders.capacity }
        requires no_orders { room.orders.items ≡ [] }
        ensures { IsBegun rest.plan rest.cell rest.present result }
    {
        let (cell, present) = rest.into_parts();
        // Called for its clause alone: the cell is sound.
        let _plan = cell.shaped();
        let Room { dues, mut orders } = room;
        let mut cell = hold(cell, times);
        dispatch_enabled(&mut cell, &mut orders, present);
        Core::begin_at_rest(cell, Room { dues, orders }, present)
    }

    /// A controller of an accepted plan, from where it is. Takes no memory.
    pub fn of(controller: Controller<D>) -> RestController<D>
        ensures { result ≡ controller }
    {
        let Core {
            cell,
            dues,
            orders,
            left,
            began,
            punctual,
        } = controller;
        let (verified, tables) = cell.into_parts();
        let (shaped, times) = verified.into_parts();
        Core {
            cell: WorkCell::of_parts(Held { shaped, times }, tables),
            dues,
            orders,
            left,
            began,
            punctual,
        }
    }

    /// Changes to another plan, of the same shop or of another one, at a moment that isn't before the last one. The
    /// cell is as it was, as one of that plan, and settles as when a controller begins. The run so far has to keep the
    /// plan, as far as the cell shows, and the plan must have no cycle; budgets aren't asked for. If the call is
    /// refused, the controller is as it was, and the plan comes back.
    pub fn hand_over(
        &mut self,
        alloc: Global,
        shaped: Shaped,
        present: Moment,
    ) -> Result<(), (HandOverFault, Shaped)>
        ensures handed_over { OnOk result (IsHandedOver self.old shaped present self.new) }
        ensures fault { IfErr result
            (λ refused. IsHandOverFault self.old.planned self.old.cell shaped present refused.0) }
        ensures unchanged { IfErr result (λ refused. self.new ≡ self.old) }
        ensures handed_back { IfErr result (λ refused. refused.1 ≡ shaped) }
    {
        let new = self.successor(alloc, shaped, present)?;
        drop(replace(self, new));
        Ok(())
    }

    /// The controller of another plan that goes on with the cell.
    fn successor(
        &self,
        alloc: Global,
        shaped: Shaped,
        present: Moment,
    ) -> Result<RestController<D>, (HandOverFault, Shaped)>
        ensures handed_over { IfOk result (IsHandedOver self.now shaped present) }
        ensures fault { IfErr result
            (λ refused. IsHandOverFault self.now.planned self.now.cell shaped present refused.0) }
        ensures handed_back { IfErr result (λ refused. refused.1 ≡ shaped) }
    {
        // Called for its clause alone: a run ends with the cell.
        let _plan = self.shaped();
        let rest = take_over(alloc, &self.cell, shaped, present)?;
        match RestController::begin(alloc, rest) {
            Ok(new) => Ok(new),
            Err((fault, rest)) => Err((HandOverFault::from(fault), plan_of(rest))),
        }
    }
}
