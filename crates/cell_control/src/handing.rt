//! A cell that a plan takes over.

ghost use Rattle.std.specs.Prelude.{◌≡◌, ◌≤◌, IfOk, IfErr};
ghost use Rattle.shop_base.specs.declared.limits.TheConstants.{MAX_MOMENT};
ghost use Rattle.cell_tables.specs.{Recasts.IsRecast, Rests.IsReached};
ghost use Rattle.cell_control.specs.HandedOver.{IsTakeOverFault, IsPast};

use crate::hand_over_fault::HandOverFault;
use cell_tables::{PresentFault, Rest, WorkCell};
use shop_base::{Moment, Planned};
use std::alloc::Global;

/// The rest of the run of a cell by another plan, from a moment on, if the run so far keeps that plan. If it is
/// refused, what leads to the plan comes back.
pub(crate) fn take_over<P: Planned, Q: Planned>(
    alloc: Global,
    cell: &WorkCell<P>,
    basis: Q,
    present: Moment,
) -> Result<Rest<Q>, (HandOverFault, Q)>
    requires { IsReached cell.now.plan cell.now.cell }
    ensures basis { IfOk result (λ rest. rest.basis ≡ basis) }
    ensures plan { IfOk result (λ rest. rest.plan ≡ Q.planned basis) }
    ensures recast { IfOk result (λ rest. IsRecast cell.now.plan cell.now.cell (Q.planned basis) rest.cell) }
    ensures present { IfOk result (λ rest. rest.present ≡ present) }
    ensures fault { IfErr result
        (λ refused. IsTakeOverFault cell.now.plan cell.now.cell (Q.planned basis) present refused.0) }
    ensures handed_back { IfErr result (λ refused. refused.1 ≡ basis) }
{
    // Called for its clauses alone: the plan is well shaped, and the last moment within the limit.
    let _plan = cell.shaped();
    if let Err(fault @ PresentFault::TooLarge) = cell.present_at(Some(present)) {
        return Err((HandOverFault::Present(fault), basis));
    }
    match cell.recast(alloc, basis) {
        Ok(new) => {
            // Called for its clause alone: the other plan is well shaped.
            let _other = new.shaped();
            rest_from(new, present)
        }
        Err((fault, basis)) => Err((HandOverFault::from(fault), basis)),
    }
}

/// The rest of a run that is recast, from a moment on that isn't past the latest.
fn rest_from<Q: Planned>(cell: WorkCell<Q>, present: Moment) -> Result<Rest<Q>, (HandOverFault, Q)>
    requires reached { IsReached cell.plan cell.cell }
    requires in_range { present ≤ MAX_MOMENT }
    ensures basis { IfOk result (λ rest. rest.basis ≡ cell.basis) }
    ensures plan { IfOk result (λ rest. rest.plan ≡ cell.plan) }
    ensures cell { IfOk result (λ rest. rest.cell ≡ cell.cell) }
    ensures present { IfOk result (λ rest. rest.present ≡ present) }
    ensures fault { IfErr result (λ refused. IsPast cell.cell present refused.0) }
    ensures handed_back { IfErr result (λ refused. refused.1 ≡ cell.basis) }
{
    match Rest::at(cell, Some(present)) {
        Ok(rest) => Ok(rest),
        Err((fault, cell)) => Err((HandOverFault::Present(fault), cell.into_basis())),
    }
}
