//! The tickets of cells, and the cells in their slots, each with the serial of its ticket.

ghost use Rattle.std.specs.Prelude.{◌≡◌, ◌↔◌, ℕ, None, option_copied, IfOk, IfErr, IsOk, OnOk, OnErr};
ghost use Rattle.slab.specs.Slab.{HasRoomFor};
ghost use Rattle.shop_base.specs.Report.{CanReport};
ghost use Rattle.cell_hub.specs.{Hub.cell_at, Slots.hub_of, Slots.IfCell, Slots.IsReportedIn, Slots.IsDismissedFrom};
ghost use Rattle.cell_hub.specs.Slots.{IsPossibleIn};
ghost use Rattle.cell_hub.specs.Calls.{IsNotClaimed, EndsNow};

use crate::hub_fault::HubFault;
use cell_control::{Ack, Claim, Core, Dues, Possible, Report, Timed};
use slab::Slab;
use std::alloc::AllocError;

/// Names a cell of a hub. A hub gives no ticket twice, even if a slot is used again. It doesn't notice that a
/// ticket is another hub's.
#[derive(Clone, Copy, Debug, PartialEq, Eq)]
pub struct Ticket {
    /// Where the cell is.
    pub slot: usize,
    /// Which of the hub's admissions it is: the number of admissions before it, from the hub's first
    /// serial on.
    pub serial: u64,
}

/// A cell, with the serial of its ticket.
#[derive(Drop)]
pub(crate) struct Placed<P: Timed, D: Dues> {
    pub serial: u64,
    pub controller: Core<P, D>,
}

/// Makes sure that a slot is vacant for one more cell. Where one is, it asks for no memory.
pub(crate) fn reserve_slot<P: Timed, D: Dues>(
    cells: &mut Slab<Placed<P, D>>,
) -> Result<(), AllocError>
    ensures room { OnOk result (HasRoomFor cells.new 1) }
    ensures no_more { HasRoomFor cells.old 1 → IsOk result × (cells.new ≡ cells.old) }
    ensures kept { cells.new ≡ record cells.old { capacity = cells.new.capacity } }
{
    cells.reserve(1)
}

/// The ticket's cell, if it has one.
pub(crate) fn cell_in<P: Timed, D: Dues>(
    cells: &Slab<Placed<P, D>>,
    ticket: Ticket,
) -> Option<&Core<P, D>>
    ensures { (next : ℕ) → option_copied result ≡ cell_at (hub_of cells.now next) ticket }
{
    match cells.get(ticket.slot) {
        Some(placed) if placed.serial == ticket.serial => Some(&placed.controller),
        _ => None,
    }
}

/// Takes a report on the ticket's cell.
pub(crate) fn report_in<P: Timed, D: Dues>(
    cells: &mut Slab<Placed<P, D>>,
    ticket: Ticket,
    report: Report,
) -> Result<Ack, HubFault>
    ensures reported { IfOk result (λ ack. IsReportedIn cells.old ticket report ack cells.new) }
    ensures refused { IfErr result (λ fault. (next : ℕ) → IsNotClaimed (hub_of cells.old next) ticket (Claim.Report report) fault) }
    ensures possible { IfCell cells.old ticket (λ c. IsOk result ↔ CanReport c.planned c.cell report) }
    ensures never_refused { IfCell cells.old ticket (λ c. EndsNow c report → IsOk result) }
    ensures unchanged { OnErr result (cells.new ≡ cells.old) }
{
    if let Some(placed) = cells.get_mut(ticket.slot) {
        if placed.serial == ticket.serial {
            return match placed.controller.report(report) {
                Ok(ack) => Ok(ack),
                Err(reason) => Err(HubFault::Cell(reason)),
            };
        }
    }
    Err(HubFault::NoSuchCell)
}

/// Accepts a report that was found possible in the ticket's cell.
pub(crate) fn accept_in<P: Timed, D: Dues>(
    cells: &mut Slab<Placed<P, D>>,
    ticket: Ticket,
    possible: Possible,
) -> Ack
    requires { IsPossibleIn cells.old ticket possible }
    ensures { IsReportedIn cells.old ticket possible.report result cells.new }
{
    match cells.get_mut(ticket.slot) {
        Some(placed) => placed.controller.accept(possible),
        None => unreachable!(),
    }
}

/// Takes the ticket's cell out.
pub(crate) fn take_from<P: Timed, D: Dues>(
    cells: &mut Slab<Placed<P, D>>,
    ticket: Ticket,
) -> Result<Core<P, D>, HubFault>
    ensures dismissed { IfOk result (λ content. IsDismissedFrom cells.old ticket content cells.new) }
    ensures none { OnErr result ((next : ℕ) → cell_at (hub_of cells.old next) ticket ≡ None) }
    ensures fault { IfErr result (λ fault. fault ≡ HubFault.NoSuchCell) }
    ensures unchanged { OnErr result (cells.new ≡ cells.old) }
{
    if cell_in(cells, ticket).is_none() {
        return Err(HubFault::NoSuchCell);
    }
    match cells.try_remove(ticket.slot) {
        Some(
            Placed {
                serial: _,
                controller,
            },
        ) => Ok(controller),
        None => Err(HubFault::NoSuchCell),
    }
}
