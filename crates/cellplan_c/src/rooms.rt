//! What is written into the caller's room.

ghost use Rattle.std.specs.Prelude.{◌≡◌, ◌≢◌, ◌⊎◌, None, Some, IfOk, IfErr, length};
ghost use Rattle.command_answers.specs.Statuses.{command_status_of};
ghost use Rattle.cellplan_c.specs.Numbers.{answer_of};
ghost use Rattle.cellplan_c.specs.Calls.{IsPut};
ghost use Rattle.cellplan_c.specs.Cells.{AreOrdersPut, IsKeptBehind, WritesOrders};

use crate::cell::Cell;
use crate::inner::Inner;
use crate::numbers::{Order, order_numbers};
use crate::statuses::{GOOD, NO_ROOM, NONE};
use cell_control::MoveOrder;
use command_answers::{Answer, CommandFault};

/// Puts a controller back into the cell, which holds none. At the status 0 its orders are written from a first one on, as
/// many as there is room for, and the number of them all.
pub fn put_back(
    cell: &mut Cell,
    inner: Box<Inner>,
    status: u32,
    first: usize,
    orders: &mut [Order],
    count: &mut usize,
)
    requires empty { cell.old.slot.held ≡ None }
    requires none { count.old ≡ 0 }
    ensures held { cell.new.slot.held ≡ Some inner.value }
    ensures orders { WritesOrders cell.new status first orders.old orders.new count.new }
{
    if status == GOOD {
        let released = inner.controller.orders();
        *count = released.len();
        put_orders(released, first, orders);
    }
    cell.put(inner);
}

/// Writes as many of the orders from a first one on as there is room for.
fn put_orders(orders: &[MoveOrder], first: usize, room: &mut [Order])
    ensures room { length room.new ≡ length room.old }
    ensures put { AreOrdersPut orders.now first room.old room.new }
    ensures kept { IsKeptBehind orders.now first room.old room.new }
{
    let count = orders.len().saturating_sub(first).min(room.len());
    for place in 0..count {
        room[place] = order_numbers(orders[first + place]);
    }
}

/// Writes the text, if there is room for it, and its length in any case. The answer is the status, or that there is
/// no room.
pub fn put_text(text: &[u8], status: u32, room: &mut [u8], needed: &mut usize) -> u32
    ensures { IsPut text.now status result room.old room.new needed.new }
{
    *needed = text.len();
    if room.len() < text.len() {
        return NO_ROOM;
    }
    room[..text.len()].copy_from_slice(text);
    status
}

/// Writes the answer's text, if there is one and room for it. Returns the answer's status, or the fault's, or the
/// status that there is no room.
pub fn put_answer(outcome: Result<Answer, CommandFault>, room: &mut [u8], needed: &mut usize) -> u32
    ensures fault { IfErr outcome (λ fault. (result ≡ command_status_of fault) × (needed.new ≡ 0) × (room.new ≡ room.old)) }
    ensures put { IfOk outcome (λ answer. IsPut answer.text.items answer.status result room.old room.new needed.new) }
{
    match outcome {
        Ok(answer) => put_text(&answer.text, u32::from(answer.status), room, needed),
        Err(fault) => {
            *needed = 0;
            u32::from(fault.status())
        }
    }
}

/// Writes what was found, if it was.
pub fn put_found<T: Copy>(found: Option<T>, room: &mut T) -> u32
    ensures answer { answer_of result room.new ≡ found }
    ensures statuses { (result ≡ 0) ⊎ (result ≡ 7) }
    ensures unwritten { result ≢ 0 → room.new ≡ room.old }
{
    match found {
        Some(value) => {
            *room = value;
            GOOD
        }
        None => NONE,
    }
}
