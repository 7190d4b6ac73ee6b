//! The memory that a controller needs beside its cell, allocated once.

ghost use Rattle.std.specs.Prelude.{◌≡◌, [], IfOk};
ghost use Rattle.cell_control.specs.Fields.{IsRoomFor};

use crate::dues::Dues;
use crate::releasing::Orders;
use cell_tables::WorkCell;
use shop_base::Planned;
use smallvec::SmallVec;
use std::alloc::{AllocError, Global};

/// Room for the due moments, and for an order of each job.
#[derive(Drop)]
pub(crate) struct Room<D: Dues> {
    pub dues: D,
    pub orders: Orders,
}

/// Takes the room that a cell needs.
pub(crate) fn take_room<P: Planned, D: Dues>(
    alloc: Global,
    cell: &WorkCell<P>,
) -> Result<Room<D>, AllocError>
    ensures room { IfOk result (λ new. IsRoomFor cell.now.plan (D.dues new.dues) new.orders.capacity) }
    ensures no_orders { IfOk result (λ new. new.orders.items ≡ []) }
{
    let jobs = cell.job_count();
    let dues = D::sized(alloc, (jobs + cell.machine_count()) as usize)?;
    let orders = SmallVec::with_capacity(alloc, jobs as usize)?;
    Ok(Room { dues, orders })
}
