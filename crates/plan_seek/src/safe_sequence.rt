//! Ways by which all jobs can leave the simulated cell.

ghost use Rattle.std.specs.Prelude.{◌<◌, length, IfSome};

use crate::simulated_cell::SimulatedCell;
use shop_base::{JobNo, MachineNo, Shop};
use std::alloc::{AllocError, Global};

/// A move: the job, and the machine that it enters; `None` if it leaves the cell.
#[derive(Clone, Copy)]
pub(crate) struct Transfer {
    pub job: JobNo,
    pub target: Option<MachineNo>,
}

/// Moves by which all jobs of the cell leave it, if they are found: each is the move of the least job that
/// can move without closing a cycle. Each costs a choice.
pub(crate) fn safe_sequence(
    alloc: Global,
    shop: &Shop,
    mut cell: SimulatedCell,
    choices: &mut u32,
) -> Result<Option<Vec<Transfer>>, AllocError> {
    let mut way = Vec::new(alloc);
    while *choices > 0 && cell.inside() > 0 {
        *choices -= 1;
        let Some(job) = least_mover(shop, &cell) else {
            return Ok(None);
        };
        let target = cell.next_step(shop, job).map(|step| step.machine);
        way.push(Transfer { job, target })?;
        cell.advance(shop, job, 0);
    }
    if cell.inside() > 0 {
        return Ok(None);
    }
    Ok(Some(way))
}

/// The least job in the cell that can move without closing a cycle.
fn least_mover(shop: &Shop, cell: &SimulatedCell) -> Option<JobNo> {
    for job in 0..shop.jobs() {
        if cell.is_inside(job) && cell.can_move(shop, job) && !cell.closes_cycle(shop, job) {
            return Some(job);
        }
    }
    None
}

/// The place of the job's next move in the safe sequence, if it can come before all the others: none of those
/// before it enters the same machine.
pub(crate) fn place_in(way: &[Transfer], job: JobNo, target: Option<MachineNo>) -> Option<usize>
    ensures { IfSome result (λ place. place < length way.now) }
{
    for (place, transfer) in way.iter().enumerate() {
        if transfer.job == job {
            return Some(place);
        }
        if target.is_some() && transfer.target == target {
            return None;
        }
    }
    None
}
