//! A caller of a controller, and what it is given.

use cell_control::{Controller, MoveOrder, Report, TourneyDues};
use std::alloc::{AllocError, Global};

/// Takes a cell through these reports: the moves that they order, or none where one of them isn't possible.
pub fn moves_of(
    alloc: Global,
    controller: &mut Controller<TourneyDues>,
    reports: &[Report],
) -> Result<Option<Vec<MoveOrder>>, AllocError> {
    let mut moves = Vec::new(alloc);
    for report in reports {
        if controller.report(*report).is_err() {
            return Ok(None);
        }
        for order in controller.orders() {
            moves.push(*order)?;
        }
    }
    Ok(Some(moves))
}
