//! What is found and allocated before anything of a cell is changed.

ghost use Rattle.std.specs.Prelude.{◌≡◌, [], IfOk, IfErr};
ghost use Rattle.plan_verifier.specs.Rest.{AreOrderedAhead};
ghost use Rattle.cell_control.specs.{Begun.IsRestFault, Fields.IsRoomFor};

use crate::dues::Dues;
use crate::rest_fault::RestFault;
use crate::room::{Room, take_room};
use alt_graph::{Solved, Times};
use cell_tables::Rest;
use plan_verifier::earliest_moments;
use shop_base::Planned;
use std::alloc::Global;

/// What a controller needs besides its cell: the ranks and the moments of the nodes ahead, and room for due moments and
/// orders.
pub(crate) fn prepare<P: Planned, D: Dues>(
    alloc: Global,
    rest: &Rest<P>,
) -> Result<(Times, Room<D>), RestFault>
    ensures ordered { IfOk result (λ new. AreOrderedAhead rest.now.plan rest.now.cell rest.now.present new.0) }
    ensures room { IfOk result (λ new. IsRoomFor rest.now.plan (D.dues new.1.dues) new.1.orders.capacity) }
    ensures no_orders { IfOk result (λ new. new.1.orders.items ≡ []) }
    ensures fault { IfErr result (IsRestFault rest.now.plan) }
{
    match earliest_moments(alloc, rest)? {
        Solved::Ordered(times) => match take_room(alloc, rest.cell()) {
            Ok(room) => Ok((times, room)),
            Err(error) => {
                drop(times);
                Err(RestFault::from(error))
            }
        },
        Solved::Cyclic(nodes) => Err(RestFault::Cycle(nodes)),
    }
}
