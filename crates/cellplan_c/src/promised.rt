//! What is promised of every controller that a cell holds.

ghost use Rattle.cellplan_c.specs.Cells.{GoesAsPromised};

use cell_control::laws::never_goes_wrong;
use cell_control::{RestController, TourneyDues};

/// Called for its clause alone: whatever was reported, the controller goes as is promised.
pub(crate) fn is_as_promised(controller: &RestController<TourneyDues>)
    ensures { GoesAsPromised controller.now }
{
    never_goes_wrong(controller);
}
