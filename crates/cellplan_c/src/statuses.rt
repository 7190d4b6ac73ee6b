//! The statuses of the calls: the program's, and further ones below the numbers of the reasons.

ghost use Rattle.std.specs.Prelude.{◌≡◌};

use command_answers::CommandFault;
use std::alloc::AllocError;

/// The call has done what it says.
pub const GOOD: u32 = 0;

/// The plan isn't accepted.
pub const REFUSED: u32 = 1;

/// The text of the instance or of the plan is refused.
pub const FAULT: u8 = 3;

/// There is no room for the text; the call says how much it needs.
pub const NO_ROOM: u32 = 6;

/// There is none of what was asked for.
pub const NONE: u32 = 7;

/// The cell holds no controller.
pub const NO_CELL: u32 = 8;

/// The report is of no kind.
pub const NO_KIND: u32 = 9;

/// The run so far isn't one of the other plan.
pub const KEEPS_NOT: u32 = 10;

/// The moment is over the limit: the number of this reason.
pub const MOMENT_TOO_LARGE: u32 = 18;

/// The moment is before the last one: the number of this reason.
pub const BACKWARDS: u32 = 19;

/// The status of a call whose request for memory was refused. No other one is made for it.
pub fn status_of_refused(error: AllocError) -> u32
    ensures { result ≡ 4 }
{
    u32::from(CommandFault::from(error).status())
}
