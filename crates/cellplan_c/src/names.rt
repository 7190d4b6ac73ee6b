//! The names of the reasons, and the version of the calls.

ghost use Rattle.std.specs.Prelude.{◌≡◌, ◌↔◌};
ghost use Rattle.cell_control.specs.declared.report_fault.ReportFault.{ReportFault};
ghost use Rattle.cell_control.specs.ReasonNames.{reason_name};
ghost use Rattle.cellplan_c.specs.Numbers.{fault_number, NoReason};
ghost use Rattle.cellplan_c.specs.Calls.{IsPut};

use crate::numbers::reason_by;
use crate::rooms::put_text;
use crate::statuses::{GOOD, NONE};

/// The version of the calls. A change of what a call takes or answers gets a new number.
pub const VERSION: u32 = 3;

/// The version of the calls, the same as in the header that they were built beside.
#[unsafe(no_mangle)]
pub extern "C" fn cellplan_version() -> u32
    ensures { result ≡ 3 }
{
    VERSION
}

/// The name of the reason with this number; `NONE` for a number that is no reason's.
#[unsafe(no_mangle)]
pub extern "C" fn cellplan_reason(number: u32, name: &mut [u8], length: &mut usize) -> u32
    ensures each { (fault : ReportFault) → fault_number fault ≡ number
        → IsPut (reason_name fault) 0 result name.old name.new length.new }
    ensures none { (result ≡ 7) ↔ NoReason number }
    ensures unwritten { result ≡ 7 → (length.new ≡ 0) × (name.new ≡ name.old) }
{
    *length = 0;
    match reason_by(number) {
        Some(fault) => put_text(fault.name().as_bytes(), GOOD, name, length),
        None => NONE,
    }
}
