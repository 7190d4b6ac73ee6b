//! Whether what is claimed is accepted, and what is printed of that.

ghost use Rattle.std.specs.Prelude.{◌≡◌, IfOk, IfErr, false};
ghost use Rattle.shop_base.specs.Report.{at, CanReport};
ghost use Rattle.cell_control.specs.{Examined.IsExamined, Readings.IsOnTime};
ghost use Rattle.cell_tables.specs.Claims.{claimed};
ghost use Rattle.cell_drive.specs.Refusals.{IsRefusal, IsAdmissible};
ghost use Rattle.cell_drive.specs.{ProtocolText.prints_end, ProtocolText.printed_overdue};

use crate::protocol::Protocol;
use crate::refusals::{Refusal, claim_leaps, first_refusal, standing_of};
use crate::states::overdue_in;
use cell_control::{Core, Dues, Possible, Report, Timed};
use cell_tables::{Claim, WorkCell};
use event_lines::Overdue;
use shop_base::Planned;

/// What the line says is overdue as the report comes. It is looked for only if something is.
#[inline(always)]
pub(crate) fn printed_overdue<P: Planned>(
    protocol: Protocol,
    cell: &WorkCell<P>,
    late: bool,
    report: Report,
) -> Option<Overdue>
    requires possible { CanReport cell.now.plan cell.now.cell report }
    requires on_time { late ≡ false → IsOnTime cell.now.plan cell.now.cell (at report) }
    ensures { result ≡ printed_overdue protocol cell.now.plan cell.now.cell report }
{
    if !protocol.version_2 {
        return None;
    }
    if !late {
        return None;
    }
    let _plan = cell.shaped();
    overdue_in(cell, standing_of(cell, report), report.at())
}

/// Whether what is claimed is accepted, or why it is refused.
#[inline(always)]
pub(crate) fn examine<P: Timed, D: Dues>(
    protocol: Protocol,
    controller: &Core<P, D>,
    claim: Claim,
) -> Result<Possible, Refusal>
    ensures accepted { IfOk result
        (λ possible. IsAdmissible protocol controller.now.planned controller.now.cell claim) }
    ensures examined { IfOk result (IsExamined controller.now.planned controller.now.cell (claimed controller.now.planned claim)) }
    ensures refused { IfErr result (IsRefusal protocol controller.now.planned controller.now.cell claim) }
{
    let leaps = claim_leaps(protocol, controller, claim);
    match controller.examine_claim(claim) {
        Ok(possible) => {
            if leaps {
                Err(Refusal::Leap)
            } else {
                Ok(possible)
            }
        }
        Err(reason) => Err(first_refusal(leaps, reason)),
    }
}

/// Whether the end of the run is printed at once.
pub(crate) fn prints_end<P: Timed, D: Dues>(protocol: Protocol, controller: &Core<P, D>) -> bool
    ensures { result ≡ prints_end protocol controller.now.planned controller.now.cell }
{
    protocol.version_2 && controller.reports_left() == 0
}
