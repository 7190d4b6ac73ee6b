//! How a cell answers a request: what it takes, and what it writes.

ghost use Rattle.std.specs.Prelude.{◌≡◌, ◌≤◌, None, Some, length, true, IfOk, IfErr, OnOk};
ghost use Rattle.byte_streams.specs.Lent.{WroteTo, WroteOneTo};
ghost use Rattle.cell_control.specs.{declared.ack.Ack.Ack, Control.IsAnswered, Control.IsControl, Examined.IsPossible};
ghost use Rattle.event_lines.specs.{declared.requests.Request.TheVariants.Claim as ClaimRequest};
ghost use Rattle.cell_drive.specs.{declared.replies.TheConstants.MAX_PREFIX, Refusals.IsRefusal};
ghost use Rattle.cell_drive.specs.ProtocolText.{refusal_prefix};
ghost use Rattle.cell_drive.specs.Replies.{RepliesBy, HasAccepted, RefusedBy, reported_lines};
ghost use Rattle.cell_drive.specs.Acceptances.{IsToAccept, accepted_lines};

use crate::examining::{examine, printed_overdue, prints_end};
use crate::protocol::Protocol;
use crate::refusals::{Refusal, refusal_detail};
use crate::replies::{put_accepted, put_refusal};
use crate::states::put_state;
use byte_streams::{Sink, WriteFault};
use cell_control::{Core, Dues, Possible, Report, Timed};
use cell_tables::Claim;
use event_lines::{Overdue, Request};

/// How the writing of an answer went.
pub(crate) type Written = Result<(), WriteFault>;

/// What a request came to.
#[derive(Clone, Copy)]
pub(crate) struct Reply {
    /// The report that was accepted, if one was. The moves that it released are the controller's last orders.
    pub accepted: Option<Report>,
    /// Whether all of the answer was written.
    pub written: Written,
}

/// A report that is to be accepted, and what the line that it was late says to be overdue.
#[derive(Drop)]
pub(crate) struct Acceptance {
    pub possible: Possible,
    pub overdue: Option<Overdue>,
}

/// Writes the lines of what was accepted, late or not, with the moves that it released: the controller's last orders.
#[inline(always)]
fn put_reported<P: Timed, D: Dues, W: Sink>(
    protocol: Protocol,
    prefix: &[u8],
    controller: &Core<P, D>,
    report: Report,
    late: bool,
    overdue: Option<Overdue>,
    writer: &mut W,
) -> Written
    requires { length prefix.now ≤ MAX_PREFIX }
    ensures wrote { WroteTo W.Sink result writer.old writer.new
        (reported_lines protocol prefix.now controller.now report late overdue) }
    ensures unfailed { OnOk result (W.failed writer.new ≡ W.failed writer.old) }
{
    let ended = prints_end(protocol, controller);
    put_accepted(
        prefix,
        report,
        late,
        overdue,
        controller.orders(),
        ended,
        writer,
    )
}

/// Writes the lines of what was accepted late. It is seldom so.
#[cold]
#[inline(never)]
fn put_reported_late<P: Timed, D: Dues, W: Sink>(
    protocol: Protocol,
    prefix: &[u8],
    controller: &Core<P, D>,
    report: Report,
    overdue: Option<Overdue>,
    writer: &mut W,
) -> Written
    requires { length prefix.now ≤ MAX_PREFIX }
    ensures wrote { WroteTo W.Sink result writer.old writer.new
        (reported_lines protocol prefix.now controller.now report true overdue) }
    ensures unfailed { OnOk result (W.failed writer.new ≡ W.failed writer.old) }
{
    put_reported(protocol, prefix, controller, report, true, overdue, writer)
}

/// Writes the lines of what was accepted.
#[inline(always)]
pub(crate) fn put_acceptance<P: Timed, D: Dues, W: Sink>(
    protocol: Protocol,
    prefix: &[u8],
    controller: &Core<P, D>,
    report: Report,
    late: bool,
    overdue: Option<Overdue>,
    writer: &mut W,
) -> Written
    requires { length prefix.now ≤ MAX_PREFIX }
    ensures wrote { WroteTo W.Sink result writer.old writer.new
        (reported_lines protocol prefix.now controller.now report late overdue) }
    ensures unfailed { OnOk result (W.failed writer.new ≡ W.failed writer.old) }
{
    if late {
        put_reported_late(protocol, prefix, controller, report, overdue, writer)
    } else {
        put_reported(protocol, prefix, controller, report, false, overdue, writer)
    }
}

/// What stands before a refusal.
fn before_refusal(protocol: Protocol, prefix: &[u8]) -> &[u8]
    ensures { result.now ≡ refusal_prefix protocol prefix.now }
{
    if protocol.version_2 { prefix } else { b"" }
}

/// Refuses what was claimed.
#[cold]
#[inline(never)]
fn refuse<P: Timed, D: Dues, W: Sink>(
    protocol: Protocol,
    prefix: &[u8],
    number: u64,
    controller: &Core<P, D>,
    claim: Claim,
    refusal: Refusal,
    writer: &mut W,
) -> Result<(), WriteFault>
    requires { IsRefusal protocol controller.now.planned controller.now.cell claim refusal }
    ensures { WroteOneTo W.Sink result writer.old writer.new
        (RefusedBy protocol prefix.now controller.now number claim) }
{
    let detail = refusal_detail(protocol, controller.work_cell(), claim, refusal);
    put_refusal(
        before_refusal(protocol, prefix),
        number,
        refusal,
        detail,
        writer,
    )
}

/// Looks at what is claimed: it is to be accepted, if it is possible and doesn't leap, or is refused at once.
#[inline(always)]
fn consider_claim<P: Timed, D: Dues, W: Sink>(
    protocol: Protocol,
    prefix: &[u8],
    number: u64,
    controller: &Core<P, D>,
    claim: Claim,
    writer: &mut W,
) -> Result<Acceptance, Written>
    ensures accepted { IfOk result (IsToAccept protocol controller.now (ClaimRequest claim)) }
    ensures unwritten { OnOk result (writer.new ≡ writer.old) }
    ensures answered { IfErr result (λ written. WroteOneTo W.Sink written writer.old writer.new
        (RepliesBy protocol prefix.now controller.now number (ClaimRequest claim) None controller.now)) }
{
    match examine(protocol, controller, claim) {
        Ok(possible) => {
            let (late, report) = (possible.is_late(), possible.report());
            let overdue = printed_overdue(protocol, controller.work_cell(), late, report);
            Ok(Acceptance { possible, overdue })
        }
        Err(refusal) => Err(refuse(protocol, prefix, number, controller, claim, refusal, writer)),
    }
}

/// Looks at the request of the line of this number: a report is to be accepted, or it is answered at once, and the
/// cell stays as it is.
#[inline(always)]
pub(crate) fn consider<P: Timed, D: Dues, W: Sink>(
    protocol: Protocol,
    prefix: &[u8],
    number: u64,
    controller: &Core<P, D>,
    request: Request,
    writer: &mut W,
) -> Result<Acceptance, Written>
    ensures accepted { IfOk result (IsToAccept protocol controller.now request) }
    ensures unwritten { OnOk result (writer.new ≡ writer.old) }
    ensures answered { IfErr result (λ written. WroteOneTo W.Sink written writer.old writer.new
        (RepliesBy protocol prefix.now controller.now number request None controller.now)) }
{
    match request {
        Request::Claim(claim) => {
            consider_claim(protocol, prefix, number, controller, claim, writer)
        }
        Request::Status => Err(put_state(prefix, controller, writer)),
    }
}

/// Accepts what is to be accepted, and writes its lines.
#[inline(always)]
fn reply_accepting<P: Timed, D: Dues, W: Sink>(
    protocol: Protocol,
    prefix: &[u8],
    controller: &mut Core<P, D>,
    acceptance: Acceptance,
    writer: &mut W,
) -> Reply
    requires possible { IsPossible controller.old.planned controller.old.cell acceptance.possible }
    requires prefix { length prefix.now ≤ MAX_PREFIX }
    ensures accepted { result.accepted ≡ Some acceptance.possible.report }
    ensures answered { (ack : Ack) × IsAnswered controller.old acceptance.possible.report ack controller.new }
    ensures control { IsControl controller.new }
    ensures wrote { WroteTo W.Sink result.written writer.old writer.new
        (accepted_lines protocol prefix.now controller.new acceptance) }
    ensures unfailed { OnOk result.written (W.failed writer.new ≡ W.failed writer.old) }
{
    let Acceptance { possible, overdue } = acceptance;
    let (late, report) = (possible.is_late(), possible.report());
    controller.accept(possible);
    // Called for its clause alone: what holds of every such controller.
    let _plan = controller.shaped();
    let written = put_acceptance(protocol, prefix, controller, report, late, overdue, writer);
    Reply {
        accepted: Some(report),
        written,
    }
}

/// Replies to the request of the line of this number.
#[inline(always)]
pub(crate) fn reply_to<P: Timed, D: Dues, W: Sink>(
    protocol: Protocol,
    prefix: &[u8],
    number: u64,
    controller: &mut Core<P, D>,
    request: Request,
    writer: &mut W,
) -> Reply
    requires { length prefix.now ≤ MAX_PREFIX }
    ensures accepted { HasAccepted controller.old result.accepted controller.new }
    ensures control { IsControl controller.new }
    ensures answered { WroteOneTo W.Sink result.written writer.old writer.new
        (RepliesBy protocol prefix.now controller.old number request result.accepted controller.new) }
{
    match consider(protocol, prefix, number, controller, request, writer) {
        Ok(acceptance) => reply_accepting(protocol, prefix, controller, acceptance, writer),
        Err(written) => {
            // Called for its clause alone: what holds of every such controller.
            let _plan = controller.shaped();
            Reply {
                accepted: None,
                written,
            }
        }
    }
}
