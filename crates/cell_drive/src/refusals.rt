//! Why what a line claims is refused, and what the answer says of it.

ghost use Rattle.std.specs.Prelude.{◌≡◌, false};
ghost use Rattle.shop_base.specs.Report.{ended};
ghost use Rattle.cell_control.specs.Reports.{IsOfShop};
ghost use Rattle.cell_tables.specs.Claims.{claimed};
ghost use Rattle.cell_drive.specs.Refusals.{IsRefusal, claim_leaps, first_refusal, is_before_leap, reason_detail};
ghost use Rattle.cell_drive.specs.Refusals.{refusal_detail, refusal_word, standing_of};

use crate::protocol::Protocol;
use cell_control::{Core, Dues, Report, ReportFault, Timed};
use cell_tables::{Claim, Standing, WorkCell};
use event_lines::Detail;
use shop_base::Planned;

/// Why what a line claims is refused.
#[derive(Clone, Copy)]
pub enum Refusal {
    /// It isn't possible.
    Reason(ReportFault),
    /// Its moment is a leap.
    Leap,
}

impl Refusal {
    /// The name, as it is in a line.
    pub(crate) fn name(self) -> &'static str
        ensures { result.now ≡ refusal_word self }
    {
        match self {
            Refusal::Reason(reason) => reason.name(),
            Refusal::Leap => "Leap",
        }
    }
}

/// Whether the reason is looked for before a leap.
fn is_before_leap(reason: ReportFault) -> bool
    ensures { result ≡ is_before_leap reason }
{
    match reason {
        ReportFault::JobOutOfRange => true,
        ReportFault::MachineOutOfRange => true,
        ReportFault::StepOutOfRange => true,
        ReportFault::MomentTooLarge => true,
        ReportFault::Backwards { last: _ } => true,
        ReportFault::NotExpected => false,
        ReportFault::WrongKind => false,
        ReportFault::WrongMachine { actual: _ } => false,
    }
}

/// Why that is refused which has this first reason against it, and leaps or doesn't.
pub(crate) fn first_refusal(leaps: bool, reason: ReportFault) -> Refusal
    ensures { result ≡ first_refusal leaps reason }
{
    if is_before_leap(reason) {
        Refusal::Reason(reason)
    } else if leaps {
        Refusal::Leap
    } else {
        Refusal::Reason(reason)
    }
}

/// Whether the moment of the claim leaps.
pub(crate) fn claim_leaps<P: Timed, D: Dues>(
    protocol: Protocol,
    controller: &Core<P, D>,
    claim: Claim,
) -> bool
    ensures { result ≡ claim_leaps protocol controller.now.cell claim }
{
    protocol.leaps(controller.now(), claim.at())
}

/// The state of the job or the machine of the report.
pub(crate) fn standing_of<P: Planned>(cell: &WorkCell<P>, report: Report) -> Standing
    requires { IsOfShop cell.now.plan (ended report) }
    ensures { result ≡ standing_of cell.now.plan cell.now.cell report }
{
    match report {
        Report::Arrive { job, at: _ } => cell.job_standing(job),
        Report::Finish {
            job,
            machine: _,
            at: _,
        } => cell.job_standing(job),
        Report::Clean { machine, at: _ } => cell.machine_standing(machine),
    }
}

/// The state of the job or the machine of what is claimed.
fn claim_standing<P: Planned>(cell: &WorkCell<P>, claim: Claim) -> Standing
    requires { IsOfShop cell.now.plan (ended (claimed cell.now.plan claim)) }
    ensures { result ≡ standing_of cell.now.plan cell.now.cell (claimed cell.now.plan claim) }
{
    match claim {
        Claim::Report(report) => standing_of(cell, report),
        Claim::FinishStep {
            job,
            step: _,
            at: _,
        } => cell.job_standing(job),
        Claim::CleanAfter {
            machine,
            job: _,
            at: _,
        } => cell.machine_standing(machine),
        Claim::CleanAfterStep {
            machine,
            job: _,
            step: _,
            at: _,
        } => cell.machine_standing(machine),
    }
}

/// What the controller has instead of what was claimed. A reason that is looked for after a leap is against a report
/// of the shop.
fn reason_detail<P: Planned>(cell: &WorkCell<P>, claim: Claim, reason: ReportFault) -> Detail
    requires { is_before_leap reason ≡ false → IsOfShop cell.now.plan (ended (claimed cell.now.plan claim)) }
    ensures { result ≡ reason_detail cell.now.plan cell.now.cell (claimed cell.now.plan claim) reason }
{
    match reason {
        ReportFault::JobOutOfRange => Detail::Nothing,
        ReportFault::MachineOutOfRange => Detail::Nothing,
        ReportFault::StepOutOfRange => Detail::Nothing,
        ReportFault::MomentTooLarge => Detail::Nothing,
        ReportFault::Backwards { last } => Detail::Last(last),
        ReportFault::NotExpected => Detail::Stands(claim_standing(cell, claim)),
        ReportFault::WrongKind => Detail::Stands(claim_standing(cell, claim)),
        ReportFault::WrongMachine { actual: _ } => Detail::Stands(claim_standing(cell, claim)),
    }
}

/// What the line says after the name of the refusal.
pub(crate) fn refusal_detail<P: Planned>(
    protocol: Protocol,
    cell: &WorkCell<P>,
    claim: Claim,
    refusal: Refusal,
) -> Detail
    requires { IsRefusal protocol cell.now.plan cell.now.cell claim refusal }
    ensures { result ≡ refusal_detail protocol cell.now.plan cell.now.cell (claimed cell.now.plan claim) refusal }
{
    if !protocol.version_2 {
        return Detail::Nothing;
    }
    match refusal {
        Refusal::Reason(reason) => reason_detail(cell, claim, reason),
        Refusal::Leap => Detail::Last(protocol.leap_base(cell.last())),
    }
}
