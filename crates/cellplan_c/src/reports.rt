//! Reports and their orders, called from C.

ghost use Rattle.std.specs.Prelude.{◌≡◌, ◌≢◌, ◌≤◌, ◌↔◌, None, IsSome, IfOk, IfErr, IsOk};
ghost use Rattle.cell_control.specs.Control.{IsAnswered};
ghost use Rattle.cell_tables.specs.Claims.{claimed};
ghost use Rattle.cell_control.specs.Claims.{CanClaim, IsClaimReason, IsOnlyClaimReason};
ghost use Rattle.cellplan_c.specs.Numbers.{report_by, step_report_by};
ghost use Rattle.cellplan_c.specs.Claimed.{IfGoesOnNow, Calls};
ghost use Rattle.cellplan_c.specs.Cells.{GoesAsPromised, IsReportAnswered, WritesOrders, Reports};

use crate::cell::Cell;
use crate::inner::Inner;
use crate::numbers::{Order, fault_detail, fault_number, report_by, step_report_by};
use crate::promised::is_as_promised;
use crate::rooms::put_back;
use crate::statuses::{GOOD, NO_CELL, NO_KIND};
use cell_control::{Ack, Claim, ReportFault, RestController, TourneyDues};
use std::alloc::Global;

/// Takes a report: of kind 0, that the job has arrived, 1, that its operation on the machine has ended, 2, that the
/// machine is clean, or 3, that it is clean after just this job. A number that the kind has no use for isn't read. As
/// many of the orders are written as there is room for, and their true number; [`cellplan_cell_orders`] gives the
/// others. Refused, the answer is the number of the reason, and what it names is written.
#[unsafe(no_mangle)]
pub extern "C" fn cellplan_cell_report(
    alloc: Global,
    cell: &mut Cell,
    kind: u32,
    job: u32,
    machine: u32,
    at: u64,
    orders: &mut [Order],
    count: &mut usize,
    late: &mut bool,
    detail: &mut u64,
) -> u32
    ensures reported { Reports cell.old cell.new (report_by kind job machine at) result late.new detail.new }
    ensures orders { WritesOrders cell.new result 0 orders.old orders.new count.new }
{
    let claim = report_by(kind, job, machine, at);
    report_claim(alloc, cell, claim, orders, count, late, detail)
}

/// Takes a report that names a step: of kind 1, that the operation of the job's step has ended, or 3, that the machine is
/// clean after just this step of the job. All else is as for [`cellplan_cell_report`].
#[unsafe(no_mangle)]
pub extern "C" fn cellplan_cell_report_step(
    alloc: Global,
    cell: &mut Cell,
    kind: u32,
    job: u32,
    step: u32,
    machine: u32,
    at: u64,
    orders: &mut [Order],
    count: &mut usize,
    late: &mut bool,
    detail: &mut u64,
) -> u32
    ensures reported { Reports cell.old cell.new (step_report_by kind job step machine at) result late.new detail.new }
    ensures orders { WritesOrders cell.new result 0 orders.old orders.new count.new }
{
    let claim = step_report_by(kind, job, step, machine, at);
    report_claim(alloc, cell, claim, orders, count, late, detail)
}

/// Takes what is claimed to have ended, if it is of a kind.
fn report_claim(
    alloc: Global,
    cell: &mut Cell,
    claim: Option<Claim>,
    orders: &mut [Order],
    count: &mut usize,
    late: &mut bool,
    detail: &mut u64,
) -> u32
    ensures reported { Reports cell.old cell.new claim result late.new detail.new }
    ensures orders { WritesOrders cell.new result 0 orders.old orders.new count.new }
{
    *count = 0;
    *late = false;
    *detail = 0;
    let Some(claim) = claim else {
        return NO_KIND;
    };
    let Some(mut inner) = cell.take(alloc) else {
        return NO_CELL;
    };
    let status = report_to(&mut inner, claim, late, detail);
    put_back(cell, inner, status, 0, orders, count);
    status
}

/// The orders of the last accepted report, or of the plan that took over after it, from a first one on, as many as
/// there is room for, and the number of them all.
#[unsafe(no_mangle)]
pub extern "C" fn cellplan_cell_orders(
    alloc: Global,
    cell: &mut Cell,
    first: usize,
    orders: &mut [Order],
    count: &mut usize,
) -> u32
    ensures good { IsSome cell.old.slot.held → result ≡ 0 }
    ensures no_cell { (cell.old.slot.held ≡ None) ↔ (result ≡ 8) }
    ensures unchanged { cell.new.slot.held ≡ cell.old.slot.held }
    ensures orders { WritesOrders cell.new result first orders.old orders.new count.new }
{
    *count = 0;
    let Some(inner) = cell.take(alloc) else {
        return NO_CELL;
    };
    put_back(cell, inner, GOOD, first, orders, count);
    GOOD
}

/// Takes what is claimed to have ended, and gives 0 or the number of the reason.
fn report_to(inner: &mut Inner, claim: Claim, late: &mut bool, detail: &mut u64) -> u32
    ensures reported { IsReportAnswered result late.new detail.new inner.old.controller claim inner.new.controller }
    ensures unchanged { result ≢ 0 → inner.new ≡ inner.old }
    ensures numbers { result ≢ 0 → 16 ≤ result }
    ensures not_late { result ≢ 0 → late.new ≡ late.old }
    ensures no_detail { result ≡ 0 → detail.new ≡ detail.old }
    ensures never_wrong { GoesAsPromised inner.new.controller }
{
    let answered = accept(&mut inner.controller, claim);
    is_as_promised(&inner.controller);
    match answered {
        Ok(ack) => {
            *late = ack.late;
            GOOD
        }
        Err(fault) => {
            *detail = fault_detail(fault);
            fault_number(fault)
        }
    }
}

/// Accepts what is claimed to have ended, or answers the first reason for which it isn't possible.
fn accept(controller: &mut RestController<TourneyDues>, claim: Claim) -> Result<Ack, ReportFault>
    ensures possible { IsOk result ↔ CanClaim controller.old.planned controller.old.cell claim }
    ensures answered { IfOk result
        (λ ack. IsAnswered controller.old (claimed controller.old.planned claim) ack controller.new) }
    ensures first_reason { IfErr result (IsClaimReason controller.old.planned controller.old.cell claim) }
    ensures only_reason { IfErr result (IsOnlyClaimReason controller.old.planned controller.old.cell claim) }
    ensures unchanged { IfErr result (λ fault. controller.new ≡ controller.old) }
    ensures called { Calls controller.old claim controller.new }
    ensures never_refused { IfGoesOnNow controller.old claim (IsOk result) }
{
    match claim {
        Claim::Report(report) => controller.report(report),
        _ => {
            // Called for its clause alone: the cell is sound.
            let _plan = controller.shaped();
            controller.claim(claim)
        }
    }
}
