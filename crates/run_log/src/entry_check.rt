//! Whether an entry can be the next event of a run, and the cell after it.

ghost use Rattle.std.specs.Prelude.{◌≡◌, ◌<◌, ◌≤◌, ◌↔◌, IsTrue, IfErr, OnOk};
ghost use Rattle.shop_base.specs.{Plan.jobs, Plan.steps, Cell.made, Activity.Arrival, Activity.Operation, Report.ended};
ghost use Rattle.shop_base.specs.Run.{CanHappen, after};
ghost use Rattle.cell_tables.specs.{Moving.IsSpotOf, Events.event_of};
ghost use Rattle.event_lines.specs.LogLines.{AreEndsOf, IsEntryOf};
ghost use Rattle.run_log.specs.Audits.{IsGoingOn, IsOpen, IsItsWay, IsFaultOf, IsTargetFault, IsWayFault, fault_line};

use crate::audit_fault::AuditFault;
use cell_tables::{Entry, WorkCell};
use shop_base::{JobNo, MachineNo, MoveOrder, Planned, Report, Spot};

/// Checks that the entry in this line can happen.
pub(crate) fn check_entry<P: Planned>(
    cell: &WorkCell<P>,
    entry: Entry,
    line: usize,
) -> Result<(), AuditFault>
    requires of_shop { IsEntryOf cell.now.plan entry }
    ensures possible { OnOk result (CanHappen cell.now.plan cell.now.cell (event_of entry)) }
    ensures number { IfErr result (λ fault. fault_line fault ≡ line) }
    ensures fault { IfErr result (IsFaultOf cell.now.plan cell.now.cell entry) }
{
    match entry {
        Entry::Report(report) => check_end(cell, report, line),
        Entry::Order(order) => check_order(cell, order, line),
    }
}

fn check_end<P: Planned>(cell: &WorkCell<P>, report: Report, line: usize) -> Result<(), AuditFault>
    requires of_shop { IsEntryOf cell.now.plan (Entry.Report report) }
    ensures possible { OnOk result (CanHappen cell.now.plan cell.now.cell (event_of (Entry.Report report))) }
    ensures number { IfErr result (λ fault. fault_line fault ≡ line) }
    ensures fault { IfErr result (IsFaultOf cell.now.plan cell.now.cell (Entry.Report report)) }
{
    if !is_going_on(cell, report) {
        return Err(AuditFault::NotExpected { line });
    }
    if report.at() < cell.last() {
        return Err(AuditFault::Backwards { line });
    }
    Ok(())
}

/// Whether the activity that is reported is going on.
fn is_going_on<P: Planned>(cell: &WorkCell<P>, report: Report) -> bool
    requires of_shop { AreEndsOf cell.now.plan report }
    ensures { IsTrue result ↔ IsGoingOn cell.now.plan cell.now.cell (ended report) }
{
    match report {
        Report::Arrive { job, at: _ } => is_awaited(cell, job),
        Report::Finish {
            job,
            machine,
            at: _,
        } => is_worked(cell, job, machine),
        Report::Clean { machine, at: _ } => cell.cleaned_since(machine).is_some(),
    }
}

fn is_awaited<P: Planned>(cell: &WorkCell<P>, job: JobNo) -> bool
    requires job { job < jobs cell.now.plan }
    ensures { IsTrue result ↔ IsGoingOn cell.now.plan cell.now.cell (Arrival job) }
{
    let state = cell.job_state(job);
    !state.ready && state.made == 0
}

fn is_worked<P: Planned>(cell: &WorkCell<P>, job: JobNo, machine: MachineNo) -> bool
    requires job { job < jobs cell.now.plan }
    ensures { IsTrue result ↔ IsGoingOn cell.now.plan cell.now.cell (Operation job machine) }
{
    if cell.job_state(job).ready {
        return false;
    }
    match cell.machine_of(job) {
        Some(actual) => actual == machine,
        None => false,
    }
}

fn check_order<P: Planned>(
    cell: &WorkCell<P>,
    order: MoveOrder,
    line: usize,
) -> Result<(), AuditFault>
    requires of_shop { IsEntryOf cell.now.plan (Entry.Order order) }
    ensures possible { OnOk result (CanHappen cell.now.plan cell.now.cell (event_of (Entry.Order order))) }
    ensures number { IfErr result (λ fault. fault_line fault ≡ line) }
    ensures fault { IfErr result (IsFaultOf cell.now.plan cell.now.cell (Entry.Order order)) }
{
    let _plan = cell.shaped();
    if order.at < cell.last() {
        return Err(AuditFault::Backwards { line });
    }
    if !cell.job_state(order.job).ready {
        return Err(AuditFault::NotReady { line });
    }
    match check_target(cell, order, line) {
        Ok(()) => check_way(cell, order, line),
        Err(fault) => Err(fault),
    }
}

/// Checks that the order goes from where its job is to where the job goes next.
fn check_way<P: Planned>(
    cell: &WorkCell<P>,
    order: MoveOrder,
    line: usize,
) -> Result<(), AuditFault>
    requires job { order.job < jobs cell.now.plan }
    requires not_gone { made cell.now.cell order.job ≤ steps cell.now.plan order.job }
    ensures way { OnOk result (IsItsWay cell.now.plan cell.now.cell order) }
    ensures number { IfErr result (λ fault. fault_line fault ≡ line) }
    ensures fault { IfErr result (IsWayFault cell.now.plan cell.now.cell order) }
{
    let next = cell.next_order(order.job, order.at);
    if goes_as(order, next) {
        Ok(())
    } else {
        Err(AuditFault::WrongPlace { line })
    }
}

/// Whether the orders have the same source and the same target.
fn goes_as(order: MoveOrder, next: MoveOrder) -> bool
    ensures { IsTrue result ↔ ((order.source ≡ next.source) × (order.target ≡ next.target)) }
{
    order.source == next.source && order.target == next.target
}

/// Checks that the job of the order can go to its target, if that is a machine.
fn check_target<P: Planned>(
    cell: &WorkCell<P>,
    order: MoveOrder,
    line: usize,
) -> Result<(), AuditFault>
    requires target { IsSpotOf cell.now.plan order.target }
    ensures open { OnOk result (IsOpen cell.now.plan cell.now.cell order.target order.job) }
    ensures number { IfErr result (λ fault. fault_line fault ≡ line) }
    ensures fault { IfErr result (IsTargetFault cell.now.plan cell.now.cell order.target order.job) }
{
    let _plan = cell.shaped();
    let Spot::At(machine) = order.target else {
        return Ok(());
    };
    if cell.holder(machine).is_some() {
        return Err(AuditFault::Occupied { line });
    }
    if cell.cleaned_since(machine).is_some() {
        return Err(AuditFault::NotClean { line });
    }
    if cell.next_on(machine) != Some(order.job) {
        return Err(AuditFault::OutOfOrder { line });
    }
    Ok(())
}

/// Makes the entry happen, which can.
pub fn follow_entry<P: Planned>(cell: &mut WorkCell<P>, entry: Entry)
    requires { CanHappen cell.old.plan cell.old.cell (event_of entry) }
    ensures { cell.new ≡ record cell.old { cell = after cell.old.plan cell.old.cell (event_of entry) } }
{
    match entry {
        Entry::Report(report) => cell.end(report),
        Entry::Order(order) => {
            cell.make_move(order.job, order.at);
        }
    }
}
