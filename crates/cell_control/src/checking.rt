//! Which reports and other claims are possible, and the first reason of those that aren't.

ghost use Rattle.std.specs.Prelude.{◌≡◌, OnOk, IfOk, IfErr};
ghost use Rattle.shop_base.specs.{Plan.machine_of, Report.CanReport, Report.IsNextMoment};
ghost use Rattle.cell_tables.specs.Claims.{claimed};
ghost use Rattle.cell_control.specs.Claims.{CanClaim, IsClaimReason, CanFinishStep, IsFirstStepReason};
ghost use Rattle.cell_control.specs.Claims.{CanCleanAfterStep, IsFirstStepCleanReason};
ghost use Rattle.cell_control.specs.Reports.{IsFirstReason, IsFirstCleanReason, CanCleanAfter};
ghost use Rattle.cell_control.specs.Reports.{IsMomentReason, IsJobReason, IsBusyInTurn};

use crate::report_fault::ReportFault;
use cell_tables::{Claim, WorkCell};
use shop_base::limits::MAX_MOMENT;
use shop_base::{JobNo, MachineNo, Moment, Planned, Report};

/// Checks that what is claimed is possible, and gives its report.
#[inline(always)]
pub fn check_claim<P: Planned>(cell: &WorkCell<P>, claim: Claim) -> Result<Report, ReportFault>
    ensures possible { OnOk result (CanClaim cell.now.plan cell.now.cell claim) }
    ensures report { IfOk result (λ report. report ≡ claimed cell.now.plan claim) }
    ensures first { IfErr result (IsClaimReason cell.now.plan cell.now.cell claim) }
{
    match claim {
        Claim::Report(report) => {
            check_report(cell, report)?;
            Ok(report)
        }
        Claim::CleanAfter { machine, job, at } => {
            check_cleaning_after(cell, machine, job, at)?;
            Ok(Report::Clean { machine, at })
        }
        Claim::FinishStep { job, step, at } => {
            let machine = check_step(cell, job, step, at)?;
            Ok(Report::Finish { job, machine, at })
        }
        Claim::CleanAfterStep {
            machine,
            job,
            step,
            at,
        } => {
            check_cleaning_after_step(cell, machine, job, step, at)?;
            Ok(Report::Clean { machine, at })
        }
    }
}

/// Checks that the report is possible.
#[inline(always)]
pub fn check_report<P: Planned>(cell: &WorkCell<P>, report: Report) -> Result<(), ReportFault>
    ensures possible { OnOk result (CanReport cell.now.plan cell.now.cell report) }
    ensures first { IfErr result (IsFirstReason cell.now.plan cell.now.cell report) }
{
    match report {
        Report::Arrive { job, at } => check_arrival(cell, job, at),
        Report::Finish { job, machine, at } => check_finish(cell, job, machine, at),
        Report::Clean { machine, at } => check_cleaning(cell, machine, at),
    }
}

fn check_arrival<P: Planned>(cell: &WorkCell<P>, job: JobNo, at: Moment) -> Result<(), ReportFault>
    ensures possible { OnOk result (CanReport cell.now.plan cell.now.cell (Report.Arrive job at)) }
    ensures first { IfErr result (IsFirstReason cell.now.plan cell.now.cell (Report.Arrive job at)) }
{
    check_job(cell, job, at)?;
    match cell.machine_of(job) {
        None => Ok(()),
        Some(_) => Err(ReportFault::WrongKind),
    }
}

#[inline(always)]
fn check_finish<P: Planned>(
    cell: &WorkCell<P>,
    job: JobNo,
    machine: MachineNo,
    at: Moment,
) -> Result<(), ReportFault>
    ensures possible { OnOk result (CanReport cell.now.plan cell.now.cell (Report.Finish job machine at)) }
    ensures first { IfErr result (IsFirstReason cell.now.plan cell.now.cell (Report.Finish job machine at)) }
{
    check_job(cell, job, at)?;
    let Some(actual) = cell.machine_of(job) else {
        return Err(ReportFault::WrongKind);
    };
    if actual != machine {
        return Err(ReportFault::WrongMachine { actual });
    }
    Ok(())
}

fn check_cleaning<P: Planned>(
    cell: &WorkCell<P>,
    machine: MachineNo,
    at: Moment,
) -> Result<(), ReportFault>
    ensures possible { OnOk result (CanReport cell.now.plan cell.now.cell (Report.Clean machine at)) }
    ensures first { IfErr result (IsFirstReason cell.now.plan cell.now.cell (Report.Clean machine at)) }
{
    if machine >= cell.machine_count() {
        return Err(ReportFault::MachineOutOfRange);
    }
    check_moment(cell, at)?;
    match cell.cleaned_since(machine) {
        Some(_) => Ok(()),
        None => Err(ReportFault::NotExpected),
    }
}

/// Checks that the report of a cleaning after this job is possible.
fn check_cleaning_after<P: Planned>(
    cell: &WorkCell<P>,
    machine: MachineNo,
    job: JobNo,
    at: Moment,
) -> Result<(), ReportFault>
    ensures possible { OnOk result (CanCleanAfter cell.now.plan cell.now.cell machine job at) }
    ensures first { IfErr result (IsFirstCleanReason cell.now.plan cell.now.cell machine job at) }
{
    if machine >= cell.machine_count() {
        return Err(ReportFault::MachineOutOfRange);
    }
    if job >= cell.job_count() {
        return Err(ReportFault::JobOutOfRange);
    }
    check_moment(cell, at)?;
    match cell.cleaned_after(machine) {
        Some(after) if after == job => Ok(()),
        _ => Err(ReportFault::NotExpected),
    }
}

/// Checks that the claim of a cleaning after this step of the job is possible.
fn check_cleaning_after_step<P: Planned>(
    cell: &WorkCell<P>,
    machine: MachineNo,
    job: JobNo,
    step: u32,
    at: Moment,
) -> Result<(), ReportFault>
    ensures possible { OnOk result (CanCleanAfterStep cell.now.plan cell.now.cell machine job step at) }
    ensures first { IfErr result (IsFirstStepCleanReason cell.now.plan cell.now.cell machine job step at) }
{
    if machine >= cell.machine_count() {
        return Err(ReportFault::MachineOutOfRange);
    }
    if job >= cell.job_count() {
        return Err(ReportFault::JobOutOfRange);
    }
    if step >= cell.step_count(job) {
        return Err(ReportFault::StepOutOfRange);
    }
    check_moment(cell, at)?;
    if cell.cleaned_after_step(machine) != Some((job, step)) {
        return Err(ReportFault::NotExpected);
    }
    Ok(())
}

/// Checks that the claim of an end of this step's operation is possible, and gives the machine of the step.
fn check_step<P: Planned>(
    cell: &WorkCell<P>,
    job: JobNo,
    step: u32,
    at: Moment,
) -> Result<MachineNo, ReportFault>
    ensures possible { OnOk result (CanFinishStep cell.now.plan cell.now.cell job step at) }
    ensures machine { IfOk result (λ machine. machine ≡ machine_of cell.now.plan job step) }
    ensures first { IfErr result (IsFirstStepReason cell.now.plan cell.now.cell job step at) }
{
    if job >= cell.job_count() {
        return Err(ReportFault::JobOutOfRange);
    }
    let Some(machine) = cell.machine_at(job, step) else {
        return Err(ReportFault::StepOutOfRange);
    };
    check_moment(cell, at)?;
    let state = cell.job_state(job);
    if state.made == 0 && !state.ready {
        return Err(ReportFault::WrongKind);
    }
    if state.ready || cell.current_step(job) != Some(step) {
        return Err(ReportFault::NotExpected);
    }
    Ok(machine)
}

/// Checks what any report of a job asks for: that it is one of the shop's, and has an activity.
#[inline(always)]
fn check_job<P: Planned>(cell: &WorkCell<P>, job: JobNo, at: Moment) -> Result<(), ReportFault>
    ensures in_turn { OnOk result (IsBusyInTurn cell.now.plan cell.now.cell job at) }
    ensures first { IfErr result (IsJobReason cell.now.plan cell.now.cell job at) }
{
    if job >= cell.job_count() {
        return Err(ReportFault::JobOutOfRange);
    }
    check_moment(cell, at)?;
    let state = cell.job_state(job);
    if state.ready || state.made > cell.step_count(job) {
        return Err(ReportFault::NotExpected);
    }
    Ok(())
}

/// Checks that the moment isn't past the latest, nor before the last one.
#[inline(always)]
fn check_moment<P: Planned>(cell: &WorkCell<P>, at: Moment) -> Result<(), ReportFault>
    ensures moment { OnOk result (IsNextMoment cell.now.cell at) }
    ensures first { IfErr result (IsMomentReason cell.now.cell at) }
{
    if at > MAX_MOMENT {
        return Err(ReportFault::MomentTooLarge);
    }
    if at < cell.last() {
        return Err(ReportFault::Backwards { last: cell.last() });
    }
    Ok(())
}
