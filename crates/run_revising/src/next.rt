//! A run and its plan, revised together.

ghost use Rattle.std.specs.Prelude.{◌≡◌, IfOk, IfErr, replicate, true};
ghost use Rattle.cell_tables.specs.Events.{events_of};
ghost use Rattle.run_log.specs.Audits.{IsReplayed};
ghost use Rattle.plan_revise.specs.Aside.{IsPlant};
ghost use Rattle.run_revising.specs.NextRuns.{IsNextRun, IsReasonNoNextRun, IsWholeRun, IsRunWithoutThose};
ghost use Rattle.run_revising.specs.NextRuns.{IsReasonWithoutThose, IsAtOneOf, numbers_kept};
ghost use Rattle.run_revising.specs.RunChanges.{unchanged, IsReasonNotMade};

use crate::renumbering::{ByNewNumbers, renumbered};
use crate::replaying::rest_after;
use crate::run_changes::{PlannedRun, changed_run};
use cell_tables::{Entry, Rest};
use plan_revise::{Change, ChangeFault, NotRevised, plant_of};
use run_pruning::{KeptJobs, LeftRun, left_run};
use shop_base::{JobNo, Planned, Shaped};
use std::alloc::{AllocError, Global};

/// What a run and its plan are revised to.
#[derive(Drop)]
pub struct NextRun {
    /// The shop and its plan.
    pub shaped: Shaped,
    /// The run so far, and behind it the entries of the jobs that hold machines.
    pub entries: Vec<Entry>,
    /// The numbers that the jobs had before, ascending. Jobs behind these are new.
    pub were: Vec<JobNo>,
}

/// The run of these entries and its plan after these changes, each of what those before it made. Where jobs that are over
/// are to be left out, they are so before all changes, which name the others by their old numbers. A job that holds a
/// machine comes and enters it at the present moment, behind the run so far, and the changes behind are judged by that
/// longer run. The machine of the jobs that are put aside goes where nobody visits it any more.
///
/// It takes time linear in the entries, once more for each change that holds a machine and has others behind it, and for
/// each change in the plan.
pub fn next_run<P: Planned>(
    alloc: Global,
    rest: &Rest<P>,
    entries: &[Entry],
    leaves_out: bool,
    changes: &[Change],
) -> Result<NextRun, NotRevised>
    requires { IsReplayed rest.now.plan rest.now.cell entries.now }
    ensures next { let r = rest.now in
        IfOk result (IsNextRun r.plan r.cell r.present (events_of entries.now) changes.now leaves_out) }
    ensures refused { let r = rest.now in
        IfErr result (IsReasonNoNextRun r.plan r.cell r.present (events_of entries.now) changes.now leaves_out) }
    ensures placed { IfErr result (IsAtOneOf changes.now) }
{
    let plant = plant_of(rest.shaped());
    if leaves_out {
        run_ahead(alloc, rest, entries, plant, changes)
    } else {
        whole_run(alloc, rest, entries, plant, changes)
    }
}

/// The run and its plan after these changes, with all jobs.
fn whole_run<P: Planned>(
    alloc: Global,
    rest: &Rest<P>,
    entries: &[Entry],
    plant: u32,
    changes: &[Change],
) -> Result<NextRun, NotRevised>
    requires replayed { IsReplayed rest.now.plan rest.now.cell entries.now }
    requires plant { IsPlant rest.now.plan plant }
    ensures next { let r = rest.now in
        IfOk result (IsWholeRun plant r.present r.plan (events_of entries.now) changes.now) }
    ensures refused { let r = rest.now in
        IfErr result (IsReasonNotMade plant r.present (unchanged r.plan (events_of entries.now)) changes.now) }
    ensures placed { IfErr result (IsAtOneOf changes.now) }
{
    let entries = entries.to_vec(alloc)?;
    let PlannedRun { shaped, entries } = changed_run(alloc, rest, entries, plant, changes)?;
    let were = all_numbers(alloc, rest.shaped().job_count())?;
    Ok(NextRun {
        shaped,
        entries,
        were,
    })
}

/// The run and its plan after these changes, once the jobs that are over are left out.
fn run_ahead<P: Planned>(
    alloc: Global,
    rest: &Rest<P>,
    entries: &[Entry],
    plant: u32,
    changes: &[Change],
) -> Result<NextRun, NotRevised>
    requires replayed { IsReplayed rest.now.plan rest.now.cell entries.now }
    requires plant { IsPlant rest.now.plan plant }
    ensures next { let r = rest.now in
        IfOk result (IsRunWithoutThose plant r.plan r.cell r.present (events_of entries.now) changes.now) }
    ensures refused { let r = rest.now in
        IfErr result (IsReasonWithoutThose plant r.plan r.cell r.present (events_of entries.now) changes.now) }
    ensures placed { IfErr result (IsAtOneOf changes.now) }
{
    let LeftRun {
        shaped,
        entries,
        kept,
    } = left_run(alloc, rest.cell(), entries)?;
    let were = numbers_kept(alloc, &kept)?;
    let ByNewNumbers { changes, left_out } = renumbered(alloc, &kept, changes)?;
    let rest = rest_after(alloc, shaped, &entries, rest.present())?;
    let PlannedRun { shaped, entries } = match changed_run(alloc, &rest, entries, plant, &changes) {
        Ok(run) => run,
        Err(answer) => return Err(answer),
    };
    if let Some(change) = left_out {
        let fault = ChangeFault::JobGone;
        return Err(NotRevised::Refused { change, fault });
    }
    Ok(NextRun {
        shaped,
        entries,
        were,
    })
}

/// The numbers of so many jobs.
fn all_numbers(alloc: Global, jobs: u32) -> Result<Vec<JobNo>, AllocError>
    ensures { IfOk result (λ numbers. numbers.items ≡ numbers_kept 0 (replicate jobs true)) }
{
    let mut numbers = Vec::new(alloc);
    for job in 0..jobs {
        numbers.push(job)?;
    }
    Ok(numbers)
}

/// The numbers of the jobs that stay.
fn numbers_kept(alloc: Global, kept: &KeptJobs) -> Result<Vec<JobNo>, AllocError>
    ensures { IfOk result (λ numbers. numbers.items ≡ numbers_kept 0 kept.now) }
{
    let mut numbers = Vec::new(alloc);
    for job in 0..kept.len() {
        if kept.number_of(job).is_some() {
            numbers.push(job)?;
        }
    }
    Ok(numbers)
}
