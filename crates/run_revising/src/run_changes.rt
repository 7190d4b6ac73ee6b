//! Changes of a run and its plan.

ghost use Rattle.std.specs.Prelude.{◌≡◌, ◌++◌, ◌-◌, ◌<◌, IfOk, IfErr};
ghost use Rattle.shop_base.specs.{Plan.jobs, Plan.machines, Report.IsNextMoment, Run.IsRun, Run.ends_in};
ghost use Rattle.cell_tables.specs.Events.{events_of};
ghost use Rattle.run_log.specs.Audits.{IsReplayed};
ghost use Rattle.plan_revise.specs.Aside.{IsPlantOf};
ghost use Rattle.run_revising.specs.{Holding.hold_events, NextRuns.IsRevisedTo};
ghost use Rattle.run_revising.specs.RunChanges.{unchanged, IsReasonNotMade};
ghost use Rattle.run_revising.specs.Parts.{IsHeldLast, IsPart, IsPartLength, IsPartMade, AreAllMade};
ghost use Rattle.run_revising.specs.Holding.{is_hold};
ghost use Rattle.run_revising.specs.Parts.{IsPlaceBehind, placed_behind};

use crate::replaying::rest_after;
use cell_tables::{Entry, Rest};
use plan_revise::{Change, NotRevised, revise_within};
use run_pruning::without_spare;
use shop_base::{MachineNo, Moment, MoveOrder, Planned, Report, Shaped, Spot};
use std::alloc::{AllocError, Global};

/// A plan, and the entries of a run of it.
#[derive(Drop)]
pub(crate) struct PlannedRun {
    pub(crate) shaped: Shaped,
    pub(crate) entries: Vec<Entry>,
}

/// What the changes make of a plan and of the run that has these entries, of which this is the rest. The machine of the
/// jobs that are put aside goes where nobody visits it any more.
pub(crate) fn changed_run<P: Planned>(
    alloc: Global,
    rest: &Rest<P>,
    entries: Vec<Entry>,
    plant: u32,
    changes: &[Change],
) -> Result<PlannedRun, NotRevised>
    requires replayed { IsReplayed rest.now.plan rest.now.cell entries.items }
    requires plant { IsPlantOf rest.now.plan plant }
    ensures revised { let r = rest.now in
        IfOk result (λ run. IsRevisedTo plant r.present r.plan (events_of entries.items) changes.now run.shaped
        (events_of run.entries.items)) }
    ensures refused { let r = rest.now in
        IfErr result (IsReasonNotMade plant r.present (unchanged r.plan (events_of entries.items)) changes.now) }
{
    let PlannedRun { shaped, entries } = all_changed(alloc, rest, entries, plant, changes)?;
    let shaped = without_spare(alloc, shaped, plant)?;
    Ok(PlannedRun { shaped, entries })
}

/// What the changes make, with that machine. Those up to the first that holds a machine are made at once. The others are
/// judged by the run that has gone on.
fn all_changed<P: Planned>(
    alloc: Global,
    rest: &Rest<P>,
    entries: Vec<Entry>,
    plant: u32,
    changes: &[Change],
) -> Result<PlannedRun, NotRevised>
    requires replayed { IsReplayed rest.now.plan rest.now.cell entries.items }
    requires plant { IsPlantOf rest.now.plan plant }
    ensures made { let r = rest.now in
        IfOk result (λ run. AreAllMade plant r.present (unchanged r.plan (events_of entries.items)) changes.now
        run.shaped (events_of run.entries.items)) }
    ensures refused { let r = rest.now in
        IfErr result (IsReasonNotMade plant r.present (unchanged r.plan (events_of entries.items)) changes.now) }
{
    // Called for its clause alone: the plan is well shaped.
    let _plan = rest.shaped();
    let present = rest.present();
    let mut done = part_length(changes);
    let mut run = part_changed(alloc, rest, entries, plant, &changes[..done])?;
    while done < changes.len() {
        let left = &changes[done..];
        let length = part_length(left);
        run = match next_part_changed(alloc, run, present, plant, &left[..length]) {
            Ok(next) => next,
            Err(answer) => return Err(placed_behind(answer, done)),
        };
        done += length;
    }
    Ok(run)
}

/// The same of a run that is told anew.
fn next_part_changed(
    alloc: Global,
    run: PlannedRun,
    present: Moment,
    plant: u32,
    part: &[Change],
) -> Result<PlannedRun, NotRevised>
    requires run { IsRun run.shaped (events_of run.entries.items) }
    requires moment { IsNextMoment (ends_in run.shaped (events_of run.entries.items)) present }
    requires plant { IsPlantOf run.shaped plant }
    requires part { IsPart part.now }
    ensures made { IfOk result (λ next. IsPartMade plant present (unchanged run.shaped (events_of run.entries.items))
        part.now next.shaped (events_of next.entries.items)) }
    ensures refused { IfErr result
        (IsReasonNotMade plant present (unchanged run.shaped (events_of run.entries.items)) part.now) }
{
    let PlannedRun { shaped, entries } = run;
    let rest = rest_after(alloc, shaped, &entries, present)?;
    part_changed(alloc, &rest, entries, plant, part)
}

/// What changes make of which only the last may hold a machine.
fn part_changed<P: Planned>(
    alloc: Global,
    rest: &Rest<P>,
    entries: Vec<Entry>,
    plant: u32,
    part: &[Change],
) -> Result<PlannedRun, NotRevised>
    requires replayed { IsReplayed rest.now.plan rest.now.cell entries.items }
    requires plant { IsPlantOf rest.now.plan plant }
    requires part { IsPart part.now }
    ensures made { let r = rest.now in
        IfOk result (λ run. IsPartMade plant r.present (unchanged r.plan (events_of entries.items)) part.now run.shaped
        (events_of run.entries.items)) }
    ensures refused { let r = rest.now in
        IfErr result (IsReasonNotMade plant r.present (unchanged r.plan (events_of entries.items)) part.now) }
{
    let shaped = match revise_within(alloc, rest, plant, part) {
        Ok(shaped) => shaped,
        Err(answer) => return Err(answer),
    };
    match held_last(part) {
        Some(machine) => Ok(with_entry(rest, shaped, entries, machine)?),
        None => Ok(PlannedRun { shaped, entries }),
    }
}

/// The run once the last job of the plan has come, and has entered the machine that it holds.
fn with_entry<P: Planned>(
    rest: &Rest<P>,
    shaped: Shaped,
    entries: Vec<Entry>,
    machine: MachineNo,
) -> Result<PlannedRun, AllocError>
    requires inside { machine < machines rest.now.plan }
    requires some_job { 0 < jobs shaped }
    ensures shaped { IfOk result (λ run. run.shaped ≡ shaped) }
    ensures entries { IfOk result (λ run. events_of run.entries.items
        ≡ events_of entries.items ++ hold_events rest.now.cell machine (jobs shaped - 1) rest.now.present) }
{
    let mut entries = entries;
    let (job, at) = (shaped.job_count() - 1, rest.present());
    if rest.cell().cleaned_since(machine).is_some() {
        entries.push(Entry::Report(Report::Clean { machine, at }))?;
    }
    entries.push(Entry::Report(Report::Arrive { job, at }))?;
    entries.push(Entry::Order(MoveOrder {
        job,
        source: Spot::Out,
        target: Spot::At(machine),
        at,
    }))?;
    Ok(PlannedRun { shaped, entries })
}

/// How many changes there are up to the first that holds a machine, with it.
fn part_length(changes: &[Change]) -> usize
    ensures { IsPartLength changes.now result }
{
    for (place, change) in changes.iter().enumerate() {
        if is_hold(*change) {
            return place + 1;
        }
    }
    changes.len()
}

/// Whether the change holds a machine.
fn is_hold(change: Change<'_>) -> bool
    ensures { result ≡ is_hold change.entry }
{
    matches!(change, Change::Hold { .. })
}

/// Which machine is held by the last of the changes, of which no other holds one.
fn held_last(part: &[Change]) -> Option<MachineNo>
    requires { IsPart part.now }
    ensures { IsHeldLast part.now result }
{
    match part.last() {
        Some(Change::Hold { machine, to: _ }) => Some(*machine),
        _ => None,
    }
}

/// The answer where so many changes were made before.
fn placed_behind(answer: NotRevised, done: usize) -> NotRevised
    requires { IsPlaceBehind done answer }
    ensures { result ≡ placed_behind done answer }
{
    match answer {
        NotRevised::Refused { change, fault } => NotRevised::Refused {
            change: done + change,
            fault,
        },
        NotRevised::Memory => NotRevised::Memory,
    }
}
