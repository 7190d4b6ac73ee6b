//! The lines of all jobs, and of the cleanings that go on.

ghost use Rattle.std.specs.Prelude.{◌≡◌, ◌+◌, ◌<◌, ◌≤◌, OnOk, length, ◌++◌};
ghost use Rattle.shop_base.specs.{Plan.jobs, Plan.machines, Plan.steps, Cell.made};
ghost use Rattle.plan_explain.specs.{Added.Adds, Parts.AreTextsFrom};
ghost use Rattle.plan_schedule.specs.{Schedules.AreVisitsFrom, ScheduleLines.arrival_after, ScheduleLines.AreScheduleLines};
ghost use Rattle.plan_schedule.specs.Calendars.{at_of, due_at, IsVisitTextBy, IsJobTextBy, IsCleanedTextBy};

use crate::calendar::Calendar;
use crate::lines::{
    ScheduledVisit, push_arrival_line, push_arrived_line, push_cleaning_line, push_left_line,
    push_visit_line,
};
use people_names::Names;
use shop_base::{JobNo, Node, Planned};
use std::alloc::AllocError;

/// Adds the lines of all jobs, and then those of the cleanings that go on, each in ascending order.
pub(crate) fn push_all<P: Planned>(
    text: &mut Vec<u8>,
    names: &Names,
    calendar: &Calendar<'_, P>,
) -> Result<(), AllocError>
    ensures { let k = calendar.now in
        OnOk result
        (Adds (AreScheduleLines names.now k.plan k.cell k.present (at_of k) (due_at k)) text.old.items text.new.items) }
{
    push_jobs(text, names, calendar)?;
    push_cleanings(text, names, calendar)
}

fn push_jobs<P: Planned>(
    text: &mut Vec<u8>,
    names: &Names,
    calendar: &Calendar<'_, P>,
) -> Result<(), AllocError>
    ensures { let k = calendar.now in
        OnOk result (Adds (AreTextsFrom (IsJobTextBy names.now k) 0 (jobs k.plan)) text.old.items text.new.items) }
{
    for job in 0..calendar.jobs() {
        push_job(text, names, calendar, job)?;
    }
    Ok(())
}

fn push_cleanings<P: Planned>(
    text: &mut Vec<u8>,
    names: &Names,
    calendar: &Calendar<'_, P>,
) -> Result<(), AllocError>
    ensures { let k = calendar.now in
        OnOk result
        (Adds (AreTextsFrom (IsCleanedTextBy names.now k) 0 (machines k.plan)) text.old.items text.new.items) }
{
    for machine in 0..calendar.machines() {
        let cleaning = calendar.cleaning_on(machine);
        push_cleaning_line(text, names, b" cleaned since ", cleaning)?;
    }
    Ok(())
}

/// Adds the lines of a job.
fn push_job<P: Planned>(
    text: &mut Vec<u8>,
    names: &Names,
    calendar: &Calendar<'_, P>,
    job: JobNo,
) -> Result<(), AllocError>
    requires { job < jobs calendar.now.plan }
    ensures { OnOk result (Adds (IsJobTextBy names.now calendar.now job) text.old.items text.new.items) }
{
    let state = calendar.state(job);
    if calendar.steps(job) < state.made {
        return push_left_line(text, names, job, state.since);
    }
    if state.made == 0 {
        push_arrival(text, names, calendar, job)?;
        return push_visits(text, names, calendar, job, 0);
    }
    let place = state.made - 1;
    let here = calendar.entered(job, place);
    push_visit(text, names, calendar, b" since ", here, place)?;
    push_visits(text, names, calendar, job, state.made)
}

/// Adds the line of a job outside the cell: that it has arrived, or when it does.
fn push_arrival<P: Planned>(
    text: &mut Vec<u8>,
    names: &Names,
    calendar: &Calendar<'_, P>,
    job: JobNo,
) -> Result<(), AllocError>
    requires { job < jobs calendar.now.plan }
    ensures { let k = calendar.now in
        OnOk result
        (text.new.items ≡ text.old.items ++ arrival_after names.now k.plan k.cell k.present (due_at k) job) }
{
    if calendar.state(job).ready {
        return push_arrived_line(text, names, job);
    }
    let due = calendar.due(Node { job, place: 0 });
    push_arrival_line(text, names, job, calendar.arrival(job), due)
}

/// Adds the lines of the job's visits from a place of its route on.
fn push_visits<P: Planned>(
    text: &mut Vec<u8>,
    names: &Names,
    calendar: &Calendar<'_, P>,
    job: JobNo,
    first: u32,
) -> Result<(), AllocError>
    requires job { job < jobs calendar.now.plan }
    requires first { first ≤ steps calendar.now.plan job }
    requires ahead { made calendar.now.cell job ≤ first }
    ensures { let k = calendar.now in
        OnOk result (Adds (AreVisitsFrom names.now k.plan (at_of k) (due_at k) job first (steps k.plan job))
        text.old.items text.new.items) }
{
    for place in first..calendar.steps(job) {
        let visit = calendar.visit(job, place);
        push_visit(text, names, calendar, b" from ", visit, place)?;
    }
    Ok(())
}

/// Adds the lines of a visit by the step at a place of its job's route: its own and, if there is a cleaning, the
/// cleaning's after it.
#[inline(always)]
fn push_visit<P: Planned>(
    text: &mut Vec<u8>,
    names: &Names,
    calendar: &Calendar<'_, P>,
    begins: &[u8],
    visit: ScheduledVisit,
    place: u32,
) -> Result<(), AllocError>
    requires begins { length begins.now ≤ 20 }
    requires job { visit.label.job < jobs calendar.now.plan }
    requires place { place < steps calendar.now.plan visit.label.job }
    requires left { made calendar.now.cell visit.label.job ≤ place + 1 }
    ensures { OnOk result
        (Adds (IsVisitTextBy names.now calendar.now begins.now visit place) text.old.items text.new.items) }
{
    push_visit_line(text, names, begins, visit)?;
    let behind = calendar.cleaning(visit.label.job, place);
    push_cleaning_line(text, names, b" cleaned from ", behind)
}
