//! The visits of a run, as a picture draws them: those known so far with their ends, and those ahead.

ghost use Rattle.std.specs.Prelude.{◌≡◌, ◌+◌, ◌<◌, ◌≤◌, ◌++◌, map, IfOk, IfSome, OnOk, unwrap_or};
ghost use Rattle.shop_base.specs.{Plan.jobs, Plan.steps, Cell.made};
ghost use Rattle.alt_graph.specs.Times.{earliest_of, AreRanks};
ghost use Rattle.plan_verifier.specs.Rest.{AreOrderedAhead};
ghost use Rattle.plan_schedule.specs.Calendars.{at_of};
ghost use Rattle.plan_schedule.specs.DrawnVisits.{known_cleaning, drawn_visit, place_inside, cleaning_end};
ghost use Rattle.plan_schedule.specs.DrawnVisits.{ended_cleaning, left_visit, going_visit, staying_visit, ended_visit};
ghost use Rattle.plan_schedule.specs.DrawnVisits.{job_ahead, visits_ahead, leavings_by, IsDrawnRun};

use crate::calendar::Calendar;
use crate::late_rest::lateness;
use crate::lines::Cleaning;
use alt_graph::Times;
use cell_tables::Rest;
use plan_verifier::leave_time;
use run_picture::{Cleaned, DrawnVisit};
use shop_base::{JobNo, MachineNo, Moment, Planned};
use std::alloc::{AllocError, Global};

/// The visits of a run, when each job leaves or has left, and how late its rest is.
#[derive(Debug, Drop)]
pub struct DrawnRun {
    /// The visits, as a picture draws them.
    pub visits: Vec<DrawnVisit>,
    /// The jobs' leavings, by job.
    pub leavings: Vec<Option<Moment>>,
    /// The greatest lateness of a job that hasn't left, in time units.
    pub late_by: Moment,
}

/// The run that goes on, by the earliest moments ahead: first the visits that are known so far, in their order, with
/// their ends, and then those ahead, the jobs ascending, each job's visits in the
/// order of its route. What is overdue is assumed to end at the present moment. A whole plan is such a run from the start
/// on, of which nothing is known. Fails only when out of memory.
pub fn drawn_run<'a, P: Planned>(
    alloc: Global,
    rest: &'a Rest<P>,
    times: &'a Times,
    drawn: &[DrawnVisit],
) -> Result<DrawnRun, AllocError>
    requires { AreOrderedAhead rest.now.plan rest.now.cell rest.now.present times.now }
    ensures { IfOk result (IsDrawnRun rest.now.plan rest.now.cell rest.now.present drawn.now) }
{
    let calendar = Calendar::new(alloc, rest, times, None)?;
    let mut visits = Vec::new(alloc);
    push_drawn(&mut visits, &calendar, drawn)?;
    push_ahead(&mut visits, &calendar)?;
    let leavings = leavings_by(alloc, rest, times)?;
    Ok(DrawnRun {
        visits,
        leavings,
        late_by: lateness(rest.cell(), times),
    })
}

/// When each job leaves, or has left.
fn leavings_by<P: Planned>(
    alloc: Global,
    rest: &Rest<P>,
    times: &Times,
) -> Result<Vec<Option<Moment>>, AllocError>
    requires { AreRanks rest.now.plan times.now }
    ensures { let p = rest.now.plan in
        IfOk result (λ leavings. leavings.items ≡ leavings_by p (earliest_of times.now) (jobs p)) }
{
    let mut leavings = Vec::new(alloc);
    for job in 0..rest.shaped().job_count() {
        leavings.push(Some(leave_time(rest, times, job)))?;
    }
    Ok(leavings)
}

/// Adds the visits that are known so far, with their ends.
fn push_drawn<P: Planned>(
    visits: &mut Vec<DrawnVisit>,
    calendar: &Calendar<'_, P>,
    drawn: &[DrawnVisit],
) -> Result<(), AllocError>
    ensures { let k = calendar.now in
        OnOk result
        (visits.new.items ≡ visits.old.items ++ map (ended_visit k.plan k.cell k.present (at_of k)) drawn.now) }
{
    for visit in drawn {
        visits.push(ended_visit(calendar, *visit))?;
    }
    Ok(())
}

/// A visit that is known so far, with its ends.
fn ended_visit<P: Planned>(calendar: &Calendar<'_, P>, visit: DrawnVisit) -> DrawnVisit
    ensures { let k = calendar.now in result ≡ ended_visit k.plan k.cell k.present (at_of k) visit }
{
    match visit.leave {
        Some(_) => left_visit(calendar, visit),
        None => staying_visit(calendar, visit),
    }
}

/// A visit that is over, with the end of the cleaning after it.
fn left_visit<P: Planned>(calendar: &Calendar<'_, P>, visit: DrawnVisit) -> DrawnVisit
    ensures { let k = calendar.now in result ≡ left_visit k.plan k.cell k.present visit }
{
    let end = cleaning_end(calendar, visit.machine);
    DrawnVisit {
        job: visit.job,
        machine: visit.machine,
        enter: visit.enter,
        finish: visit.finish,
        leave: visit.leave,
        cleaned: ended_cleaning(visit.cleaned, end),
    }
}

/// When the machine's cleaning that goes on ends, if one does.
fn cleaning_end<P: Planned>(calendar: &Calendar<'_, P>, machine: MachineNo) -> Option<Moment>
    ensures { let k = calendar.now in result ≡ cleaning_end k.plan k.cell k.present machine }
{
    if machine >= calendar.machines() {
        return None;
    }
    let cleaning = calendar.cleaning_on(machine)?;
    Some(cleaning.to)
}

/// A cleaning, with this end if its own isn't known.
fn ended_cleaning(cleaned: Cleaned, end: Option<Moment>) -> Cleaned
    ensures { result ≡ ended_cleaning cleaned end }
{
    match cleaned {
        Cleaned::Never => Cleaned::Never,
        Cleaned::By(at) => Cleaned::By(at),
        Cleaned::NotYet => match end {
            Some(end) => Cleaned::By(end),
            None => Cleaned::NotYet,
        },
    }
}

/// A visit whose job hasn't left, with its ends if the job is on a machine.
fn staying_visit<P: Planned>(calendar: &Calendar<'_, P>, visit: DrawnVisit) -> DrawnVisit
    ensures { let k = calendar.now in
        result ≡ staying_visit k.plan k.cell k.present (at_of k) visit (place_inside k.plan k.cell visit.job) }
{
    match place_inside(calendar, visit.job) {
        Some(place) => going_visit(calendar, visit, place),
        None => visit,
    }
}

/// The place in the job's route of the step by which it is on a machine, if it is on one.
fn place_inside<P: Planned>(calendar: &Calendar<'_, P>, job: JobNo) -> Option<u32>
    ensures place { result ≡ place_inside calendar.now.plan calendar.now.cell job }
    ensures job { IfSome result (λ _. job < jobs calendar.now.plan) }
    ensures within { IfSome result (λ place. place < steps calendar.now.plan job) }
    ensures made { IfSome result (λ place. made calendar.now.cell job ≡ place + 1) }
{
    if job >= calendar.jobs() {
        return None;
    }
    let made = calendar.state(job).made;
    if made == 0 {
        return None;
    }
    if calendar.steps(job) < made {
        return None;
    }
    Some(made - 1)
}

/// The visit that the job is in by the step at a place of its route, with its ends.
fn going_visit<P: Planned>(calendar: &Calendar<'_, P>, visit: DrawnVisit, place: u32) -> DrawnVisit
    requires job { visit.job < jobs calendar.now.plan }
    requires place { place < steps calendar.now.plan visit.job }
    requires left { made calendar.now.cell visit.job ≤ place + 1 }
    ensures { let k = calendar.now in result ≡ going_visit k.plan k.cell k.present (at_of k) visit place }
{
    let here = calendar.entered(visit.job, place);
    DrawnVisit {
        job: visit.job,
        machine: visit.machine,
        enter: visit.enter,
        finish: Some(moment_or(visit.finish, here.to)),
        leave: Some(here.leaves),
        cleaned: cleaned(calendar.cleaning(visit.job, place)),
    }
}

/// A moment as it is known, else this one.
fn moment_or(moment: Option<Moment>, other: Moment) -> Moment
    ensures { result ≡ unwrap_or moment other }
{
    match moment {
        Some(moment) => moment,
        None => other,
    }
}

/// Adds the visits that are ahead.
fn push_ahead<P: Planned>(
    visits: &mut Vec<DrawnVisit>,
    calendar: &Calendar<'_, P>,
) -> Result<(), AllocError>
    ensures { let k = calendar.now in
        OnOk result (visits.new.items ≡ visits.old.items ++ visits_ahead k.plan k.cell (at_of k) (jobs k.plan)) }
{
    for job in 0..calendar.jobs() {
        push_job(visits, calendar, job)?;
    }
    Ok(())
}

/// Adds the visits of a job that are ahead: none if it is gone.
fn push_job<P: Planned>(
    visits: &mut Vec<DrawnVisit>,
    calendar: &Calendar<'_, P>,
    job: JobNo,
) -> Result<(), AllocError>
    requires { job < jobs calendar.now.plan }
    ensures { let k = calendar.now in
        OnOk result (visits.new.items ≡ visits.old.items ++ job_ahead k.plan k.cell (at_of k) job) }
{
    let made = calendar.state(job).made;
    for place in made..calendar.steps(job) {
        visits.push(drawn_visit(calendar, job, place))?;
    }
    Ok(())
}

/// The job's visit by the step at a place of its route.
fn drawn_visit<P: Planned>(calendar: &Calendar<'_, P>, job: JobNo, place: u32) -> DrawnVisit
    requires job { job < jobs calendar.now.plan }
    requires place { place < steps calendar.now.plan job }
    requires ahead { made calendar.now.cell job ≤ place }
    ensures { result ≡ drawn_visit calendar.now.plan (at_of calendar.now) job place }
{
    let visit = calendar.visit(job, place);
    DrawnVisit {
        job,
        machine: visit.machine,
        enter: visit.from,
        finish: Some(visit.to),
        leave: Some(visit.leaves),
        cleaned: cleaned(calendar.cleaning(job, place)),
    }
}

fn cleaned(cleaning: Option<Cleaning>) -> Cleaned
    ensures { result ≡ known_cleaning cleaning }
{
    match cleaning {
        Some(cleaning) => Cleaned::By(cleaning.to),
        None => Cleaned::Never,
    }
}
