//! What a picture draws of a log: the visits and the leavings, each found in one pass over the entries, from the last to
//! the first.

ghost use Rattle.std.specs.Prelude.{◌≡◌, ◌<◌, ◌++◌, IfOk, OnOk};
ghost use Rattle.shop_base.specs.Plan.{jobs, machines};
ghost use Rattle.run_gantt.specs.DrawnVisits.{begun_visit, recorded_cleaning, drawn_visits, if_any};
ghost use Rattle.run_gantt.specs.{VisitEnds.AreVisitEnds, FirstMoments.AreCleaningEnds, LeavingsSoFar.leavings_so_far};

use crate::first_moments::{no_moments, note_cleaning_end, note_leaving};
use crate::visit_ends::{VisitEnd, no_visit_ends, note_visit_end, visit_end_at};
use cell_tables::Entry;
use run_picture::{Cleaned, DrawnVisit};
use shop_base::{MachineNo, Moment, Shaped, Spot};
use std::alloc::{AllocError, Global};

/// The visits in the entries to machines of the shop, as a picture draws them, the last begun first. After a visit to
/// a machine with a cleaning time a cleaning follows, which ends with the first later report of that machine's
/// cleaning. Any entries are drawn, whether they are a run's or not.
pub fn drawn_visits(
    alloc: Global,
    shaped: &Shaped,
    entries: &[Entry],
) -> Result<Vec<DrawnVisit>, AllocError>
    ensures { IfOk result (λ visits. visits.items ≡ drawn_visits shaped.now entries.now) }
{
    let mut ends = no_visit_ends(alloc, shaped.job_count())?;
    let mut cleanings = no_moments(alloc, shaped.machine_count())?;
    let mut visits = Vec::new(alloc);
    let mut place = entries.len();
    while place > 0 {
        let later = &entries[place..];
        place -= 1;
        let entry = entries[place];
        push_any(
            &mut visits,
            begun_visit(shaped, &ends, &cleanings, entry, later),
        )?;
        note_visit_end(&mut ends, entry);
        note_cleaning_end(&mut cleanings, entry);
    }
    Ok(visits)
}

/// The visit that an entry begins, if it begins one.
fn begun_visit(
    shaped: &Shaped,
    ends: &[VisitEnd],
    cleanings: &[Option<Moment>],
    entry: Entry,
    later: &[Entry],
) -> Option<DrawnVisit>
    requires ends { AreVisitEnds ends.now later.now }
    requires cleanings { AreCleaningEnds (machines shaped.now) cleanings.now later.now }
    ensures { result ≡ begun_visit shaped.now entry later.now }
{
    let Entry::Order(order) = entry else {
        return None;
    };
    let Spot::At(machine) = order.target else {
        return None;
    };
    if machine >= shaped.machine_count() {
        return None;
    }
    let end = visit_end_at(ends, later, order.job, machine);
    Some(DrawnVisit {
        job: order.job,
        machine,
        enter: order.at,
        finish: end.finish,
        leave: end.leave,
        cleaned: cleaned_by(shaped, machine, cleanings[machine as usize]),
    })
}

/// What is known of a cleaning of the machine, by the moment of its report.
fn cleaned_by(shaped: &Shaped, machine: MachineNo, end: Option<Moment>) -> Cleaned
    requires { machine < machines shaped.now }
    ensures { result ≡ recorded_cleaning shaped.now machine end }
{
    if shaped.clean_of(machine) == 0 {
        return Cleaned::Never;
    }
    match end {
        Some(end) => Cleaned::By(end),
        None => Cleaned::NotYet,
    }
}

fn push_any(visits: &mut Vec<DrawnVisit>, visit: Option<DrawnVisit>) -> Result<(), AllocError>
    ensures { OnOk result (visits.new.items ≡ visits.old.items ++ if_any visit) }
{
    if let Some(visit) = visit {
        visits.push(visit)?;
    }
    Ok(())
}

/// When each job of the shop has left the cell, by job; `None` of one that hasn't. Any entries are drawn, whether they
/// are a run's or not: the first that moves the job out counts. Fails only when out of memory.
pub fn leavings_so_far(
    alloc: Global,
    shaped: &Shaped,
    entries: &[Entry],
) -> Result<Vec<Option<Moment>>, AllocError>
    ensures { IfOk result (λ leavings. leavings.items ≡ leavings_so_far (jobs shaped.now) entries.now) }
{
    let mut leavings = no_moments(alloc, shaped.job_count())?;
    let mut place = entries.len();
    while place > 0 {
        place -= 1;
        note_leaving(&mut leavings, entries[place]);
    }
    Ok(leavings)
}
