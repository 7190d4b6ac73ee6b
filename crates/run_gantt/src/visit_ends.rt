//! What the later entries say of each job on each machine, kept in a table.

ghost use Rattle.std.specs.Prelude.{◌≡◌, ◌≤◌, List, [], ◌∷◌, length, IfOk, MatchOption};
ghost use Rattle.shop_base.specs.declared.limits.TheConstants.{MAX_JOBS};
ghost use Rattle.cell_tables.specs.declared.entry.Entry.{Entry};
ghost use Rattle.std.specs.Option.{option_or};
ghost use Rattle.run_gantt.specs.Visits.{finish_in, leave_in, visit_end};
ghost use Rattle.run_gantt.specs.VisitEnds.{IsPlace, HasNoPlace, AreVisitEnds};

use cell_tables::Entry;
use shop_base::limits::MAX_MACHINES;
use shop_base::{JobNo, MachineNo, Moment, MoveOrder, Report, Spot};
use std::alloc::{AllocError, Global};

/// When the operation of a job on a machine ends and when the job leaves it, if known.
#[derive(Clone, Copy)]
pub(crate) struct VisitEnd {
    pub finish: Option<Moment>,
    pub leave: Option<Moment>,
}

/// A table for this number of jobs, with no end noted yet.
pub(crate) fn no_visit_ends(alloc: Global, jobs: u32) -> Result<Vec<VisitEnd>, AllocError>
    requires { jobs ≤ MAX_JOBS }
    ensures { IfOk result (λ ends. AreVisitEnds ends.items []) }
{
    let count = jobs as usize * MAX_MACHINES as usize;
    let mut ends = Vec::with_capacity(alloc, count)?;
    for _i in 0..count {
        ends.push(VisitEnd {
            finish: None,
            leave: None,
        })?;
    }
    Ok(ends)
}

/// The place of a job on a machine; `None` if the table has none.
fn place_of(ends: &[VisitEnd], job: JobNo, machine: MachineNo) -> Option<usize>
    ensures { MatchOption result (HasNoPlace (length ends.now) job machine) (IsPlace (length ends.now) job machine) }
{
    if machine >= MAX_MACHINES {
        return None;
    }
    let place = job as usize * MAX_MACHINES as usize + machine as usize;
    if place >= ends.len() {
        return None;
    }
    Some(place)
}

/// The end of a visit of a job to a machine. The table has the ends for the shop's jobs; for any other job the entries
/// are looked through.
pub(crate) fn visit_end_at(
    ends: &[VisitEnd],
    entries: &[Entry],
    job: JobNo,
    machine: MachineNo,
) -> VisitEnd
    requires { AreVisitEnds ends.now entries.now }
    ensures { result ≡ visit_end job machine entries.now }
{
    match place_of(ends, job, machine) {
        Some(place) => ends[place],
        None => search_visit_end(entries, job, machine),
    }
}

fn search_visit_end(entries: &[Entry], job: JobNo, machine: MachineNo) -> VisitEnd
    ensures { result ≡ visit_end job machine entries.now }
{
    let mut finish = None;
    let mut leave = None;
    for entry in entries {
        finish = first_moment(finish, finish_in(*entry, job, machine));
        leave = first_moment(leave, leave_in(*entry, job, machine));
    }
    VisitEnd { finish, leave }
}

fn first_moment(one: Option<Moment>, other: Option<Moment>) -> Option<Moment>
    ensures { result ≡ option_or one other }
{
    match one {
        Some(moment) => Some(moment),
        None => other,
    }
}

fn finish_in(entry: Entry, of_job: JobNo, on_machine: MachineNo) -> Option<Moment>
    ensures { result ≡ finish_in of_job on_machine entry }
{
    let Entry::Report(Report::Finish { job, machine, at }) = entry else {
        return None;
    };
    if job == of_job && machine == on_machine {
        Some(at)
    } else {
        None
    }
}

fn leave_in(entry: Entry, of_job: JobNo, from_machine: MachineNo) -> Option<Moment>
    ensures { result ≡ leave_in of_job from_machine entry }
{
    let Entry::Order(order) = entry else {
        return None;
    };
    let Spot::At(machine) = order.source else {
        return None;
    };
    if order.job == of_job && machine == from_machine {
        Some(order.at)
    } else {
        None
    }
}

/// Notes an entry, which comes before all those noted so far.
pub(crate) fn note_visit_end(ends: &mut [VisitEnd], entry: Entry)
    ensures { (later : List Entry) → AreVisitEnds ends.old later → AreVisitEnds ends.new (entry ∷ later) }
{
    match entry {
        Entry::Report(report) => note_report(ends, report),
        Entry::Order(order) => note_order(ends, order),
    }
}

fn note_report(ends: &mut [VisitEnd], report: Report)
    ensures { (later : List Entry) → AreVisitEnds ends.old later → AreVisitEnds ends.new (Entry.Report report ∷ later) }
{
    match report {
        Report::Arrive { job: _, at: _ } => {}
        Report::Finish { job, machine, at } => {
            if let Some(place) = place_of(ends, job, machine) {
                ends[place].finish = Some(at);
            }
        }
        Report::Clean { machine: _, at: _ } => {}
    }
}

fn note_order(ends: &mut [VisitEnd], order: MoveOrder)
    ensures { (later : List Entry) → AreVisitEnds ends.old later → AreVisitEnds ends.new (Entry.Order order ∷ later) }
{
    match order.source {
        Spot::Out => {}
        Spot::At(machine) => {
            if let Some(place) = place_of(ends, order.job, machine) {
                ends[place].leave = Some(order.at);
            }
        }
    }
}
