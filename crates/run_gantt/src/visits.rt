//! The visits to each machine, found in one pass over the entries, from the last to the first.

ghost use Rattle.std.specs.Prelude.{◌≡◌, ◌<◌, [], ◌∷◌, length, slice_set, slice_index_or, IfOk, OnOk};
ghost use Rattle.shop_base.specs.Plan.{machines};
ghost use Rattle.run_gantt.specs.{Visits.machine_visits, VisitEnds.AreVisitEnds, LinkedVisits.AreVisitsBefore};

use crate::visit_ends::{VisitEnd, no_visit_ends, note_visit_end, visit_end_at};
use cell_tables::Entry;
use shop_base::{JobNo, MachineNo, Moment, Shaped, Spot};
use std::alloc::{AllocError, Global};
use std::marker::Model;

/// A visit of a job to a machine: when the job enters, when its operation ends and when it leaves, each of
/// the last two only if it is known.
#[derive(Clone, Copy)]
pub(crate) struct LoggedVisit {
    pub job: JobNo,
    pub enter: Moment,
    pub finish: Option<Moment>,
    pub leave: Option<Moment>,
}

/// A visit, with the place of the next one to the same machine.
#[derive(Clone, Copy)]
pub(crate) struct LinkedVisit {
    pub visit: LoggedVisit,
    pub next: Option<usize>,
}

/// The visits to each machine: those to all machines in one table, and for each machine the place of its first one.
#[derive(Drop)]
pub(crate) struct Visits {
    pub table: Vec<LinkedVisit>,
    pub first: Vec<Option<usize>>,
}

impl Model for Visits {
    ghost use Rattle.std.specs.Prelude.{List};
    ghost use Rattle.run_gantt.specs.declared.visits.LoggedVisit.{LoggedVisit};
    ghost use Rattle.run_gantt.specs.LinkedVisits.{rows_of, AreAllLinked};

    ghost Value = { List (List LoggedVisit) };

    ghost view = { λ v. rows_of v.table.items v.first.items };

    ghost invariant = { λ v. AreAllLinked v.table.items v.first.items };
}

/// The visits in the entries.
pub(crate) fn visits_of(
    alloc: Global,
    shaped: &Shaped,
    entries: &[Entry],
) -> Result<Visits, AllocError>
    ensures { IfOk result (λ visits. visits ≡ machine_visits (machines shaped.now) entries.now) }
{
    let mut ends = no_visit_ends(alloc, shaped.job_count())?;
    let mut visits = Visits::none(alloc, shaped.machine_count())?;
    let mut place = entries.len();
    while place > 0 {
        let later = &entries[place..];
        place -= 1;
        visits.note(&ends, entries[place], later)?;
        note_visit_end(&mut ends, entries[place]);
    }
    Ok(visits)
}

impl Visits {
    fn none(alloc: Global, machines: u32) -> Result<Visits, AllocError>
        ensures { IfOk result (λ visits. visits ≡ machine_visits machines []) }
    {
        let first = vec![in alloc; None; machines as usize]?;
        Ok(Visits {
            table: Vec::new(alloc),
            first,
        })
    }

    fn machine_count(&self) -> usize
        ensures { result ≡ length self.now }
    {
        self.first.len()
    }

    /// Notes the visit that an entry begins, if it begins one, before all those noted so far.
    fn note(&mut self, ends: &[VisitEnd], entry: Entry, later: &[Entry]) -> Result<(), AllocError>
        requires { AreVisitEnds ends.now later.now }
        ensures { OnOk result (AreVisitsBefore self.old entry later.now self.new) }
    {
        let Entry::Order(order) = entry else {
            return Ok(());
        };
        let Spot::At(machine) = order.target else {
            return Ok(());
        };
        if machine as usize >= self.machine_count() {
            return Ok(());
        }
        let end = visit_end_at(ends, later, order.job, machine);
        let visit = LoggedVisit {
            job: order.job,
            enter: order.at,
            finish: end.finish,
            leave: end.leave,
        };
        self.put_first(machine, visit)?;
        Ok(())
    }

    /// Puts a visit before the others to its machine.
    fn put_first(&mut self, machine: MachineNo, visit: LoggedVisit) -> Result<(), AllocError>
        requires { machine < length self.old }
        ensures { OnOk result (self.new ≡ slice_set self.old machine (visit ∷ slice_index_or self.old machine [])) }
    {
        let place = self.table.len();
        let next = self.first[machine as usize];
        self.table.push(LinkedVisit { visit, next })?;
        self.first[machine as usize] = Some(place);
        Ok(())
    }
}
