//! The rest of a run whose entries are known.

ghost use Rattle.std.specs.Prelude.{IfOk, ◌≡◌};
ghost use Rattle.shop_base.specs.{Cell.start, Report.IsNextMoment, Run.IsRun, Run.ends_in};
ghost use Rattle.cell_tables.specs.Events.{events_of};

use cell_tables::{Entry, Rest, WorkCell};
use run_log::follow_entry;
use shop_base::{Moment, Shaped};
use std::alloc::{AllocError, Global};

/// The rest of the run of these entries, at a moment that can be the next one.
pub(crate) fn rest_after(
    alloc: Global,
    shaped: Shaped,
    entries: &[Entry],
    present: Moment,
) -> Result<Rest<Shaped>, AllocError>
    requires run { IsRun shaped (events_of entries.now) }
    requires moment { IsNextMoment (ends_in shaped (events_of entries.now)) present }
    ensures { IfOk result (λ rest. rest ≡ record {
      basis = shaped;
      plan = shaped;
      cell = ends_in shaped (events_of entries.now);
      present = present;
    }) }
{
    match WorkCell::start(alloc, shaped) {
        Ok(cell) => Ok(at_the_end(cell, entries, present)),
        Err(refused) => Err(refused.0),
    }
}

/// The rest of the run of these entries, which is at its start.
fn at_the_end(begun: WorkCell<Shaped>, entries: &[Entry], present: Moment) -> Rest<Shaped>
    requires begun { begun.cell ≡ start begun.plan }
    requires run { IsRun begun.plan (events_of entries.now) }
    requires moment { IsNextMoment (ends_in begun.plan (events_of entries.now)) present }
    ensures { result ≡ record {
      basis = begun.basis;
      plan = begun.plan;
      cell = ends_in begun.plan (events_of entries.now);
      present = present;
    } }
{
    let mut cell = begun;
    for entry in entries {
        follow_entry(&mut cell, *entry);
    }
    match Rest::at(cell, Some(present)) {
        Ok(rest) => rest,
        Err(_) => unreachable!(),
    }
}
