//! Which of the events of a run are reports that are late, whatever controller ordered its moves.

ghost use Rattle.std.specs.Prelude.{◌≡◌, IfOk};
ghost use Rattle.shop_base.specs.{Cell.start, Run.CanHappen, Run.after, Run.AreEvents, Run.IsRun};
ghost use Rattle.cell_tables.specs.Events.{event_of, events_of};
ghost use Rattle.cell_control.specs.DueMoments.{AreDueMoments};
ghost use Rattle.cell_drive.specs.LateEvents.{IsLateEvent, AreLate};

use cell_control::{Dues, TourneyDues, advance, end_activity, is_past_due, note_all};
use cell_tables::{Entry, WorkCell};
use shop_base::{Planned, Shaped};
use std::alloc::{AllocError, Global};

/// Of each event of a run of the plan, whether it is a report that is late.
pub(crate) fn late_events(
    alloc: Global,
    shaped: &Shaped,
    entries: &[Entry],
) -> Result<Vec<bool>, AllocError>
    requires { IsRun shaped.now (events_of entries.now) }
    ensures { IfOk result (λ late. AreLate shaped.now (start shaped.now) entries.now late.items) }
{
    match WorkCell::start(alloc, shaped) {
        Ok(cell) => late_from::<&Shaped, TourneyDues>(alloc, cell, entries),
        Err(refused) => Err(refused.0),
    }
}

/// The same from any cell on.
fn late_from<P: Planned, D: Dues>(
    alloc: Global,
    cell: WorkCell<P>,
    entries: &[Entry],
) -> Result<Vec<bool>, AllocError>
    requires { AreEvents cell.plan cell.cell (events_of entries.now) }
    ensures { IfOk result (λ late. AreLate cell.plan cell.cell entries.now late.items) }
{
    let mut dues = D::sized(alloc, (cell.job_count() + cell.machine_count()) as usize)?;
    note_all(&cell, &mut dues);
    follow_events(alloc, cell, dues, entries)
}

/// Follows the events from a cell on, and records of each whether it is a late report.
fn follow_events<P: Planned, D: Dues>(
    alloc: Global,
    cell: WorkCell<P>,
    dues: D,
    entries: &[Entry],
) -> Result<Vec<bool>, AllocError>
    requires due_moments { AreDueMoments cell.plan cell.cell (D.dues dues) }
    requires run { AreEvents cell.plan cell.cell (events_of entries.now) }
    ensures { IfOk result (λ late. AreLate cell.plan cell.cell entries.now late.items) }
{
    let (mut cell, mut dues) = (cell, dues);
    let mut late = Vec::with_capacity(alloc, entries.len())?;
    for entry in entries {
        late.push_reserved(follow_event(&mut cell, &mut dues, *entry));
    }
    Ok(late)
}

/// Makes the event happen, and says whether it is a late report.
fn follow_event<P: Planned, D: Dues>(cell: &mut WorkCell<P>, dues: &mut D, entry: Entry) -> bool
    requires due_moments { AreDueMoments cell.old.plan cell.old.cell (D.dues dues.old) }
    requires possible { CanHappen cell.old.plan cell.old.cell (event_of entry) }
    ensures late { IsLateEvent cell.old.plan cell.old.cell entry result }
    ensures after { cell.new ≡ record cell.old { cell = after cell.old.plan cell.old.cell (event_of entry) } }
    ensures due_moments { AreDueMoments cell.old.plan cell.new.cell (D.dues dues.new) }
{
    match entry {
        Entry::Report(report) => {
            let late = is_past_due(cell, dues, report.at());
            end_activity(cell, dues, report);
            late
        }
        Entry::Order(order) => {
            advance(cell, dues, order.job, order.at);
            false
        }
    }
}
