//! What the later entries say first of each machine or job, kept in a table.

ghost use Rattle.std.specs.Prelude.{ℕ, List, [], ◌∷◌, Option, IfOk};
ghost use Rattle.cell_tables.specs.declared.entry.Entry.{Entry};
ghost use Rattle.run_gantt.specs.FirstMoments.{AreFirstMoments, AreCleaningEnds, AreLeavingsAhead};

use cell_tables::Entry;
use shop_base::{Moment, Report, Spot};
use std::alloc::{AllocError, Global};

/// A table of this size, with no moment noted yet.
pub(crate) fn no_moments(alloc: Global, size: u32) -> Result<Vec<Option<Moment>>, AllocError>
    ensures { (moment_in : ℕ → Entry → Option ℕ)
        → IfOk result (λ moments. AreFirstMoments moment_in size moments.items []) }
{
    let moments = vec![in alloc; None; size as usize]?;
    Ok(moments)
}

/// Notes an entry, which comes before all those noted so far, in the table of the machines' cleanings.
pub(crate) fn note_cleaning_end(ends: &mut Vec<Option<Moment>>, entry: Entry)
    ensures { (n : ℕ) (later : List Entry) → AreCleaningEnds n ends.old.items later
        → AreCleaningEnds n ends.new.items (entry ∷ later) }
{
    if let Entry::Report(Report::Clean { machine, at }) = entry {
        let place = machine as usize;
        if place < ends.len() {
            ends[place] = Some(at);
        }
    }
}

/// Notes an entry, which comes before all those noted so far, in the table of the jobs' leavings.
pub(crate) fn note_leaving(leavings: &mut Vec<Option<Moment>>, entry: Entry)
    ensures { (n : ℕ) (later : List Entry) → AreLeavingsAhead n leavings.old.items later
        → AreLeavingsAhead n leavings.new.items (entry ∷ later) }
{
    let Entry::Order(order) = entry else {
        return;
    };
    let Spot::Out = order.target else {
        return;
    };
    let place = order.job as usize;
    if place < leavings.len() {
        leavings[place] = Some(order.at);
    }
}
