//! The lines of the events that a log recorded, written once more by a protocol.

ghost use Rattle.std.specs.Prelude.{◌≡◌, [], length, OnOk};
ghost use Rattle.shop_base.specs.{Report.at, Report.CanReport, Run.CanHappen, Run.AreEvents};
ghost use Rattle.cell_tables.specs.Events.{event_of, events_of};
ghost use Rattle.byte_streams.specs.Lent.{WroteTo};
ghost use Rattle.cell_drive.specs.{ProtocolText.lateness_part, ProtocolText.printed_overdue};
ghost use Rattle.cell_drive.specs.{Replay.replay_line, Replay.replay_lines};

use crate::examining::printed_overdue;
use crate::protocol::Protocol;
use crate::replies::{put_event, put_lateness};
use byte_streams::{Sink, WriteFault};
use cell_control::Report;
use cell_tables::{Entry, WorkCell};
use run_log::follow_entry;
use shop_base::Planned;

/// Writes the line that the report was late, if it was, with what was overdue in the cell, if the protocol prints that.
fn put_was_late<P: Planned, W: Sink>(
    protocol: Protocol,
    cell: &WorkCell<P>,
    report: Report,
    late: bool,
    writer: &mut W,
) -> Result<(), WriteFault>
    requires { CanReport cell.now.plan cell.now.cell report }
    ensures wrote { WroteTo W.Sink result writer.old writer.new
        (lateness_part [] (at report) late (printed_overdue protocol cell.now.plan cell.now.cell report)) }
    ensures unfailed { OnOk result (W.failed writer.new ≡ W.failed writer.old) }
{
    if !late {
        return Ok(());
    }
    let overdue = printed_overdue(protocol, cell, true, report);
    put_lateness(b"", report, late, overdue, writer)
}

/// Writes the line of the event, which can happen in the cell, and behind that of a late report the line that it was.
#[tactic(auto, using(crate::proofs::CellTexts::wrote_next, crate::proofs::CellTexts::broke_first))]
fn put_replay<P: Planned, W: Sink>(
    protocol: Protocol,
    cell: &WorkCell<P>,
    entry: Entry,
    late: bool,
    writer: &mut W,
) -> Result<(), WriteFault>
    requires { CanHappen cell.now.plan cell.now.cell (event_of entry) }
    ensures wrote { WroteTo W.Sink result writer.old writer.new
        (replay_line cell.now.plan protocol cell.now.cell entry late) }
    ensures unfailed { OnOk result (W.failed writer.new ≡ W.failed writer.old) }
{
    match entry {
        Entry::Report(report) => {
            put_event(b"", Entry::Report(report), writer)?;
            put_was_late(protocol, cell, report, late, writer)
        }
        Entry::Order(_) => put_event(b"", entry, writer),
    }
}

/// Writes the lines of the events, which happen from the cell on.
pub(crate) fn put_replay_events<P: Planned, W: Sink>(
    protocol: Protocol,
    cell: WorkCell<P>,
    entries: &[Entry],
    late: &[bool],
    writer: &mut W,
) -> Result<(), WriteFault>
    requires run { AreEvents cell.plan cell.cell (events_of entries.now) }
    requires same { length entries.now ≡ length late.now }
    ensures wrote { WroteTo W.Sink result writer.old writer.new
        (replay_lines cell.plan protocol cell.cell entries.now late.now) }
    ensures unfailed { OnOk result (W.failed writer.new ≡ W.failed writer.old) }
{
    let mut cell = cell;
    for place in 0..entries.len() {
        put_replay(protocol, &cell, entries[place], late[place], writer)?;
        follow_entry(&mut cell, entries[place]);
    }
    Ok(())
}
