//! The lines of the recorded events, written once more.

ghost use Rattle.std.specs.Prelude.{◌≡◌, ◌+◌, ◌≤◌, ◌++◌, length, OnOk};
ghost use Rattle.byte_streams.specs.Lent.{WroteTo};
ghost use Rattle.cell_drive.specs.declared.v1_replay.TheConstants.{MOST, EVENT_ROOM, LINES_ROOM};
ghost use Rattle.cell_drive.specs.PlainLines.{plain_line, plain_lines};

use byte_streams::{Sink, WriteFault, put_all};
use cell_tables::Entry;
use event_lines::{put_entry_line, put_late_line};
use text_lines::LineText;

/// How many events are written in one call.
const MOST: usize = 20;

/// The most bytes that the lines of one event have.
const EVENT_ROOM: usize = 96;

/// The room for the lines of `MOST` events.
const LINES_ROOM: usize = 1920;

/// The lines of `MOST` events at most.
type Lines = LineText<LINES_ROOM>;

/// Writes the line of the event, and after a late report's the line that it is late, before what there is.
#[inline(always)]
fn put_plain_line(lines: &mut Lines, entry: Entry, late: bool)
    requires { EVENT_ROOM + length lines.old ≤ LINES_ROOM }
    ensures written { lines.new ≡ plain_line entry late ++ lines.old }
    ensures length { length lines.new ≤ EVENT_ROOM + length lines.old }
{
    match entry {
        Entry::Report(report) => {
            if late {
                put_late_line(lines, report.at());
            }
            put_entry_line(lines, entry);
        }
        Entry::Order(_) => put_entry_line(lines, entry),
    }
}

/// Writes the lines of a few events in one call, the last of them first into their room.
fn put_few<W: Sink>(entries: &[Entry], late: &[bool], writer: &mut W) -> Result<(), WriteFault>
    requires same { length entries.now ≡ length late.now }
    requires few { length entries.now ≤ MOST }
    ensures wrote { WroteTo W.Sink result writer.old writer.new (plain_lines entries.now late.now) }
    ensures unfailed { OnOk result (W.failed writer.new ≡ W.failed writer.old) }
{
    let mut lines = Lines::empty();
    let mut place = entries.len();
    'places: while place > 0 {
        place -= 1;
        put_plain_line(&mut lines, entries[place], late[place]);
    }
    put_all(writer, lines.bytes())
}

/// Writes the lines of the recorded events.
pub(crate) fn put_v1_replay<W: Sink>(
    entries: &[Entry],
    late: &[bool],
    writer: &mut W,
) -> Result<(), WriteFault>
    requires { length entries.now ≡ length late.now }
    ensures wrote { WroteTo W.Sink result writer.old writer.new (plain_lines entries.now late.now) }
    ensures unfailed { OnOk result (W.failed writer.new ≡ W.failed writer.old) }
{
    let mut rest = entries;
    let mut rest_late = late;
    'rests: while !rest.is_empty() {
        let count = rest.len().min(MOST);
        put_few(&rest[..count], &rest_late[..count], writer)?;
        rest = &rest[count..];
        rest_late = &rest_late[count..];
    }
    Ok(())
}
