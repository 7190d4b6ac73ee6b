//! The lines of events, each written from 64 bytes of its own.

ghost use Rattle.std.specs.Prelude.{◌≡◌, OnOk};
ghost use Rattle.byte_streams.specs.Sinks.{Wrote};
ghost use Rattle.event_lines.specs.EventLines.{entry_lines};

use byte_streams::{Sink, WriteFault, put_all};
use cell_tables::Entry;
use event_lines::{LineText, put_entry_line};

/// Writes the lines of the entries. A fault leaves the first bytes of them written.
pub fn write_lines<W: Sink>(entries: &[Entry], writer: &mut W) -> Result<(), WriteFault>
    ensures wrote { Wrote result (W.failed writer.new)
        (W.written writer.old) (W.written writer.new) (entry_lines entries.now) }
    ensures unfailed { OnOk result (W.failed writer.new ≡ W.failed writer.old) }
{
    for entry in entries {
        let mut line = LineText::empty();
        put_entry_line(&mut line, *entry);
        put_all(writer, line.bytes())?;
    }
    Ok(())
}
