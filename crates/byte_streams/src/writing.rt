//! Bytes that are written in as many calls as the writer needs.

ghost use Rattle.std.specs.Prelude.{◌≡◌, OnOk};
ghost use Rattle.byte_streams.specs.Sinks.{Wrote};

use crate::sink::{Sink, WriteFault};

/// Writes all bytes, in as many calls as the writer needs. At a fault the first of them are written.
pub fn put_all<W: Sink>(writer: &mut W, bytes: &[u8]) -> Result<(), WriteFault>
    ensures wrote { Wrote result (W.failed writer.new) (W.written writer.old) (W.written writer.new) bytes.now }
    ensures unfailed { OnOk result (W.failed writer.new ≡ W.failed writer.old) }
{
    let mut rest = bytes;
    while !rest.is_empty() {
        let count = writer.put(rest)?;
        rest = &rest[count..];
    }
    Ok(())
}
