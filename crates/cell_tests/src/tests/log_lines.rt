//! Entries that are written as lines.

use super::events::{arrive, clean, enter, finish, leave, move_on};
use super::one_byte_writer::OneByteWriter;
use cell_tables::Entry;
use run_log::{IntoSink, put_all, write_lines};
use std::cell::Cell;
use std::test::Fail;

const LINES: &[u8] =
    b"report 0 arrive 0\norder 0 0 out 0\nreport 4 finish 0 1\norder 4 0 1 out\nreport 7 clean 1\n\
        order 18446744073709551615 4294967295 4294967295 4294967295\n";

#[test]
fn all_lines_are_written_or_their_first_bytes(rt: HostRuntime) {
    let entries = [
        Entry::Report(arrive(0, 0)),
        Entry::Order(enter(0, 0, 0)),
        Entry::Report(finish(0, 1, 4)),
        Entry::Order(leave(0, 1, 4)),
        Entry::Report(clean(1, 7)),
        Entry::Order(move_on(u32::MAX, u32::MAX, u32::MAX, u64::MAX)),
    ];
    for takes_nothing in [false, true] {
        for calls in 0..LINES.len() + 1 {
            let count = Cell::new(0);
            let device = OneByteWriter::new(LINES, &count, calls, usize::MAX, takes_nothing);
            let mut writer = IntoSink::new(device);
            let all = write_lines(&entries, &mut writer).is_ok();
            let alike = writer.into_inner().alike;
            let found = (alike, count.get(), all);
            let wanted = (true, calls, calls == LINES.len());
            assert!(rt; found == wanted, "after {calls} calls");
        }
    }
}

#[test]
fn nothing_is_written_without_a_call(rt: HostRuntime) -> Result<(), Fail> {
    let mut writer = IntoSink::new(Vec::new(rt.alloc()));
    let nothing = put_all(&mut writer, b"").is_ok();
    let two = put_all(&mut writer, b"ab").is_ok();
    let one = put_all(&mut writer, b"c").is_ok();
    let text = writer.into_inner();
    let is = text.as_slice() == b"abc".as_slice();
    drop(text);
    assert!(rt; nothing && two && one && is);
    Ok(())
}
