//! Entries that are drawn though no log has them. How those of runs are drawn is shown by `tests/commands/runs`.

use super::cells::{INSTANT, shaped};
use super::events::{enter, finish, leave, move_on};
use cell_tables::Entry;
use run_gantt::gantt;
use std::alloc::Global;
use std::test::Fail;

/// A job of none of the shops.
const STRANGER: u32 = 4_000_000_013;

/// Whether this is the drawing of the entries, for the one job.
fn are_drawn(alloc: Global, entries: &[Entry], drawing: &str) -> Result<bool, Fail> {
    let shaped = shaped(alloc, INSTANT)?;
    let drawn = gantt(alloc, &shaped, entries);
    drop(shaped);
    Ok(drawn?.as_str() == drawing)
}

#[test]
fn entries_of_no_run_are_drawn(rt: HostRuntime) -> Result<(), Fail> {
    let strangers = [
        Entry::Order(enter(STRANGER, 0, 0)),
        Entry::Order(enter(STRANGER, 7, 1)),
        Entry::Report(finish(STRANGER, 0, 1)),
        Entry::Order(leave(STRANGER, 0, 3)),
    ];
    let drawing = "scale 1\nmachine 0 4000000013:0-1-3\nbar 3==.\n";
    let of_strangers = are_drawn(rt.alloc(), &strangers, drawing)?;
    let again = [
        Entry::Order(move_on(0, 0, 0, 5)),
        Entry::Report(finish(0, 0, 4)),
        Entry::Order(move_on(0, 0, 0, 2)),
        Entry::Order(leave(0, 0, 1)),
    ];
    let drawing = "scale 1\nmachine 0 0:5-4-2 0:2-?-1\nbar ......\n";
    let of_one_again = are_drawn(rt.alloc(), &again, drawing)?;
    let last = [
        Entry::Order(enter(0, 0, 0)),
        Entry::Report(finish(0, 0, u64::MAX)),
    ];
    let drawing = "scale 307445734561825861\nmachine 0 0:0-18446744073709551615-?\n\
        bar 000000000000000000000000000000000000000000000000000000000000\n";
    let to_the_last = are_drawn(rt.alloc(), &last, drawing)?;
    assert!(rt; of_strangers && of_one_again && to_the_last);
    Ok(())
}
