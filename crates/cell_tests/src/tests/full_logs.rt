//! A log without room.

use super::cells::{INSTANT, Texts, accepted};
use super::events::{arrive, enter};
use cell_tables::Entry;
use run_log::RunLog;
use shop_base::MoveOrder;
use std::alloc::Global;
use std::test::Fail;

/// A log for one run of the plan.
fn log_of(alloc: Global, texts: Texts) -> Result<RunLog, Fail> {
    let verified = accepted(alloc, texts)?;
    let log = RunLog::for_run(alloc, &verified);
    drop(verified);
    Ok(log?)
}

/// Notes a report, and answers whether there was room, and how many entries there are then.
fn report_noted(log: &mut RunLog) -> (bool, usize) {
    let has_room = log.note_report(arrive(0, 0)).is_ok();
    (has_room, log.entries().len())
}

/// The same of orders.
fn orders_noted(log: &mut RunLog, orders: &[MoveOrder]) -> (bool, usize) {
    let has_room = log.note_orders(orders).is_ok();
    (has_room, log.entries().len())
}

/// Notes what there is room for, and more.
fn fills(log: &mut RunLog) -> [(bool, usize); 7] {
    let orders = [enter(0, 0, 0), enter(0, 0, 0)];
    [
        report_noted(log),
        orders_noted(log, &orders),
        orders_noted(log, &orders),
        report_noted(log),
        report_noted(log),
        orders_noted(log, &orders[..1]),
        orders_noted(log, &[]),
    ]
}

/// What each of them answers.
const NOTED: [(bool, usize); 7] = [
    (true, 1),
    (true, 3),
    (false, 3),
    (true, 4),
    (false, 4),
    (false, 4),
    (true, 4),
];

/// Whether these are a report, two orders and a report.
fn are_noted(entries: &[Entry]) -> bool {
    let (report, order) = (arrive(0, 0), enter(0, 0, 0));
    let noted = [
        Entry::Report(report),
        Entry::Order(order),
        Entry::Order(order),
        Entry::Report(report),
    ];
    entries == noted.as_slice()
}

#[test]
fn a_log_has_room_for_one_run(rt: HostRuntime) -> Result<(), Fail> {
    let mut log = log_of(rt.alloc(), INSTANT)?;
    let found = fills(&mut log);
    let entries = are_noted(log.entries());
    drop(log);
    assert!(rt; found == NOTED && entries);
    Ok(())
}
