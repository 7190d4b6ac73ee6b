//! An event of a log: a report as it is logged, or an order.

ghost use Rattle.std.specs.Prelude.{◌≡◌, ◌+◌, ◌≤◌, ◌↔◌, [], ◌∷◌, ◌++◌, length, MatchOption, IsTrue};
ghost use Rattle.text_lines.specs.Searches.{SomeIfAny};
ghost use Rattle.cell_tables.specs.Moving.{IsSpotOf};
ghost use Rattle.event_lines.specs.Words.{words_before};
ghost use Rattle.event_lines.specs.EventLines.{entry_words, entry_line, IsEntryLine};
ghost use Rattle.event_lines.specs.LogLines.{AreEndsOf, IsEntryOf, ParsesNoEntry, LineParses};

use crate::logged_reports::{logged_report_of, put_report_words};
use crate::orders::{move_order_of, put_order_words};
use cell_tables::Entry;
use shop_base::limits::MAX_MOMENT;
use shop_base::{MoveOrder, Report, Shaped, Spot};
use text_lines::after_prefix;

/// Writes the words of the entry before what there is.
#[inline(always)]
fn put_entry_words<const ROOM: usize>(line: &mut text_lines::LineText<ROOM>, entry: Entry)
    requires { 59 + length line.old ≤ ROOM }
    ensures written { line.new ≡ words_before (entry_words entry) line.old }
    ensures length { length line.new ≤ 59 + length line.old }
{
    match entry {
        Entry::Report(report) => put_report_words(line, report),
        Entry::Order(order) => put_order_words(line, order),
    }
}

/// Writes the line of the entry, `report ..` or `order ..`, before what there is.
#[inline(always)]
pub fn put_entry_line<const ROOM: usize>(lines: &mut text_lines::LineText<ROOM>, entry: Entry)
    requires { 60 + length lines.old ≤ ROOM }
    ensures written { lines.new ≡ entry_line entry ++ lines.old }
    ensures length { length lines.new ≤ 60 + length lines.old }
{
    lines.put_text(b"\n");
    put_entry_words(lines, entry);
}

/// The report or the order that the line is.
#[inline(always)]
pub fn entry_of(line: &[u8]) -> Option<Entry>
    ensures { SomeIfAny result (IsEntryLine line.now) }
{
    if line.starts_with(b"o") {
        let order = move_order_of(after_prefix(line, b"order ")?)?;
        return Some(Entry::Order(order));
    }
    let report = logged_report_of(after_prefix(line, b"report ")?)?;
    Some(Entry::Report(report))
}

fn is_spot_of(shaped: &Shaped, spot: Spot) -> bool
    ensures { IsTrue result ↔ IsSpotOf shaped.now spot }
{
    match spot {
        Spot::Out => true,
        Spot::At(machine) => machine < shaped.machine_count(),
    }
}

fn ends_of_shop(shaped: &Shaped, report: Report) -> bool
    ensures { IsTrue result ↔ AreEndsOf shaped.now report }
{
    match report {
        Report::Arrive { job, at: _ } => job < shaped.job_count(),
        Report::Finish {
            job,
            machine,
            at: _,
        } => job < shaped.job_count() && machine < shaped.machine_count(),
        Report::Clean { machine, at: _ } => machine < shaped.machine_count(),
    }
}

fn is_order_of(shaped: &Shaped, order: MoveOrder) -> bool
    ensures { IsTrue result ↔ IsEntryOf shaped.now (Entry.Order order) }
{
    if order.job >= shaped.job_count() || order.at > MAX_MOMENT {
        return false;
    }
    is_spot_of(shaped, order.source) && is_spot_of(shaped, order.target)
}

/// Whether the jobs and machines of the entry are of the shop, and its moment isn't past the latest.
fn is_entry_of(shaped: &Shaped, entry: Entry) -> bool
    ensures { IsTrue result ↔ IsEntryOf shaped.now entry }
{
    match entry {
        Entry::Report(report) => ends_of_shop(shaped, report) && report.at() <= MAX_MOMENT,
        Entry::Order(order) => is_order_of(shaped, order),
    }
}

/// The entry of the shop in this line; no such line is passed over. Each line of a log is read by this.
#[inline(always)]
pub fn entry_in(shaped: &Shaped, line: &[u8]) -> Option<Entry>
    ensures { MatchOption result (ParsesNoEntry shaped.now line.now)
        (λ entry. LineParses shaped.now line.now (entry ∷ [])) }
{
    let entry = entry_of(line)?;
    if is_entry_of(shaped, entry) {
        Some(entry)
    } else {
        None
    }
}
