//! The lines of a cell's answers, with the same bytes before each.

ghost use Rattle.std.specs.Prelude.{◌≡◌, ◌+◌, ◌≤◌, [], ◌++◌, length, OnOk, true};
ghost use Rattle.std.specs.List.{flat_map};
ghost use Rattle.shop_base.specs.Report.{at};
ghost use Rattle.event_lines.specs.{EventLines.entry_line, EventLines.order_line, StandingLines.refused_detail_line};
ghost use Rattle.event_lines.specs.AnswerLines.{refused_line, done_line};
ghost use Rattle.byte_streams.specs.Lent.{WroteTo};
ghost use Rattle.cell_drive.specs.{declared.replies.TheConstants.MAX_PREFIX, LineAnswers.closing_line};
ghost use Rattle.cell_drive.specs.Refusals.{refusal_word};
ghost use Rattle.cell_drive.specs.ProtocolText.{acceptance_lines, end_part, lateness_line, lateness_part};

use crate::refusals::Refusal;
use byte_streams::{Sink, WriteFault, put_all};
use cell_control::{Core, Dues, Report, Timed};
use cell_tables::Entry;
use event_lines::{
    Detail, LineText, Overdue, done_line, late_line, late_overdue_line, put_entry_line,
    refused_detail_line, refused_line, unfinished_line,
};
use shop_base::{Moment, MoveOrder};

/// The most bytes before a line: the number of a cell, and a space.
pub(crate) const MAX_PREFIX: usize = 21;

/// The line of a report and that of an order, with as many bytes as may be before each. Both are shorter than its room.
type TwoLines = text_lines::LineText<176>;

/// Writes the line after the prefix. An empty prefix costs nothing.
#[inline(always)]
pub(crate) fn put_behind<W: Sink>(
    prefix: &[u8],
    line: &[u8],
    writer: &mut W,
) -> Result<(), WriteFault>
    ensures wrote { WroteTo W.Sink result writer.old writer.new (prefix.now ++ line.now) }
    ensures unfailed { OnOk result (W.failed writer.new ≡ W.failed writer.old) }
{
    if prefix.is_empty() {
        return put_all(writer, line);
    }
    put_all(writer, prefix)?;
    put_all(writer, line)
}

/// Writes the line that a report was late, and in it what was overdue, if that is given.
#[cold]
#[inline(never)]
fn put_late<W: Sink>(
    prefix: &[u8],
    at: Moment,
    overdue: Option<Overdue>,
    writer: &mut W,
) -> Result<(), WriteFault>
    ensures wrote { WroteTo W.Sink result writer.old writer.new (prefix.now ++ lateness_line at overdue) }
    ensures unfailed { OnOk result (W.failed writer.new ≡ W.failed writer.old) }
{
    match overdue {
        Some(overdue) => put_behind(prefix, late_overdue_line(at, overdue).bytes(), writer),
        None => put_behind(prefix, late_line(at).bytes(), writer),
    }
}

/// Writes the line that the report was late, if it was.
#[inline(always)]
pub(crate) fn put_lateness<W: Sink>(
    prefix: &[u8],
    report: Report,
    late: bool,
    overdue: Option<Overdue>,
    writer: &mut W,
) -> Result<(), WriteFault>
    ensures wrote { WroteTo W.Sink result writer.old writer.new (lateness_part prefix.now (at report) late overdue) }
    ensures unfailed { OnOk result (W.failed writer.new ≡ W.failed writer.old) }
{
    if late {
        put_late(prefix, report.at(), overdue, writer)
    } else {
        Ok(())
    }
}

/// Writes the line of the event.
#[inline(always)]
pub(crate) fn put_event<W: Sink>(
    prefix: &[u8],
    entry: Entry,
    writer: &mut W,
) -> Result<(), WriteFault>
    ensures wrote { WroteTo W.Sink result writer.old writer.new (prefix.now ++ entry_line entry) }
    ensures unfailed { OnOk result (W.failed writer.new ≡ W.failed writer.old) }
{
    let mut line = LineText::empty();
    put_entry_line(&mut line, entry);
    put_behind(prefix, line.bytes(), writer)
}

/// Writes the line of the first order before what there is, unless the report was late, and returns the orders whose
/// lines aren't written.
#[inline(always)]
fn put_first<'a>(
    lines: &mut TwoLines,
    prefix: &[u8],
    late: bool,
    orders: &'a [MoveOrder],
) -> &'a [MoveOrder]
    requires none { lines.old ≡ [] }
    requires short { length prefix.now ≤ MAX_PREFIX }
    ensures written { lines.new ++ flat_map (λ o. prefix.now ++ order_line o) result.now
        ≡ flat_map (λ o. prefix.now ++ order_line o) orders.now }
    ensures late { late ≡ true → lines.new ≡ [] }
    ensures length { length lines.new ≤ 60 + MAX_PREFIX }
{
    if late || orders.is_empty() {
        return orders;
    }
    put_entry_line(lines, Entry::Order(orders[0]));
    lines.put_text(prefix);
    &orders[1..]
}

#[inline(always)]
fn put_orders<W: Sink>(
    prefix: &[u8],
    orders: &[MoveOrder],
    writer: &mut W,
) -> Result<(), WriteFault>
    ensures wrote { WroteTo W.Sink result writer.old writer.new
        (flat_map (λ o. prefix.now ++ order_line o) orders.now) }
    ensures unfailed { OnOk result (W.failed writer.new ≡ W.failed writer.old) }
{
    for order in orders {
        put_event(prefix, Entry::Order(*order), writer)?;
    }
    Ok(())
}

/// Writes the line of the end of the run.
#[inline(never)]
fn put_done<W: Sink>(prefix: &[u8], at: Moment, writer: &mut W) -> Result<(), WriteFault>
    ensures wrote { WroteTo W.Sink result writer.old writer.new (prefix.now ++ done_line at) }
    ensures unfailed { OnOk result (W.failed writer.new ≡ W.failed writer.old) }
{
    put_behind(prefix, done_line(at).bytes(), writer)
}

/// Writes the line of the end of the run, if there is to be one.
#[inline(always)]
fn put_end<W: Sink>(
    prefix: &[u8],
    report: Report,
    ended: bool,
    writer: &mut W,
) -> Result<(), WriteFault>
    ensures wrote { WroteTo W.Sink result writer.old writer.new (end_part prefix.now (at report) ended) }
    ensures unfailed { OnOk result (W.failed writer.new ≡ W.failed writer.old) }
{
    if ended {
        put_done(prefix, report.at(), writer)
    } else {
        Ok(())
    }
}

/// Writes the line of the report, the line that it was late, the lines of the orders, and the line of the end. The first
/// order is written together with the report, where no line comes between.
#[inline(always)]
pub(crate) fn put_accepted<W: Sink>(
    prefix: &[u8],
    report: Report,
    late: bool,
    overdue: Option<Overdue>,
    orders: &[MoveOrder],
    ended: bool,
    writer: &mut W,
) -> Result<(), WriteFault>
    requires { length prefix.now ≤ MAX_PREFIX }
    ensures wrote { WroteTo W.Sink result writer.old writer.new
        (acceptance_lines prefix.now report late overdue orders.now ended) }
    ensures unfailed { OnOk result (W.failed writer.new ≡ W.failed writer.old) }
{
    let mut lines = TwoLines::empty();
    let others = put_first(&mut lines, prefix, late, orders);
    put_entry_line(&mut lines, Entry::Report(report));
    lines.put_text(prefix);
    put_all(writer, lines.bytes())?;
    put_lateness(prefix, report, late, overdue, writer)?;
    put_orders(prefix, others, writer)?;
    put_end(prefix, report, ended, writer)
}

/// Refuses a line that asks no cell for anything, by its number and this name.
#[cold]
#[inline(never)]
pub(crate) fn put_refused<W: Sink>(
    number: u64,
    name: &[u8],
    writer: &mut W,
) -> Result<(), WriteFault>
    requires { length name.now ≤ 20 }
    ensures wrote { WroteTo W.Sink result writer.old writer.new (refused_line number name.now) }
    ensures unfailed { OnOk result (W.failed writer.new ≡ W.failed writer.old) }
{
    put_all(writer, refused_line(number, name).bytes())
}

/// Refuses what a cell was asked by the line of this number.
#[cold]
#[inline(never)]
pub(crate) fn put_refusal<W: Sink>(
    prefix: &[u8],
    number: u64,
    refusal: Refusal,
    detail: Detail,
    writer: &mut W,
) -> Result<(), WriteFault>
    ensures wrote { WroteTo W.Sink result writer.old writer.new
        (prefix.now ++ refused_detail_line number (refusal_word refusal) detail) }
    ensures unfailed { OnOk result (W.failed writer.new ≡ W.failed writer.old) }
{
    let line = refused_detail_line(number, refusal.name().as_bytes(), detail);
    put_behind(prefix, line.bytes(), writer)
}

/// Writes the closing line: whether the run is done, and when, or how many reports are left.
pub(crate) fn put_closing<P: Timed, D: Dues, W: Sink>(
    prefix: &[u8],
    controller: &Core<P, D>,
    writer: &mut W,
) -> Result<(), WriteFault>
    ensures wrote { WroteTo W.Sink result writer.old writer.new
        (prefix.now ++ closing_line controller.now.planned controller.now.cell) }
    ensures unfailed { OnOk result (W.failed writer.new ≡ W.failed writer.old) }
{
    let left = controller.reports_left();
    if left == 0 {
        put_done(prefix, controller.now(), writer)
    } else {
        put_behind(prefix, unfinished_line(left).bytes(), writer)
    }
}
