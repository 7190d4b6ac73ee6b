//! The state of a cell, line by line, and what is overdue in it.

ghost use Rattle.std.specs.Prelude.{◌≡◌, ◌+◌, ◌<◌, ◌≤◌, ◌++◌, OnOk};
ghost use Rattle.shop_base.specs.declared.limits.TheConstants.{MAX_JOBS};
ghost use Rattle.byte_streams.specs.Lent.{WroteTo};
ghost use Rattle.event_lines.specs.StandingLines.{unfinished_standing_line};
ghost use Rattle.cell_drive.specs.States.{is_over, standing_part, jobs_text, machines_text, state_text};
ghost use Rattle.cell_drive.specs.States.{count_of, one_more, with_one, own_first, overdue_in};
ghost use Rattle.cell_drive.specs.StateRows.{row, row_count, rows_text, with_rows};

use crate::replies::{put_behind, put_closing};
use byte_streams::{Sink, WriteFault};
use cell_control::{Core, Dues, Timed};
use cell_tables::{Standing, WorkCell};
use event_lines::{DetailText, Overdue, put_unfinished_standing};
use shop_base::{Moment, Planned};

/// Whether nothing is under way.
#[inline(always)]
fn is_over(standing: Standing) -> bool
    ensures { result ≡ is_over standing }
{
    match standing {
        Standing::Awaited { job: _, due: _ } => false,
        Standing::Outside { job: _, target: _ } => false,
        Standing::Worked {
            visit: _,
            machine: _,
            since: _,
            due: _,
        } => false,
        Standing::Done {
            visit: _,
            machine: _,
            target: _,
        } => false,
        Standing::Gone { job: _, at: _ } => true,
        Standing::Cleaned {
            machine: _,
            after: _,
            since: _,
            due: _,
        } => false,
        Standing::Clean { machine: _ } => true,
    }
}

/// Writes the line of what is under way.
#[inline(never)]
fn put_line<W: Sink>(prefix: &[u8], standing: Standing, writer: &mut W) -> Result<(), WriteFault>
    ensures wrote { WroteTo W.Sink result writer.old writer.new (prefix.now ++ unfinished_standing_line standing) }
    ensures unfailed { OnOk result (W.failed writer.new ≡ W.failed writer.old) }
{
    let mut line = DetailText::ended();
    put_unfinished_standing(&mut line, standing);
    put_behind(prefix, line.bytes(), writer)
}

/// Writes the line of what is under way, if anything is. A job that is gone or a clean machine costs a few
/// instructions.
#[inline(always)]
fn put_standing<W: Sink>(
    prefix: &[u8],
    standing: Standing,
    writer: &mut W,
) -> Result<(), WriteFault>
    ensures wrote { WroteTo W.Sink result writer.old writer.new (standing_part prefix.now standing) }
    ensures unfailed { OnOk result (W.failed writer.new ≡ W.failed writer.old) }
{
    if is_over(standing) {
        return Ok(());
    }
    put_line(prefix, standing, writer)
}

/// The rows of a state.
#[derive(Clone, Copy)]
enum Rows {
    Jobs,
    Machines,
}

/// How many rows there are.
fn row_count<P: Planned>(cell: &WorkCell<P>, rows: Rows) -> u32
    ensures count { result ≡ row_count cell.now.plan rows }
    ensures few { result ≤ MAX_JOBS }
{
    match rows {
        Rows::Jobs => cell.job_count(),
        Rows::Machines => cell.machine_count(),
    }
}

/// The state of the job or the machine of this number.
fn row<P: Planned>(cell: &WorkCell<P>, rows: Rows, number: u32) -> Standing
    requires { number < row_count cell.now.plan rows }
    ensures { result ≡ row cell.now.plan cell.now.cell rows number }
{
    match rows {
        Rows::Jobs => cell.job_standing(number),
        Rows::Machines => cell.machine_standing(number),
    }
}

/// Writes the line of each job that isn't gone, or of each machine that is being cleaned.
fn put_rows<P: Planned, W: Sink>(
    prefix: &[u8],
    cell: &WorkCell<P>,
    rows: Rows,
    writer: &mut W,
) -> Result<(), WriteFault>
    ensures wrote { WroteTo W.Sink result writer.old writer.new
        (rows_text prefix.now cell.now.plan cell.now.cell rows) }
    ensures unfailed { OnOk result (W.failed writer.new ≡ W.failed writer.old) }
{
    for number in 0..row_count(cell, rows) {
        put_standing(prefix, row(cell, rows, number), writer)?;
    }
    Ok(())
}

/// Writes what is under way in the cell.
#[tactic(auto, using(crate::proofs::CellTexts::wrote_next, crate::proofs::CellTexts::broke_first))]
fn put_under_way<P: Planned, W: Sink>(
    prefix: &[u8],
    cell: &WorkCell<P>,
    writer: &mut W,
) -> Result<(), WriteFault>
    ensures wrote { WroteTo W.Sink result writer.old writer.new
        (jobs_text prefix.now cell.now.plan cell.now.cell ++ machines_text prefix.now cell.now.plan cell.now.cell) }
    ensures unfailed { OnOk result (W.failed writer.new ≡ W.failed writer.old) }
{
    put_rows(prefix, cell, Rows::Jobs, writer)?;
    put_rows(prefix, cell, Rows::Machines, writer)
}

/// Writes the state of the cell.
pub(crate) fn put_state<P: Timed, D: Dues, W: Sink>(
    prefix: &[u8],
    controller: &Core<P, D>,
    writer: &mut W,
) -> Result<(), WriteFault>
    ensures wrote { WroteTo W.Sink result writer.old writer.new
        (state_text prefix.now controller.now.planned controller.now.cell) }
    ensures unfailed { OnOk result (W.failed writer.new ≡ W.failed writer.old) }
{
    put_under_way(prefix, controller.work_cell(), writer)?;
    put_closing(prefix, controller, writer)
}

/// What is overdue, with one more.
fn one_more(found: Option<Overdue>, standing: Standing) -> Option<Overdue>
    requires { count_of found ≤ 1000 }
    ensures { result ≡ one_more found standing }
{
    match found {
        Some(Overdue { first, others }) => Some(Overdue {
            first,
            others: others + 1,
        }),
        None => Some(Overdue {
            first: standing,
            others: 0,
        }),
    }
}

/// What is overdue, with this one if it is.
fn with_one(found: Option<Overdue>, standing: Standing, at: Moment) -> Option<Overdue>
    requires { count_of found ≤ 1000 }
    ensures { result ≡ with_one at found standing }
{
    if standing.is_overdue(at) {
        one_more(found, standing)
    } else {
        found
    }
}

/// What is overdue, with what is overdue of the jobs or of the machines.
fn with_rows<P: Planned>(
    cell: &WorkCell<P>,
    rows: Rows,
    before: Option<Overdue>,
    at: Moment,
) -> Option<Overdue>
    requires { count_of before ≤ MAX_JOBS }
    ensures found { result ≡ with_rows cell.now.plan cell.now.cell at rows before }
    ensures few { count_of result ≤ count_of before + MAX_JOBS }
{
    let mut found = before;
    for number in 0..row_count(cell, rows) {
        found = with_one(found, row(cell, rows, number), at);
    }
    found
}

/// What is overdue, with the report's own as the first, if it is.
fn own_first(found: Option<Overdue>, own: Standing, at: Moment) -> Option<Overdue>
    ensures { result ≡ own_first at own found }
{
    let Overdue { first, others } = found?;
    if own.is_overdue(at) {
        Some(Overdue { first: own, others })
    } else {
        Some(Overdue { first, others })
    }
}

/// What should have ended before this moment, when a report comes whose job or machine is in state `own`.
pub(crate) fn overdue_in<P: Planned>(
    cell: &WorkCell<P>,
    own: Standing,
    at: Moment,
) -> Option<Overdue>
    ensures { result ≡ overdue_in cell.now.plan cell.now.cell own at }
{
    let of_jobs = with_rows(cell, Rows::Jobs, None, at);
    own_first(with_rows(cell, Rows::Machines, of_jobs, at), own, at)
}
