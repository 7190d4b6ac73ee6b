//! The number of a cell before a line, if there are several cells.

ghost use Rattle.std.specs.Prelude.{◌≡◌, ◌≤◌, length, MatchOption};
ghost use Rattle.event_lines.specs.SentLines.{IsCellReport, IsNoCellReport, cell_prefix};

use crate::line_text::LineText;
use crate::sent_reports::report_of;
use crate::words::number_first;
use shop_base::Report;

/// What comes before a line of an answer: the cell's number and a space.
pub fn cell_prefix(cell: u64) -> LineText
    ensures prefix { result ≡ cell_prefix cell }
    ensures length { length result ≤ 21 }
{
    let mut prefix = LineText::empty();
    prefix.put_text(b" ");
    prefix.put_number(cell);
    prefix
}

/// The report that the line is, and the number of the cell before it, if it is one.
pub fn cell_report_of(line: &[u8]) -> Option<(u32, Report)>
    ensures { MatchOption result (IsNoCellReport line.now) (λ found. IsCellReport line.now found.0 found.1) }
{
    let (cell, rest) = number_first(line, 9)?;
    let report = report_of(rest)?;
    Some((cell as u32, report))
}
