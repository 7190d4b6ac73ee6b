//! The lines of answers that are no events: `late T`, `refused LINE NAME`, `done T`, `unfinished K`. A log passes over
//! them.

ghost use Rattle.std.specs.Prelude.{◌≡◌, ◌+◌, ◌≤◌, ◌++◌, length};
ghost use Rattle.event_lines.specs.Words.{words_before};
ghost use Rattle.event_lines.specs.AnswerLines.{late_words, late_line, refused_line, done_line};
ghost use Rattle.event_lines.specs.AnswerLines.{unfinished_line, is_passed_over};

use crate::line_text::LineText;
use shop_base::Moment;

/// Writes `late T` before what there is.
#[inline(always)]
fn put_late_words<const ROOM: usize>(line: &mut text_lines::LineText<ROOM>, at: Moment)
    requires { 25 + length line.old ≤ ROOM }
    ensures written { line.new ≡ words_before (late_words at) line.old }
    ensures length { length line.new ≤ 25 + length line.old }
{
    line.put_number(at);
    line.put_text(b"late ");
}

/// Writes the line of a late report before what there is.
#[inline(always)]
pub fn put_late_line<const ROOM: usize>(lines: &mut text_lines::LineText<ROOM>, at: Moment)
    requires { 26 + length lines.old ≤ ROOM }
    ensures written { lines.new ≡ late_line at ++ lines.old }
    ensures length { length lines.new ≤ 26 + length lines.old }
{
    lines.put_text(b"\n");
    put_late_words(lines, at);
}

/// A report was late: `late T`.
pub fn late_line(at: Moment) -> LineText
    ensures { result ≡ late_line at }
{
    let mut line = LineText::ended();
    put_late_words(&mut line, at);
    line
}

/// The line of this number was refused: `refused LINE NAME`.
pub fn refused_line(number: u64, name: &[u8]) -> LineText
    requires { length name.now ≤ 20 }
    ensures { result ≡ refused_line number name.now }
{
    let mut line = LineText::ended();
    line.put_text(name);
    line.put_text(b" ");
    line.put_number(number);
    line.put_text(b"refused ");
    line
}

/// The run has ended: `done T`.
pub fn done_line(at: Moment) -> LineText
    ensures { result ≡ done_line at }
{
    let mut line = LineText::ended();
    line.put_number(at);
    line.put_text(b"done ");
    line
}

/// So many reports are left: `unfinished K`.
pub fn unfinished_line(left: u64) -> LineText
    ensures { result ≡ unfinished_line left }
{
    let mut line = LineText::ended();
    line.put_number(left);
    line.put_text(b"unfinished ");
    line
}

/// Whether a log passes over the line.
pub fn is_passed_over(line: &[u8]) -> bool
    ensures { result ≡ is_passed_over line.now }
{
    line.is_empty()
        || line.starts_with(b"late ")
        || line.starts_with(b"refused ")
        || line.starts_with(b"done ")
        || line.starts_with(b"unfinished ")
}
