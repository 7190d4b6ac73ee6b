//! The lines of a text: the first one, how many there are, and the part in which all are ended.

ghost use Rattle.std.specs.Prelude.{◌≡◌, ◌<◌, length, IfSome};
ghost use Rattle.text_lines.specs.Lines.{without_return, lines_of, ended_lines};
ghost use Rattle.text_lines.specs.Searches.{GivesFirst};

use crate::cuts::cut_line;
use memchr::{memchr, memrchr};

/// The line without one carriage return at its end, if it has one there.
pub fn without_return(line: &[u8]) -> &[u8]
    ensures { result.now ≡ without_return line.now }
{
    line.strip_suffix(b"\r").unwrap_or(line)
}

/// The first line of a text, and the text after it; `None` if nothing is left.
pub fn next_line(text: &[u8]) -> Option<(&[u8], &[u8])>
    ensures line { GivesFirst (λ line. line.now) (λ rest. lines_of rest.now) result (lines_of text.now) }
    ensures shorter { IfSome result (λ found. length found.1.now < length text.now) }
{
    if text.is_empty() {
        return None;
    }
    match cut_line(text) {
        Some((line, rest)) => Some((without_return(line), rest)),
        None => Some((without_return(text), &[])),
    }
}

/// How many lines the text has.
pub fn line_count(text: &[u8]) -> usize
    ensures { result ≡ length (lines_of text.now) }
{
    let mut count = 0;
    let mut rest = text;
    while let Some(end) = memchr(b'\n', rest) {
        count += 1;
        rest = &rest[end + 1..];
    }
    if rest.is_empty() { count } else { count + 1 }
}

/// The bytes up to the last line feed, which is the last of them: each line of this part ends with a line feed, and a
/// last line that doesn't is left out. The part is empty if there is no line feed.
pub fn ended_part(text: &[u8]) -> &[u8]
    ensures { lines_of result.now ≡ ended_lines text.now }
{
    match memrchr(b'\n', text) {
        Some(end) => &text[..end + 1],
        None => &[],
    }
}
