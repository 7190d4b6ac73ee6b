//! Whether a log begins with names.

ghost use Rattle.std.specs.Prelude.{◌↔◌, IsTrue};
ghost use Rattle.text_lines.specs.Lines.{lines_of};
ghost use Rattle.log_chapters.specs.NamesGiven.{HasNames, IsLineOfNames};

use text_lines::{after_prefix, next_line};

/// Whether one of these lines has some of the names with which a log begins.
pub fn has_names(lines: &[u8]) -> bool
    ensures { IsTrue result ↔ HasNames (lines_of lines.now) }
{
    let mut rest = lines;
    while let Some((line, after)) = next_line(rest) {
        if is_of_names(line) {
            return true;
        }
        rest = after;
    }
    false
}

fn is_of_names(line: &[u8]) -> bool
    ensures { IsTrue result ↔ IsLineOfNames line.now }
{
    // Its first byte tells a line of an event, as most lines of a log are.
    line.starts_with(b"u") && after_prefix(line, b"unfinished names: ").is_some()
}
