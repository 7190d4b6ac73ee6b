//! The lines of a text, from the front.

ghost use Rattle.std.specs.Prelude.{◌≡◌, ◌+◌, ◌<◌, ◌^◌, false, length, IfSome};
ghost use Rattle.text_lines.specs.Searches.{GivesFirst};
ghost use Rattle.orlib_read.specs.Kinds.{unfilled_lines};
ghost use Rattle.orlib_read.specs.Reading.{Finds, before_title, section_of};

use crate::kinds::{is_instance_line, is_named};
use crate::words::is_filler;
use text_lines::next_line;

/// A line of a text and its number, from 1.
#[derive(Clone, Copy)]
pub(crate) struct Line<'a> {
    pub number: usize,
    pub bytes: &'a [u8],
}

/// The lines that are still to be read, of a text or of one section of it.
#[derive(Clone, Copy)]
pub(crate) struct Lines<'a> {
    rest: &'a [u8],
    before: usize,
    in_section: bool,
    ghost in_range: { before + length rest.now < 2 ^ 64 },
}

impl<'a> Lines<'a> {
    ghost use Rattle.orlib_read.specs.Cursor.{numbered_line, raw_left, lines_left};

    /// All lines of a text.
    #[tactic(auto, unfolding(crate::specs::Cursor::lines_left, crate::specs::Cursor::raw_left))]
    pub(crate) fn of(text: &'a [u8]) -> Lines<'a>
        ensures lines { lines_left result ≡ unfilled_lines text.now }
        ensures whole { result.in_section ≡ false }
    {
        Lines {
            rest: text,
            before: 0,
            in_section: false,
        }
    }

    /// The lines of the section that begins after the first instance line of this name.
    pub(crate) fn of_section(text: &'a [u8], name: &[u8]) -> Option<Lines<'a>>
        ensures { Finds lines_left result (section_of name.now (unfilled_lines text.now)) }
    {
        let mut lines = Lines::of(text);
        while let Some((line, rest)) = lines.next_unfilled() {
            if is_named(line.bytes, name) {
                return Some(rest.section());
            }
            lines = rest;
        }
        None
    }

    #[tactic(auto, unfolding(crate::specs::Cursor::lines_left, crate::specs::Cursor::raw_left))]
    fn section(self) -> Lines<'a>
        requires { self.in_section ≡ false }
        ensures { lines_left result ≡ before_title (lines_left self.entry) }
    {
        Lines {
            rest: self.rest,
            before: self.before,
            in_section: true,
        }
    }

    fn next_line(self) -> Option<(Line<'a>, Lines<'a>)>
        ensures line { GivesFirst numbered_line raw_left result (raw_left self.entry) }
        ensures same { IfSome result (λ found. found.1.in_section ≡ self.entry.in_section) }
    {
        let (bytes, rest) = next_line(self.rest)?;
        let line = Line {
            number: self.before + 1,
            bytes,
        };
        let lines = Lines {
            rest,
            before: line.number,
            in_section: self.in_section,
        };
        Some((line, lines))
    }

    /// The next line that isn't filler, and the lines after it.
    pub(crate) fn next_unfilled(self) -> Option<(Line<'a>, Lines<'a>)>
        ensures line { GivesFirst numbered_line lines_left result (lines_left self.entry) }
        ensures same { IfSome result (λ found. found.1.in_section ≡ self.entry.in_section) }
    {
        let mut lines = self;
        while let Some((line, rest)) = lines.next_line() {
            if !is_filler(line.bytes) {
                if self.in_section && is_instance_line(line.bytes) {
                    return None;
                }
                return Some((line, rest));
            }
            lines = rest;
        }
        None
    }
}
