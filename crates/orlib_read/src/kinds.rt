//! The kinds of lines that are distinguished: instance lines and size lines.

ghost use Rattle.std.specs.Prelude.{◌≡◌, is_some};
ghost use Rattle.orlib_read.specs.Words.{words_of};
ghost use Rattle.orlib_read.specs.Reading.{Finds, name_of, is_name, sizes_of, sizes_with, worded_sizes_of};

use crate::named::Sizes;
use crate::words::{next_word, number_of};

/// The name on an instance line, none on another line.
pub(crate) fn name_of(line: &[u8]) -> Option<&[u8]>
    ensures { Finds (λ name. name.now) result (name_of (words_of line.now)) }
{
    let (word, rest) = next_word(line)?;
    let (name, rest) = next_word(rest)?;
    if next_word(rest).is_some() || word != b"instance".as_slice() {
        return None;
    }
    Some(name)
}

/// Whether the line is an instance line.
pub(crate) fn is_instance_line(line: &[u8]) -> bool
    ensures { result ≡ is_some (name_of (words_of line.now)) }
{
    name_of(line).is_some()
}

/// Whether the line is the instance line of this name.
pub(crate) fn is_named(line: &[u8], name: &[u8]) -> bool
    ensures { result ≡ is_name name.now (name_of (words_of line.now)) }
{
    match name_of(line) {
        Some(other) => other == name,
        None => false,
    }
}

/// The sizes on a line of two numbers, none on another line.
pub(crate) fn sizes_of(line: &[u8]) -> Option<Sizes>
    ensures { result ≡ sizes_of (words_of line.now) }
{
    let (jobs, rest) = next_word(line)?;
    let (machines, rest) = next_word(rest)?;
    if next_word(rest).is_some() {
        return None;
    }
    sizes_with(jobs, machines, false)
}

/// The sizes on a line of two numbers that may have the word for recirculation behind them, none on another line.
pub(crate) fn worded_sizes_of(line: &[u8]) -> Option<Sizes>
    ensures { result ≡ worded_sizes_of (words_of line.now) }
{
    let (jobs, rest) = next_word(line)?;
    let (machines, rest) = next_word(rest)?;
    let Some((word, rest)) = next_word(rest) else {
        return sizes_with(jobs, machines, false);
    };
    if next_word(rest).is_some() || word != b"recrc".as_slice() {
        return None;
    }
    sizes_with(jobs, machines, true)
}

fn sizes_with(jobs: &[u8], machines: &[u8], recirculates: bool) -> Option<Sizes>
    ensures { result ≡ sizes_with jobs.now machines.now recirculates }
{
    Some(Sizes {
        jobs: number_of(jobs)?,
        machines: number_of(machines)?,
        recirculates,
    })
}
