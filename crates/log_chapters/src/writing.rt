//! The text of a log that begins with its own texts.

ghost use Rattle.std.specs.Prelude.{◌≡◌, ◌+◌, ◌≤◌, ◌++◌, length, option_copied, IfOk, OnOk};
ghost use Rattle.event_lines.specs.EventLines.{entry_line, entry_lines};
ghost use Rattle.event_lines.specs.RunDigits.{plan_line};
ghost use Rattle.log_chapters.specs.Chapters.{no_digits, line_behind, lines_behind, names_lines, origin_text};
ghost use Rattle.log_chapters.specs.Chapters.{number_line, number_lines, chapter};

use crate::parts::{Origin, Texts};
use cell_tables::Entry;
use event_lines::{RunDigits, put_entry_line};
use std::alloc::{AllocError, Global};
use text_lines::{LineText, cut_line};

/// The bytes of the longest line of a number or of an event: two numbers, and the words.
const ROOM: usize = 72;

type Line = LineText<ROOM>;

/// The text of a log that begins with these texts, with a line for each job that says what it was, and with these
/// events. Only its last line is that of the plan; its first is that of no plan, so that a beginning of it is no log of
/// this plan.
pub fn chapter(
    alloc: Global,
    texts: &Texts,
    origins: &[Origin],
    entries: &[Entry],
    digits: &RunDigits,
) -> Result<Vec<u8>, AllocError>
    ensures { IfOk result (λ text. text.items ≡ chapter texts.now origins.now entries.now digits.now) }
{
    let zeros = no_digits();
    let mut text = Vec::new(alloc);
    push_plan_line(&mut text, &zeros)?;
    push_lines(&mut text, b"unfinished file: ", texts.file)?;
    push_lines(&mut text, b"unfinished plan: ", texts.plan)?;
    push_names(&mut text, texts.names)?;
    push_numbers(&mut text, origins)?;
    push_entries(&mut text, entries)?;
    push_plan_line(&mut text, digits)?;
    Ok(text)
}

/// The digits of no plan and of no shop.
fn no_digits() -> RunDigits
    ensures { result ≡ no_digits }
{
    RunDigits {
        plan: *b"0000000000000000",
        shop: *b"0000000000000000",
    }
}

fn push_plan_line(text: &mut Vec<u8>, digits: &RunDigits) -> Result<(), AllocError>
    ensures { OnOk result (text.new.items ≡ text.old.items ++ plan_line digits.now) }
{
    text.extend_from_slice(event_lines::plan_line(digits).bytes())
}

/// Adds each line of these, with the prefix before it.
fn push_lines(text: &mut Vec<u8>, prefix: &[u8], lines: &[u8]) -> Result<(), AllocError>
    ensures { OnOk result (text.new.items ≡ text.old.items ++ lines_behind prefix.now lines.now) }
{
    let mut rest = lines;
    while let Some((line, after)) = cut_line(rest) {
        push_line(text, prefix, line)?;
        rest = after;
    }
    if rest.is_empty() {
        return Ok(());
    }
    push_line(text, prefix, rest)?;
    Ok(())
}

fn push_line(text: &mut Vec<u8>, prefix: &[u8], line: &[u8]) -> Result<(), AllocError>
    ensures { OnOk result (text.new.items ≡ text.old.items ++ line_behind prefix.now line.now) }
{
    text.extend_from_slice(prefix)?;
    text.extend_from_slice(line)?;
    text.push(b'\n')?;
    Ok(())
}

fn push_names(text: &mut Vec<u8>, names: Option<&[u8]>) -> Result<(), AllocError>
    ensures { OnOk result (text.new.items ≡ text.old.items ++ names_lines (option_copied names.entry)) }
{
    match names {
        Some(lines) => push_lines(text, b"unfinished names: ", lines),
        None => Ok(()),
    }
}

/// Adds a line for each job, by their numbers.
fn push_numbers(text: &mut Vec<u8>, origins: &[Origin]) -> Result<(), AllocError>
    ensures { OnOk result (text.new.items ≡ text.old.items ++ number_lines 0 origins.now) }
{
    for (job, origin) in origins.iter().enumerate() {
        push_number(text, job as u64, *origin)?;
    }
    Ok(())
}

fn push_number(text: &mut Vec<u8>, job: u64, origin: Origin) -> Result<(), AllocError>
    ensures { OnOk result (text.new.items ≡ text.old.items ++ number_line job origin) }
{
    let mut line = Line::ended();
    put_origin(&mut line, origin);
    line.put_number(job);
    line.put_text(b"unfinished numbers: job ");
    text.extend_from_slice(line.bytes())?;
    Ok(())
}

/// Writes what the job was before what there is.
fn put_origin(line: &mut Line, origin: Origin)
    requires { 25 + length line.old ≤ ROOM }
    ensures written { line.new ≡ origin_text origin ++ line.old }
    ensures length { length line.new ≤ 25 + length line.old }
{
    match origin {
        Origin::Was(job) => {
            line.put_short_number(job);
            line.put_text(b" was ");
        }
        Origin::New => line.put_text(b" is new"),
        Origin::Holds(machine) => {
            line.put_short_number(machine);
            line.put_text(b" holds machine ");
        }
    }
}

fn push_entries(text: &mut Vec<u8>, entries: &[Entry]) -> Result<(), AllocError>
    ensures { OnOk result (text.new.items ≡ text.old.items ++ entry_lines entries.now) }
{
    for entry in entries {
        push_entry(text, *entry)?;
    }
    Ok(())
}

fn push_entry(text: &mut Vec<u8>, entry: Entry) -> Result<(), AllocError>
    ensures { OnOk result (text.new.items ≡ text.old.items ++ entry_line entry) }
{
    let mut line = Line::empty();
    put_entry_line(&mut line, entry);
    text.extend_from_slice(line.bytes())
}
