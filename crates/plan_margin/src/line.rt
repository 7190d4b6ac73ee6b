//! The line of a margin.

ghost use Rattle.std.specs.Prelude.{◌≡◌, ◌+◌, ◌≤◌, ◌++◌, length, OnOk};
ghost use Rattle.plan_margin.specs.MarginLine.{then_words, margin_line};

use crate::margin::Margin;
use people_names::Names;
use shop_base::JobNo;
use std::alloc::AllocError;
use text_lines::LineText;

/// The bytes of the longest line: a number of 10 digits, a name of 40 bytes and the words.
const ROOM: usize = 80;

type Line = LineText<ROOM>;

/// Adds `margin S thousandths`, and ` then job J` if some job is late with more, by its name if it has one.
pub fn push_margin_line(text: &mut Vec<u8>, names: &Names, margin: Margin) -> Result<(), AllocError>
    ensures { OnOk result (text.new.items ≡ text.old.items ++ margin_line names.now margin) }
{
    let mut line = Line::ended();
    put_then(&mut line, names, margin.then);
    line.put_text(b" thousandths");
    line.put_short_number(margin.thousandths);
    line.put_text(b"margin ");
    text.extend_from_slice(line.bytes())?;
    Ok(())
}

/// Writes which job is late with more, if one is.
fn put_then(line: &mut Line, names: &Names, then: Option<JobNo>)
    requires { length line.old ≤ 1 }
    ensures written { line.new ≡ then_words names.now then ++ line.old }
    ensures length { length line.new ≤ 50 + length line.old }
{
    if let Some(job) = then {
        names.put_job(line, job);
        line.put_text(b" then job ");
    }
}
