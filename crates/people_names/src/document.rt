//! The text of names.

ghost use Rattle.std.specs.Prelude.{◌≡◌, ◌++◌, map, string_bytes, OnOk};
ghost use Rattle.people_names.specs.NameLines.{basic_byte, basic_bytes, basic_string, more_names, name_list, list_line, clock_line};

use crate::clock::Clock;
use crate::keys::NamesKey;
use crate::names::put_moment_by;
use std::alloc::AllocError;
use text_lines::LineText;

/// The room for a clock's line.
const CLOCK_ROOM: usize = 64;

/// Writes a byte of a basic string: a quotation mark and a backslash get a backslash before them.
fn push_byte(text: &mut Vec<u8>, byte: u8) -> Result<(), AllocError>
    ensures { OnOk result (text.new.items ≡ text.old.items ++ basic_byte byte) }
{
    if byte == b'"' || byte == b'\\' {
        text.push(b'\\')?;
    }
    text.push(byte)?;
    Ok(())
}

fn push_bytes(text: &mut Vec<u8>, bytes: &[u8]) -> Result<(), AllocError>
    ensures { OnOk result (text.new.items ≡ text.old.items ++ basic_bytes bytes.now) }
{
    for byte in bytes {
        push_byte(text, *byte)?;
    }
    Ok(())
}

fn push_string(text: &mut Vec<u8>, name: &str) -> Result<(), AllocError>
    ensures { OnOk result (text.new.items ≡ text.old.items ++ basic_string name.now) }
{
    text.extend_from_slice(b"\"")?;
    push_bytes(text, name.as_bytes())?;
    text.extend_from_slice(b"\"")
}

fn push_more_names(text: &mut Vec<u8>, names: &[String]) -> Result<(), AllocError>
    ensures { OnOk result (text.new.items ≡ text.old.items ++ more_names (map string_bytes names.now)) }
{
    for name in names {
        text.extend_from_slice(b", ")?;
        push_string(text, name.as_str())?;
    }
    Ok(())
}

fn push_names(text: &mut Vec<u8>, names: &[String]) -> Result<(), AllocError>
    ensures { OnOk result (text.new.items ≡ text.old.items ++ name_list (map string_bytes names.now)) }
{
    if let [first, rest @ ..] = names {
        push_string(text, first.as_str())?;
        push_more_names(text, rest)?;
    }
    Ok(())
}

/// Writes the line of a list, where there is one.
pub(crate) fn push_list(
    text: &mut Vec<u8>,
    key: NamesKey,
    is: bool,
    names: &[String],
) -> Result<(), AllocError>
    ensures { OnOk result (text.new.items ≡ text.old.items ++ list_line key is (map string_bytes names.now)) }
{
    if !is {
        return Ok(());
    }
    text.extend_from_slice(key.name().as_bytes())?;
    text.extend_from_slice(b" = [")?;
    push_names(text, names)?;
    text.extend_from_slice(b"]\n")
}

/// Writes the line of the clock, where there is one.
pub(crate) fn push_clock(text: &mut Vec<u8>, clock: Option<Clock>) -> Result<(), AllocError>
    ensures { OnOk result (text.new.items ≡ text.old.items ++ clock_line clock) }
{
    let Some(clock) = clock else {
        return Ok(());
    };
    let mut line = LineText::<CLOCK_ROOM>::empty();
    line.put_text(b"\"\n");
    put_moment_by(&mut line, Some(clock), 0);
    line.put_text(b"begin = \"");
    text.extend_from_slice(line.bytes())
}
