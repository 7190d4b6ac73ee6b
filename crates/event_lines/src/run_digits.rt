//! The line by which a log knows its plan and its shop: `unfinished plan P shop S`. It is never shown, and every reader
//! of events passes over it.

ghost use Rattle.std.specs.Prelude.{◌≡◌, ◌+◌, ◌≤◌, ◌++◌, length};
ghost use Rattle.std.specs.List.{list_all};
ghost use Rattle.text_lines.specs.Searches.{SomeIfAny};
ghost use Rattle.event_lines.specs.RunDigits.{is_small_hex, digits_words, plan_line, IsPlanLine};

use crate::line_text::LineText;
use text_lines::after_prefix;

/// What distinguishes a plan and its shop from others: of each the first 16 hexadecimal digits of a digest, in small
/// letters.
#[derive(Clone, Copy, Debug, PartialEq, Eq)]
pub struct RunDigits {
    pub plan: [u8; 16],
    pub shop: [u8; 16],
}

/// Writes `plan P shop S` before what there is.
pub fn put_digits<const ROOM: usize>(line: &mut text_lines::LineText<ROOM>, digits: &RunDigits)
    requires { 43 + length line.old ≤ ROOM }
    ensures written { line.new ≡ digits_words digits.now ++ line.old }
    ensures length { length line.new ≡ 43 + length line.old }
{
    line.put_text(&digits.shop);
    line.put_text(b" shop ");
    line.put_text(&digits.plan);
    line.put_text(b"plan ");
}

/// The line of a plan and its shop: `unfinished plan P shop S`.
pub fn plan_line(digits: &RunDigits) -> LineText
    ensures { result ≡ plan_line digits.now }
{
    let mut line = LineText::ended();
    put_digits(&mut line, digits);
    line.put_text(b"unfinished ");
    line
}

/// The digits in a line of a plan; of a line of any other form there are none.
pub fn digits_of_line(line: &[u8]) -> Option<RunDigits>
    ensures { SomeIfAny result (IsPlanLine line.now) }
{
    // Its first byte tells a line of an event, as most lines of a log are.
    if !line.starts_with(b"u") {
        return None;
    }
    let rest = after_prefix(line, b"unfinished plan ")?;
    if rest.len() != 38 {
        return None;
    }
    let (plan, rest) = rest.split_at(16);
    let shop = after_prefix(rest, b" shop ")?;
    if !are_digits(plan) || !are_digits(shop) {
        return None;
    }
    Some(RunDigits {
        plan: sixteen(plan),
        shop: sixteen(shop),
    })
}

/// Whether each of these is a hexadecimal digit, no capital letter.
fn are_digits(bytes: &[u8]) -> bool
    ensures { result ≡ list_all is_small_hex bytes.now }
{
    bytes
        .iter()
        .all(|byte| matches!(byte, b'0'..=b'9' | b'a'..=b'f'))
}

/// These bytes as an array.
fn sixteen(bytes: &[u8]) -> [u8; 16]
    requires { length bytes.now ≡ 16 }
    ensures { result ≡ bytes.now }
{
    let mut array = [0; 16];
    array.copy_from_slice(bytes);
    array
}
