//! Numbers in decimal: a whole word, or the digits before a space.

ghost use Rattle.std.specs.Prelude.{◌≡◌, ℕ, ◌^◌, ◌<◌, ◌≤◌, length, take, slice_index, true, false, IfSome};
ghost use Rattle.std.specs.List.{list_all};
ghost use Rattle.text_lines.specs.Numbers.{is_digit, value_of, IsNumeral, IsNumberBefore};
ghost use Rattle.text_lines.specs.Searches.{SomeIfAny, SomeWithRestIfAny};

fn is_digit(byte: u8) -> bool
    ensures { result ≡ is_digit byte }
{
    byte.is_ascii_digit()
}

/// The number that the word is, in decimal, with at most `most` digits, leading zeros included.
pub fn number_of(word: &[u8], most: usize) -> Option<u64>
    requires { most ≤ 18 }
    ensures number { SomeIfAny result (IsNumeral most word.now) }
    ensures small { IfSome result (λ n. n < 10 ^ most) }
{
    if word.is_empty() || word.len() > most {
        return None;
    }
    let mut value = 0;
    for byte in word {
        if !is_digit(*byte) {
            return None;
        }
        value = 10 * value + u64::from(*byte - b'0');
    }
    Some(value)
}

/// The number that the word is, with at most 9 digits.
pub fn short_number_of(word: &[u8]) -> Option<u32>
    ensures { SomeIfAny result (IsNumeral 9 word.now) }
{
    match number_of(word, 9) {
        Some(number) => Some(number as u32),
        None => None,
    }
}

/// The number before the first space, in decimal, with at most `most` digits, and the bytes after that space.
pub fn number_before_space(bytes: &[u8], most: usize) -> Option<(u64, &[u8])>
    requires { most ≤ 18 }
    ensures number { SomeWithRestIfAny result (IsNumberBefore most bytes.now) }
    ensures small { IfSome result (λ found. found.0 < 10 ^ most) }
{
    let mut value = 0;
    for end in 0..bytes.len().min(most + 1) {
        let byte = bytes[end];
        if !is_digit(byte) {
            return ended_number(bytes, end, value);
        }
        value = 10 * value + u64::from(byte - b'0');
    }
    None
}

/// The number that the digits before this end are, and the bytes after it, if there are digits and a space ends them.
fn ended_number(bytes: &[u8], end: usize, value: u64) -> Option<(u64, &[u8])>
    requires end { end < length bytes.now }
    requires digits { list_all is_digit (take end bytes.now) ≡ true }
    requires ended { is_digit (slice_index bytes.now end) ≡ false }
    requires value { value ≡ value_of (take end bytes.now) }
    ensures number { (most : ℕ) → end ≤ most → SomeWithRestIfAny result (IsNumberBefore most bytes.now) }
    ensures same { IfSome result (λ found. found.0 ≡ value) }
{
    if end == 0 {
        return None;
    }
    if bytes[end] != b' ' {
        return None;
    }
    Some((value, &bytes[end + 1..]))
}
