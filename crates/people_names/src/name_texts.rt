//! Which texts are names.

ghost use Rattle.std.specs.Prelude.{◌≡◌, length};
ghost use Rattle.std.specs.List.{list_all};
ghost use Rattle.std.specs.Str.{chars};
ghost use Rattle.text_lines.specs.Numbers.{is_digit};
ghost use Rattle.people_names.specs.NameTexts.{is_name_char, is_word_of_lines, is_name};

use crate::names::LONGEST_NAME;

/// Whether the text can be a name: 1 to 40 bytes, no blank, no control character and none that XML 1.0 excludes, none
/// of the words that stand where a name does, and no number.
pub(crate) fn is_name(text: &str) -> bool
    ensures { result ≡ is_name text.now }
{
    0 < text.len()
        && text.len() <= LONGEST_NAME
        && are_name_chars(text)
        && !is_word_of_lines(text)
        && !are_digits(text.as_bytes())
}

fn are_name_chars(text: &str) -> bool
    ensures { result ≡ list_all is_name_char (chars text.now) }
{
    text.chars().all(|c| is_name_char(c))
}

/// Whether the character can be one of a name.
fn is_name_char(c: char) -> bool
    ensures { result ≡ is_name_char c }
{
    !c.is_control() && c != ' ' && c != '\u{fffe}' && c != '\u{ffff}'
}

/// Whether the text is a word that stands where a name does.
fn is_word_of_lines(text: &str) -> bool
    ensures { result ≡ is_word_of_lines text.now }
{
    text == "out" || text == "or" || text == "fewer"
}

fn are_digits(text: &[u8]) -> bool
    ensures { result ≡ list_all is_digit text.now }
{
    text.iter().all(|byte| byte.is_ascii_digit())
}
