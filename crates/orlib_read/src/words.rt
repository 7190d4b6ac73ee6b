//! The words of a line, and the numbers among them.

ghost use Rattle.std.specs.Prelude.{◌≡◌, ◌<◌, ℕ, Bool, length, not, ◌||◌, position, IfSome};
ghost use Rattle.std.specs.List.{before_first, after_first, list_all};
ghost use Rattle.text_lines.specs.Searches.{GivesFirst};
ghost use Rattle.orlib_read.specs.Words.{is_blank, words_of, number_of};
ghost use Rattle.orlib_read.specs.Kinds.{is_plus};

use text_lines::short_number_of;

fn is_blank(byte: u8) -> bool
    ensures { result ≡ is_blank byte }
{
    byte == b' ' || byte == b'\t'
}

fn word_start(line: &[u8]) -> Option<usize>
    ensures first { result ≡ position (λ byte. not (is_blank byte)) line.now }
    ensures within { IfSome result (λ start. start < length line.now) }
{
    line.iter().position(|byte| !is_blank(*byte))
}

fn word_end(line: &[u8]) -> Option<usize>
    ensures first { result ≡ position is_blank line.now }
    ensures within { IfSome result (λ end. end < length line.now) }
{
    line.iter().position(|byte| is_blank(*byte))
}

/// The bytes before a place and the bytes after it; if there is no place, all bytes and none.
fn split_around(bytes: &[u8], place: Option<usize>) -> (&[u8], &[u8])
    requires { IfSome place (λ place. place < length bytes.now) }
    ensures before { (ends : ℕ → Bool) → place ≡ position ends bytes.now → result.0.now ≡ before_first ends bytes.now }
    ensures after { (ends : ℕ → Bool) → place ≡ position ends bytes.now → result.1.now ≡ after_first ends bytes.now }
{
    match place {
        Some(place) => (&bytes[..place], &bytes[place + 1..]),
        None => (bytes, &[]),
    }
}

/// The next word and the bytes after it; `None` if only blanks are left.
pub(crate) fn next_word(line: &[u8]) -> Option<(&[u8], &[u8])>
    ensures word { GivesFirst (λ word. word.now) (λ rest. words_of rest.now) result (words_of line.now) }
    ensures shorter { IfSome result (λ found. length found.1.now < length line.now) }
{
    let start = word_start(line)?;
    let rest = &line[start..];
    Some(split_around(rest, word_end(rest)))
}

/// Whether the line has no byte but blanks and `+`.
pub(crate) fn is_filler(line: &[u8]) -> bool
    ensures { result ≡ list_all (λ byte. is_blank byte || is_plus byte) line.now }
{
    line.iter().all(|byte| is_blank(*byte) || *byte == b'+')
}

/// The number that the word is, if it is one.
pub(crate) fn number_of(word: &[u8]) -> Option<u32>
    ensures { result ≡ number_of word.now }
{
    short_number_of(word)
}

/// How many words are on the line.
pub(crate) fn word_count(line: &[u8]) -> usize
    ensures { result ≡ length (words_of line.now) }
{
    let mut count = 0;
    let mut rest = line;
    while let Some((_, after)) = next_word(rest) {
        count += 1;
        rest = after;
    }
    count
}
