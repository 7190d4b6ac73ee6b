//! Bytes that are cut at a line feed, at a space or after a prefix.

ghost use Rattle.std.specs.Prelude.{◌≡◌, ◌<◌, ◌==◌, ◌++◌, length, position, IfSome, MatchOption};
ghost use Rattle.text_lines.specs.Cuts.{HasNone, IsCutAt, LacksPrefix};

use memchr::memchr;

/// The bytes before the first line feed and the bytes after it; `None` if there is no line feed.
pub fn cut_line(bytes: &[u8]) -> Option<(&[u8], &[u8])>
    ensures { MatchOption result (HasNone 10 bytes.now) (λ found. IsCutAt 10 bytes.now found.0.now found.1.now) }
{
    if let Some((first, rest)) = bytes.split_first() {
        if *first == b'\n' {
            return Some((&[], rest));
        }
    }
    match memchr(b'\n', bytes) {
        Some(end) => Some((&bytes[..end], &bytes[end + 1..])),
        None => None,
    }
}

fn word_end(line: &[u8]) -> Option<usize>
    ensures first { result ≡ position (λ byte. byte == 32) line.now }
    ensures within { IfSome result (λ end. end < length line.now) }
{
    line.iter().position(|byte| *byte == b' ')
}

/// The bytes before the first space and the bytes after it; `None` if there is no space.
pub fn cut_word(line: &[u8]) -> Option<(&[u8], &[u8])>
    ensures { MatchOption result (HasNone 32 line.now) (λ found. IsCutAt 32 line.now found.0.now found.1.now) }
{
    match word_end(line) {
        Some(end) => Some((&line[..end], &line[end + 1..])),
        None => None,
    }
}

/// The bytes after this prefix; `None` if the line doesn't begin with it.
pub fn after_prefix<'a>(line: &'a [u8], prefix: &[u8]) -> Option<&'a [u8]>
    ensures { MatchOption result (LacksPrefix prefix.now line.now) (λ rest. line.now ≡ prefix.now ++ rest.now) }
{
    line.strip_prefix(prefix)
}
