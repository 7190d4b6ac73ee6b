ghost use Rattle.std.specs.Prelude.{◌≡◌, ◌+◌, ◌<◌, ◌≤◌, [], ◌∷◌, ◌++◌, length, drop, decimal};

use itoa::write_digits;
use std::marker::Model;

/// A line of text, with room for `ROOM` bytes. It is written from its end to its front, since a number is written from
/// its last digit on.
#[derive(Drop)]
pub struct LineText<const ROOM: usize> {
    bytes: [u8; ROOM],
    start: usize,
}

impl<const ROOM: usize> Model for LineText<ROOM> {
    ghost use Rattle.std.specs.Prelude.{ℕ, ◌≤◌, List, drop};

    ghost Value = { List ℕ };

    ghost view = { λ t. drop t.start t.bytes };

    ghost invariant = { λ t. t.start ≤ ROOM };
}

impl<const ROOM: usize> LineText<ROOM> {
    /// The line feed alone.
    pub fn ended() -> LineText<ROOM>
        requires { 0 < ROOM }
        ensures { result ≡ 10 ∷ [] }
    {
        let mut bytes = [0; ROOM];
        bytes[ROOM - 1] = b'\n';
        LineText {
            bytes,
            start: ROOM - 1,
        }
    }

    /// Makes it the line feed alone again: a line after another takes its room.
    #[inline(always)]
    pub fn end_anew(&mut self)
        requires { 0 < ROOM }
        ensures { self.new ≡ 10 ∷ [] }
    {
        self.bytes[ROOM - 1] = b'\n';
        self.start = ROOM - 1;
    }

    /// No bytes, for what comes before a line.
    pub fn empty() -> LineText<ROOM>
        ensures { result ≡ [] }
    {
        LineText {
            bytes: [0; ROOM],
            start: ROOM,
        }
    }

    /// Writes the text before what there is.
    pub fn put_text(&mut self, text: &[u8])
        requires { length text.now + length self.old ≤ ROOM }
        ensures written { self.new ≡ text.now ++ self.old }
        ensures length { length self.new ≡ length text.now + length self.old }
    {
        self.start = text_before(&mut self.bytes, self.start, text);
    }

    /// Writes the number, in decimal, before what there is.
    #[inline(always)]
    pub fn put_number(&mut self, number: u64)
        requires { 20 + length self.old ≤ ROOM }
        ensures written { self.new ≡ decimal number ++ self.old }
        ensures length { length self.new ≤ 20 + length self.old }
    {
        self.start = write_digits(number, &mut self.bytes, self.start);
    }

    /// Writes the number, in decimal, before what there is.
    #[inline(always)]
    pub fn put_short_number(&mut self, number: u32)
        requires { 10 + length self.old ≤ ROOM }
        ensures written { self.new ≡ decimal number ++ self.old }
        ensures length { length self.new ≤ 10 + length self.old }
    {
        self.start = write_digits(u64::from(number), &mut self.bytes, self.start);
    }

    /// The bytes of the line.
    pub fn bytes(&self) -> &[u8]
        ensures { result.now ≡ self.now }
    {
        let whole = &self.bytes[..];
        &whole[self.start..]
    }
}

fn text_before(bytes: &mut [u8], end: usize, text: &[u8]) -> usize
    requires fits { length text.now ≤ end }
    requires within { end ≤ length bytes.old }
    ensures start { result + length text.now ≡ end }
    ensures written { drop result bytes.new ≡ text.now ++ drop end bytes.old }
{
    let start = end - text.len();
    bytes[start..end].copy_from_slice(text);
    start
}
