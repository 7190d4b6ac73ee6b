ghost use Rattle.std.specs.Prelude.{◌≡◌, ◌≤◌, ◌↔◌, [], length, Some, option_copied, IsTrue, IfSome};
ghost use Rattle.byte_streams.specs.Holding.{joined, AreAppended};

use std::marker::Model;

/// The most bytes of a line of input. Its line feed, and one carriage return before that, don't count.
pub const MAX_LINE: usize = 63;

const ROOM: usize = 64;

/// The bytes of a line that have come so far, none once there are too many.
#[derive(Drop)]
pub(crate) struct HeldLine {
    bytes: [u8; ROOM],
    count: Option<usize>,
}

impl Model for HeldLine {
    ghost use Rattle.std.specs.Prelude.{ℕ, ◌≤◌, List, take, Option, option_map, IfSome};

    ghost Value = { Option (List ℕ) };

    ghost view = { λ h. option_map (λ n. take n h.bytes) h.count };

    ghost invariant = { λ h. IfSome h.count (λ n. n ≤ 64) };
}

impl HeldLine {
    pub(crate) fn new() -> HeldLine
        ensures { result ≡ Some [] }
    {
        HeldLine {
            bytes: [0; ROOM],
            count: Some(0),
        }
    }

    /// Whether no byte of the line has come.
    pub(crate) fn is_empty(&self) -> bool
        ensures { IsTrue result ↔ (self.now ≡ Some []) }
    {
        match self.bytes() {
            Some(bytes) => bytes.is_empty(),
            None => false,
        }
    }

    pub(crate) fn clear(&mut self)
        ensures { self.new ≡ Some [] }
    {
        self.count = Some(0);
    }

    /// Holds these bytes too.
    pub(crate) fn push(&mut self, more: &[u8])
        ensures { self.new ≡ joined self.old more.now }
    {
        self.count = append(&mut self.bytes, self.count, more);
    }

    pub(crate) fn bytes(&self) -> Option<&[u8]>
        ensures { option_copied result ≡ self.now }
    {
        match self.count {
            Some(count) => Some(&self.bytes[..count]),
            None => None,
        }
    }
}

fn append(bytes: &mut [u8], count: Option<usize>, more: &[u8]) -> Option<usize>
    requires { IfSome count (λ count. count ≤ length bytes.old) }
    ensures within { IfSome result (λ end. end ≤ length bytes.new) }
    ensures joined { AreAppended bytes.old count more.now bytes.new result }
{
    let count = count?;
    if more.len() > bytes.len() - count {
        return None;
    }
    let end = count + more.len();
    bytes[count..end].copy_from_slice(more);
    Some(end)
}
