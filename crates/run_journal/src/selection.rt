//! Which bytes of an output a log gets.

ghost use Rattle.std.specs.Prelude.{◌≡◌, ℕ, ◌+◌, ◌<◌, ◌≤◌, List, [], ◌∷◌, ◌++◌, length, vec_len, vec_capacity};
ghost use Rattle.run_journal.specs.LoggedLines.{is_logged};
ghost use Rattle.run_journal.specs.Selecting.{Gets, IsFront, more, undecided};

/// How many bytes of a line decide whether a log gets it, at most: as many as the longest of its first words and a
/// space.
pub(crate) const DECIDING: usize = 7;

/// Whether a log gets a line that begins with these bytes.
fn is_logged(line: &[u8]) -> bool
    ensures { result ≡ is_logged line.now }
{
    line.starts_with(b"report ")
        || line.starts_with(b"order ")
        || line.starts_with(b"late ")
        || line.starts_with(b"\n")
}

/// Appends what a log gets by these bytes. The front has the first bytes of the line that is being written, as many as
/// decide whether a log gets it.
pub(crate) fn select(front: &mut Vec<u8>, bytes: &[u8], events: &mut Vec<u8>)
    requires few { length front.old.items ≤ DECIDING }
    requires front_room { DECIDING ≤ vec_capacity front.old }
    requires room { vec_len events.old + DECIDING + length bytes.now ≤ vec_capacity events.old }
    ensures gets { Gets front.old.items bytes.now front.new.items events.old.items events.new.items }
    ensures few { length front.new.items ≤ DECIDING }
    ensures front_capacity { vec_capacity front.old ≤ vec_capacity front.new }
    ensures capacity { vec_capacity events.old ≤ vec_capacity events.new }
{
    for byte in bytes {
        select_byte(front, *byte, events);
    }
}

fn select_byte(front: &mut Vec<u8>, byte: u8, events: &mut Vec<u8>)
    requires few { length front.old.items ≤ DECIDING }
    requires front_room { DECIDING ≤ vec_capacity front.old }
    requires room { vec_len events.old + undecided front.old.items < vec_capacity events.old }
    ensures gets { Gets front.old.items (byte ∷ []) front.new.items events.old.items events.new.items }
    ensures few { length front.new.items ≤ DECIDING }
    ensures room { vec_len events.new + undecided front.new.items ≤ vec_len events.old + undecided front.old.items + 1 }
    ensures front_capacity { vec_capacity front.old ≤ vec_capacity front.new }
    ensures capacity { vec_capacity events.old ≤ vec_capacity events.new }
{
    append_byte(front, byte, events);
    if byte == b'\n' {
        front.clear();
    }
}

/// Appends what a log gets by a byte of the line.
#[tactic(auto, using(crate::proofs::Selected::front_stays, crate::proofs::Selected::front_grows, crate::proofs::Selected::front_decided))]
fn append_byte(front: &mut Vec<u8>, byte: u8, events: &mut Vec<u8>)
    requires few { length front.old.items ≤ DECIDING }
    requires front_room { DECIDING ≤ vec_capacity front.old }
    requires room { vec_len events.old + undecided front.old.items < vec_capacity events.old }
    ensures gets { (line : List ℕ) → IsFront front.old.items line
        → IsFront front.new.items (line ++ byte ∷ []) × (events.new.items ≡ events.old.items ++ more line byte) }
    ensures few { length front.new.items ≤ DECIDING }
    ensures room { vec_len events.new + undecided front.new.items ≤ vec_len events.old + undecided front.old.items + 1 }
    ensures front_capacity { vec_capacity front.old ≤ vec_capacity front.new }
    ensures capacity { vec_capacity events.old ≤ vec_capacity events.new }
{
    if is_logged(front) {
        events.push_reserved(byte);
        return;
    }
    if front.len() == DECIDING {
        return;
    }
    front.push_reserved(byte);
    if is_logged(front) {
        events.extend_from_slice(front).unwrap();
    }
}
