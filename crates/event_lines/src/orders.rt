//! A move order: `order T J FROM TO`, with `out` for outside the cell.

ghost use Rattle.std.specs.Prelude.{◌≡◌, ◌+◌, ◌≤◌, [], ◌∷◌, ◌++◌, length};
ghost use Rattle.text_lines.specs.Searches.{SomeIfAny, SomePairIfAny};
ghost use Rattle.event_lines.specs.Words.{written, words_before, IsReadAs};
ghost use Rattle.event_lines.specs.EventLines.{spot_word, move_words, order_words};
ghost use Rattle.event_lines.specs.FirstWords.{TakesFirst, IsOnly};

use crate::words::{number_first, short_last};
use shop_base::{JobNo, MachineNo, MoveOrder, Spot};
use text_lines::after_prefix;

/// Writes a machine's number, or `out`, before what there is.
#[inline(always)]
pub(crate) fn put_spot<const ROOM: usize>(line: &mut text_lines::LineText<ROOM>, spot: Spot)
    requires { 10 + length line.old ≤ ROOM }
    ensures written { line.new ≡ written (spot_word spot) ++ line.old }
    ensures length { length line.new ≤ 10 + length line.old }
{
    match spot {
        Spot::Out => line.put_text(b"out"),
        Spot::At(machine) => line.put_short_number(machine),
    }
}

/// Writes the words of a move order before what there is.
#[inline(always)]
pub(crate) fn put_order_words<const ROOM: usize>(
    line: &mut text_lines::LineText<ROOM>,
    order: MoveOrder,
)
    requires { 59 + length line.old ≤ ROOM }
    ensures written { line.new ≡ words_before (order_words order) line.old }
    ensures length { length line.new ≤ 59 + length line.old }
{
    put_spot(line, order.target);
    line.put_text(b" ");
    put_spot(line, order.source);
    line.put_text(b" ");
    line.put_short_number(order.job);
    line.put_text(b" ");
    line.put_number(order.at);
    line.put_text(b"order ");
}

/// The spot that the word before the first space is, and the words after it.
#[tactic(auto, using(crate::proofs::WordByWord::text_first, crate::proofs::Ends::no_spot))]
fn spot_first(words: &[u8]) -> Option<(Spot, &[u8])>
    ensures { TakesFirst spot_word words.now result }
{
    if let Some((machine, rest)) = number_first(words, 9) {
        return Some((Spot::At(machine as MachineNo), rest));
    }
    match after_prefix(words, b"out ") {
        Some(rest) => Some((Spot::Out, rest)),
        None => None,
    }
}

/// The spot that is the only word.
fn spot_last(word: &[u8]) -> Option<Spot>
    ensures { SomeIfAny result (IsOnly spot_word word.now) }
{
    if word == b"out".as_slice() {
        return Some(Spot::Out);
    }
    match short_last(word) {
        Some(machine) => Some(Spot::At(machine)),
        None => None,
    }
}

/// The spots that two words are.
#[tactic(auto, using(crate::proofs::WordByWord::word_steps))]
fn spots_of(words: &[u8]) -> Option<(Spot, Spot)>
    ensures { SomePairIfAny result (λ source target. IsReadAs words.now (spot_word source ∷ spot_word target ∷ [])) }
{
    let (source, rest) = spot_first(words)?;
    let target = spot_last(rest)?;
    Some((source, target))
}

/// The order that the words after `order` give.
#[tactic(auto, using(crate::proofs::WordByWord::word_steps))]
pub(crate) fn move_order_of(words: &[u8]) -> Option<MoveOrder>
    ensures { SomeIfAny result (λ order. IsReadAs words.now (move_words order)) }
{
    let (at, rest) = number_first(words, 13)?;
    let (job, spots) = number_first(rest, 9)?;
    let (source, target) = spots_of(spots)?;
    Some(MoveOrder {
        job: job as JobNo,
        source,
        target,
        at,
    })
}
