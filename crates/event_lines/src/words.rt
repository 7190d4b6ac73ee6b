//! The words of a line, read from the front.

ghost use Rattle.std.specs.Prelude.{◌≡◌, ◌^◌, ◌<◌, ◌==◌, ◌≤◌, [], ◌∷◌, length, position, IfSome, MatchOption};
ghost use Rattle.text_lines.specs.Cuts.{HasNone, IsCutAt};
ghost use Rattle.text_lines.specs.Searches.{SomeIfAny, SomePairIfAny};
ghost use Rattle.event_lines.specs.Words.{Number, JobStep, short, moment, IsJobStep, IsReadAs};
ghost use Rattle.event_lines.specs.FirstWords.{TakesFirst, IsOnly, IsNoStepAndMoment};

use shop_base::{JobNo, Moment};
use text_lines::{cut_word, number_before_space, number_of, short_number_of};

/// The number before the first space, and the words after it.
#[tactic(auto, using(crate::proofs::WordByWord::no_number, crate::proofs::WordByWord::first_number))]
#[inline(always)]
pub(crate) fn number_first(words: &[u8], most: usize) -> Option<(u64, &[u8])>
    requires { most ≤ 18 }
    ensures number { TakesFirst (Number most) words.now result }
    ensures small { IfSome result (λ found. found.0 < 10 ^ most) }
{
    let (number, rest) = number_before_space(words, most)?;
    Some((number, rest))
}

/// The number of a job, a machine or a cell that is the only word.
#[tactic(auto, using(crate::proofs::WordByWord::word_steps))]
#[inline(always)]
pub(crate) fn short_last(word: &[u8]) -> Option<u32>
    ensures { SomeIfAny result (IsOnly short word.now) }
{
    let number = short_number_of(word)?;
    Some(number)
}

/// The number of a job or a machine, and the moment after it.
#[tactic(auto, using(crate::proofs::WordByWord::word_steps))]
#[inline(always)]
pub(crate) fn number_and_moment(words: &[u8]) -> Option<(u32, Moment)>
    ensures { SomePairIfAny result (λ n at. IsReadAs words.now (short n ∷ moment at ∷ [])) }
{
    let (number, rest) = number_first(words, 9)?;
    let at = number_of(rest, 13)?;
    Some((number as u32, at))
}

fn dot_place(word: &[u8]) -> Option<usize>
    ensures first { result ≡ position (λ byte. byte == 46) word.now }
    ensures within { IfSome result (λ place. place < length word.now) }
{
    word.iter().position(|byte| *byte == b'.')
}

/// The bytes before the first dot and the bytes after it; `None` if there is no dot.
fn cut_dot(word: &[u8]) -> Option<(&[u8], &[u8])>
    ensures { MatchOption result (HasNone 46 word.now) (λ found. IsCutAt 46 word.now found.0.now found.1.now) }
{
    match dot_place(word) {
        Some(place) => Some((&word[..place], &word[place + 1..])),
        None => None,
    }
}

/// The numbers of a job and of its step, with a dot between them.
fn job_step_of(word: &[u8]) -> Option<(JobNo, u32)>
    ensures { SomePairIfAny result (IsJobStep word.now) }
{
    let (front, back) = cut_dot(word)?;
    let job = short_number_of(front)?;
    let step = short_number_of(back)?;
    Some((job, step))
}

/// The numbers of a job and of its step, and the moment after them.
pub(crate) fn step_and_moment(words: &[u8]) -> Option<(JobNo, u32, Moment)>
    ensures { MatchOption result (IsNoStepAndMoment words.now)
        (λ found. IsReadAs words.now (JobStep found.0 found.1 ∷ moment found.2 ∷ [])) }
{
    let (word, rest) = cut_word(words)?;
    let (job, step) = job_step_of(word)?;
    let at = number_of(rest, 13)?;
    Some((job, step, at))
}
