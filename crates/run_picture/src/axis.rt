//! The axis of time.

ghost use Rattle.std.specs.Prelude.{◌≡◌, ℕ, ◌+◌, ◌*◌, ◌<◌, ◌≤◌, nat_lt, length, slice_index, MatchOption, true, false};
ghost use Rattle.std.specs.List.{list_all};
ghost use Rattle.run_picture.specs.Axis.{x_at, short_steps, long_unit, begin_of, ticks_by, AreTicks};
ghost use Rattle.run_picture.specs.Steps.{moments_by, AreMany, AreAllMany, IsFirstTick};
ghost use Rattle.run_picture.specs.Steps.{IsFirstShort, IsFirstLong, IsStep};

use crate::frame::{LEFT, WIDTH};
use people_names::Clock;
use shop_base::Moment;
use std::marker::Model;

/// The steps below a day, in minutes.
const MINUTE_STEPS: [Moment; 13] = [1, 2, 5, 10, 15, 20, 30, 60, 120, 180, 240, 360, 720];

/// The steps below a day, in seconds.
const SECOND_STEPS: [Moment; 20] = [
    1, 2, 5, 10, 15, 20, 30, 60, 120, 300, 600, 900, 1200, 1800, 3600, 7200, 10800, 14400, 21600,
    43200,
];

/// Where a moment lies on the axis, which ends at the last moment.
pub(crate) fn x_at(last: Moment, moment: Moment) -> u64
    ensures place { result ≡ x_at last moment }
    ensures within { result ≤ 11_500 }
{
    let moment = u128::from(moment.min(last));
    let whole = u128::from(last.max(1));
    LEFT + (moment * u128::from(WIDTH) / whole) as u64
}

/// The moments that the axis names, ascending: a first one, and others at equal steps from it.
#[derive(Drop)]
pub(crate) struct Ticks {
    first: Moment,
    step: Moment,
    count: u64,
}

impl Model for Ticks {
    ghost use Rattle.std.specs.Prelude.{ℕ, ◌+◌, ◌*◌, ◌^◌, ◌<◌, List};
    ghost use Rattle.run_picture.specs.Steps.{moments_by};

    ghost Value = { List ℕ };

    ghost view = { λ t. moments_by t.first t.step t.count };

    ghost invariant = { λ t. (i : ℕ) → i < t.count → t.first + i * t.step < 2 ^ 64 };
}

impl Ticks {
    /// The multiples, from midnight on, of the least step of which at most ten are named up to the last moment. Without
    /// a clock the steps are 1, 2, 5, 10, 20, 50, .. moments, counted from moment 0. By a clock they divide minutes and
    /// hours by 60 and days by 24, and then are 1, 2, 5, 10, .. days.
    pub(crate) fn new(clock: Option<Clock>, last: Moment) -> Ticks
        ensures { AreTicks clock last result }
    {
        let begin = begin_of(clock);
        let step = step_for(clock, begin, last);
        Ticks::by(begin, last, step)
    }

    /// The multiples of a step.
    fn by(begin: u64, last: Moment, step: Moment) -> Ticks
        requires above { 0 < step }
        requires few { length (ticks_by begin last step) ≤ 10 }
        ensures { result ≡ ticks_by begin last step }
    {
        let first = first_tick(begin, step);
        let count = tick_count(first, last, step) as u64;
        Ticks { first, step, count }
    }

    /// How many there are.
    pub(crate) fn count(&self) -> u64
        ensures { result ≡ length self.now }
    {
        self.count
    }

    /// The moment of this number, from 0 on.
    pub(crate) fn at(&self, number: u64) -> Moment
        requires { number < length self.now }
        ensures { result ≡ slice_index self.now number }
    {
        self.first + number * self.step
    }
}

/// How many moments after midnight moment 0 is.
fn begin_of(clock: Option<Clock>) -> u64
    ensures { result ≡ begin_of clock }
{
    match clock {
        None => 0,
        Some(Clock::Minutes(begin)) => u64::from(begin),
        Some(Clock::Seconds(begin)) => u64::from(begin),
    }
}

/// The steps below a day, in moments.
fn short_steps(clock: Option<Clock>) -> &'static [Moment]
    ensures are { result.now ≡ short_steps clock }
    ensures above { list_all (nat_lt 0) result.now ≡ true }
{
    match clock {
        None => &[],
        Some(Clock::Minutes(_)) => &MINUTE_STEPS,
        Some(Clock::Seconds(_)) => &SECOND_STEPS,
    }
}

/// How many moments the unit of the other steps has.
fn long_unit(clock: Option<Clock>) -> Moment
    ensures is { result ≡ long_unit clock }
    ensures above { 0 < result }
    ensures short { result ≤ 86_400 }
{
    match clock {
        None => 1,
        Some(Clock::Minutes(_)) => 1_440,
        Some(Clock::Seconds(_)) => 86_400,
    }
}

/// The least step of which there are few multiples up to the last moment.
fn step_for(clock: Option<Clock>, begin: u64, last: Moment) -> Moment
    ensures { IsStep clock begin last result }
{
    match short_step(short_steps(clock), begin, last) {
        Some(step) => step,
        None => long_step(long_unit(clock), begin, last),
    }
}

/// The first of these steps, if that is one of them.
fn short_step(steps: &[Moment], begin: u64, last: Moment) -> Option<Moment>
    requires { list_all (nat_lt 0) steps.now ≡ true }
    ensures { MatchOption result (AreAllMany begin last steps.now) (IsFirstShort begin last steps.now) }
{
    for step in steps {
        if has_few(begin, last, *step) {
            return Some(*step);
        }
    }
    None
}

/// The first of 1, 2, 5, 10, 20, 50, .. units.
fn long_step(unit: Moment, begin: u64, last: Moment) -> Moment
    requires above { 0 < unit }
    requires short { unit ≤ 86_400 }
    ensures { IsFirstLong begin last unit result }
{
    let mut step = unit;
    let mut next = 2 * unit;
    let mut after = 5 * unit;
    while !has_few(begin, last, step) {
        (step, next, after) = (next, after, step * 10);
    }
    step
}

/// Whether at most ten multiples of the step are named up to the last moment.
fn has_few(begin: u64, last: Moment, step: Moment) -> bool
    requires { 0 < step }
    ensures few { result ≡ true → length (ticks_by begin last step) ≤ 10 }
    ensures many { result ≡ false → AreMany begin last step }
    ensures far { result ≡ false → step * 10 ≤ last }
{
    tick_count(first_tick(begin, step), last, step) <= 10
}

/// How many multiples of the step there are up to the last moment, of which this is the first one.
fn tick_count(first: Moment, last: Moment, step: Moment) -> u128
    requires { 0 < step }
    ensures count { (begin : ℕ) → IsFirstTick begin step first
        → ticks_by begin last step ≡ moments_by first step result }
    ensures within { (i : ℕ) → i < result → first + i * step ≤ last }
    ensures far { 10 < result → step * 10 ≤ last }
{
    if last < first {
        return 0;
    }
    u128::from((last - first) / step) + 1
}

/// The first moment that is a multiple of the step, counted from midnight.
fn first_tick(begin: u64, step: Moment) -> Moment
    requires { 0 < step }
    ensures { IsFirstTick begin step result }
{
    let past = begin % step;
    if past == 0 { 0 } else { step - past }
}
