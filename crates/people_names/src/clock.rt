//! What the clock says at moment 0.

ghost use Rattle.std.specs.Prelude.{◌≡◌, ◌+◌, ◌<◌, ◌≤◌, length, decimal, IfSome, None, Some};
ghost use Rattle.people_names.specs.Clocks.{is_digit_pair, clock_number_at, is_pair_below, is_hour_and_minute};
ghost use Rattle.people_names.specs.Clocks.{is_minute_text, is_second_text, minutes_at, clock_of};

/// What the clock says at moment 0, and how long a moment is.
#[derive(Clone, Copy, Debug)]
pub enum Clock {
    /// A moment is a minute: so many minutes past midnight.
    Minutes(u32),
    /// A moment is a second: so many seconds past midnight.
    Seconds(u32),
}

/// The clock that a text states: `HH:MM`, or `HH:MM:SS`, from 00:00:00 to 23:59:59, with two digits each.
pub fn clock_of(text: &[u8]) -> Option<Clock>
    ensures { result ≡ clock_of text.now }
{
    if is_minute_text(text) {
        return Some(Clock::Minutes(minutes_at(text)));
    }
    if is_second_text(text) {
        return Some(Clock::Seconds(60 * minutes_at(text) + pair_at(text, 6)));
    }
    None
}

fn is_minute_text(text: &[u8]) -> bool
    ensures { result ≡ is_minute_text text.now }
{
    text.len() == 5 && is_hour_and_minute(text)
}

fn is_second_text(text: &[u8]) -> bool
    ensures { result ≡ is_second_text text.now }
{
    text.len() == 8 && is_hour_and_minute(text) && text[5] == b':' && is_pair_below(text, 6, 60)
}

/// Whether the text begins with an hour, a colon and a minute.
fn is_hour_and_minute(text: &[u8]) -> bool
    requires { 5 ≤ length text.now }
    ensures { result ≡ is_hour_and_minute text.now }
{
    is_pair_below(text, 0, 24) && text[2] == b':' && is_pair_below(text, 3, 60)
}

/// Whether there are two digits at this place, of a number below the limit.
fn is_pair_below(text: &[u8], place: usize, limit: u32) -> bool
    requires { place + 1 < length text.now }
    ensures { result ≡ is_pair_below text.now place limit }
{
    is_digit_pair(text, place) && pair_at(text, place) < limit
}

fn is_digit_pair(text: &[u8], place: usize) -> bool
    requires { place + 1 < length text.now }
    ensures { result ≡ is_digit_pair text.now place }
{
    text[place].is_ascii_digit() && text[place + 1].is_ascii_digit()
}

/// The number of the two digits at this place.
fn pair_at(text: &[u8], place: usize) -> u32
    requires { place + 1 < length text.now }
    ensures value { result ≡ clock_number_at text.now place }
    ensures small { result < 2400 }
{
    let tens = u32::from(text[place].saturating_sub(b'0'));
    let ones = u32::from(text[place + 1].saturating_sub(b'0'));
    10 * tens + ones
}

/// The minutes from midnight to the hour and minute with which the text begins.
fn minutes_at(text: &[u8]) -> u32
    requires { 5 ≤ length text.now }
    ensures value { result ≡ minutes_at text.now }
    ensures small { result < 150000 }
{
    60 * pair_at(text, 0) + pair_at(text, 3)
}
