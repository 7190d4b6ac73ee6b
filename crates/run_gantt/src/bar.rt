//! The bar of a machine: which job is on it, in columns of equal length.

ghost use Rattle.std.specs.Prelude.{◌≡◌, ◌≢◌, ℕ, ◌<◌, ◌≤◌, if◌then◌else◌, slice_index_or, None, Some};
ghost use Rattle.run_gantt.specs.declared.bar.TheConstants.{MAX_COLUMNS, MAX_SCALE};
ghost use Rattle.std.specs.Option.{option_or};
ghost use Rattle.run_gantt.specs.{GanttText.is_before, GanttText.digit_of, GanttText.sign_of, Pushing.SignsToo};

use crate::visits::LoggedVisit;
use shop_base::Moment;

/// The greatest number of columns.
pub(crate) const MAX_COLUMNS: usize = 60;

/// The greatest length of a column.
pub(crate) const MAX_SCALE: Moment = u64::MAX / MAX_COLUMNS as u64 + 1;

/// A bar's columns, each with what it shows so far.
pub(crate) type Bar = [Option<char>; MAX_COLUMNS];

/// Shows a visit in each column in which its job is there and none is shown yet.
pub(crate) fn sign_visit(bar: &mut Bar, scale: Moment, visit: LoggedVisit)
    requires above { 0 < scale }
    requires below { scale ≤ MAX_SCALE }
    ensures { SignsToo scale (λ t. sign_of t visit) bar.old bar.new }
{
    let mut column = visit.enter.div_ceil(scale);
    while column < MAX_COLUMNS as u64 {
        let moment = column * scale;
        if !is_before(moment, visit.leave) {
            return;
        }
        put_sign(bar, column as usize, sign_at(moment, visit));
        column += 1;
    }
}

/// Shows a sign in a column in which none is shown yet.
fn put_sign(bar: &mut Bar, column: usize, sign: char)
    requires { column < MAX_COLUMNS }
    ensures here { slice_index_or bar.new column None ≡ option_or (slice_index_or bar.old column None) (Some sign) }
    ensures others { (c : ℕ) → c ≢ column → slice_index_or bar.new c None ≡ slice_index_or bar.old c None }
{
    if bar[column].is_none() {
        bar[column] = Some(sign);
    }
}

/// What a visit shows at a moment at which its job is there.
fn sign_at(moment: Moment, visit: LoggedVisit) -> char
    ensures { result ≡ if is_before moment visit.finish then digit_of visit.job else 61 }
{
    if is_before(moment, visit.finish) {
        char::from(b'0' + (visit.job % 10) as u8)
    } else {
        '='
    }
}

fn is_before(moment: Moment, end: Option<Moment>) -> bool
    ensures { result ≡ is_before moment end }
{
    match end {
        Some(end) => moment < end,
        None => true,
    }
}
