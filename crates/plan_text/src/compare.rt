//! Whether two plans are the same.

ghost use Rattle.std.specs.Prelude.{◌≡◌, MatchBool};
ghost use Rattle.shop_base.specs.Vectors.{lists_of, list_of};

use shop_base::{JobNo, Moment, Plan};

fn are_same_jobs(a: &[JobNo], b: &[JobNo]) -> bool
    ensures { MatchBool result (a.now ≡ b.now) (a.now ≡ b.now → ⊥) }
{
    a == b
}

fn are_same_rows(a: &[Vec<JobNo>], b: &[Vec<JobNo>]) -> bool
    ensures { let same = lists_of a.now ≡ lists_of b.now in MatchBool result same (same → ⊥) }
{
    if a.len() != b.len() {
        return false;
    }
    for i in 0..a.len() {
        if !are_same_jobs(a[i].as_slice(), b[i].as_slice()) {
            return false;
        }
    }
    true
}

fn are_same_times(a: &Option<Vec<Moment>>, b: &Option<Vec<Moment>>) -> bool
    ensures { let same = list_of a.now ≡ list_of b.now in MatchBool result same (same → ⊥) }
{
    match (a, b) {
        (None, None) => true,
        (Some(a), Some(b)) => a.as_slice() == b.as_slice(),
        _ => false,
    }
}

pub(crate) fn is_same(a: &Plan, b: &Plan) -> bool
    ensures { MatchBool result (a.now ≡ b.now) (a.now ≡ b.now → ⊥) }
{
    a.release.as_slice() == b.release.as_slice()
        && a.budget.as_slice() == b.budget.as_slice()
        && are_same_rows(&a.order, &b.order)
        && are_same_times(&a.clean, &b.clean)
}
