//! Orders that keep limits.

ghost use Rattle.std.specs.Prelude.{◌≡◌, IfOk, IsTrue, length, map};
ghost use Rattle.shop_base.specs.Plan.{jobs};
ghost use Rattle.plan_decide.specs.Settings.{case_in};
ghost use Rattle.plan_decide.specs.LeftOut.{CanKeep, cap};

use crate::judging::accepted_with;
use crate::setting::Setting;
use shop_base::limits::MAX_MOMENT;
use shop_base::{JobNo, Moment, Planned};
use std::alloc::{AllocError, Global};

/// Whether the plan with these orders keeps the limits, and has all other jobs out.
pub(crate) fn keeps<P: Planned>(
    alloc: Global,
    setting: &Setting<'_, P>,
    limits: &[Option<Moment>],
    order: Vec<Vec<JobNo>>,
) -> Result<bool, AllocError>
    requires { length limits.now ≡ jobs setting.now.plan }
    ensures { IfOk result (λ does. IsTrue does → CanKeep (case_in setting.now) limits.now) }
{
    let budget = caps(alloc, limits)?;
    match accepted_with(alloc, setting, budget, order)? {
        Some(kept) => {
            drop(kept);
            Ok(true)
        }
        None => Ok(false),
    }
}

/// The budgets that these limits make: no promise where there is no limit.
fn caps(alloc: Global, limits: &[Option<Moment>]) -> Result<Vec<Moment>, AllocError>
    ensures { IfOk result (λ budget. budget.items ≡ map cap limits.now) }
{
    let mut budget = Vec::new(alloc);
    for limit in limits {
        budget.push(cap_of(*limit))?;
    }
    Ok(budget)
}

fn cap_of(limit: Option<Moment>) -> Moment
    ensures { result ≡ cap limit }
{
    match limit {
        Some(limit) => limit,
        None => MAX_MOMENT,
    }
}
