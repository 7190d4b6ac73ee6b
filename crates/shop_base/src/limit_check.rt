//! The limits of a plan's times.

ghost use Rattle.std.specs.Prelude.{◌≤◌, length, OnOk, IfErr, IfSome};
ghost use Rattle.shop_base.specs.Vectors.{list_of};
ghost use Rattle.shop_base.specs.declared.limits.TheConstants.{MAX_JOBS, MAX_MACHINES};
ghost use Rattle.shop_base.specs.TimeLimits.{AreTimesWithin, IsFirstTimeFault};
ghost use Rattle.shop_base.specs.Marks.{IsFirstAbove};

use crate::limits::{MAX_CLEAN, MAX_MOMENT, MAX_RELEASE};
use crate::shape_fault::ShapeFault;
use crate::shop::Moment;

/// The first of a plan's times that is over its limit: first the releases, then the budgets, then the cleaning times.
/// It asks neither for orders, nor how many of anything there are. In a plan with as many releases, budgets, orders and
/// cleaning times as its shop asks for, it is the first fault of the shape.
pub fn check_limits(
    release: &[Moment],
    budget: &[Moment],
    clean: &Option<Vec<Moment>>,
) -> Result<(), ShapeFault>
    requires few_releases { length release.now ≤ MAX_JOBS }
    requires few_budgets { length budget.now ≤ MAX_JOBS }
    requires few_cleanings { IfSome (list_of clean.now) (λ times. length times ≤ MAX_MACHINES) }
    ensures sound { OnOk result (AreTimesWithin release.now budget.now (list_of clean.now)) }
    ensures first_fault { IfErr result (IsFirstTimeFault release.now budget.now (list_of clean.now)) }
{
    if let Some(job) = first_above(release, MAX_RELEASE) {
        return Err(ShapeFault::ReleaseTooLarge { job: job as u32 });
    }
    if let Some(job) = first_above(budget, MAX_MOMENT) {
        return Err(ShapeFault::BudgetTooLarge { job: job as u32 });
    }
    if let Some(times) = clean {
        if let Some(machine) = first_above(times, MAX_CLEAN) {
            return Err(ShapeFault::CleanTooLarge {
                machine: machine as u32,
            });
        }
    }
    Ok(())
}

fn first_above(moments: &[Moment], limit: Moment) -> Option<usize>
    ensures { IsFirstAbove moments.now limit result }
{
    for (i, moment) in moments.iter().enumerate() {
        if *moment > limit {
            return Some(i);
        }
    }
    None
}
