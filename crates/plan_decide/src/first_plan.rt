//! The plan with which the halving begins.

ghost use Rattle.std.specs.Prelude.{IfOk, IfSome};
ghost use Rattle.plan_decide.specs.Cases.{Case};
ghost use Rattle.plan_decide.specs.declared.aim.Objective.{Objective};
ghost use Rattle.plan_decide.specs.Settings.{case_in};
ghost use Rattle.plan_decide.specs.Halves.{IsFree, IsFoundWith};

use crate::aim::Objective;
use crate::halving::{Best, plan_by};
use crate::setting::Setting;
use cell_tables::copy_orders;
use shop_base::{JobNo, Planned};
use std::alloc::{AllocError, Global};

/// The better one of the plan with these orders, which a search has found, and of the given one: the accepted one, if one
/// alone is.
pub(crate) fn first_plan<P: Planned>(
    alloc: Global,
    setting: &Setting<'_, P>,
    objective: Objective,
    order: Vec<Vec<JobNo>>,
    given: &[Vec<JobNo>],
) -> Result<Option<Best>, AllocError>
    requires { IsFree (case_in setting.now) objective }
    ensures { IfOk result (λ found. IfSome found (IsFoundWith (case_in setting.now) objective)) }
{
    match plan_by(alloc, setting, objective, order)? {
        Some(found) => match given_plan(alloc, setting, objective, given) {
            Ok(other) => Ok(Some(better_of(found, other))),
            Err(error) => {
                drop(found);
                Err(error)
            }
        },
        None => given_plan(alloc, setting, objective, given),
    }
}

/// The plan with the given orders, if it is accepted and the least makespan is asked for.
pub(crate) fn given_plan<P: Planned>(
    alloc: Global,
    setting: &Setting<'_, P>,
    objective: Objective,
    given: &[Vec<JobNo>],
) -> Result<Option<Best>, AllocError>
    requires { IsFree (case_in setting.now) objective }
    ensures { IfOk result (λ found. IfSome found (IsFoundWith (case_in setting.now) objective)) }
{
    match objective {
        Objective::Makespan => {
            let order = copy_orders(alloc, given)?;
            plan_by(alloc, setting, objective, order)
        }
        Objective::Leaving(_) => Ok(None),
    }
}

/// The plan of lesser value: the first where they are as good.
fn better_of(found: Best, other: Option<Best>) -> Best
    ensures { (t : Case) (objective : Objective) → IsFoundWith t objective found
        → IfSome other (IsFoundWith t objective) → IsFoundWith t objective result }
{
    match other {
        Some(other) => {
            if other.value < found.value {
                drop(found);
                other
            } else {
                drop(other);
                found
            }
        }
        None => found,
    }
}
