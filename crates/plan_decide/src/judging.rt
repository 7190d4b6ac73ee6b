//! Orders that are put to the test.

ghost use Rattle.std.specs.Prelude.{◌≡◌, ◌<◌, IfOk, IfSome};
ghost use Rattle.shop_base.specs.{Plan.jobs, Vectors.lists_of};
ghost use Rattle.plan_verifier.specs.{Rest.AreOrderedAhead, RestVerdicts.IsAcceptableAhead};
ghost use Rattle.plan_bounds.specs.Bounds.{times_of};
ghost use Rattle.plan_decide.specs.{Cases.nothing, Cases.run_to, Cases.with_budgets, Cases.with_budget, Decisions.IsAcceptedWith};
ghost use Rattle.plan_decide.specs.Settings.{case_in, plan_of, FitsPast, IsKeptAs};
ghost use Rattle.plan_decide.specs.Settings.{AreTimesAhead};

use crate::copying::{copy_cleanings, copy_moments, copy_shop};
use crate::kept::Kept;
use crate::setting::{Setting, budgets_of};
use alt_graph::Times;
use cell_tables::{RecastFault, Rest};
use plan_verifier::{Judged, Verdict, judge, verify};
use shop_base::{JobNo, Moment, Plan, Planned, Shaped, Shop, shape};
use std::alloc::{AllocError, Global};

/// The plan with these budgets and orders, if it is accepted.
pub(crate) fn accepted_with<P: Planned>(
    alloc: Global,
    setting: &Setting<'_, P>,
    budget: Vec<Moment>,
    order: Vec<Vec<JobNo>>,
) -> Result<Option<Kept>, AllocError>
    ensures accepted { let t = with_budgets (case_in setting.now) budget.items in
        IfOk result (λ found. IfSome found (λ kept. IsAcceptedWith t (plan_of kept))) }
    ensures fits { IfOk result (λ found. IfSome found (FitsPast (case_in setting.now).past)) }
    ensures order { IfOk result (λ found. IfSome found (λ kept. (plan_of kept).plan.order ≡ lists_of order.items)) }
{
    let shaped = setting.cell().shaped();
    let plan = plan_with(alloc, shaped.plan(), budget, order)?;
    match copy_shop(alloc, shaped) {
        Ok(shop) => accepted_plan(alloc, setting, shop, plan),
        Err(error) => {
            drop(plan);
            Err(error)
        }
    }
}

/// The plan with these budgets and orders.
fn plan_with(
    alloc: Global,
    plan: &Plan,
    budget: Vec<Moment>,
    order: Vec<Vec<JobNo>>,
) -> Result<Plan, AllocError>
    ensures release { IfOk result (λ found. found.release ≡ plan.now.release) }
    ensures budget { IfOk result (λ found. found.budget ≡ budget.items) }
    ensures order { IfOk result (λ found. found.order ≡ lists_of order.items) }
    ensures clean { IfOk result (λ found. found.clean ≡ plan.now.clean) }
{
    Ok(Plan {
        release: copy_moments(alloc, &plan.release)?,
        budget,
        order,
        clean: copy_cleanings(alloc, &plan.clean)?,
    })
}

/// The shop and the plan, if they fit and it is accepted.
fn accepted_plan<P: Planned>(
    alloc: Global,
    setting: &Setting<'_, P>,
    shop: Shop,
    plan: Plan,
) -> Result<Option<Kept>, AllocError>
    requires shop { shop ≡ setting.now.plan.shop }
    requires release { plan.release ≡ setting.now.plan.plan.release }
    requires clean { plan.clean ≡ setting.now.plan.plan.clean }
    ensures { IfOk result (λ found. IfSome found
        (IsKeptAs (case_in setting.now).past (record { shop = shop; plan = plan }))) }
{
    match shape(shop, plan) {
        Ok(shaped) => accepted(alloc, setting, shaped),
        Err(refused) => {
            drop(refused);
            Ok(None)
        }
    }
}

/// The plan, if it is accepted.
fn accepted<P: Planned>(
    alloc: Global,
    setting: &Setting<'_, P>,
    shaped: Shaped,
) -> Result<Option<Kept>, AllocError>
    requires { times_of shaped ≡ times_of setting.now.plan }
    ensures { IfOk result (λ found. IfSome found (IsKeptAs (case_in setting.now).past shaped)) }
{
    // Called for its clause alone: the plan is well shaped.
    let _shop = shaped.shop();
    if setting.is_whole() {
        accepted_whole(alloc, shaped)
    } else {
        accepted_ahead(alloc, setting.rest(), shaped)
    }
}

/// The whole plan, if it is accepted.
fn accepted_whole(alloc: Global, shaped: Shaped) -> Result<Option<Kept>, AllocError>
    ensures { IfOk result (λ found. IfSome found (IsKeptAs nothing shaped)) }
{
    match verify(alloc, shaped) {
        Ok(Verdict::Accepted(verified)) => Ok(Some(Kept::Whole(verified))),
        Ok(Verdict::Refused(shaped, why)) => {
            drop(shaped);
            drop(why);
            Ok(None)
        }
        Err((error, shaped)) => {
            drop(shaped);
            Err(error)
        }
    }
}

/// The plan, if what has happened keeps it too, and what is left is accepted.
fn accepted_ahead<P: Planned>(
    alloc: Global,
    rest: &Rest<P>,
    shaped: Shaped,
) -> Result<Option<Kept>, AllocError>
    requires { times_of shaped ≡ times_of rest.now.plan }
    ensures { let r = rest.now in
        IfOk result (λ found. IfSome found (IsKeptAs (run_to r.plan r.cell r.present) shaped)) }
{
    // Called for its clause alone: the plan is well shaped.
    let _shop = shaped.shop();
    match times_ahead(alloc, rest, &shaped) {
        Ok(Some(times)) => Ok(Some(Kept::Rest(shaped, times))),
        Ok(None) => {
            drop(shaped);
            Ok(None)
        }
        Err(error) => {
            drop(shaped);
            Err(error)
        }
    }
}

/// The moments of what is left by the plan, if what has happened keeps it too, and that is accepted.
fn times_ahead<P: Planned>(
    alloc: Global,
    rest: &Rest<P>,
    shaped: &Shaped,
) -> Result<Option<Times>, AllocError>
    requires { times_of shaped.now ≡ times_of rest.now.plan }
    ensures { let r = rest.now in
        IfOk result (λ found. IfSome found (AreTimesAhead r.plan r.cell r.present shaped.now)) }
{
    // Called for their clauses alone: the plan is well shaped, and a run leads to the cell.
    let _plan = rest.shaped();
    let _cell = rest.cell();
    match rest.recast(alloc, shaped) {
        Ok(other) => {
            let times = accepted_times(alloc, &other);
            drop(other);
            times
        }
        Err((RecastFault::IncompatiblePlan, _)) => Ok(None),
        Err((RecastFault::Memory, _)) => Err(AllocError),
    }
}

/// The moments of what is left, if that is accepted.
fn accepted_times<P: Planned>(alloc: Global, rest: &Rest<P>) -> Result<Option<Times>, AllocError>
    ensures { let r = rest.now in
        IfOk result (λ found. IfSome found (λ times.
        IsAcceptableAhead r.plan r.cell r.present × AreOrderedAhead r.plan r.cell r.present times)) }
{
    match judge(alloc, rest)? {
        Judged::Accepted(times) => Ok(Some(times)),
        Judged::Refused(why) => {
            drop(why);
            Ok(None)
        }
    }
}

/// The plan with these orders, if it is accepted.
pub(crate) fn accepted_by<P: Planned>(
    alloc: Global,
    setting: &Setting<'_, P>,
    order: Vec<Vec<JobNo>>,
) -> Result<Option<Kept>, AllocError>
    ensures accepted { IfOk result
        (λ found. IfSome found (λ kept. IsAcceptedWith (case_in setting.now) (plan_of kept))) }
    ensures fits { IfOk result (λ found. IfSome found (FitsPast (case_in setting.now).past)) }
{
    let budget = budgets_of(alloc, setting)?;
    accepted_with(alloc, setting, budget, order)
}

/// The plan with these orders and this budget of a job, if it is accepted.
pub(crate) fn accepted_at<P: Planned>(
    alloc: Global,
    setting: &Setting<'_, P>,
    job: JobNo,
    budget: Moment,
    order: Vec<Vec<JobNo>>,
) -> Result<Option<Kept>, AllocError>
    requires { job < jobs setting.now.plan }
    ensures accepted { let t = with_budget (case_in setting.now) job budget in
        IfOk result (λ found. IfSome found (λ kept. IsAcceptedWith t (plan_of kept))) }
    ensures fits { IfOk result (λ found. IfSome found (FitsPast (case_in setting.now).past)) }
    ensures order { IfOk result (λ found. IfSome found (λ kept. (plan_of kept).plan.order ≡ lists_of order.items)) }
{
    // Called for its clause alone: there is a budget for each job.
    let _cell = setting.cell();
    let mut budgets = budgets_of(alloc, setting)?;
    budgets[job as usize] = budget;
    accepted_with(alloc, setting, budgets, order)
}
