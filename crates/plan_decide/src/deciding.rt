//! The decision.

ghost use Rattle.std.specs.Prelude.{◌≡◌, IfOk, IfErr, IfSome, OnOk};
ghost use Rattle.shop_base.specs.Plan.{PlannedShop};
ghost use Rattle.plan_decide.specs.declared.aim.Aim.{Aim};
ghost use Rattle.plan_decide.specs.declared.aim.Aim.TheVariants.{Promises, Least};
ghost use Rattle.plan_decide.specs.Cases.{Case};
ghost use Rattle.plan_decide.specs.Pasts.{whole_case, HoldsFrom};
ghost use Rattle.plan_decide.specs.Promises.{asked_for, IsInRange};
ghost use Rattle.plan_decide.specs.Excluding.{HasCycleIfOpen, NoneIsAlone};
ghost use Rattle.plan_decide.specs.Decisions.{IsDecided, IsDecideFault, OnDecidedNever};
ghost use Rattle.plan_decide.specs.Settings.{case_in};
ghost use Rattle.plan_decide.specs.Found.{IsReady, IsFound, OnFoundNever};
ghost use Rattle.plan_decide.specs.Halves.{IsFree, IsFoundWith};
ghost use Rattle.plan_decide.specs.Listed.{exclusions_of};

use crate::aim::{Aim, Objective, is_in_range};
use crate::asker::{Asker, Watch};
use crate::cycles::{Acyclic, ask_acyclic, is_unfound};
use crate::decide_fault::DecideFault;
use crate::decided::{Decided, Exclusions, Within};
use crate::first_plan::{first_plan, given_plan};
use crate::halving::{Best, halve};
use crate::judging::accepted_by;
use crate::kept::Kept;
use crate::listing::Listing;
use crate::promises::{Reply, ask_all};
use crate::setting::Setting;
use arc_choice::Choose;
use cell_tables::Rest;
use shop_base::{JobNo, Moment, Planned, Shaped};
use std::alloc::{AllocError, Global};

/// What is found, before the plan that was given is handed back.
#[derive(Drop)]
pub(crate) enum Found {
    Kept(Kept),
    Best(Kept, Within),
    Never(Exclusions),
    Cyclic,
    Open,
}

/// Decides whether any plan with the numbers of this one is accepted, whatever its orders; those that it has aren't
/// used. This is the rest of a run that hasn't begun, and is decided as such. The given orders need not be trusted, nor
/// fit the shop. A job whose budget is `MAX_MOMENT` has no
/// promise. Each search makes at most so many choices: a pair of two jobs' visits to a machine that is decided one way
/// and, where that fails, the other, is one. The chooser and the watch need not be trusted.
///
/// Where all promises together can't be kept, they exclude each other: each job that its bound excludes is listed,
/// before anything is searched; then each pair of others, where these are at most `PAIRED_JOBS`; and where nothing is
/// listed then, the jobs that are left where of all promised ones each is left out, from the greatest number down,
/// without which the others still exclude each other.
///
/// The least value of an objective is found by halving what lies between its bound and the value of the plan that was
/// found first. The least makespan is halved from the plan with the given orders, if it is accepted and better than that
/// one, or if the question is too large for any search.
pub fn decide<C: Choose, W: Watch>(
    alloc: Global,
    shaped: &Shaped,
    given: &[Vec<JobNo>],
    aim: Aim,
    choices: u64,
    chooser: &mut C,
    watch: &mut W,
) -> Result<Decided, DecideFault>
    ensures in_range { OnOk result (IsInRange (whole_case shaped.now) aim) }
    ensures decided { IfOk result (IsDecided (whole_case shaped.now) aim) }
    ensures given { IfOk result (OnDecidedNever (HasCycleIfOpen shaped.now)) }
    ensures refused { IfErr result (IsDecideFault (whole_case shaped.now) aim) }
{
    if !is_in_range(shaped, aim) {
        return Err(DecideFault::JobOutOfRange);
    }
    match Rest::start(alloc, shaped) {
        Ok(rest) => {
            let mut asker = Asker::new(chooser, watch, choices);
            let decided = decide_from(alloc, &rest, given, aim, &mut asker);
            drop(rest);
            decided
        }
        Err((error, _)) => Err(DecideFault::from(error)),
    }
}

/// Decides the same of the rest of a run: of all plans with the releases and cleaning times of its plan that what has
/// happened keeps. Entries that were made stay, and jobs that are gone aren't asked for. What goes on ends when it is
/// due, and what is overdue at the present moment. The bound of a job is then the least moment at which it can leave
/// alone, ready for its next move at that moment, or at the one at which what goes on with it is due. It is asked first
/// whether any of these plans is without a cycle: this one, or else one that a search finds; and each promised job is
/// asked for alone, by at most `PAIR_CHOICES` choices, before all of them are. The given orders are those of its plan.
pub fn decide_rest<P: Planned, C: Choose, W: Watch>(
    alloc: Global,
    rest: &Rest<P>,
    aim: Aim,
    choices: u64,
    chooser: &mut C,
    watch: &mut W,
) -> Result<Decided, DecideFault>
    ensures in_range { OnOk result (IsInRange (whole_case rest.now.plan) aim) }
    ensures decided { let r = rest.now in
        IfOk result (λ decided. HoldsFrom r.plan r.cell r.present (λ t. IsDecided t aim decided)) }
    ensures given { IfOk result (OnDecidedNever (HasCycleIfOpen rest.now.plan)) }
    ensures refused { IfErr result (IsDecideFault (whole_case rest.now.plan) aim) }
{
    let given = &rest.shaped().plan().order;
    let mut asker = Asker::new(chooser, watch, choices);
    decide_from(alloc, rest, given, aim, &mut asker)
}

/// Decides the same, with these orders as the given ones.
fn decide_from<P: Planned, C: Choose, W: Watch>(
    alloc: Global,
    rest: &Rest<P>,
    given: &[Vec<JobNo>],
    aim: Aim,
    asker: &mut Asker<'_, C, W>,
) -> Result<Decided, DecideFault>
    ensures in_range { OnOk result (IsInRange (whole_case rest.now.plan) aim) }
    ensures decided { let r = rest.now in
        IfOk result (λ decided. HoldsFrom r.plan r.cell r.present (λ t. IsDecided t aim decided)) }
    ensures given { IfOk result (OnDecidedNever (HasCycleIfOpen rest.now.plan)) }
    ensures refused { IfErr result (IsDecideFault (whole_case rest.now.plan) aim) }
{
    // The plan is well shaped, by a clause of this call.
    if !is_in_range(rest.shaped(), aim) {
        return Err(DecideFault::JobOutOfRange);
    }
    let setting = Setting::of(rest, aim);
    let found = find(alloc, &setting, given, aim, asker);
    drop(setting);
    Ok(decided_by(found?))
}

/// What is decided by what is found.
fn decided_by(found: Found) -> Decided
    ensures decided { (t : Case) (aim : Aim) → IsFound (asked_for t aim) aim found → IsDecided t aim result }
    ensures given { (p : PlannedShop) → OnFoundNever (HasCycleIfOpen p) found → OnDecidedNever (HasCycleIfOpen p) result }
{
    match found {
        Found::Kept(kept) => Decided::Kept(kept.into_shaped()),
        Found::Best(kept, within) => Decided::Best(kept.into_shaped(), within),
        Found::Never(found) => Decided::Never(found),
        Found::Cyclic => Decided::Cyclic,
        Found::Open => Decided::Open,
    }
}

/// What is found of the promises of a setting.
fn find<P: Planned, C: Choose, W: Watch>(
    alloc: Global,
    setting: &Setting<'_, P>,
    given: &[Vec<JobNo>],
    aim: Aim,
    asker: &mut Asker<'_, C, W>,
) -> Result<Found, AllocError>
    requires { IsReady (case_in setting.now) aim }
    ensures found { IfOk result (IsFound (case_in setting.now) aim) }
    ensures given { IfOk result (OnFoundNever (HasCycleIfOpen setting.now.plan)) }
{
    let acyclic = ask_acyclic(alloc, setting, asker)?;
    if let Acyclic::Never = acyclic {
        return Ok(Found::Cyclic);
    }
    match ask_all(alloc, setting, asker)? {
        Reply::Never(found) => Ok(Found::Never(never_of(found, is_unfound(acyclic)))),
        Reply::Cyclic => Ok(Found::Cyclic),
        Reply::Open => undecided(alloc, setting, given, aim, asker),
        Reply::Orders(order) => match aim {
            Aim::Promises => keep(alloc, setting, order),
            Aim::Least(objective) => {
                let first = first_plan(alloc, setting, objective, order, given)?;
                least(alloc, setting, objective, asker, first)
            }
        },
    }
}

/// What is listed, and whether it is open if any plan is without a cycle.
fn never_of(found: Listing, cycles_open: bool) -> Exclusions
    ensures { result ≡ exclusions_of found cycles_open }
{
    let Listing { listed, pairs_open } = found;
    Exclusions {
        listed,
        pairs_open,
        cycles_open,
    }
}

/// The plan with these orders, if it is accepted.
fn keep<P: Planned>(
    alloc: Global,
    setting: &Setting<'_, P>,
    order: Vec<Vec<JobNo>>,
) -> Result<Found, AllocError>
    requires { NoneIsAlone (case_in setting.now) }
    ensures found { IfOk result (IsFound (case_in setting.now) Promises) }
    ensures given { IfOk result (OnFoundNever (HasCycleIfOpen setting.now.plan)) }
{
    match accepted_by(alloc, setting, order)? {
        Some(kept) => Ok(Found::Kept(kept)),
        None => Ok(Found::Open),
    }
}

/// What is found where the search for all promises ended open: by the given plan, if that search made no choice.
fn undecided<P: Planned, C: Choose, W: Watch>(
    alloc: Global,
    setting: &Setting<'_, P>,
    given: &[Vec<JobNo>],
    aim: Aim,
    asker: &mut Asker<'_, C, W>,
) -> Result<Found, AllocError>
    requires ready { IsReady (case_in setting.now) aim }
    requires none_alone { NoneIsAlone (case_in setting.now) }
    ensures found { IfOk result (IsFound (case_in setting.now) aim) }
    ensures given { IfOk result (OnFoundNever (HasCycleIfOpen setting.now.plan)) }
{
    match aim {
        Aim::Least(objective) if asker.last_choices() == 0 => {
            let first = given_plan(alloc, setting, objective, given)?;
            least(alloc, setting, objective, asker, first)
        }
        _ => Ok(Found::Open),
    }
}

/// The best plan for the objective, by halving from the first one, if there is one.
fn least<P: Planned, C: Choose, W: Watch>(
    alloc: Global,
    setting: &Setting<'_, P>,
    objective: Objective,
    asker: &mut Asker<'_, C, W>,
    first: Option<Best>,
) -> Result<Found, AllocError>
    requires free { IsFree (case_in setting.now) objective }
    requires none_alone { NoneIsAlone (case_in setting.now) }
    requires first { IfSome first (IsFoundWith (case_in setting.now) objective) }
    ensures found { IfOk result (IsFound (case_in setting.now) (Least objective)) }
    ensures given { IfOk result (OnFoundNever (HasCycleIfOpen setting.now.plan)) }
{
    match first {
        Some(best) => {
            let (kept, within) = halve(alloc, setting, asker, objective, best)?;
            Ok(Found::Best(kept, within))
        }
        None => Ok(Found::Open),
    }
}
