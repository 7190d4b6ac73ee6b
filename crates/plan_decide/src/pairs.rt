//! Pairs of jobs whose promises exclude each other.

ghost use Rattle.std.specs.Prelude.{◌≡◌, ◌+◌, ◌<◌, ◌≤◌, IfOk, OnOk, length, [], ◌∷◌};
ghost use Rattle.shop_base.specs.Plan.{jobs};
ghost use Rattle.plan_decide.specs.declared.standing.Standing.TheVariants.{Doubt};
ghost use Rattle.plan_decide.specs.{Cases.case_jobs, Promises.IsPromised, Excluding.AreNeededUnless};
ghost use Rattle.plan_decide.specs.Settings.{case_in};
ghost use Rattle.plan_decide.specs.Listed.{AreCounted, ArePairedTo, AreStandings, IsBoth, standing_of};

use crate::asked::{Asked, limits_for};
use crate::asker::{Asker, Watch};
use crate::decided::Excluded;
use crate::keeping::keeps;
use crate::listing::{Listing, list_one};
use crate::setting::Setting;
use crate::standing::{Standing, standing_of};
use arc_choice::Choose;
use plan_limits::LimitsAnswer;
use shop_base::{JobNo, Planned};
use std::alloc::{AllocError, Global};

/// The most promised jobs of which each two are asked for together.
pub const PAIRED_JOBS: u32 = 64;

/// What is found of the promises to two jobs.
#[derive(Clone, Copy)]
pub(crate) enum Both {
    /// No plan keeps both.
    Never,
    /// Some plan does.
    Kept,
    /// That isn't decided.
    Open,
}

/// Adds each pair of jobs in doubt that exclude each other.
pub(crate) fn add_pairs<P: Planned, C: Choose, W: Watch>(
    alloc: Global,
    setting: &Setting<'_, P>,
    asker: &mut Asker<'_, C, W>,
    standings: &[Standing],
    found: &mut Listing,
) -> Result<(), AllocError>
    requires standings { let t = case_in setting.now in AreStandings t (case_jobs t) standings.now }
    requires found { ArePairedTo (case_in setting.now) standings.now 0 0 found.old }
    ensures found { let t = case_in setting.now in OnOk result (ArePairedTo t standings.now (case_jobs t) 0 found.new) }
    ensures more { OnOk result (length found.old.listed.items ≤ length found.new.listed.items) }
{
    if doubtful_jobs(setting.cell().job_count(), standings) > PAIRED_JOBS {
        found.pairs_open = true;
        return Ok(());
    }
    for one in 0..setting.cell().job_count() {
        add_pairs_of(alloc, setting, asker, standings, one, found)?;
    }
    Ok(())
}

/// How many of so many jobs are in doubt.
fn doubtful_jobs(jobs: u32, standings: &[Standing]) -> u32
    ensures { AreCounted standings.now jobs result }
{
    let mut count = 0u32;
    for job in 0..jobs {
        count = counted_to(standings, job, count);
    }
    count
}

/// How many jobs are in doubt up to this one, where so many before it are.
fn counted_to(standings: &[Standing], job: JobNo, count: u32) -> u32
    requires { AreCounted standings.now job count }
    ensures { AreCounted standings.now (job + 1) result }
{
    match standing_of(standings, job) {
        Standing::Doubt => count.saturating_add(1),
        _ => count,
    }
}

/// Adds each pair of the job with one of a greater number.
fn add_pairs_of<P: Planned, C: Choose, W: Watch>(
    alloc: Global,
    setting: &Setting<'_, P>,
    asker: &mut Asker<'_, C, W>,
    standings: &[Standing],
    one: JobNo,
    found: &mut Listing,
) -> Result<(), AllocError>
    requires one { one < jobs setting.now.plan }
    requires standings { let t = case_in setting.now in AreStandings t (case_jobs t) standings.now }
    requires found { ArePairedTo (case_in setting.now) standings.now one 0 found.old }
    ensures found { OnOk result (ArePairedTo (case_in setting.now) standings.now (one + 1) 0 found.new) }
    ensures more { OnOk result (length found.old.listed.items ≤ length found.new.listed.items) }
{
    let Standing::Doubt = standing_of(standings, one) else {
        return Ok(());
    };
    let jobs = setting.cell().job_count();
    for other in one + 1..jobs {
        add_pair(alloc, setting, asker, standings, one, other, found)?;
    }
    Ok(())
}

/// Adds the pair, if the other is in doubt too and the two exclude each other.
fn add_pair<P: Planned, C: Choose, W: Watch>(
    alloc: Global,
    setting: &Setting<'_, P>,
    asker: &mut Asker<'_, C, W>,
    standings: &[Standing],
    one: JobNo,
    other: JobNo,
    found: &mut Listing,
) -> Result<(), AllocError>
    requires other { other < jobs setting.now.plan }
    requires standings { let t = case_in setting.now in AreStandings t (case_jobs t) standings.now }
    requires ascending { one < other }
    requires doubt { standing_of standings.now one ≡ Doubt }
    requires found { ArePairedTo (case_in setting.now) standings.now one other found.old }
    ensures found { OnOk result (ArePairedTo (case_in setting.now) standings.now one (other + 1) found.new) }
    ensures more { OnOk result (length found.old.listed.items ≤ length found.new.listed.items) }
{
    let Standing::Doubt = standing_of(standings, other) else {
        return Ok(());
    };
    match ask_both(alloc, setting, asker, one, other)? {
        Both::Never => {
            let or_fewer = may_fewer_do(alloc, setting, asker, one, other)?;
            let pair = Excluded::Pair {
                lesser: one,
                greater: other,
                or_fewer,
            };
            list_one(found, pair)
        }
        Both::Kept => Ok(()),
        Both::Open => {
            found.pairs_open = true;
            Ok(())
        }
    }
}

/// Whether one of the two may do: no search has found that the promise to each can be kept without the other.
fn may_fewer_do<P: Planned, C: Choose, W: Watch>(
    alloc: Global,
    setting: &Setting<'_, P>,
    asker: &mut Asker<'_, C, W>,
    one: JobNo,
    other: JobNo,
) -> Result<bool, AllocError>
    requires ascending { one < other }
    requires other { other < jobs setting.now.plan }
    requires promised { IsPromised (case_in setting.now) one × IsPromised (case_in setting.now) other }
    ensures { IfOk result (λ or_fewer. AreNeededUnless or_fewer (case_in setting.now) (one ∷ other ∷ [])) }
{
    let Both::Kept = ask_both(alloc, setting, asker, one, one)? else {
        return Ok(true);
    };
    let Both::Kept = ask_both(alloc, setting, asker, other, other)? else {
        return Ok(true);
    };
    Ok(false)
}

/// Asks for the promises to two jobs, or to one that is given twice.
fn ask_both<P: Planned, C: Choose, W: Watch>(
    alloc: Global,
    setting: &Setting<'_, P>,
    asker: &mut Asker<'_, C, W>,
    one: JobNo,
    other: JobNo,
) -> Result<Both, AllocError>
    requires one { one < jobs setting.now.plan }
    requires other { other < jobs setting.now.plan }
    requires promised { IsPromised (case_in setting.now) one × IsPromised (case_in setting.now) other }
    ensures { IfOk result (IsBoth (case_in setting.now) one other) }
{
    let limits = limits_for(alloc, setting, Asked::Both(one, other))?;
    match asker.ask_few(alloc, setting, &limits)? {
        LimitsAnswer::Never => Ok(Both::Never),
        LimitsAnswer::Open => Ok(Both::Open),
        LimitsAnswer::Orders(order) => {
            let is_kept = keeps(alloc, setting, &limits, order)?;
            if is_kept {
                Ok(Both::Kept)
            } else {
                Ok(Both::Open)
            }
        }
    }
}
