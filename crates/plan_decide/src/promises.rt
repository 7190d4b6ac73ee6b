//! Whether all promises can be kept, and where they can't, which exclude each other.

ghost use Rattle.std.specs.Prelude.{◌≡◌, ◌≤◌, ◌++◌, IfOk, length, [], ◌∷◌};
ghost use Rattle.plan_decide.specs.{Asking.NoPlanKeeps, Settings.case_in, LeftOut.ArePromised};
ghost use Rattle.plan_decide.specs.Cases.{case_jobs};
ghost use Rattle.plan_decide.specs.Listed.{AreAllAlone, ArePairedTo, AreStandings, IsReply};

use crate::alone::all_alone;
use crate::asked::{Asked, limits_for};
use crate::asker::{Asker, Watch};
use crate::decided::Excluded;
use crate::leaving_out::leave_out;
use crate::listing::{Listing, list_one};
use crate::pairs::add_pairs;
use crate::setting::Setting;
use crate::standing::{Standing, standings};
use arc_choice::Choose;
use plan_limits::LimitsAnswer;
use shop_base::{JobNo, Moment, Planned};
use std::alloc::{AllocError, Global};

/// What is found of all promises together.
#[derive(Drop)]
pub(crate) enum Reply {
    /// Orders of a plan that may keep them.
    Orders(Vec<Vec<JobNo>>),
    /// The jobs that exclude each other.
    Never(Listing),
    /// No plan is without a cycle.
    Cyclic,
    /// Not decided.
    Open,
}

/// Asks for all promises, if no job is late alone; else for each pair of the others.
pub(crate) fn ask_all<P: Planned, C: Choose, W: Watch>(
    alloc: Global,
    setting: &Setting<'_, P>,
    asker: &mut Asker<'_, C, W>,
) -> Result<Reply, AllocError>
    ensures { IfOk result (IsReply (case_in setting.now)) }
{
    let standings = standings(alloc, setting, asker)?;
    let listed = all_alone(alloc, setting, &standings)?;
    if listed.is_empty() {
        drop(listed);
        return ask_promises(alloc, setting, asker, &standings);
    }
    Ok(Reply::Never(with_pairs(alloc, setting, asker, &standings, listed)?))
}

/// What is listed of jobs alone, with the pairs of others that exclude each other.
fn with_pairs<P: Planned, C: Choose, W: Watch>(
    alloc: Global,
    setting: &Setting<'_, P>,
    asker: &mut Asker<'_, C, W>,
    standings: &[Standing],
    listed: Vec<Excluded>,
) -> Result<Listing, AllocError>
    requires standings { let t = case_in setting.now in AreStandings t (case_jobs t) standings.now }
    requires alone { let t = case_in setting.now in AreAllAlone t standings.now (case_jobs t) listed.items }
    ensures found { let t = case_in setting.now in IfOk result (ArePairedTo t standings.now (case_jobs t) 0) }
    ensures more { IfOk result (λ found. length listed.items ≤ length found.listed.items) }
{
    let mut found = Listing {
        listed,
        pairs_open: false,
    };
    add_pairs(alloc, setting, asker, standings, &mut found)?;
    Ok(found)
}

/// Asks for all promises, where no job is late alone.
fn ask_promises<P: Planned, C: Choose, W: Watch>(
    alloc: Global,
    setting: &Setting<'_, P>,
    asker: &mut Asker<'_, C, W>,
    standings: &[Standing],
) -> Result<Reply, AllocError>
    requires standings { let t = case_in setting.now in AreStandings t (case_jobs t) standings.now }
    requires none { let t = case_in setting.now in AreAllAlone t standings.now (case_jobs t) [] }
    ensures { IfOk result (IsReply (case_in setting.now)) }
{
    let limits = limits_for(alloc, setting, Asked::All)?;
    match asker.ask_limits(alloc, setting, &limits)? {
        LimitsAnswer::Orders(order) => Ok(Reply::Orders(order)),
        LimitsAnswer::Open => Ok(Reply::Open),
        LimitsAnswer::Never => exclusions(alloc, setting, asker, standings, limits),
    }
}

/// The pairs that exclude each other where all promises do, or if there is none, those that are left of all.
fn exclusions<P: Planned, C: Choose, W: Watch>(
    alloc: Global,
    setting: &Setting<'_, P>,
    asker: &mut Asker<'_, C, W>,
    standings: &[Standing],
    limits: Vec<Option<Moment>>,
) -> Result<Reply, AllocError>
    requires promised { ArePromised (case_in setting.now) limits.items }
    requires none { NoPlanKeeps (case_in setting.now) limits.items }
    requires standings { let t = case_in setting.now in AreStandings t (case_jobs t) standings.now }
    requires none_alone { let t = case_in setting.now in AreAllAlone t standings.now (case_jobs t) [] }
    ensures { IfOk result (IsReply (case_in setting.now)) }
{
    let found = with_pairs(alloc, setting, asker, standings, Vec::new(alloc))?;
    if !found.listed.is_empty() {
        return Ok(Reply::Never(found));
    }
    match leave_out(alloc, setting, asker, limits)? {
        Some(left) => {
            let mut found = found;
            list_one(&mut found, left)?;
            Ok(Reply::Never(found))
        }
        None => Ok(Reply::Cyclic),
    }
}
