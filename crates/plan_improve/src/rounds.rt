//! The improvers asked in turn, round by round.

ghost use Rattle.std.specs.Prelude.{◌≡◌, Option, IfOk, IfErr, option_copied};
ghost use Rattle.plan_seek.specs.Orders.{proposal_of};
ghost use Rattle.cell_tables.specs.Reordered.{IsReordered};
ghost use Rattle.plan_improve.specs.Watching.{reported_bound};
ghost use Rattle.plan_improve.specs.Runs.{AfterRound, ReportedRounds, Watched};
ghost use Rattle.plan_improve.specs.Keeping.{setting_of, rest_in, IsFixed, IsNextOf, IsLast, IsRestOfDone};

use crate::best::Best;
use crate::fixed::Fixed;
use crate::improver::Improver;
use crate::judging::judge_orders;
use crate::plan_out::plan_of;
use crate::watch::Watch;
use plan_net::PartAhead;
use plan_seek::Proposed;
use shop_base::{Moment, Shaped};
use std::alloc::{AllocError, Global};

/// Asks in each round from 0 on, until the best plan meets its bound, and calls the watch before each.
pub(crate) fn ask_in_rounds<W: Watch>(
    alloc: Global,
    mut best: Best,
    fixed: &Fixed<'_>,
    improvers: &[Box<dyn Improver>],
    rounds: u32,
    watch: &mut W,
) -> Result<Best, (AllocError, Shaped)>
    requires stands { IsRestOfDone (setting_of fixed.now best.rest) best.rest }
    requires cost { (setting_of fixed.now best.rest).costs best.rest.plan best.cost }
    requires fixed { IsFixed fixed.now best.rest }
    ensures last { IfOk result (IsLast (setting_of fixed.now best.rest) (Watched (W.reported watch.old) (W.reported watch.new)
        (ReportedRounds (setting_of fixed.now best.rest) (λ b. may b) improvers.now rounds)) best.rest.plan best.cost) }
    ensures handed_back { IfErr result (λ refused. IsReordered best.rest.plan refused.1) }
{
    let at_least = fixed.at_least();
    for round in 0..rounds {
        if best.cost.meets(at_least) {
            return Ok(best);
        }
        watch.round(
            round,
            best.cost.late,
            best.cost.makespan,
            bound_or_zero(at_least),
        );
        best = ask_each(alloc, best, fixed, improvers, round)?;
    }
    Ok(best)
}

/// The bound that is reported: 0 where none is known.
fn bound_or_zero(at_least: Option<Moment>) -> Moment
    ensures { result ≡ reported_bound at_least }
{
    match at_least {
        Some(at_least) => at_least,
        None => 0,
    }
}

/// Asks each improver in order, until the best plan meets its bound.
fn ask_each(
    alloc: Global,
    mut best: Best,
    fixed: &Fixed<'_>,
    improvers: &[Box<dyn Improver>],
    round: u32,
) -> Result<Best, (AllocError, Shaped)>
    requires stands { IsRestOfDone (setting_of fixed.now best.rest) best.rest }
    requires cost { (setting_of fixed.now best.rest).costs best.rest.plan best.cost }
    requires fixed { IsFixed fixed.now best.rest }
    ensures last { let s = setting_of fixed.now best.rest in
        IfOk result (IsLast s (AfterRound s (λ b. may b) improvers.now round) best.rest.plan best.cost) }
    ensures handed_back { IfErr result (λ refused. IsReordered best.rest.plan refused.1) }
{
    let bound = fixed.at_least();
    for improver in improvers {
        if best.cost.meets(bound) {
            return Ok(best);
        }
        best = ask_one(alloc, best, fixed, improver, round)?;
    }
    Ok(best)
}

/// Asks one improver, and puts its answer to the test.
fn ask_one(
    alloc: Global,
    best: Best,
    fixed: &Fixed<'_>,
    improver: &Box<dyn Improver>,
    round: u32,
) -> Result<Best, (AllocError, Shaped)>
    requires stands { IsRestOfDone (setting_of fixed.now best.rest) best.rest }
    requires cost { (setting_of fixed.now best.rest).costs best.rest.plan best.cost }
    requires fixed { IsFixed fixed.now best.rest }
    ensures asked { IfOk result (IsNextOf (setting_of fixed.now best.rest)
        (may improver.now best.rest.plan (rest_in fixed.now) round) best) }
    ensures handed_back { IfErr result (λ refused. IsReordered best.rest.plan refused.1) }
{
    match ask(alloc, improver, best.rest.shaped(), fixed.left(), round) {
        Ok(Some(order)) => judge_orders(alloc, best, order, fixed),
        Ok(None) => Ok(best),
        Err(error) => {
            let Best { rest, cost: _ } = best;
            Err((error, plan_of(rest)))
        }
    }
}

/// Asks one improver.
fn ask(
    alloc: Global,
    improver: &Box<dyn Improver>,
    shaped: &Shaped,
    left: Option<&PartAhead>,
    round: u32,
) -> Proposed
    ensures { IfOk result (λ answer.
        may improver.now shaped.now (option_copied left.entry) round (proposal_of answer)) }
{
    improver.improve(alloc, shaped, left, round)
}
