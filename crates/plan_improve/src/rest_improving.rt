//! A plan that is improved for the rest of a run, and judged at the end.

ghost use Rattle.std.specs.Prelude.{◌≡◌, ◌≤◌, ◌⊎◌, OnOk, IfOk, IfErr};
ghost use Rattle.alt_graph.specs.Solved.{HasCycle};
ghost use Rattle.cell_tables.specs.{Kept.KeepsSoFar, Reordered.IsReordered, Reordered.BeginsWithEntries};
ghost use Rattle.plan_verifier.specs.RestVerdicts.{IsAcceptableAhead, IsRestAccepted};
ghost use Rattle.plan_improve.specs.{Settings.rest_from, Faults.IsImproveFault, RestKeeping.IsImproved};
ghost use Rattle.plan_improve.specs.Runs.{ReportedRounds, Rounds, Watched};
ghost use Rattle.plan_improve.specs.Improved.{HasNoBegin, IsNeverWorse, IsFound, IsVerdictOn};

use crate::fixed::Fixed;
use crate::improve_fault::ImproveFault;
use crate::improved::Improved;
use crate::improver::Improver;
use crate::left::{has_begun, left_of};
use crate::not_improved::NotImproved;
use crate::plan_out::plan_of;
use crate::searching::search;
use crate::watch::Watch;
use cell_tables::{Rest, copy_orders, put_back};
use plan_seek::MAX_ROUNDS;
use plan_verifier::judge;
use shop_base::Shaped;
use std::alloc::{AllocError, Global};

/// Improves the plan of the rest of a run. The search begins at the plan itself or, if that has a cycle and no job has
/// arrived yet, at the serial plan. If one has arrived, no other plan is known, so the plan with the cycle is judged
/// alone. In each round from 0 on each improver is asked in order with the best plan so far, and its answer is kept
/// exactly if the plan with these orders fits the shop, all that was done keeps it, it has no cycle, and its rest is
/// less late, or as late with a shorter makespan: jobs that are gone are never late. The best plan is judged at the
/// end. The watch gets 0 as the bound of each round. Too many rounds are answered first, and no improver is asked then,
/// which no clause says. On a fault the plan comes back as it was. The best plan is exactly the best of the beginning
/// and of answers that the improvers may give, the first among equals, each allowed for the best plan up to there.
pub fn better_rest<W: Watch>(
    alloc: Global,
    rest: Rest<Shaped>,
    improvers: &[Box<dyn Improver>],
    rounds: u32,
    watch: &mut W,
) -> Result<Improved, NotImproved>
    ensures same { IfOk result (λ found. IsReordered rest.plan found.shaped) }
    ensures kept { IfOk result (λ found. KeepsSoFar rest.plan rest.cell found.shaped) }
    ensures stays { IfOk result (λ found. HasNoBegin (rest_from rest.cell rest.present) rest.plan
        → found.shaped ≡ rest.plan) }
    ensures acyclic { IfOk result (λ found.
        (HasCycle found.shaped → ⊥) ⊎ HasNoBegin (rest_from rest.cell rest.present) rest.plan) }
    ensures never_worse { IfOk result (λ found.
        IsNeverWorse (rest_from rest.cell rest.present) rest.plan found.shaped) }
    ensures found { let s = rest_from rest.cell rest.present in
        IfOk result (λ found. HasNoBegin s rest.plan
        ⊎ IsFound s (Rounds s (λ b. may b) improvers.now rounds) rest.plan found.shaped) }
    ensures reported { let s = rest_from rest.cell rest.present in
        IfOk result (λ found. HasNoBegin s rest.plan
        ⊎ IsFound s (Watched (W.reported watch.old) (W.reported watch.new)
        (ReportedRounds s (λ b. may b) improvers.now rounds)) rest.plan found.shaped) }
    ensures verdict { IfOk result (λ found. IsVerdictOn found.shaped rest.cell rest.present found.verdict) }
    ensures stays_accepted { IfOk result (λ found. IsAcceptableAhead rest.plan rest.cell rest.present
        → IsRestAccepted found.verdict) }
    ensures few_rounds { OnOk result (rounds ≤ MAX_ROUNDS) }
    ensures refused { IfErr result (λ refused. IsImproveFault rounds refused.fault) }
    ensures handed_back { IfErr result (λ refused. refused.start ≡ rest.plan) }
{
    // Called for its clauses alone: the plan is well shaped, and the cell sound.
    let _plan = rest.shaped();
    if rounds > MAX_ROUNDS {
        return Err(NotImproved {
            fault: ImproveFault::TooManyRounds,
            start: plan_of(rest),
        });
    }
    match copy_orders(alloc, &rest.shaped().plan().order) {
        Ok(order) => match better_on(alloc, rest, improvers, rounds, watch) {
            Ok(found) => Ok(found),
            Err((error, back)) => Err(NotImproved::out_of_memory(error, put_back(back, order))),
        },
        Err(error) => Err(NotImproved::out_of_memory(error, plan_of(rest))),
    }
}

/// Improves the plan of a rest; on a fault some plan that differs in its orders alone comes back.
fn better_on<W: Watch>(
    alloc: Global,
    rest: Rest<Shaped>,
    improvers: &[Box<dyn Improver>],
    rounds: u32,
    watch: &mut W,
) -> Result<Improved, (AllocError, Shaped)>
    ensures improved { IfOk result (IsImproved rest.cell rest.present
        (Watched (W.reported watch.old) (W.reported watch.new)
        (ReportedRounds (rest_from rest.cell rest.present) (λ b. may b) improvers.now rounds)) rest.plan) }
    ensures begins { IfOk result (λ found. BeginsWithEntries rest.cell found.shaped) }
    ensures handed_back { IfErr result (λ refused. IsReordered rest.plan refused.1) }
{
    // Called for its clauses alone: the plan is well shaped, and the cell sound.
    let _plan = rest.shaped();
    let left = match left_of(alloc, &rest) {
        Ok(left) => left,
        Err(error) => return Err((error, plan_of(rest))),
    };
    let has_begun = has_begun(rest.cell());
    let fixed = Fixed::Run { left: &left };
    let best = search(alloc, rest, &fixed, has_begun, improvers, rounds, watch)?;
    judged(alloc, best)
}

/// The plan of a rest, with the verdict on it; on a fault the plan again.
fn judged(alloc: Global, rest: Rest<Shaped>) -> Result<Improved, (AllocError, Shaped)>
    ensures plan { IfOk result (λ found. found.shaped ≡ rest.plan) }
    ensures verdict { IfOk result (λ found. IsVerdictOn rest.plan rest.cell rest.present found.verdict) }
    ensures handed_back { IfErr result (λ refused. refused.1 ≡ rest.plan) }
{
    match judge(alloc, &rest) {
        Ok(verdict) => Ok(Improved {
            shaped: plan_of(rest),
            verdict,
        }),
        Err(error) => Err((error, plan_of(rest))),
    }
}
