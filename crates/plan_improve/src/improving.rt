//! A plan that is improved in rounds, and judged at the end.

ghost use Rattle.std.specs.Prelude.{◌≡◌, ◌≤◌, ◌↔◌, OnOk, IfOk, IfErr};
ghost use Rattle.plan_verifier.specs.Accepted.{HasNoCycle, IsAcceptable};
ghost use Rattle.plan_verifier.specs.{Verdicts.SaysAccepted, Verdicts.OnRefused, Verdicts.IsReason, Seen.judged};
ghost use Rattle.cell_tables.specs.Reordered.{IsReordered};
ghost use Rattle.plan_improve.specs.Settings.{whole_plan};
ghost use Rattle.plan_improve.specs.{Runs.ReportedRounds, Runs.Rounds, Runs.Watched, Faults.IsImproveFault};
ghost use Rattle.plan_improve.specs.{Improved.IsNeverWorse, Improved.IsFound, Keeping.IsSearched};

use crate::fixed::Fixed;
use crate::improve_fault::ImproveFault;
use crate::improver::Improver;
use crate::not_improved::NotImproved;
use crate::plan_out::plan_of;
use crate::searching::search;
use crate::watch::Watch;
use cell_tables::{Rest, copy_orders, put_back};
use plan_bounds::least_makespan;
use plan_seek::MAX_ROUNDS;
use plan_verifier::{Verdict, verify};
use shop_base::Shaped;
use std::alloc::{AllocError, Global};

/// Improves a plan. The search begins at the plan itself or, if that has a cycle, at the serial plan. In each
/// round from 0 on each improver is asked in order with the best plan so far, and its answer is kept exactly if
/// the plan with these orders fits the shop, has no cycle and is less late, or as late with a shorter makespan. Once
/// no job of the best plan is late and its makespan is the greatest of its bounds, nobody can better it, and nobody is
/// asked any more. The best plan is judged at the end. Too many rounds are answered first, and no
/// improver is asked then, which no clause says. On a fault the plan comes back as it was. The plan is exactly the
/// best of the beginning and of answers that the improvers may give, the first among equals, each allowed for the
/// best plan up to there.
pub fn improve<W: Watch>(
    alloc: Global,
    start: Shaped,
    improvers: &[Box<dyn Improver>],
    rounds: u32,
    watch: &mut W,
) -> Result<Verdict, NotImproved>
    ensures same { IfOk result (λ verdict. IsReordered start (judged verdict)) }
    ensures acyclic { IfOk result (λ verdict. HasNoCycle (judged verdict)) }
    ensures never_worse { IfOk result (λ verdict. IsNeverWorse whole_plan start (judged verdict)) }
    ensures found { IfOk result (λ verdict.
        IsFound whole_plan (Rounds whole_plan (λ b. may b) improvers.now rounds) start (judged verdict)) }
    ensures reported { IfOk result (λ verdict.
        IsFound whole_plan (Watched (W.reported watch.old) (W.reported watch.new)
        (ReportedRounds whole_plan (λ b. may b) improvers.now rounds)) start (judged verdict)) }
    ensures stays_accepted { IfOk result (λ verdict. IsAcceptable start → SaysAccepted verdict) }
    ensures exact { IfOk result (λ verdict. SaysAccepted verdict ↔ IsAcceptable (judged verdict)) }
    ensures reason { IfOk result (OnRefused IsReason) }
    ensures few_rounds { OnOk result (rounds ≤ MAX_ROUNDS) }
    ensures refused { IfErr result (λ refused. IsImproveFault rounds refused.fault) }
    ensures handed_back { IfErr result (λ refused. refused.start ≡ start) }
{
    if rounds > MAX_ROUNDS {
        return Err(NotImproved {
            fault: ImproveFault::TooManyRounds,
            start,
        });
    }
    match copy_orders(alloc, &start.plan().order) {
        Ok(order) => match improve_on(alloc, start, improvers, rounds, watch) {
            Ok(verdict) => Ok(verdict),
            Err((error, back)) => Err(NotImproved::out_of_memory(error, put_back(back, order))),
        },
        Err(error) => Err(NotImproved::out_of_memory(error, start)),
    }
}

/// Improves a plan; on a fault some plan that differs in its orders alone comes back.
fn improve_on<W: Watch>(
    alloc: Global,
    start: Shaped,
    improvers: &[Box<dyn Improver>],
    rounds: u32,
    watch: &mut W,
) -> Result<Verdict, (AllocError, Shaped)>
    ensures searched { IfOk result (λ verdict. IsSearched whole_plan (Watched (W.reported watch.old)
        (W.reported watch.new) (ReportedRounds whole_plan (λ b. may b) improvers.now rounds)) start (judged verdict)) }
    ensures exact { IfOk result (λ verdict. SaysAccepted verdict ↔ IsAcceptable (judged verdict)) }
    ensures reason { IfOk result (OnRefused IsReason) }
    ensures handed_back { IfErr result (λ refused. IsReordered start refused.1) }
{
    let at_least = least_makespan(&start).at_least;
    let fixed = Fixed::Nothing { at_least };
    let rest = Rest::start(alloc, start)?;
    let best = search(alloc, rest, &fixed, false, improvers, rounds, watch)?;
    verify(alloc, plan_of(best))
}
