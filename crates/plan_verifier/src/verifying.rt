//! The verdict on a plan: by its cycle first, and by its first late job second.

ghost use Rattle.std.specs.Prelude.{◌≡◌, ◌↔◌, IfOk, IfErr};
ghost use Rattle.shop_base.specs.{Plan.IsWellShaped, ExactLaw.IsNeverGoneBefore};
ghost use Rattle.shop_base.specs.CycleLaw.{IsNeverDone, AreNeverMade};
ghost use Rattle.plan_verifier.specs.Accepted.{IsAcceptable};
ghost use Rattle.plan_verifier.specs.Verdicts.{SaysAccepted, OnAccepted, OnRefused, OnCycle, OnLate};
ghost use Rattle.plan_verifier.specs.Verdicts.{IsReason, IsNeverInBudget};
ghost use Rattle.plan_verifier.specs.FromBounds.{IsJudgedWhole};

use crate::judging::judge_from;
use crate::verdict::{Judged, Verdict};
use crate::verified::Verified;
use alt_graph::{Whole, solve_from};
use shop_base::Shaped;
use std::alloc::{AllocError, Global};

/// Judges a plan: looks first for a cycle, then for the first late job. When out of memory, it gives the plan back. A
/// cycle stops every run, and in no exact run is the late job gone earlier than the verdict says, so no exact run of a
/// refused plan has every job out by its budget.
pub fn verify(alloc: Global, shaped: Shaped) -> Result<Verdict, (AllocError, Shaped)>
    ensures accepted { IfOk result (OnAccepted (λ verified. (verified.planned ≡ shaped) × IsAcceptable shaped)) }
    ensures refused { IfOk result (OnRefused (λ back why. (back ≡ shaped) × IsReason shaped why)) }
    ensures exact { IfOk result (λ verdict. SaysAccepted verdict ↔ IsAcceptable shaped) }
    ensures stops { IfOk result (OnCycle (λ nodes. AreNeverMade shaped nodes × IsNeverDone shaped)) }
    ensures no_faster { IfOk result (OnLate (λ job leaves. IsNeverGoneBefore shaped job leaves)) }
    ensures just { IfOk result (OnRefused (λ back why. IsNeverInBudget shaped)) }
    ensures handed_back { IfErr result (λ refused. refused.1 ≡ shaped) }
{
    match judge_whole(alloc, &shaped) {
        Ok(Judged::Accepted(times)) => Ok(Verdict::Accepted(Verified::of(shaped, times))),
        Ok(Judged::Refused(why)) => Ok(Verdict::Refused(shaped, why)),
        Err(error) => Err((error, shaped)),
    }
}

/// Judges a whole plan, from its releases.
fn judge_whole(alloc: Global, shaped: &Shaped) -> Result<Judged, AllocError>
    ensures judged { IfOk result (IsJudgedWhole shaped.now) }
    ensures well_shaped { IsWellShaped shaped.now }
{
    // Called for its clause alone: the plan is well shaped.
    let _shop = shaped.shop();
    let solved = solve_from(alloc, shaped, Whole { shaped })?;
    judge_from(alloc, shaped, &Whole { shaped }, solved)
}
