//! A search from its beginning to its last round.

ghost use Rattle.std.specs.Prelude.{◌≡◌, ◌↔◌, false, IfOk, IfErr};
ghost use Rattle.cell_tables.specs.Reordered.{IsReordered};
ghost use Rattle.plan_improve.specs.Runs.{ReportedRounds, Watched};
ghost use Rattle.plan_improve.specs.Keeping.{setting_of, IsFixed, IsComeTo, IsRestOfDone};

use crate::beginning::{First, first_plan};
use crate::best::Best;
use crate::fixed::Fixed;
use crate::improver::Improver;
use crate::rounds::ask_in_rounds;
use crate::watch::Watch;
use cell_tables::Rest;
use shop_base::Shaped;
use std::alloc::{AllocError, Global};

/// The rest by the best plan that is met from its own on; the rest itself if there is no plan to begin with. On a fault
/// some plan that differs in its orders alone comes back.
pub(crate) fn search<W: Watch>(
    alloc: Global,
    start: Rest<Shaped>,
    fixed: &Fixed<'_>,
    has_begun: bool,
    improvers: &[Box<dyn Improver>],
    rounds: u32,
    watch: &mut W,
) -> Result<Rest<Shaped>, (AllocError, Shaped)>
    requires fixed { IsFixed fixed.now start }
    requires stands { IsRestOfDone (setting_of fixed.now start) start }
    requires begun { (has_begun ≡ false) ↔ (setting_of fixed.now start).fresh start.plan }
    ensures comes { IfOk result (IsComeTo (setting_of fixed.now start) (Watched (W.reported watch.old) (W.reported watch.new)
        (ReportedRounds (setting_of fixed.now start) (λ b. may b) improvers.now rounds)) start.plan) }
    ensures handed_back { IfErr result (λ refused. IsReordered start.plan refused.1) }
{
    match first_plan(alloc, start, fixed, has_begun)? {
        First::Begins(best) => {
            let best = ask_in_rounds(alloc, best, fixed, improvers, rounds, watch)?;
            let Best { rest, cost: _ } = best;
            Ok(rest)
        }
        First::Stays(start) => Ok(start),
    }
}
