//! The verdict on what is ahead of a plan, from any bounds: by its cycle first, and by its first late job second.

ghost use Rattle.std.specs.Prelude.{◌≡◌, ◌<◌, IfOk};
ghost use Rattle.shop_base.specs.Plan.{jobs};
ghost use Rattle.alt_graph.specs.{Bounds.NodeBounds, Times.AreRanks, Times.AreOrderedFrom, Times.earliest_of};
ghost use Rattle.alt_graph.specs.Solved.{OnOrderedFrom, OnCyclic};
ghost use Rattle.plan_verifier.specs.FromBounds.{IsFirstPastFrom, IsJudgedFrom};

use crate::leavings::{first_late, leave_time, leaving_of};
use crate::verdict::{Judged, Why};
use alt_graph::{Bounds, Solved, Times};
use shop_base::{JobNo, Shaped};
use std::alloc::{AllocError, Global};

/// Judges a plan whose graph is solved from these bounds. Jobs whose leavings aren't ahead aren't judged.
pub(crate) fn judge_from<B: Bounds>(
    alloc: Global,
    shaped: &Shaped,
    bounds: &B,
    solved: Solved,
) -> Result<Judged, AllocError>
    requires planned { B.planned bounds.now ≡ shaped.now }
    requires ordered { OnOrderedFrom shaped.now (B.bounds bounds.now) solved }
    requires cyclic { OnCyclic shaped.now solved }
    ensures { IfOk result (IsJudgedFrom shaped.now (B.bounds bounds.now)) }
{
    match solved {
        Solved::Ordered(times) => match first_late(shaped, bounds, &times) {
            Some(job) => late(alloc, shaped, times, job),
            None => Ok(Judged::Accepted(times)),
        },
        Solved::Cyclic(nodes) => Ok(Judged::Refused(Why::Cycle(nodes))),
    }
}

/// The evidence against the first late job, from whatever bounds it is that.
fn late(alloc: Global, shaped: &Shaped, times: Times, job: JobNo) -> Result<Judged, AllocError>
    requires ranks { AreRanks shaped.now times }
    requires job { job < jobs shaped.now }
    ensures { let p = shaped.now in
        (b : NodeBounds) → AreOrderedFrom p b times → IsFirstPastFrom p b (earliest_of times) job
        → IfOk result (IsJudgedFrom p b) }
{
    let leaves = leave_time(shaped, &times, job);
    match times.chain(alloc, leaving_of(shaped, job))? {
        Some(chain) => Ok(Judged::Refused(Why::Late {
            job,
            leaves,
            chain,
            times,
        })),
        None => unreachable!(),
    }
}
