//! What is asked of the rest of a run.

ghost use Rattle.std.specs.Prelude.{◌≡◌, ℕ, ◌<◌, ◌↔◌, IfOk, IfSome, MatchOption, Some};
ghost use Rattle.shop_base.specs.{Plan.jobs, Cell.IsGone, declared.node.Node.Node, Graph.IsNode, Graph.leaving};
ghost use Rattle.shop_base.specs.{Ahead.MeetBudgetsAhead, CycleLaw.AreNeverMade};
ghost use Rattle.alt_graph.specs.{Times.AreRanks, Times.earliest_of, Latest.HasMoment, Latest.AreLatest};
ghost use Rattle.alt_graph.specs.{Latest.moment_of, Evidence.EndsIn, Solved.OnCyclic, Solved.IsCyclic, Solved.HasCycle};
ghost use Rattle.plan_verifier.specs.FromThere.{IsNeverStuckFrom, IsInTimeFrom, IsNeverGoneAfterFrom};
ghost use Rattle.plan_verifier.specs.FromThere.{IsNeverGoneBeforeFrom, IsJustInTimeFrom, AreDeadlinesFrom};
ghost use Rattle.plan_verifier.specs.FromThere.{IsNeverInBudgetFrom, IsNeverDoneFrom};
ghost use Rattle.plan_verifier.specs.RestVerdicts.{IsAcceptableAhead, IsAcceptedAhead, IsReasonAhead, IsRestAccepted};
ghost use Rattle.plan_verifier.specs.RestVerdicts.{OnRestRefused, OnRestCycle, OnRestTimes};
ghost use Rattle.plan_verifier.specs.Held.{IsHeldUp, IsBoundOf};
ghost use Rattle.plan_verifier.specs.Rest.{AreOrderedAhead, IsChainAhead, OnOrderedAhead};

use crate::cell_bounds::CellBounds;
use crate::chain_check::PathBounds;
use crate::judging::judge_from;
use crate::node_bound::{NodeBound, bound_after};
use crate::verdict::Judged;
use alt_graph::{Deadlines, Solved, Times, check_chain_from, latest_moments, solve_from};
use cell_tables::Rest;
use shop_base::{Moment, Node, Planned};
use std::alloc::{AllocError, Global};

/// Judges the rest of a run. Looks first for a cycle, then for the first late job; jobs that are gone aren't judged.
/// What goes on ends when it is due, and what is overdue at the present moment. Linear in the nodes, the arcs and the
/// machines; fails only when out of memory.
#[tactic(auto, using(crate::proofs::Tables::rest_rooted))]
pub fn judge<P: Planned>(alloc: Global, rest: &Rest<P>) -> Result<Judged, AllocError>
    ensures accepted { IfOk result (IsAcceptedAhead rest.now.plan rest.now.cell rest.now.present) }
    ensures refused { IfOk result (IsReasonAhead rest.now.plan rest.now.cell rest.now.present) }
    ensures exact { IfOk result
        (λ verdict. IsRestAccepted verdict ↔ IsAcceptableAhead rest.now.plan rest.now.cell rest.now.present) }
    ensures never_stuck { IfOk result
        (OnRestTimes (λ times. IsNeverStuckFrom rest.now.plan rest.now.cell rest.now.present)) }
    ensures in_time { IfOk result
        (OnRestTimes (λ times. IsInTimeFrom rest.now.plan rest.now.cell rest.now.present)) }
    ensures no_later { let p = rest.now.plan in
        IfOk result (OnRestTimes (λ times. (j : ℕ) → j < jobs p
        → IsNeverGoneAfterFrom p rest.now.cell rest.now.present j (earliest_of times (leaving p j)))) }
    ensures no_faster { let p = rest.now.plan in let c = rest.now.cell in
        IfOk result (OnRestTimes (λ times. (j : ℕ) → j < jobs p → (IsGone p c j → ⊥)
        → IsNeverGoneBeforeFrom p c rest.now.present j (earliest_of times (leaving p j)))) }
    ensures just_in_time { IfOk result (OnRestTimes
        (λ times. IsJustInTimeFrom rest.now.plan rest.now.cell rest.now.present (earliest_of times))) }
    ensures stops { IfOk result
        (OnRestCycle (λ nodes. AreNeverMade rest.now.plan nodes × IsNeverDoneFrom rest.now.plan rest.now.cell)) }
    ensures just { IfOk result
        (OnRestRefused (IsNeverInBudgetFrom rest.now.plan rest.now.cell rest.now.present)) }
{
    let shaped = rest.shaped();
    let cell = rest.cell();
    let present = rest.present();
    let solved = solve_from(alloc, shaped, CellBounds { cell, present })?;
    judge_from(alloc, shaped, &CellBounds { cell, present }, solved)
}

/// The ranks of the nodes of the plan, and the earliest moments of the nodes ahead: the greatest lengths of the paths to
/// them from the present moment on; or a cycle. In time and memory linear in the nodes, the arcs and the machines; fails
/// only when out of memory.
pub fn earliest_moments<P: Planned>(alloc: Global, rest: &Rest<P>) -> Result<Solved, AllocError>
    ensures ordered { IfOk result (OnOrderedAhead rest.now.plan rest.now.cell rest.now.present) }
    ensures cyclic { IfOk result (OnCyclic rest.now.plan) }
    ensures exact { IfOk result (λ solved. IsCyclic solved ↔ HasCycle rest.now.plan) }
{
    let shaped = rest.shaped();
    let cell = rest.cell();
    let present = rest.present();
    solve_from(alloc, shaped, CellBounds { cell, present })
}

/// The latest moments of the nodes of the plan. If the rest's earliest moments meet the budgets, the nodes ahead have
/// them as its deadlines: while every activity ends by the deadline of the move that it holds up, every job that isn't
/// gone is out by its budget, however long it took, and the rest stays accepted. They depend on the plan alone, so a
/// node has the same one in every rest that has it ahead. Linear in the nodes, the arcs and the machines; fails only
/// when out of memory.
pub fn deadlines_of<P: Planned>(
    alloc: Global,
    rest: &Rest<P>,
    times: &Times,
) -> Result<Deadlines, AllocError>
    requires { AreRanks rest.now.plan times.now }
    ensures nodes { IfOk result (λ found. (v : Node) → IsNode rest.now.plan v ↔ HasMoment found v) }
    ensures latest { IfOk result (λ found. AreLatest rest.now.plan (moment_of found)) }
    ensures deadlines { let p = rest.now.plan in let c = rest.now.cell in let t = rest.now.present in
        AreOrderedAhead p c t times.now → MeetBudgetsAhead p c (earliest_of times.now)
        → IfOk result (λ found. AreDeadlinesFrom p c t (earliest_of times.now) (moment_of found)) }
{
    // Called for its clause alone: the moment isn't before the last one.
    let _present = rest.present();
    latest_moments(alloc, rest.shaped(), times)
}

/// What holds up a node, and until when: of all that does what lasts longest. If several last equally long, the bound
/// names what goes on with the job, else the cleaning of the machine, else that the job waits. `None` for a node that
/// only nodes before it hold up, and for one that is passed.
pub fn bound_of<P: Planned>(rest: &Rest<P>, node: Node) -> Option<NodeBound>
    requires { IsNode rest.now.plan node }
    ensures { MatchOption result (IsHeldUp rest.now.plan rest.now.cell node → ⊥)
        (IsBoundOf rest.now.plan rest.now.cell rest.now.present node) }
{
    let present = rest.present();
    bound_after(rest.cell(), present, node)
}

/// The length of a path ahead: the greatest moment before which its first node isn't reached, and the lengths of its
/// arcs. It is confirmed from the rest alone. None for a list that isn't such a path, or has more nodes than there are.
/// Where the path ends in a job's leaving, no controller has that job out earlier, as long as each activity takes its
/// full time.
pub fn check_chain_ahead<P: Planned>(rest: &Rest<P>, nodes: &[Node]) -> Option<Moment>
    ensures exact { (n : ℕ)
        → (result ≡ Some n) ↔ IsChainAhead rest.now.plan rest.now.cell rest.now.present nodes.now n }
    ensures no_faster { let p = rest.now.plan in
        IfSome result (λ n. (j : ℕ) → EndsIn nodes.now (leaving p j)
        → IsNeverGoneBeforeFrom p rest.now.cell rest.now.present j n) }
{
    let shaped = rest.shaped();
    let cell = rest.cell();
    let present = rest.present();
    let bounds = PathBounds {
        rest: CellBounds { cell, present },
    };
    check_chain_from(shaped, &bounds, nodes)
}
