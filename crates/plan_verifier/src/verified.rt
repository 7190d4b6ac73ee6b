ghost use Rattle.std.specs.Prelude.{◌≡◌, ◌<◌, ◌≤◌, ◌↔◌, Ok, None, IfOk, IsSome, MatchOption, IfSome};
ghost use Rattle.shop_base.specs.{Plan.jobs, declared.node.Node.Node, Cell.start, Graph.leaving, Graph.IsNode};
ghost use Rattle.shop_base.specs.{Deadlines.AreDeadlines, ExactLaw.IsNeverGoneBefore};
ghost use Rattle.alt_graph.specs.{Times.AreOrdered, Latest.HasMoment, Latest.moment_of};
ghost use Rattle.plan_verifier.specs.Accepted.{IsVerified, IsGreatest, IsLongestTo, IsMakespan, IsNeverGoneAfter};
ghost use Rattle.plan_verifier.specs.Accepted.{IsGoneJustAt, IsPathToLeaving, kept_at};
ghost use Rattle.plan_verifier.specs.ByDeadlines.{FitBudgets, AreEnough, AreEnoughAtTheEnd, AreTheLatest};

use crate::leavings::{leave_time, leaving_of, makespan};
use alt_graph::{Deadlines, Times, latest_moments};
use shop_base::{JobNo, Moment, Node, Planned, Shaped};
use std::alloc::{AllocError, Global};
use std::marker::Model;

/// An accepted plan, with the ranks and the greatest lengths that show it. Made by [`crate::verify`] alone.
#[derive(Debug, Drop)]
pub struct Verified {
    shaped: Shaped,
    times: Times,
}

impl Model for Verified {
    ghost use Rattle.plan_verifier.specs.Accepted.{VerifiedPlan, IsVerified};

    ghost Value = { VerifiedPlan };

    ghost view = { λ v. record { planned = v.shaped; times = v.times } };

    ghost invariant = { λ v. IsVerified (record { planned = v.shaped; times = v.times }) };
}

impl Planned for Verified {
    ghost planned = { λ v. v.planned };

    fn shaped(&self) -> &Shaped {
        Verified::shaped(self)
    }
}

impl Verified {
    pub(crate) fn of(shaped: Shaped, times: Times) -> Verified
        requires { IsVerified (record { planned = shaped; times = times }) }
        ensures { result ≡ record { planned = shaped; times = times } }
    {
        Verified { shaped, times }
    }

    /// The moment by which the job has left as long as no activity outlasts its nominal time and each report
    /// is followed by the moves that it makes possible, and before which it can't leave if each activity
    /// takes its full time; `None` for a number that is no job's.
    pub fn earliest_leave(&self, job: JobNo) -> Option<Moment>
        ensures greatest { let p = self.now.planned in
            MatchOption result (jobs p ≤ job) (λ n. (job < jobs p) × IsGreatest p (leaving p job) n) }
        ensures kept { IfSome result (λ moment. moment ≡ kept_at self.now (leaving self.now.planned job)) }
        ensures no_faster { IfSome result (IsNeverGoneBefore self.now.planned job) }
        ensures no_later { IfSome result (IsNeverGoneAfter self.now.planned job) }
        ensures just_in_time { IfSome result (IsGoneJustAt self.now.planned job) }
    {
        if job < self.shaped.shop().jobs() {
            Some(leave_time(&self.shaped, &self.times, job))
        } else {
            None
        }
    }

    /// The earliest moment of the node's move, in time units: the greatest length of a path to it. `None` for a node
    /// that isn't of the shop.
    pub fn earliest(&self, node: Node) -> Option<Moment>
        ensures greatest { let p = self.now.planned in
            MatchOption result (IsNode p node → ⊥) (λ n. IsNode p node × IsGreatest p node n) }
        ensures kept { IfSome result (λ moment. moment ≡ kept_at self.now node) }
    {
        self.times.earliest(node)
    }

    /// The deadlines of all nodes: the latest moments for their moves that leave each move after them its nominal and
    /// cleaning times, and each job its budget. As long as every activity ends by the deadline of the move that it
    /// holds up, every job is out by its budget, however long it took. Each call finds them anew, in time and memory
    /// linear in the nodes and machines; it fails only when out of memory.
    pub fn deadlines(&self, alloc: Global) -> Result<Deadlines, AllocError>
        ensures nodes { IfOk result (λ found. (v : Node) → IsNode self.now.planned v ↔ HasMoment found v) }
        ensures deadlines { let p = self.now.planned in
            IfOk result (λ found. AreDeadlines p (start p) (moment_of found)) }
        ensures fit { IfOk result (λ found. FitBudgets self.now.planned (moment_of found)) }
        ensures latest { IfOk result (λ found. AreTheLatest self.now.planned (moment_of found)) }
        ensures not_before { IfOk result
            (λ found. (v : Node) → IsNode self.now.planned v → kept_at self.now v ≤ moment_of found v) }
        ensures out { IfOk result (λ found. AreEnoughAtTheEnd self.now.planned (moment_of found)) }
        ensures in_time { IfOk result (λ found. AreEnough self.now.planned (moment_of found)) }
    {
        latest_moments(alloc, &self.shaped, &self.times)
    }

    /// The latest of all jobs' earliest leavings.
    pub fn makespan(&self) -> Moment
        ensures { IsMakespan self.now.planned result }
    {
        makespan(&self.shaped, &self.times)
    }

    /// A path of the greatest length to the job's leaving, from some job's first place on: each move of it
    /// waits for the one before it. None for a number that is no job's, and then never an error.
    pub fn chain(&self, alloc: Global, job: JobNo) -> Result<Option<Vec<Node>>, AllocError>
        ensures outside { jobs self.now.planned ≤ job → result ≡ Ok None }
        ensures inside { job < jobs self.now.planned → IfOk result IsSome }
        ensures path { IfOk result (λ found. IfSome found (λ nodes. IsPathToLeaving self.now job nodes.items)) }
        ensures longest { let p = self.now.planned in
            IfOk result (λ found. IfSome found (λ nodes. IsLongestTo p (leaving p job) nodes.items)) }
    {
        if job < self.shaped.shop().jobs() {
            self.times.chain(alloc, leaving_of(&self.shaped, job))
        } else {
            Ok(None)
        }
    }

    /// The plan.
    pub fn shaped(&self) -> &Shaped
        ensures same { result.now ≡ self.now.planned }
        ensures verified { IsVerified self.now }
    {
        &self.shaped
    }

    /// The ranks and the earliest moments of its nodes.
    pub fn times(&self) -> &Times
        ensures same { result.now ≡ self.now.times }
        ensures ordered { AreOrdered self.now.planned self.now.times }
    {
        &self.times
    }

    /// The plan, and the ranks and the earliest moments of its nodes, taken out.
    pub fn into_parts(self) -> (Shaped, Times)
        ensures plan { result.0 ≡ self.planned }
        ensures times { result.1 ≡ self.times }
        ensures verified { IsVerified self }
    {
        let Verified { shaped, times } = self;
        (shaped, times)
    }

    /// The plan, taken out.
    pub fn into_shaped(self) -> Shaped
        ensures { result ≡ self.planned }
    {
        let Verified { shaped, times: _ } = self;
        shaped
    }
}
