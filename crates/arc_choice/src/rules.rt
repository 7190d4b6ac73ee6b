//! The rules by which more becomes known, one step each.

ghost use Rattle.std.specs.Prelude.{◌≡◌, ℕ, ◌<◌, ◌≤◌, IfSome, length, true, false};
ghost use Rattle.arc_choice.specs.Choices.{Keeps, IsArc, nodes, side_of};
ghost use Rattle.arc_choice.specs.Branches.{IsBranch, IsHeld, Narrows, HasNone, Propagates, Forces, Always};
ghost use Rattle.arc_choice.specs.Branches.{AreHeads, AreLatest, decision_for};

use crate::branch::{Branch, Decision};
use crate::links::Link;
use crate::question::{Arc, Question, Side};
use crate::work::Work;

/// There are no such moments.
#[derive(Clone, Copy)]
pub(crate) struct Clash {
    /// A pair of which neither side can be, if it was found there.
    pub(crate) at: Option<usize>,
}

/// What a rule comes to.
pub(crate) type Kept = Result<(), Clash>;

/// No head is lower than this one.
fn raise(heads: &mut Vec<u64>, work: &mut Work, node: usize, head: u64)
    requires { node < length heads.old.items }
    ensures heads { (w : ℕ → ℕ) → head ≤ w node → AreHeads heads.old.items w → AreHeads heads.new.items w }
    ensures length { length heads.new.items ≡ length heads.old.items }
{
    if head <= heads[node] {
        return;
    }
    heads[node] = head;
    work.raised.mark(node);
}

/// No latest moment is higher than this one.
fn lower(latest: &mut Vec<u64>, work: &mut Work, node: usize, moment: u64)
    requires { node < length latest.old.items }
    ensures latest { (w : ℕ → ℕ) → w node ≤ moment → AreLatest latest.old.items w → AreLatest latest.new.items w }
    ensures length { length latest.new.items ≡ length latest.old.items }
{
    if latest[node] <= moment {
        return;
    }
    latest[node] = moment;
    work.lowered.mark(node);
}

/// The decision for a side.
fn decision_of(one: bool) -> Decision
    ensures { result ≡ decision_for one }
{
    if one { Decision::One } else { Decision::Other }
}

impl Branch {
    /// An arc that holds moves the moments of its ends.
    pub(crate) fn keep(&mut self, question: &Question, work: &mut Work, arc: Arc) -> Kept
        requires branch { IsBranch question.now self.old }
        requires arc { IsArc (nodes question.now) arc }
        ensures { Propagates (λ w. Keeps w arc) question.now self.old self.new result }
    {
        let (from, to) = (arc.from as usize, arc.to as usize);
        let head = self.state.heads[from].saturating_add(arc.length);
        let last = self.state.latest[to];
        if last < head {
            return Err(Clash { at: None });
        }
        let latest = last.saturating_sub(arc.length);
        raise(&mut self.state.heads, work, to, head);
        lower(&mut self.state.latest, work, from, latest);
        Ok(())
    }

    /// An arc that can't be: its source comes after its target, or its target would come too late.
    fn excludes(&self, question: &Question, arc: Arc) -> bool
        requires branch { IsBranch question.now self.now }
        requires arc { IsArc (nodes question.now) arc }
        ensures { result ≡ true → HasNone (λ w. Keeps w arc) question.now self.now }
    {
        let (from, to) = (arc.from as usize, arc.to as usize);
        if self.reach.has(to, from) {
            return true;
        }
        self.state.latest[to] < self.state.heads[from].saturating_add(arc.length)
    }

    /// A side is decided: its target, and what comes after that, comes after its source and all before that.
    fn note(&mut self, question: &Question, side: Side)
        requires branch { IsBranch question.now self.old }
        requires pair { side.pair < length question.now.pairs.items }
        ensures { Narrows (λ w. Keeps w (side_of question.now side.pair side.one)) question.now self.old self.new }
    {
        let arc = question.side(side);
        let (from, to) = (arc.from as usize, arc.to as usize);
        self.decisions[side.pair] = decision_of(side.one);
        if self.reach.has(from, to) {
            return;
        }
        self.reach.connect(from, to);
    }

    /// Decides a side, and keeps it.
    pub(crate) fn decide(&mut self, question: &Question, work: &mut Work, side: Side) -> Kept
        requires branch { IsBranch question.now self.old }
        requires pair { side.pair < length question.now.pairs.items }
        ensures { Propagates (λ w. Keeps w (side_of question.now side.pair side.one)) question.now
            self.old self.new result }
    {
        self.note(question, side);
        self.keep(question, work, question.side(side))
    }

    /// The side of a pair that is kept since the other can't be, if there is one.
    pub(crate) fn forced(&self, question: &Question, pair: usize) -> Result<Option<Side>, Clash>
        requires branch { IsBranch question.now self.now }
        requires pair { pair < length question.now.pairs.items }
        ensures { Forces question.now self.now result }
    {
        let (one, other) = (Side { pair, one: true }, Side { pair, one: false });
        if self.excludes(question, question.side(one)) {
            if self.excludes(question, question.side(other)) {
                return Err(Clash { at: Some(pair) });
            }
            return Ok(Some(other));
        }
        if self.excludes(question, question.side(other)) {
            return Ok(Some(one));
        }
        Ok(None)
    }

    /// Whether no node's latest moment is before its earliest.
    pub(crate) fn fits(&self, question: &Question) -> bool
        requires { IsBranch question.now self.now }
        ensures { result ≡ false → HasNone Always question.now self.now }
    {
        for node in 0..question.first.len() {
            if self.state.latest[node] < self.state.heads[node] {
                return false;
            }
        }
        true
    }

    /// Whether no arc of the question is one that can't be, as each on a cycle is.
    pub(crate) fn admits_arcs(&self, question: &Question) -> bool
        requires branch { IsBranch question.now self.now }
        ensures { result ≡ false → HasNone Always question.now self.now }
    {
        for arc in &question.arcs {
            if self.excludes(question, *arc) {
                return false;
            }
        }
        true
    }

    /// The arc, if it is one of the question or a side that is decided.
    pub(crate) fn held(&self, question: &Question, link: Link) -> Option<Arc>
        requires { IsBranch question.now self.now }
        ensures { IfSome result (IsHeld question.now self.now) }
    {
        match link {
            Link::Given(number) if number < question.arcs.len() => Some(question.arcs[number]),
            Link::Given(_) => None,
            Link::One(pair) => self.decided(question, Side { pair, one: true }),
            Link::Other(pair) => self.decided(question, Side { pair, one: false }),
        }
    }

    /// The arc of a side, if it is decided.
    fn decided(&self, question: &Question, side: Side) -> Option<Arc>
        requires { IsBranch question.now self.now }
        ensures { IfSome result (IsHeld question.now self.now) }
    {
        if side.pair >= question.pairs.len() {
            return None;
        }
        match (self.decision(side.pair), side.one) {
            (Decision::One, true) => Some(question.side(side)),
            (Decision::Other, false) => Some(question.side(side)),
            _ => None,
        }
    }
}
