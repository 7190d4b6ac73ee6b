//! A branch of the search: what is known of all moments that answer a question and keep the sides decided so far.

ghost use Rattle.std.specs.Prelude.{◌≡◌, ℕ, ◌<◌, ◌≤◌, IfOk, IfSome, length};
ghost use Rattle.arc_choice.specs.Choices.{IsSoundQuestion, Answers, nodes};
ghost use Rattle.arc_choice.specs.Outcomes.{OnNever};
ghost use Rattle.arc_choice.specs.Reach.{Rises};
ghost use Rattle.arc_choice.specs.Branches.{IsBranch, HasAll, IsCopy, decision_at};

use crate::choosing::Choose;
use crate::exploring::Outcome;
use crate::question::{Question, Side};
use crate::reach::Reach;
use std::alloc::{AllocError, Global};

/// The bytes that branches take at one time.
const ROOM: usize = 64_000_000;

/// What is known of all moments that answer a question and keep the sides that are decided.
#[derive(Debug, Drop)]
pub struct State {
    /// The earliest moment of each node.
    pub heads: Vec<u64>,
    /// The latest moment of each node.
    pub latest: Vec<u64>,
    /// The pairs of which no side is decided.
    pub open: Vec<usize>,
}

/// Which side of a pair is decided, if one is.
#[derive(Clone, Copy)]
pub(crate) enum Decision {
    Open,
    One,
    Other,
}

/// No node comes before its head or after its latest moment, and none before those that it is known to come after; the
/// sides that are decided are kept.
#[derive(Drop)]
pub(crate) struct Branch {
    pub(crate) state: State,
    pub(crate) reach: Reach,
    pub(crate) decisions: Vec<Decision>,
}

impl State {
    /// The same again.
    fn copy(&self, alloc: Global) -> Result<State, AllocError>
        ensures heads { IfOk result (λ state. state.heads.items ≡ self.now.heads.items) }
        ensures latest { IfOk result (λ state. state.latest.items ≡ self.now.latest.items) }
    {
        Ok(State {
            heads: Vec::from_slice(alloc, self.heads.as_slice())?,
            latest: Vec::from_slice(alloc, self.latest.as_slice())?,
            open: Vec::from_slice(alloc, self.open.as_slice())?,
        })
    }
}

impl Branch {
    /// What is known before anything is decided.
    pub(crate) fn start(alloc: Global, question: &Question) -> Result<Branch, AllocError>
        requires { IsSoundQuestion question.now }
        ensures branch { IfOk result (IsBranch question.now) }
        ensures all { IfOk result (HasAll question.now) }
    {
        let heads = Vec::from_slice(alloc, question.first.as_slice())?;
        let latest = Vec::from_slice(alloc, question.last.as_slice())?;
        let open = all_below(alloc, question.pairs.len())?;
        let decisions = vec![in alloc; Decision::Open; question.pairs.len()]?;
        let reach = reach_of(alloc, question)?;
        let state = State {
            heads,
            latest,
            open,
        };
        Ok(Branch {
            state,
            reach,
            decisions,
        })
    }

    /// The same again.
    pub(crate) fn copy(&self, alloc: Global) -> Result<Branch, AllocError>
        ensures { IfOk result (IsCopy self.now) }
    {
        Ok(Branch {
            state: self.state.copy(alloc)?,
            reach: self.reach.copy(alloc)?,
            decisions: Vec::from_slice(alloc, self.decisions.as_slice())?,
        })
    }

    /// How many branches fit into the room for them: of each, 16 bytes a node, 8 for each word of its row of bits, and
    /// 9 a pair.
    pub(crate) fn most(&self) -> usize {
        let nodes = self.state.heads.len();
        let row = self.reach.word_count().saturating_mul(8).saturating_add(16);
        let pairs = self.decisions.len().saturating_mul(9);
        let bytes = nodes.saturating_mul(row).saturating_add(pairs);
        ROOM / bytes.max(1)
    }

    /// What is decided of a pair.
    pub(crate) fn decision(&self, pair: usize) -> Decision
        requires { pair < length self.now.decisions.items }
        ensures { result ≡ decision_at self.now pair }
    {
        self.decisions[pair]
    }

    /// An open pair and its side that is tried first, as the chooser says, if it names one; the pair is taken from the
    /// open ones.
    pub(crate) fn choose<C: Choose>(&mut self, question: &Question, chooser: &mut C) -> Option<Side>
        ensures copy { IsCopy self.old self.new }
        ensures pair { IfSome result (λ side. side.pair < length question.now.pairs.items) }
    {
        if self.state.open.is_empty() {
            return None;
        }
        let side = chooser.choose(question, &self.state)?;
        if side.pair >= question.pairs.len() {
            return None;
        }
        let at = self.place(side.pair)?;
        self.close(at);
        Some(side)
    }

    /// The place of a pair among the open ones.
    fn place(&self, pair: usize) -> Option<usize>
        ensures { IfSome result (λ at. at < length self.now.state.«open».items) }
    {
        for at in 0..self.state.open.len() {
            if self.state.open[at] == pair {
                return Some(at);
            }
        }
        None
    }

    /// The pair at this place of the open ones is taken from them.
    pub(crate) fn close(&mut self, at: usize)
        requires { at < length self.old.state.«open».items }
        ensures { IsCopy self.old self.new }
    {
        self.state.open.swap_remove(at);
    }

    /// The heads, where no pair is open.
    pub(crate) fn into_outcome(self) -> Outcome
        ensures { OnNever ⊥ result }
    {
        let Branch { state, .. } = self;
        let State { heads, open, .. } = state;
        if open.is_empty() {
            return Outcome::Chosen(heads);
        }
        Outcome::Open
    }
}

/// The numbers below this one.
fn all_below(alloc: Global, number: usize) -> Result<Vec<usize>, AllocError> {
    let mut all = Vec::with_capacity(alloc, number)?;
    for next in 0..number {
        all.push(next)?;
    }
    Ok(all)
}

/// What the arcs alone say of which nodes come after which.
fn reach_of(alloc: Global, question: &Question) -> Result<Reach, AllocError>
    requires { IsSoundQuestion question.now }
    ensures rises { IfOk result (λ reach. (w : ℕ → ℕ) → Answers question.now w → Rises reach w) }
    ensures nodes { IfOk result (λ reach. reach.nodes ≡ nodes question.now) }
{
    let mut reach = Reach::new(alloc, question.first.len())?;
    for arc in &question.arcs {
        reach.connect(arc.from as usize, arc.to as usize);
    }
    Ok(reach)
}
