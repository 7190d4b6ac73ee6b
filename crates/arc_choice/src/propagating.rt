//! The rules until nothing more becomes known. In which order they are used has no bearing on what is promised.

ghost use Rattle.std.specs.Prelude.{◌<◌, length};
ghost use Rattle.arc_choice.specs.Choices.{Keeps, side_of};
ghost use Rattle.arc_choice.specs.Branches.{IsBranch, Propagates, Always};

use crate::branch::Branch;
use crate::links::{Link, Links};
use crate::question::{Question, Side};
use crate::rules::{Clash, Kept};
use crate::work::Work;

/// The most turns of the rules before a branch is used as it is: a number in place of a proof of when they come to
/// rest.
const ROUNDS: u64 = 1_000_000_000_000;

impl Branch {
    /// Keeps those of these arcs that hold.
    fn keep_held(&mut self, question: &Question, work: &mut Work, links: &[Link]) -> Kept
        requires { IsBranch question.now self.old }
        ensures { Propagates Always question.now self.old self.new result }
    {
        for link in links {
            let Some(arc) = self.held(question, *link) else {
                continue;
            };
            self.keep(question, work, arc)?;
        }
        Ok(())
    }

    /// Keeps the arcs at nodes whose moments have changed.
    fn spread(&mut self, question: &Question, links: &Links, work: &mut Work) -> Kept
        requires { IsBranch question.now self.old }
        ensures { Propagates Always question.now self.old self.new result }
    {
        for _ in 0..ROUNDS {
            let Some(end) = work.pop() else {
                return Ok(());
            };
            self.keep_held(question, work, links.at(end))?;
        }
        Ok(())
    }

    /// Decides the pair at a place of the open ones, if only one of its sides can be: the place that is looked at next.
    fn decide_forced(
        &mut self,
        question: &Question,
        work: &mut Work,
        at: usize,
    ) -> Result<usize, Clash>
        requires { IsBranch question.now self.old }
        ensures { Propagates Always question.now self.old self.new result }
    {
        if at >= self.state.open.len() {
            return Ok(at);
        }
        let pair = self.state.open[at];
        if pair >= question.pairs.len() {
            return Ok(at + 1);
        }
        match self.forced(question, pair)? {
            Some(side) => {
                self.close(at);
                self.decide(question, work, side)?;
                Ok(at)
            }
            None => Ok(at + 1),
        }
    }

    /// Looks at each open pair once.
    fn decide_all_forced(&mut self, question: &Question, work: &mut Work) -> Kept
        requires { IsBranch question.now self.old }
        ensures { Propagates Always question.now self.old self.new result }
    {
        let mut at = 0;
        for _ in 0..self.state.open.len() {
            at = self.decide_forced(question, work, at)?;
        }
        Ok(())
    }

    /// Uses the rules until nothing changes.
    pub(crate) fn tighten(&mut self, question: &Question, links: &Links, work: &mut Work) -> Kept
        requires { IsBranch question.now self.old }
        ensures { Propagates Always question.now self.old self.new result }
    {
        for _ in 0..ROUNDS {
            self.spread(question, links, work)?;
            let before = self.state.open.len();
            self.decide_all_forced(question, work)?;
            if self.state.open.len() == before {
                return Ok(());
            }
        }
        Ok(())
    }

    /// Decides a side of a pair, and uses the rules until nothing changes.
    pub(crate) fn take(
        &mut self,
        question: &Question,
        links: &Links,
        work: &mut Work,
        side: Side,
    ) -> Kept
        requires branch { IsBranch question.now self.old }
        requires pair { side.pair < length question.now.pairs.items }
        ensures { Propagates (λ w. Keeps w (side_of question.now side.pair side.one)) question.now
            self.old self.new result }
    {
        self.decide(question, work, side)?;
        self.tighten(question, links, work)
    }
}
