//! Planners and improvers that give the same orders from some round on, and count how often they are asked.

use super::by_budget::BudgetImprover;
use super::descending::DescendingProposer;
use plan_improve::{Improver, PartAhead};
use plan_seek::{Proposed, Proposer};
use shop_base::{JobNo, Shaped, Shop};
use std::alloc::{AllocError, Global};
use std::cell::Cell;
use std::rc::Rc;

/// How many are asked in turn.
pub(crate) const ASKED: u32 = 3;

/// What one of them gives for two jobs on two machines.
#[derive(Clone, Copy)]
pub(crate) enum Answer {
    /// No orders.
    Silent,
    /// Those of a planner, or of an improver, that the pages show.
    Shown,
    /// Job 0 first on both machines.
    Serial,
    /// Job 1 first on both machines.
    Turned,
    /// Orders with a cycle.
    Crossed,
    /// One order too few.
    Short,
    /// A number that is no job's.
    Stranger,
    /// Out of memory.
    Hungry,
}

/// One of them.
#[derive(Drop)]
pub(crate) struct Scripted {
    pub(crate) answer: Answer,
    /// The first round in which it gives that.
    pub(crate) first: u32,
    /// Its place among those that are asked in turn.
    pub(crate) place: u32,
    /// How often they were asked, and the greatest number once a question came out of turn.
    pub(crate) questions: Rc<Cell<u32>>,
}

/// The count after one more question, which came at this turn.
fn counted(before: u32, turn: u32) -> u32 {
    if before == turn {
        before.saturating_add(1)
    } else {
        u32::MAX
    }
}

impl Scripted {
    /// Counts a question, and answers what is given.
    fn asked(&self, round: u32) -> Answer {
        let turn = round.saturating_mul(ASKED).saturating_add(self.place);
        self.questions.set(counted(self.questions.get(), turn));
        if round < self.first {
            Answer::Silent
        } else {
            self.answer
        }
    }
}

fn orders(alloc: Global, answer: Answer) -> Proposed {
    let rows: &[&[JobNo]] = match answer {
        Answer::Serial => &[&[0, 1], &[0, 1]],
        Answer::Turned => &[&[1, 0], &[1, 0]],
        Answer::Crossed => &[&[0, 1], &[1, 0]],
        Answer::Short => &[&[0, 1]],
        Answer::Stranger => &[&[0, 7], &[0, 1]],
        Answer::Hungry => return Err(AllocError),
        Answer::Silent | Answer::Shown => return Ok(None),
    };
    let mut orders = Vec::new(alloc);
    for row in rows {
        orders.push(row.to_vec(alloc)?)?;
    }
    Ok(Some(orders))
}

impl Proposer for Scripted {
    ghost may = { λ proposer shop round proposal. Unit {0} };

    fn propose(&self, alloc: Global, shop: &Shop, round: u32) -> Proposed {
        match self.asked(round) {
            Answer::Shown => DescendingProposer.propose(alloc, shop, round),
            answer => orders(alloc, answer),
        }
    }
}

impl Improver for Scripted {
    ghost may = { λ improver shaped rest round answer. Unit {0} };

    fn improve(
        &self,
        alloc: Global,
        shaped: &Shaped,
        rest: Option<&PartAhead>,
        round: u32,
    ) -> Proposed {
        match self.asked(round) {
            Answer::Shown => BudgetImprover.improve(alloc, shaped, rest, round),
            answer => orders(alloc, answer),
        }
    }
}
