//! The proposers asked in turn, round by round.

ghost use Rattle.std.specs.Prelude.{IfOk};
ghost use Rattle.plan_seek.specs.{Orders.proposal_of, Turns.search_by};
ghost use Rattle.plan_seek.specs.Outcomes.{IsTurnOutcome, IsRoundOutcome, IsRoundsOutcome};

use crate::attempt::{Attempt, try_orders};
use crate::proposer::{Proposed, Proposer};
use crate::task::Task;
use shop_base::Shop;
use std::alloc::Global;

/// Asks in each round from 0 on, and gives the first plan that is accepted.
pub(crate) fn try_rounds(
    alloc: Global,
    mut task: Task,
    proposers: &[Box<dyn Proposer>],
    rounds: u32,
) -> Attempt
    ensures { IsRoundsOutcome (search_by (λ b. may b) proposers.now task) rounds result }
{
    for round in 0..rounds {
        match try_round(alloc, task, proposers, round) {
            Attempt::Accepted(verified) => return Attempt::Accepted(verified),
            Attempt::InVain(back) => task = back,
            Attempt::NoMemory(error, back) => return Attempt::NoMemory(error, back),
        }
    }
    Attempt::InVain(task)
}

/// Asks each proposer in order, and gives the first plan that is accepted.
fn try_round(alloc: Global, mut task: Task, proposers: &[Box<dyn Proposer>], round: u32) -> Attempt
    ensures { IsRoundOutcome (search_by (λ b. may b) proposers.now task) round result }
{
    for proposer in proposers {
        match try_proposer(alloc, task, proposer, round) {
            Attempt::Accepted(verified) => return Attempt::Accepted(verified),
            Attempt::InVain(back) => task = back,
            Attempt::NoMemory(error, back) => return Attempt::NoMemory(error, back),
        }
    }
    Attempt::InVain(task)
}

/// Asks one proposer, and puts its proposal to the test.
fn try_proposer(alloc: Global, task: Task, proposer: &Box<dyn Proposer>, round: u32) -> Attempt
    ensures { IsTurnOutcome task (may proposer.now task.shop round) result }
{
    match ask(alloc, proposer, &task.shop, round) {
        Ok(Some(order)) => try_orders(alloc, task, order),
        Ok(None) => Attempt::InVain(task),
        Err(error) => Attempt::NoMemory(error, task),
    }
}

/// Asks one proposer.
fn ask(alloc: Global, proposer: &Box<dyn Proposer>, shop: &Shop, round: u32) -> Proposed
    ensures { IfOk result (λ proposal. may proposer.now shop.now round (proposal_of proposal)) }
{
    proposer.propose(alloc, shop, round)
}
