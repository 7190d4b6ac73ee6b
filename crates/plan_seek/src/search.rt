//! The search for an accepted plan: the proposers in rounds, and then the serial plan.

ghost use Rattle.std.specs.Prelude.{◌≡◌, ◌≤◌, IfOk, IfErr, OnOk};
ghost use Rattle.plan_seek.specs.Tasks.{task_of, task_given_back, with_order, IsAccepted};
ghost use Rattle.plan_seek.specs.{Turns.search_by, Search.IsSoughtPlan, Search.IsSearchRefused, Search.CanSeek};

use crate::attempt::Attempt;
use crate::proposer::Proposer;
use crate::rounds::try_rounds;
use crate::seek_fault::{NotFound, SeekFault};
use crate::serial::try_serial;
use crate::task::Task;
use plan_verifier::Verified;
use shop_base::{Moment, Shop};
use std::alloc::Global;

/// The most rounds in which the proposers are asked.
pub const MAX_ROUNDS: u32 = 1000;

/// The most rounds, in numbers.
pub fn the_most_rounds_in_numbers()
    ensures { MAX_ROUNDS ≡ 1000 }
{}

/// Looks for an accepted plan with these numbers. In each round, from 0 on, it asks the proposers in order, and returns
/// the first proposal that is accepted; last it tries the serial plan, in which each machine takes its jobs in
/// ascending order. If the numbers have a fault, or else if the rounds are too many, that is the answer, and no
/// proposer is asked (which no clause says). If no plan is found, everything is given back. `Exhausted` means that each
/// turn may have failed, and that the serial plan is late.
pub fn seek(
    alloc: Global,
    shop: Shop,
    release: Vec<Moment>,
    budget: Vec<Moment>,
    clean: Option<Vec<Moment>>,
    proposers: &[Box<dyn Proposer>],
    rounds: u32,
) -> Result<Verified, NotFound>
    ensures same { IfOk result
        (λ verified. verified.planned ≡ with_order (task_of shop release budget clean) verified.planned.plan.order) }
    ensures accepted { IfOk result (λ verified. IsAccepted verified.planned) }
    ensures few_rounds { OnOk result (rounds ≤ MAX_ROUNDS) }
    ensures sought { IfOk result
        (IsSoughtPlan (search_by (λ b. may b) proposers.now (task_of shop release budget clean)) rounds) }
    ensures refused { IfErr result
        (IsSearchRefused (search_by (λ b. may b) proposers.now (task_of shop release budget clean)) rounds) }
    ensures given_back { IfErr result (λ refused. task_given_back refused ≡ task_of shop release budget clean) }
{
    let task = Task {
        shop,
        release,
        budget,
        clean,
    };
    if let Err(fault) = task.check_numbers() {
        return Err(task.not_found(SeekFault::BadNumbers(fault)));
    }
    if rounds > MAX_ROUNDS {
        return Err(task.not_found(SeekFault::TooManyRounds));
    }
    search(alloc, task, proposers, rounds)
}

/// Asks the proposers, and then tries the serial plan.
fn search(
    alloc: Global,
    task: Task,
    proposers: &[Box<dyn Proposer>],
    rounds: u32,
) -> Result<Verified, NotFound>
    requires { CanSeek task rounds }
    ensures same { IfOk result (λ verified. verified.planned ≡ with_order task verified.planned.plan.order) }
    ensures accepted { IfOk result (λ verified. IsAccepted verified.planned) }
    ensures sought { IfOk result (IsSoughtPlan (search_by (λ b. may b) proposers.now task) rounds) }
    ensures refused { IfErr result (IsSearchRefused (search_by (λ b. may b) proposers.now task) rounds) }
    ensures given_back { IfErr result (λ refused. task_given_back refused ≡ task) }
{
    match try_rounds(alloc, task, proposers, rounds) {
        Attempt::Accepted(verified) => Ok(verified),
        Attempt::InVain(task) => try_serial(alloc, task),
        Attempt::NoMemory(error, task) => Err(task.not_found(SeekFault::from(error))),
    }
}
