//! What the search of a plan answers, with ample memory, over a shelf of files. What the commands write is shown on the
//! built program, by `tests/commands/golden` and `tests/commands/command-lines`.

use super::shelf::{IN_TIME, PAIR, Shelf, TWO};
use command_answers::{Answer, CommandFault, plan_answer};
use plan_seek::{GreedyProposer, Proposer, ShiftProposer};
use std::alloc::{AllocError, Global};
use std::process::Abort;
use std::test::Fail;

/// Whether the answer is this text, with this status.
fn answers(answer: Result<Answer, CommandFault>, text: &[u8], status: u8) -> bool {
    match answer {
        Ok(answer) => answer.text.as_slice() == text && answer.status == status,
        Err(_) => false,
    }
}

fn greedy(alloc: Global) -> Result<Box<dyn Proposer>, AllocError> {
    let boxed: Box<dyn Proposer> = Box::new(alloc, GreedyProposer::new())?;
    Ok(boxed)
}

fn shifting(alloc: Global) -> Result<Box<dyn Proposer>, AllocError> {
    let boxed: Box<dyn Proposer> = Box::new(alloc, ShiftProposer::new())?;
    Ok(boxed)
}

/// Both planners of the program.
pub(super) fn proposers(alloc: Global) -> Result<Vec<Box<dyn Proposer>>, AllocError> {
    let mut proposers = Vec::new(alloc);
    proposers.push(greedy(alloc)?)?;
    proposers.push(shifting(alloc)?)?;
    Ok(proposers)
}

/// A plan, the rounds, the answer and its status. No command asks in more than 1000 rounds.
const SEARCHES: &[(&[u8], u32, &[u8], u8)] = &[
    (
        b"release = [0, 0]\nbudget = [10, 5]\norder = []\n",
        20,
        b"release = [0, 0]\nbudget = [10, 5]\norder = [[1, 0], [1, 0]]\n",
        0,
    ),
    (
        b"release = [0]\nbudget = [5, 10]\norder = []\n",
        1001,
        b"bad numbers ReleaseCount\n",
        1,
    ),
    (IN_TIME, 1001, b"too many rounds\n", 1),
];

/// Each search by these planners answers so.
fn answers_each(rt: &(impl Abort + AllocGlobal), proposers: &[Box<dyn Proposer>]) {
    for &(plan, rounds, text, status) in SEARCHES {
        let mut shelf = Shelf {
            instance: TWO,
            plan,
            log: b"",
        };
        let answer = plan_answer(rt.alloc(), &mut shelf, &PAIR, proposers, rounds);
        assert!(rt; answers(answer, text, status));
    }
}

#[test]
fn a_plan_is_found_or_the_rounds_are_too_many(rt: HostRuntime) -> Result<(), Fail> {
    let proposers = proposers(rt.alloc())?;
    answers_each(&rt, &proposers);
    drop(proposers);
    Ok(())
}
