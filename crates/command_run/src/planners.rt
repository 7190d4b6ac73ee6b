//! The command `plan`.

ghost use Rattle.command_run.specs.Planners.{SeeksPlan};

use command_answers::{Answered, InputPaths, Texts, plan_answer};
use plan_seek::{GreedyProposer, Proposer, ShiftProposer};
use std::alloc::{AllocError, Global};

/// The search for a plan, in which the greedy planner is asked before the planner of the shifted rows.
pub(crate) fn seek_answer<T: Texts>(
    alloc: Global,
    texts: &mut T,
    inputs: &InputPaths<'_>,
    rounds: u32,
) -> Answered
    ensures { SeeksPlan T.gives rounds inputs.now texts.old result texts.new }
{
    let greedy = Box::new(alloc, GreedyProposer::new()).map_err(AllocError::from)?;
    let shift = Box::new(alloc, ShiftProposer::new()).map_err(AllocError::from)?;
    let mut planners: Vec<Box<dyn Proposer>> = Vec::new(alloc);
    planners.push(greedy).map_err(AllocError::from)?;
    planners.push(shift).map_err(AllocError::from)?;
    plan_answer(alloc, texts, inputs, &planners, rounds)
}
