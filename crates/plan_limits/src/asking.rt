//! The question, and its answer.

ghost use Rattle.std.specs.Prelude.{◌≡◌, ◌≤◌, IfOk, length};
ghost use Rattle.shop_base.specs.{declared.limits.TheConstants.MAX_MOMENT, Plan.jobs};
ghost use Rattle.plan_limits.specs.{Stages.stage_of, Limits.NoPlanKeepsFrom, Answered.OnAnsweredNever};

use crate::numbering::asked_nodes;
use crate::orders::orders_by;
use crate::questions::{MAX_NODES, MAX_PAIRS, question_of};
use arc_choice::{Choose, Outcome, explore};
use cell_tables::WorkCell;
use plan_verifier::cleanings_in_range;
use shop_base::{JobNo, Moment, Planned};
use std::alloc::{AllocError, Global};

/// What a question about limits is answered by.
#[derive(Debug, Drop)]
pub enum LimitsAnswer {
    /// No plan of the shop with these releases and cleaning times has all jobs that are asked for out by their limits.
    Never,
    /// An order for each machine, by which there may be such a plan: whoever asks shapes the plan and judges it. Jobs
    /// that aren't asked for stand behind the others, in ascending order.
    Orders(Vec<Vec<JobNo>>),
    /// Not decided: within the choices that were allowed, or since the question is too large.
    Open,
}

/// Asks whether any plan of this shop, with these releases and cleaning times, of which some run has led to the cell,
/// has no cycle and has each job that has a limit and isn't gone out by it, from the present moment on: what goes on
/// ends when it is due, and what is overdue at the present moment. From the cell at the start and moment 0 on that is
/// any whole plan. A limit is a moment, in whole time units from moment 0; jobs without one aren't asked for. Of the
/// plan's orders only the jobs that have entered are used, and its budgets aren't. At most so many choices are made: a
/// pair of two jobs' visits to a machine that is decided one way and, where that fails, the other, is one. Where no job
/// is asked for and none is in the cell, the orders are the serial ones behind the entries made. More than 1,024 nodes
/// ahead (a job that is asked for or in the cell has one for each step and its leaving) or 16,384 pairs of two such
/// jobs' visits to a machine are answered by `Open` at once. The error is out of memory.
pub fn ask<P: Planned, C: Choose>(
    alloc: Global,
    cell: &WorkCell<P>,
    present: Moment,
    limits: &[Option<Moment>],
    chooser: &mut C,
    choices: u64,
) -> Result<LimitsAnswer, AllocError>
    requires count { length limits.now ≡ jobs cell.now.plan }
    requires in_range { present ≤ MAX_MOMENT }
    ensures { IfOk result (OnAnsweredNever (NoPlanKeepsFrom (stage_of cell.now.plan cell.now.cell present) limits.now)) }
{
    // Called for its clause alone: the cleanings that go on began within the limit.
    cleanings_in_range(cell);
    let nodes = asked_nodes(alloc, cell, limits)?;
    if nodes.len() > MAX_NODES {
        return Ok(LimitsAnswer::Open);
    }
    let question = question_of(alloc, cell, present, limits, &nodes)?;
    if question.pairs.len() > MAX_PAIRS {
        drop(question);
        return Ok(LimitsAnswer::Open);
    }
    let outcome = explore(alloc, &question, chooser, choices);
    drop(question);
    match outcome? {
        Outcome::Never => Ok(LimitsAnswer::Never),
        Outcome::Chosen(heads) => {
            let orders = orders_by(alloc, cell, limits, &nodes, &heads)?;
            Ok(LimitsAnswer::Orders(orders))
        }
        Outcome::Open => Ok(LimitsAnswer::Open),
    }
}
