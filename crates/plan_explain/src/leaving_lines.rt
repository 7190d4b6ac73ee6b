//! The lines of the jobs of a plan without a cycle.

ghost use Rattle.std.specs.Prelude.{◌≡◌, ◌+◌, ◌<◌, ◌≤◌, [], ◌∷◌, ◌++◌, length, codes, OnOk};
ghost use Rattle.shop_base.specs.Plan.{jobs, budget};
ghost use Rattle.alt_graph.specs.Times.{AreRanks};
ghost use Rattle.people_names.specs.Words.{moment_word};
ghost use Rattle.plan_verifier.specs.Leavings.{leaves_in};
ghost use Rattle.plan_explain.specs.Arcs.{words_and};
ghost use Rattle.plan_explain.specs.Leavings.{leaving_budget_words, margin_words, leaves_line, leaves_lines};

use crate::words::{Line, push_job_at};
use alt_graph::Times;
use cell_tables::WorkCell;
use people_names::Names;
use plan_verifier::leave_time;
use shop_base::{JobNo, Moment, Planned};
use std::alloc::AllocError;

/// Adds a line for each job, in ascending order.
pub(crate) fn push_leaving_lines<P: Planned>(
    text: &mut Vec<u8>,
    names: &Names,
    cell: &WorkCell<P>,
    times: &Times,
) -> Result<(), AllocError>
    requires { AreRanks cell.now.plan times.now }
    ensures { let p = cell.now.plan in
        OnOk result (text.new.items ≡ text.old.items ++ leaves_lines names.now p cell.now.cell (leaves_in p times.now)) }
{
    for job in 0..cell.job_count() {
        let leaves = leave_time(cell, times, job);
        push_job_line(text, names, cell, job, leaves)?;
    }
    Ok(())
}

/// Adds the line of a job: `job J left L budget B` of one that is gone; else `job J leaves L budget B slack S`, or
/// `.. late D` where L is past B by D.
fn push_job_line<P: Planned>(
    text: &mut Vec<u8>,
    names: &Names,
    cell: &WorkCell<P>,
    job: JobNo,
    leaves: Moment,
) -> Result<(), AllocError>
    requires { job < jobs cell.now.plan }
    ensures { OnOk result
        (text.new.items ≡ text.old.items ++ leaves_line names.now cell.now.plan cell.now.cell job leaves) }
{
    let budget = cell.shaped().budget_of(job);
    let mut line = Line::ended();
    if cell.step_count(job) < cell.job_state(job).made {
        put_given_budget(&mut line, names, budget);
        return push_job_at(text, names, &mut line, job, b" left ", leaves);
    }
    put_margin(&mut line, names, leaves, budget);
    push_job_at(text, names, &mut line, job, b" leaves ", leaves)
}

/// Writes the budget, if it is printed, and what is left to it, or by how much the leaving is past it.
fn put_margin(line: &mut Line, names: &Names, leaves: Moment, budget: Moment)
    requires { length line.old ≤ 1 }
    ensures written { line.new ≡ words_and (margin_words names.now leaves budget) line.old }
    ensures length { length line.new ≤ 65 + length line.old }
{
    if budget < leaves {
        line.put_number(leaves - budget);
        line.put_text(b" late ");
        put_budget(line, names, budget);
    } else if names.prints_budget(budget) {
        line.put_number(budget - leaves);
        line.put_text(b" slack ");
        put_budget(line, names, budget);
    } else {
        line.put_text(b" no budget");
    }
}

/// Writes ` budget B`.
fn put_budget(line: &mut Line, names: &Names, budget: Moment)
    requires { length line.old ≤ 28 }
    ensures written { line.new ≡ words_and (codes " budget " ∷ moment_word names.now budget ∷ []) line.old }
    ensures length { length line.new ≤ 37 + length line.old }
{
    names.put_moment(line, budget);
    line.put_text(b" budget ");
}

/// Writes the budget, if it is printed.
fn put_given_budget(line: &mut Line, names: &Names, budget: Moment)
    requires { length line.old ≤ 1 }
    ensures written { line.new ≡ words_and (leaving_budget_words names.now budget []) line.old }
    ensures length { length line.new ≤ 37 + length line.old }
{
    if names.prints_budget(budget) {
        put_budget(line, names, budget);
    } else {
        line.put_text(b" no budget");
    }
}
