//! The lines of what no plan can do.

ghost use Rattle.std.specs.Prelude.{◌≡◌, ◌+◌, ◌≤◌, ◌++◌, length, codes, OnOk};
ghost use Rattle.shop_base.specs.Plan.{jobs};
ghost use Rattle.plan_bounds.specs.Bounds.{times_of};
ghost use Rattle.people_names.specs.Words.{moment_word};
ghost use Rattle.people_names.specs.declared.names.TheConstants.{LONGEST_MOMENT};
ghost use Rattle.command_answers.specs.BoundLines.{by_words, makespan_line, budget_words};
ghost use Rattle.command_answers.specs.BoundLines.{bound_line, bound_lines_below};

use people_names::{LONGEST_MOMENT, LONGEST_NAME, Names};
use plan_bounds::{By, LeastMakespan, job_bound};
use shop_base::{JobNo, Moment, Shaped};
use std::alloc::AllocError;
use text_lines::LineText;

/// The bytes of the longest line: a job's word, two of moments, and the others.
const ROOM: usize = LONGEST_NAME + 2 * LONGEST_MOMENT + 36;

type Line = LineText<ROOM>;

/// Adds `makespan at least N by machine M`, or `.. by job J`.
pub(crate) fn push_makespan_line(
    text: &mut Vec<u8>,
    names: &Names,
    least: &LeastMakespan,
) -> Result<(), AllocError>
    ensures { OnOk result (text.new.items ≡ text.old.items ++ makespan_line names.now least.now) }
{
    let mut line = Line::ended();
    put_by(&mut line, names, least.by);
    names.put_moment(&mut line, least.at_least);
    line.put_text(b"makespan at least ");
    push_line(text, &line)
}

/// Writes whose bound it is.
fn put_by(line: &mut Line, names: &Names, by: By)
    requires { length line.old ≤ 1 }
    ensures written { line.new ≡ by_words names.now by ++ line.old }
    ensures length { length line.new ≤ 52 + length line.old }
{
    match by {
        By::Machine(machine) => {
            names.put_machine(line, machine);
            line.put_text(b" by machine ");
        }
        By::Job(job) => {
            names.put_job(line, job);
            line.put_text(b" by job ");
        }
    }
}

/// Adds a line for each job, in ascending order.
pub(crate) fn push_bound_lines(
    text: &mut Vec<u8>,
    names: &Names,
    shaped: &Shaped,
) -> Result<(), AllocError>
    ensures { OnOk result (text.new.items ≡ text.old.items
        ++ bound_lines_below names.now (times_of shaped.now) shaped.now.plan.budget (jobs shaped.now)) }
{
    for job in 0..shaped.job_count() {
        push_bound_line(
            text,
            names,
            job,
            job_bound(shaped, job),
            shaped.budget_of(job),
        )?;
    }
    Ok(())
}

/// Adds `job J leaves at least N budget B`, and ` never` where N is past B.
fn push_bound_line(
    text: &mut Vec<u8>,
    names: &Names,
    job: JobNo,
    bound: Moment,
    budget: Moment,
) -> Result<(), AllocError>
    ensures { OnOk result (text.new.items ≡ text.old.items ++ bound_line names.now job bound budget) }
{
    let mut line = Line::ended();
    put_budget(&mut line, names, bound, budget);
    names.put_moment(&mut line, bound);
    line.put_text(b" leaves at least ");
    names.put_job(&mut line, job);
    line.put_text(b"job ");
    push_line(text, &line)
}

/// Writes the budget, and that the job is never in time where its bound is past it; a budget that isn't printed for
/// people is none.
fn put_budget(line: &mut Line, names: &Names, bound: Moment, budget: Moment)
    requires { length line.old ≤ 1 }
    ensures written { line.new ≡ budget_words names.now bound budget ++ line.old }
    ensures length { length line.new ≤ LONGEST_MOMENT + 14 + length line.old }
{
    if budget < bound {
        line.put_text(b" never");
        put_budget_words(line, names, budget);
    } else if names.prints_budget(budget) {
        put_budget_words(line, names, budget);
    } else {
        line.put_text(b" no budget");
    }
}

/// Writes a budget.
fn put_budget_words(line: &mut Line, names: &Names, budget: Moment)
    requires { length line.old ≤ 7 }
    ensures written { line.new ≡ codes " budget " ++ (moment_word names.now budget ++ line.old) }
    ensures length { length line.new ≤ LONGEST_MOMENT + 8 + length line.old }
{
    names.put_moment(line, budget);
    line.put_text(b" budget ");
}

/// Adds the line.
fn push_line(text: &mut Vec<u8>, line: &Line) -> Result<(), AllocError>
    ensures { OnOk result (text.new.items ≡ text.old.items ++ line.now) }
{
    text.extend_from_slice(line.bytes())?;
    Ok(())
}
