//! The command `bounds`.

ghost use Rattle.std.specs.Prelude.{IfOk};
ghost use Rattle.std.specs.Option.{option_copied};
ghost use Rattle.plan_bounds.specs.Bounds.{times_of};
ghost use Rattle.command_answers.specs.BoundLines.{AreBoundLines, IsBoundsStatus};
ghost use Rattle.command_answers.specs.Steps.{IsOrMemory};
ghost use Rattle.command_answers.specs.Commands.{RunsBounds, WithNames, WithSoundNames};

use crate::answer::{Answer, Answered, GOOD, REFUSED};
use crate::bound_lines::{push_bound_lines, push_makespan_line};
use crate::inputs::{Files, ParsedInputs, read_inputs, serially};
use crate::naming::names_of;
use crate::shape_faults::bad_numbers_answer;
use crate::texts::Texts;
use people_names::Names;
use plan_bounds::{job_bound, least_makespan};
use shop_base::Shaped;
use std::alloc::{AllocError, Global};

/// What no plan can do for the instance of a file with the releases and the cleaning times of the plan of another, with
/// the names and the clock of a third, which is read once the numbers are sound.
pub fn bounds_answer<T: Texts>(alloc: Global, texts: &mut T, files: &Files<'_>) -> Answered
    ensures { RunsBounds T.gives files.now.inputs (option_copied files.now.names) texts.old result texts.new }
{
    let parsed = read_inputs(alloc, texts, &files.inputs)?;
    named_bounded(alloc, texts, parsed, files.names)
}

/// The bounds for a shop with the numbers of a plan, if these are sound, else their first fault.
fn named_bounded<T: Texts>(
    alloc: Global,
    texts: &mut T,
    parsed: ParsedInputs,
    names: Option<&str>,
) -> Answered
    ensures { WithSoundNames T.gives (λ book. IsOrMemory (AreBoundLines book (times_of parsed) parsed.plan.budget))
        (option_copied names.entry) parsed texts.old result texts.new }
{
    match serially(alloc, parsed)?.shaped() {
        Ok(shaped) => {
            let answer = sound_bounded(alloc, texts, names, &shaped);
            drop(shaped);
            answer
        }
        Err(fault) => Ok(bad_numbers_answer(alloc, fault)?),
    }
}

/// The lines of the bounds, with the names and the clock of a file.
fn sound_bounded<T: Texts>(
    alloc: Global,
    texts: &mut T,
    names: Option<&str>,
    shaped: &Shaped,
) -> Answered
    ensures { let p = shaped.now in WithNames T.gives (option_copied names.entry) p
        (λ book. IsOrMemory (AreBoundLines book (times_of p) p.plan.budget)) texts.old result texts.new }
{
    let names = names_of(alloc, texts, names, shaped)?;
    let answer = shaped_bounded(alloc, &names, shaped);
    drop(names);
    Ok(answer?)
}

/// The lines of the bounds.
fn shaped_bounded(alloc: Global, names: &Names, shaped: &Shaped) -> Result<Answer, AllocError>
    ensures { IfOk result (AreBoundLines names.now (times_of shaped.now) shaped.now.plan.budget) }
{
    let (mut text, status) = (Vec::new(alloc), bounds_status(shaped));
    push_makespan_line(&mut text, names, &least_makespan(shaped))?;
    push_bound_lines(&mut text, names, shaped)?;
    Ok(Answer { text, status })
}

/// Whether each job can be in time, by its bound.
fn bounds_status(shaped: &Shaped) -> u8
    ensures { IsBoundsStatus (times_of shaped.now) shaped.now.plan.budget result }
{
    for job in 0..shaped.job_count() {
        if shaped.budget_of(job) < job_bound(shaped, job) {
            return REFUSED;
        }
    }
    GOOD
}
