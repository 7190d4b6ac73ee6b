//! The lines of a schedule.

ghost use Rattle.std.specs.Prelude.{◌≡◌, ◌+◌, ◌≤◌, ◌++◌, length, OnOk, Some};
ghost use Rattle.plan_explain.specs.Arcs.{words_and};
ghost use Rattle.plan_schedule.specs.Lines.{due_words, arrival_line, ending_words, visit_line};
ghost use Rattle.plan_schedule.specs.Lines.{cleaning_line, left_line, arrived_line};

use people_names::Names;
use plan_explain::{Label, Line, push_job_at, push_line, put_job, put_visit};
use shop_base::{JobNo, MachineNo, Moment};
use std::alloc::AllocError;

/// A visit of a job to a machine: when its operation begins and ends, its deadline, whether it is done, and when the
/// job leaves.
#[derive(Clone, Copy)]
pub(crate) struct ScheduledVisit {
    pub label: Label,
    pub machine: MachineNo,
    pub from: Moment,
    pub to: Moment,
    pub due: Option<Moment>,
    pub done: bool,
    pub leaves: Moment,
}

/// A cleaning of a machine: when it begins and ends, and its deadline.
#[derive(Clone, Copy)]
pub(crate) struct Cleaning {
    pub machine: MachineNo,
    pub from: Moment,
    pub to: Moment,
    pub due: Option<Moment>,
}

/// Adds `job J arrives R by D`, without ` by D` if there is no deadline to print.
pub(crate) fn push_arrival_line(
    text: &mut Vec<u8>,
    names: &Names,
    job: JobNo,
    release: Moment,
    due: Option<Moment>,
) -> Result<(), AllocError>
    ensures { OnOk result (text.new.items ≡ text.old.items ++ arrival_line names.now job release due) }
{
    let mut line = Line::ended();
    put_due(&mut line, names, due);
    push_job_at(text, names, &mut line, job, b" arrives ", release)
}

/// Adds `job J on machine M from E to F by D leaves L`; of a visit that the job is in `.. since E to F by D leaves L`,
/// or `.. since E done leaves L`.
#[inline(always)]
pub(crate) fn push_visit_line(
    text: &mut Vec<u8>,
    names: &Names,
    begins: &[u8],
    visit: ScheduledVisit,
) -> Result<(), AllocError>
    requires { length begins.now ≤ 20 }
    ensures { OnOk result (text.new.items ≡ text.old.items ++ visit_line names.now begins.now visit) }
{
    let mut line = Line::ended();
    names.put_moment(&mut line, visit.leaves);
    line.put_text(b" leaves ");
    put_ending(&mut line, names, visit);
    names.put_moment(&mut line, visit.from);
    line.put_text(begins);
    names.put_machine(&mut line, visit.machine);
    put_visit(&mut line, names, visit.label, b" on machine ");
    push_line(text, &line)
}

/// Writes when the operation ends, or that it is done.
#[inline(always)]
fn put_ending(line: &mut Line, names: &Names, visit: ScheduledVisit)
    requires { length line.old ≤ 60 }
    ensures written { line.new ≡ ending_words names.now visit line.old }
    ensures length { length line.new ≤ 66 + length line.old }
{
    if visit.done {
        line.put_text(b" done");
    } else {
        put_due(line, names, visit.due);
        names.put_moment(line, visit.to);
        line.put_text(b" to ");
    }
}

/// Adds `machine M cleaned from L to C by D`, or `.. since L to C by D` if the cleaning goes on; nothing if there is
/// none.
pub(crate) fn push_cleaning_line(
    text: &mut Vec<u8>,
    names: &Names,
    begins: &[u8],
    cleaning: Option<Cleaning>,
) -> Result<(), AllocError>
    requires { length begins.now ≤ 20 }
    ensures { OnOk result (text.new.items ≡ text.old.items ++ cleaning_line names.now begins.now cleaning) }
{
    let Some(cleaning) = cleaning else {
        return Ok(());
    };
    let mut line = Line::ended();
    put_due(&mut line, names, cleaning.due);
    names.put_moment(&mut line, cleaning.to);
    line.put_text(b" to ");
    names.put_moment(&mut line, cleaning.from);
    line.put_text(begins);
    names.put_machine(&mut line, cleaning.machine);
    line.put_text(b"machine ");
    push_line(text, &line)
}

/// Writes the deadline, if there is one to print.
#[inline(always)]
fn put_due(line: &mut Line, names: &Names, due: Option<Moment>)
    requires { length line.old ≤ 60 }
    ensures written { line.new ≡ words_and (due_words names.now due) line.old }
    ensures length { length line.new ≤ 33 + length line.old }
{
    if let Some(deadline) = due {
        put_deadline(line, names, deadline);
    }
}

#[inline(always)]
fn put_deadline(line: &mut Line, names: &Names, deadline: Moment)
    requires { length line.old ≤ 60 }
    ensures written { line.new ≡ words_and (due_words names.now (Some deadline)) line.old }
    ensures length { length line.new ≤ 33 + length line.old }
{
    if names.prints_deadline(deadline) {
        names.put_moment(line, deadline);
        line.put_text(b" by ");
    }
}

/// Adds `job J left L`.
pub(crate) fn push_left_line(
    text: &mut Vec<u8>,
    names: &Names,
    job: JobNo,
    left: Moment,
) -> Result<(), AllocError>
    ensures { OnOk result (text.new.items ≡ text.old.items ++ left_line names.now job left) }
{
    let mut line = Line::ended();
    push_job_at(text, names, &mut line, job, b" left ", left)
}

/// Adds `job J has arrived`.
pub(crate) fn push_arrived_line(
    text: &mut Vec<u8>,
    names: &Names,
    job: JobNo,
) -> Result<(), AllocError>
    ensures { OnOk result (text.new.items ≡ text.old.items ++ arrived_line names.now job) }
{
    let mut line = Line::ended();
    put_job(&mut line, names, job, b" has arrived");
    push_line(text, &line)
}
