//! The lines of a state.

ghost use Rattle.std.specs.Prelude.{◌≡◌, ◌+◌, ◌≤◌, ◌++◌, codes, false, length, OnOk};
ghost use Rattle.people_names.specs.Words.{visit_word};
ghost use Rattle.event_lines.specs.Words.{words_before};
ghost use Rattle.run_state.specs.StateLines.{since_words, target_words, standing_words, now_line, overdue_end};
ghost use Rattle.run_state.specs.StateLines.{standing_line, left_line, reports_line};

use cell_tables::{Standing, Visit};
use people_names::Names;
use shop_base::{Moment, Spot};
use std::alloc::AllocError;
use text_lines::LineText;

/// The bytes of the longest line: two names of 40 bytes and a step, two moments of 29 bytes, and the words.
const ROOM: usize = 200;

type Line = LineText<ROOM>;

/// Adds `now N`.
pub(crate) fn push_now_line(text: &mut Vec<u8>, names: &Names, at: Moment) -> Result<(), AllocError>
    ensures { OnOk result (text.new.items ≡ text.old.items ++ now_line names.now at) }
{
    let mut line = Line::ended();
    names.put_moment(&mut line, at);
    line.put_text(b"now ");
    text.extend_from_slice(line.bytes())
}

/// Adds the line of a job that isn't gone, or of a machine that is being cleaned.
pub(crate) fn push_standing_line(
    text: &mut Vec<u8>,
    names: &Names,
    standing: Standing,
    at: Moment,
) -> Result<(), AllocError>
    ensures { OnOk result (text.new.items ≡ text.old.items ++ standing_line names.now at standing) }
{
    let mut line = Line::ended();
    put_overdue(&mut line, standing.is_overdue(at));
    put_standing(&mut line, names, standing);
    text.extend_from_slice(line.bytes())
}

/// Adds `left K of J`.
pub(crate) fn push_left_line(text: &mut Vec<u8>, left: u32, jobs: u32) -> Result<(), AllocError>
    ensures { OnOk result (text.new.items ≡ text.old.items ++ left_line left jobs) }
{
    let mut line = Line::ended();
    line.put_short_number(jobs);
    line.put_text(b" of ");
    line.put_short_number(left);
    line.put_text(b"left ");
    text.extend_from_slice(line.bytes())
}

/// Adds `reports K`.
pub(crate) fn push_reports_line(text: &mut Vec<u8>, left: u64) -> Result<(), AllocError>
    ensures { OnOk result (text.new.items ≡ text.old.items ++ reports_line left) }
{
    let mut line = Line::ended();
    line.put_number(left);
    line.put_text(b"reports ");
    text.extend_from_slice(line.bytes())
}

/// Writes ` overdue` before the line feed alone, if it is.
fn put_overdue(line: &mut Line, overdue: bool)
    requires { line.old ≡ overdue_end false }
    ensures written { line.new ≡ overdue_end overdue }
    ensures length { length line.new ≤ 9 }
{
    if overdue {
        line.put_text(b" overdue");
    }
}

/// Writes `since S due D` before what there is.
fn put_since(line: &mut Line, names: &Names, since: Moment, due: Moment)
    requires { length line.old ≤ 9 }
    ensures written { line.new ≡ words_before (since_words names.now since due) line.old }
    ensures length { length line.new ≤ 69 + length line.old }
{
    names.put_moment(line, due);
    line.put_text(b" due ");
    names.put_moment(line, since);
    line.put_text(b"since ");
}

/// Writes what a job waits for before what there is.
fn put_target(line: &mut Line, names: &Names, target: Spot)
    requires { length line.old ≤ 9 }
    ensures written { line.new ≡ words_before (target_words names.now target) line.old }
    ensures length { length line.new ≤ 52 + length line.old }
{
    match target {
        Spot::Out => line.put_text(b"to leave"),
        Spot::At(machine) => {
            names.put_machine(line, machine);
            line.put_text(b"for machine ");
        }
    }
}

/// Writes `job J`, with the step where its visits are told apart by it, and these words before what there is.
fn put_visit(line: &mut Line, names: &Names, visit: Visit, words: &[u8])
    requires words { length words.now ≤ 20 }
    requires room { 75 + length line.old ≤ ROOM }
    ensures written { line.new
        ≡ codes "job " ++ (visit_word names.now visit.job visit.step ++ (words.now ++ line.old)) }
    ensures length { length line.new ≤ 55 + (length words.now + length line.old) }
{
    line.put_text(words);
    names.put_visit(line, visit.job, visit.step);
    line.put_text(b"job ");
}

/// Writes the words of how it stands before what there is.
fn put_standing(line: &mut Line, names: &Names, standing: Standing)
    requires { length line.old ≤ 9 }
    ensures written { line.new ≡ words_before (standing_words names.now standing) line.old }
    ensures length { length line.new ≤ ROOM }
{
    match standing {
        Standing::Awaited { job, due } => {
            names.put_moment(line, due);
            line.put_text(b" arrives ");
            names.put_job(line, job);
            line.put_text(b"job ");
        }
        Standing::Outside { job, target } => {
            put_target(line, names, target);
            line.put_text(b" waits outside ");
            names.put_job(line, job);
            line.put_text(b"job ");
        }
        Standing::Worked {
            visit,
            machine,
            since,
            due,
        } => {
            put_since(line, names, since, due);
            line.put_text(b" ");
            names.put_machine(line, machine);
            put_visit(line, names, visit, b" on machine ");
        }
        Standing::Done {
            visit,
            machine,
            target,
        } => {
            put_target(line, names, target);
            line.put_text(b" ");
            names.put_machine(line, machine);
            put_visit(line, names, visit, b" waits on machine ");
        }
        Standing::Cleaned {
            machine,
            after,
            since,
            due,
        } => {
            put_since(line, names, since, due);
            put_visit(line, names, after, b" ");
            line.put_text(b" cleaned after ");
            names.put_machine(line, machine);
            line.put_text(b"machine ");
        }
        Standing::Gone { job: _, at: _ } | Standing::Clean { machine: _ } => {}
    }
}
