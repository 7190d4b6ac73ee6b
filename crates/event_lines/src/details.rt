//! What an answer says after its first words, from version 2 of the lines on: the state of a job or a machine, and
//! what is overdue.

ghost use Rattle.std.specs.Prelude.{◌≡◌, ◌+◌, ◌≤◌, [], ◌∷◌, ◌++◌, length, codes, decimal};
ghost use Rattle.event_lines.specs.Words.{words_before, written};
ghost use Rattle.event_lines.specs.StandingLines.{since_words, target_words, shown_word, standing_words, detail_end, others_end};
ghost use Rattle.event_lines.specs.StandingLines.{unfinished_standing_line, refused_detail_line, late_overdue_line};

use crate::orders::put_spot;
use cell_tables::{Standing, Visit};
use shop_base::{MachineNo, Moment, Spot};
use text_lines::LineText;

/// What the controller has instead of what was reported.
#[derive(Clone, Copy, Debug)]
pub enum Detail {
    /// Nothing is added.
    Nothing,
    /// The last moment.
    Last(Moment),
    /// The state of the job or the machine.
    Stands(Standing),
}

/// What should have ended before a moment: one, and how many others.
#[derive(Clone, Copy, Debug)]
pub struct Overdue {
    pub first: Standing,
    pub others: u32,
}

/// A line with such words. All are shorter than its room.
pub type DetailText = LineText<176>;

/// Writes `since S due D` before what there is.
fn put_since<const ROOM: usize>(line: &mut LineText<ROOM>, since: Moment, due: Moment)
    requires { 52 + length line.old ≤ ROOM }
    ensures written { line.new ≡ words_before (since_words since due) line.old }
    ensures length { length line.new ≤ 52 + length line.old }
{
    line.put_number(due);
    line.put_text(b" due ");
    line.put_number(since);
    line.put_text(b"since ");
}

/// Writes `for machine M` before what there is.
fn put_target<const ROOM: usize>(line: &mut LineText<ROOM>, target: Spot)
    requires { 22 + length line.old ≤ ROOM }
    ensures written { line.new ≡ words_before (target_words target) line.old }
    ensures length { length line.new ≤ 22 + length line.old }
{
    put_spot(line, target);
    line.put_text(b"for machine ");
}

/// Writes the number of a job, and behind a dot its step if the visit is told by it, before what there is.
fn put_visit<const ROOM: usize>(line: &mut LineText<ROOM>, visit: Visit)
    requires { 21 + length line.old ≤ ROOM }
    ensures written { line.new ≡ written (shown_word visit.job visit.step) ++ line.old }
    ensures length { length line.new ≤ 21 + length line.old }
{
    if let Some(step) = visit.step {
        line.put_short_number(step);
        line.put_text(b".");
    }
    line.put_short_number(visit.job);
}

/// Writes this text, the number of a job or a machine, and these words before what there is.
fn put_named<const ROOM: usize>(line: &mut LineText<ROOM>, text: &[u8], number: u32, words: &[u8])
    requires { length text.now + (10 + (length words.now + length line.old)) ≤ ROOM }
    ensures written { line.new ≡ text.now ++ (decimal number ++ (words.now ++ line.old)) }
    ensures length { length line.new ≤ length text.now + (10 + (length words.now + length line.old)) }
{
    line.put_text(words);
    line.put_short_number(number);
    line.put_text(text);
}

/// Writes the words of a job that is on the machine before what there is.
fn put_on<const ROOM: usize>(
    line: &mut LineText<ROOM>,
    visit: Visit,
    words: &[u8],
    machine: MachineNo,
)
    requires words { length words.now ≤ 18 }
    requires room { 54 + length line.old ≤ ROOM }
    ensures written { line.new ≡ codes "job "
        ++ (written (shown_word visit.job visit.step) ++ (words.now ++ (decimal machine ++ 32 ∷ line.old))) }
    ensures length { length line.new ≤ 54 + length line.old }
{
    put_named(line, words, machine, b" ");
    put_visit(line, visit);
    line.put_text(b"job ");
}

/// Writes the words of the state before what the line has.
fn put_standing<const ROOM: usize>(line: &mut LineText<ROOM>, standing: Standing)
    requires { 111 + length line.old ≤ ROOM }
    ensures written { line.new ≡ words_before (standing_words standing) line.old }
    ensures length { length line.new ≤ 111 + length line.old }
{
    match standing {
        Standing::Awaited { job, due } => {
            line.put_number(due);
            put_named(line, b"job ", job, b" arrives ");
        }
        Standing::Outside { job, target } => {
            put_target(line, target);
            put_named(line, b"job ", job, b" waits outside ");
        }
        Standing::Worked {
            visit,
            machine,
            since,
            due,
        } => {
            put_since(line, since, due);
            put_on(line, visit, b" on machine ", machine);
        }
        Standing::Done {
            visit,
            machine,
            target,
        } => {
            put_target(line, target);
            put_on(line, visit, b" waits on machine ", machine);
        }
        Standing::Gone { job, at } => {
            line.put_number(at);
            put_named(line, b"job ", job, b" has left at ");
        }
        Standing::Cleaned {
            machine,
            after,
            since,
            due,
        } => {
            put_since(line, since, due);
            line.put_text(b" ");
            put_visit(line, after);
            put_named(line, b"machine ", machine, b" cleaned after job ");
        }
        Standing::Clean { machine } => put_named(line, b"machine ", machine, b" is clean"),
    }
}

/// Makes a line feed alone the line of what is so at the time: `unfinished WORDS`. The line is written where it lies,
/// since a state has one for each job and is asked for often.
pub fn put_unfinished_standing(line: &mut DetailText, standing: Standing)
    requires { line.old ≡ 10 ∷ [] }
    ensures { line.new ≡ unfinished_standing_line standing }
{
    put_standing(line, standing);
    line.put_text(b"unfinished ");
}

/// Writes the words of a detail, if it has any, and a space before them.
fn put_detail(line: &mut DetailText, detail: Detail)
    requires { line.old ≡ 10 ∷ [] }
    ensures written { line.new ≡ detail_end detail }
    ensures length { length line.new ≤ 113 }
{
    match detail {
        Detail::Nothing => {}
        Detail::Last(at) => {
            line.put_number(at);
            line.put_text(b" last ");
        }
        Detail::Stands(standing) => {
            put_standing(line, standing);
            line.put_text(b" ");
        }
    }
}

/// The line of this number was refused: `refused LINE NAME WORDS`.
pub fn refused_detail_line(number: u64, name: &[u8], detail: Detail) -> DetailText
    requires { length name.now ≤ 20 }
    ensures { result ≡ refused_detail_line number name.now detail }
{
    let mut line = DetailText::ended();
    put_detail(&mut line, detail);
    line.put_text(name);
    line.put_text(b" ");
    line.put_number(number);
    line.put_text(b"refused ");
    line
}

/// Writes ` and K more` if there are others.
fn put_others(line: &mut DetailText, others: u32)
    requires { line.old ≡ 10 ∷ [] }
    ensures written { line.new ≡ others_end others }
    ensures length { length line.new ≤ 21 }
{
    if others > 0 {
        line.put_text(b" more");
        line.put_short_number(others);
        line.put_text(b" and ");
    }
}

/// A report was late, since something should have ended before it: `late T WORDS`.
pub fn late_overdue_line(at: Moment, overdue: Overdue) -> DetailText
    ensures { result ≡ late_overdue_line at overdue }
{
    let mut line = DetailText::ended();
    put_others(&mut line, overdue.others);
    put_standing(&mut line, overdue.first);
    line.put_text(b" ");
    line.put_number(at);
    line.put_text(b"late ");
    line
}
