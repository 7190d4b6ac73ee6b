//! Nodes and arcs in words, each before what a line has already.

ghost use Rattle.std.specs.Prelude.{◌≡◌, ◌+◌, ◌≤◌, [], ◌∷◌, ◌++◌, length, codes, OnOk};
ghost use Rattle.shop_base.specs.NodeText.{node_text};
ghost use Rattle.people_names.specs.Words.{job_word, moment_word};
ghost use Rattle.plan_explain.specs.Labels.{label_word};
ghost use Rattle.plan_explain.specs.Arcs.{words_and, clean_words, arc_words};
ghost use Rattle.plan_explain.specs.declared.words.TheConstants.{LINE_ROOM};

use crate::arcs::ArcKind;
use crate::labels::Label;
use people_names::Names;
use shop_base::{JobNo, Moment, Node};
use std::alloc::AllocError;

/// The room of a line, in bytes.
pub const LINE_ROOM: usize = 272;

/// A line of an explanation or a schedule. All are shorter than its room.
pub type Line = text_lines::LineText<LINE_ROOM>;

/// Writes the node as `j.k`.
#[inline(always)]
pub(crate) fn put_node(line: &mut Line, node: Node)
    requires { 21 + length line.old ≤ LINE_ROOM }
    ensures written { line.new ≡ node_text node ++ line.old }
    ensures length { length line.new ≤ 21 + length line.old }
{
    line.put_short_number(node.place);
    line.put_text(b".");
    line.put_short_number(node.job);
}

/// Writes `job J` and these words.
#[inline(always)]
pub fn put_job(line: &mut Line, names: &Names, job: JobNo, words: &[u8])
    requires { 44 + length words.now + length line.old ≤ LINE_ROOM }
    ensures written { line.new ≡ words_and (codes "job " ∷ job_word names.now job ∷ words.now ∷ []) line.old }
    ensures length { length line.new ≤ 44 + length words.now + length line.old }
{
    line.put_text(words);
    names.put_job(line, job);
    line.put_text(b"job ");
}

/// Writes `job J`, with the step where the label has one, and these words.
#[inline(always)]
pub fn put_visit(line: &mut Line, names: &Names, visit: Label, words: &[u8])
    requires { 55 + length words.now + length line.old ≤ LINE_ROOM }
    ensures written { line.new ≡ words_and (codes "job " ∷ label_word names.now visit ∷ words.now ∷ []) line.old }
    ensures length { length line.new ≤ 55 + length words.now + length line.old }
{
    line.put_text(words);
    names.put_visit(line, visit.job, visit.step);
    line.put_text(b"job ");
}

/// Writes that the machine is cleaned, if it has a cleaning time.
fn put_clean(line: &mut Line, clean: Moment)
    requires { length line.old ≤ 1 }
    ensures written { line.new ≡ clean_words clean ++ line.old }
    ensures length { length line.new ≤ 33 + length line.old }
{
    if clean > 0 {
        line.put_number(clean);
        line.put_text(b" cleaned for ");
    }
}

/// Writes what the arc is.
#[inline(always)]
pub(crate) fn put_arc(line: &mut Line, names: &Names, arc: ArcKind)
    requires { length line.old ≤ 1 }
    ensures written { line.new ≡ words_and (arc_words names.now arc) line.old }
    ensures length { length line.new ≤ 201 + length line.old }
{
    match arc {
        ArcKind::Job {
            visit,
            machine,
            nominal,
        } => {
            line.put_number(nominal);
            line.put_text(b" for ");
            names.put_machine(line, machine);
            put_visit(line, names, visit, b" on machine ");
        }
        ArcKind::Blocking {
            machine,
            from,
            to,
            clean,
        } => {
            put_clean(line, clean);
            names.put_visit(line, to.job, to.step);
            line.put_text(b" to job ");
            names.put_visit(line, from.job, from.step);
            line.put_text(b" from job ");
            names.put_machine(line, machine);
            line.put_text(b"machine ");
        }
    }
}

/// Adds `job J`, these words, the moment and what the line has; fails only when out of memory.
pub fn push_job_at(
    text: &mut Vec<u8>,
    names: &Names,
    line: &mut Line,
    job: JobNo,
    words: &[u8],
    moment: Moment,
) -> Result<(), AllocError>
    requires { 73 + length words.now + length line.old ≤ LINE_ROOM }
    ensures { OnOk result (text.new.items ≡ text.old.items
        ++ words_and (codes "job " ∷ job_word names.now job ∷ words.now ∷ moment_word names.now moment ∷ []) line.old) }
{
    names.put_moment(line, moment);
    put_job(line, names, job, words);
    push_line(text, line)
}

/// Adds the line, and fails only when out of memory.
pub fn push_line(text: &mut Vec<u8>, line: &Line) -> Result<(), AllocError>
    ensures { OnOk result (text.new.items ≡ text.old.items ++ line.now) }
{
    text.extend_from_slice(line.bytes())?;
    Ok(())
}
