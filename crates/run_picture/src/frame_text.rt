//! What is around the boxes, in text.

ghost use Rattle.std.specs.Prelude.{◌≡◌, ◌+◌, ◌≤◌, ◌++◌, length, Some};
ghost use Rattle.run_picture.specs.PictureText.{style_text, colour_text, left_edge, size_text, ground_text, end_word};
ghost use Rattle.run_picture.specs.PictureText.{head_words, words_text, moment_text, row_text, mark_text, present_text};

use crate::axis::x_at;
use crate::frame::{bottom_of, foot_of, height_for, rows_end};
use crate::head::Head;
use crate::late_leaving::LateLeaving;
use crate::words::put_machine;
use people_names::Names;
use shop_base::{MachineNo, Moment};
use text_lines::LineText;

/// A line of the frame. All are shorter than its room.
pub(crate) type FrameLine = LineText<320>;

/// How texts, outlines and kinds of boxes are drawn.
pub(crate) fn style_text() -> &'static [u8]
    ensures { result.now ≡ style_text }
{
    b"<style>text{font:110px sans-serif;fill:#222;text-anchor:middle;pointer-events:none}.row{text-anchor:end}.head{text-anchor:start;font-weight:bold}path{stroke:#222;stroke-width:5}.paper{fill:#fff;stroke:none}.line{fill:none;stroke:#ccc}.wait{fill-opacity:.35}.clean{fill:#c8c8c8;color:#c8c8c8}.thin{stroke:currentColor}.late{stroke:#d00;stroke-width:18}.mark{fill:#d00;stroke:#d00;stroke-width:18}.now{fill:none;stroke:#06c;stroke-width:18}\n"
}

/// The colours of jobs, and the ink of their numbers.
pub(crate) fn colour_text() -> &'static [u8]
    ensures { result.now ≡ colour_text }
{
    b".c0{fill:#3399ff;color:#3399ff}.c1{fill:#bbaa88;color:#bbaa88}.c2{fill:#227722;color:#227722}.c3{fill:#bbeeff;color:#bbeeff}.c4{fill:#775577;color:#775577}.c5{fill:#999922;color:#999922}.c6{fill:#88ffcc;color:#88ffcc}.c7{fill:#3366cc;color:#3366cc}.c8{fill:#bb99bb;color:#bb99bb}.c9{fill:#446655;color:#446655}.c10{fill:#bbdd66;color:#bbdd66}.c11{fill:#998888;color:#998888}.c12{fill:#ff7766;color:#ff7766}.c13{fill:#22aa99;color:#22aa99}.c14{fill:#eebbaa;color:#eebbaa}.c15{fill:#8888cc;color:#8888cc}.c16{fill:#55aa55;color:#55aa55}.c17{fill:#ee7799;color:#ee7799}.c18{fill:#aabbdd;color:#aabbdd}.c19{fill:#996666;color:#996666}.c20{fill:#ffdd99;color:#ffdd99}.c21{fill:#22bbee;color:#22bbee}.c22{fill:#bb4499;color:#bb4499}.c23{fill:#bb3355;color:#bb3355}.t2,.t4,.t7,.t9,.t19,.t22,.t23{fill:#fff}</style>\n"
}

/// How large the picture is.
pub(crate) fn size_line(margin: u64, machines: u32) -> FrameLine
    requires { margin ≤ 4_240 }
    ensures { result ≡ size_text margin machines }
{
    let (width, height) = (12_000 + margin, height_for(machines));
    let mut line = FrameLine::ended();
    line.put_text(b"\">");
    line.put_number(height);
    line.put_text(b" ");
    line.put_number(width);
    line.put_text(b" 0 ");
    put_left_edge(&mut line, margin);
    line.put_text(b"\" viewBox=\"");
    line.put_number(height / 10);
    line.put_text(b"\" height=\"");
    line.put_number(width / 10);
    line.put_text(b"<svg xmlns=\"http://www.w3.org/2000/svg\" width=\"");
    line
}

/// Its ground, and what the rows are.
pub(crate) fn ground_line(margin: u64, machines: u32) -> FrameLine
    ensures { result ≡ ground_text margin machines }
{
    let mut line = FrameLine::ended();
    line.put_text(b"Z\"/>\n<text class=\"row\" x=\"600\" y=\"370\">machine</text>");
    put_left_edge(&mut line, margin);
    line.put_text(b"H");
    line.put_number(height_for(machines));
    line.put_text(b" 0H12000V");
    put_left_edge(&mut line, margin);
    line.put_text(b"<path class=\"paper\" d=\"M");
    line
}

/// Writes the left edge of a picture that goes so far to the left of 0.
fn put_left_edge(line: &mut FrameLine, margin: u64)
    requires { length line.old ≤ 200 }
    ensures written { line.new ≡ left_edge margin ++ line.old }
    ensures length { length line.new ≤ 21 + length line.old }
{
    if margin == 0 {
        line.put_text(b"0");
    } else {
        line.put_number(margin);
        line.put_text(b"-");
    }
}

/// What stands above the rows.
pub(crate) fn words_line(head: Head) -> FrameLine
    ensures { result ≡ words_text head }
{
    let mut line = FrameLine::ended();
    line.put_text(b"</text>");
    put_head_words(&mut line, head);
    line.put_text(b"<text class=\"head\" x=\"700\" y=\"130\">");
    line
}

/// Writes what stands above the rows, in words.
fn put_head_words(line: &mut FrameLine, head: Head)
    requires { length line.old ≤ 20 }
    ensures written { line.new ≡ head_words head ++ line.old }
    ensures length { length line.new ≤ 60 + length line.old }
{
    match head {
        Head::Accepted { makespan } => {
            line.put_number(makespan);
            line.put_text(b"accepted makespan ");
        }
        Head::Late { by } => {
            line.put_number(by);
            line.put_text(b"late by ");
        }
        Head::Log { last, complete } => {
            line.put_text(end_word(complete));
            line.put_number(last);
            line.put_text(b"log last ");
        }
    }
}

/// Whether the run of a log has ended, in words.
fn end_word(complete: bool) -> &'static [u8]
    ensures word { result.now ≡ end_word complete }
    ensures few { length result.now ≤ 9 }
{
    if complete { b" complete" } else { b" partial" }
}

/// A moment on the axis.
pub(crate) fn moment_line(names: &Names, machines: u32, last: Moment, moment: Moment) -> FrameLine
    ensures { result ≡ moment_text names.now machines last moment }
{
    let x = x_at(last, moment);
    let mut line = FrameLine::ended();
    line.put_text(b"</text>");
    names.put_moment(&mut line, moment);
    line.put_text(b"\" y=\"290\">");
    line.put_number(x);
    line.put_text(b"\"/><text x=\"");
    line.put_number(rows_end(machines));
    line.put_text(b" 330V");
    line.put_number(x);
    line.put_text(b"<path class=\"line\" d=\"M");
    line
}

/// A machine before its row.
pub(crate) fn row_line(names: &Names, machine: MachineNo) -> FrameLine
    ensures { result ≡ row_text names.now machine }
{
    let mut line = FrameLine::ended();
    line.put_text(b"</text>");
    put_machine(&mut line, names, machine);
    line.put_text(b"\">");
    line.put_number(foot_of(machine));
    line.put_text(b"<text class=\"row\" x=\"600\" y=\"");
    line
}

/// The mark of a leaving past the job's budget; nothing if there is none.
pub(crate) fn mark_line(last: Moment, late: Option<LateLeaving>) -> FrameLine
    ensures { result ≡ mark_text last late }
{
    match late {
        Some(leaving) => flag_line(last, leaving),
        None => FrameLine::empty(),
    }
}

fn flag_line(last: Moment, leaving: LateLeaving) -> FrameLine
    ensures { result ≡ mark_text last (Some leaving) }
{
    let mut line = FrameLine::ended();
    line.put_text(b"v-220l90 45l-90 45\"/>");
    line.put_number(bottom_of(leaving.machine));
    line.put_text(b" ");
    line.put_number(x_at(last, leaving.at));
    line.put_text(b"<path class=\"mark\" d=\"M");
    line
}

/// The line through all rows at the present moment; nothing if there is none.
pub(crate) fn present_line(machines: u32, last: Moment, present: Option<Moment>) -> FrameLine
    ensures { result ≡ present_text machines last present }
{
    match present {
        Some(moment) => now_line(machines, last, moment),
        None => FrameLine::empty(),
    }
}

fn now_line(machines: u32, last: Moment, moment: Moment) -> FrameLine
    ensures { result ≡ present_text machines last (Some moment) }
{
    let mut line = FrameLine::ended();
    line.put_text(b"\"/>");
    line.put_number(rows_end(machines));
    line.put_text(b" 330V");
    line.put_number(x_at(last, moment));
    line.put_text(b"<path class=\"now\" d=\"M");
    line
}
