//! The parts of a box's text, each written before what there is.

ghost use Rattle.std.specs.Prelude.{◌≡◌, ◌+◌, ◌≤◌, length};
ghost use Rattle.run_picture.specs.BoxText.{class_onto, late_onto, thin_onto, path_onto, edge_onto, numbers_onto};
ghost use Rattle.run_picture.specs.BoxText.{kind_onto, title_onto, name_onto, over_onto, label_onto};
ghost use Rattle.run_picture.specs.declared.box_parts.TheConstants.{BOX_ROOM};

use crate::drawn_box::{BoxKind, DrawnBox};
use crate::words::{put_job, put_machine};
use people_names::Names;
use shop_base::{JobNo, MachineNo};
use text_lines::LineText;

/// The room of a box's text, in bytes.
pub(crate) const BOX_ROOM: usize = 1_200;

/// The text of a box. All are shorter than its room.
pub(crate) type BoxLine = LineText<BOX_ROOM>;

/// Where a box lies, in tenths of a pixel.
#[derive(Clone, Copy)]
pub(crate) struct Edges {
    pub left: u64,
    pub right: u64,
    pub top: u64,
    pub bottom: u64,
    /// Where a word is in it.
    pub foot: u64,
}

/// Writes the class of a box: its kind, and the number of its job's colour.
pub(crate) fn put_class(line: &mut BoxLine, kind: BoxKind, job: JobNo)
    requires { length line.old ≤ 1_150 }
    ensures written { line.new ≡ class_onto kind job line.old }
    ensures length { length line.new ≤ 20 + length line.old }
{
    match kind {
        BoxKind::Work => {
            line.put_short_number(job % 24);
            line.put_text(b"work c");
        }
        BoxKind::Wait => {
            line.put_short_number(job % 24);
            line.put_text(b"wait c");
        }
        BoxKind::Clean => line.put_text(b"clean"),
    }
}

/// Writes whether the job of a box is late.
pub(crate) fn put_late(line: &mut BoxLine, late: bool)
    requires { length line.old ≤ 1_145 }
    ensures written { line.new ≡ late_onto late line.old }
    ensures length { length line.new ≤ 5 + length line.old }
{
    if late {
        line.put_text(b" late");
    }
}

/// Writes whether a box is so narrow that its outline has its colour.
pub(crate) fn put_thin(line: &mut BoxLine, edges: Edges)
    requires left { edges.left ≤ 11_500 }
    requires line { length line.old ≤ 1_140 }
    ensures written { line.new ≡ thin_onto edges line.old }
    ensures length { length line.new ≤ 5 + length line.old }
{
    if edges.right < edges.left + 20 {
        line.put_text(b" thin");
    }
}

/// Writes the path along the edges of a box. That on the right is left out where what it shows isn't over.
pub(crate) fn put_path(line: &mut BoxLine, edges: Edges, over: bool)
    requires { length line.old ≤ 1_020 }
    ensures written { line.new ≡ path_onto edges over line.old }
    ensures length { length line.new ≤ 110 + length line.old }
{
    put_edge(line, over);
    line.put_number(edges.right);
    line.put_text(b"H");
    line.put_number(edges.bottom);
    line.put_text(b"V");
    line.put_number(edges.left);
    line.put_text(b"H");
    line.put_number(edges.top);
    line.put_text(b" ");
    line.put_number(edges.right);
    line.put_text(b"M");
}

fn put_edge(line: &mut BoxLine, over: bool)
    requires { length line.old ≤ 1_100 }
    ensures written { line.new ≡ edge_onto over line.old }
    ensures length { length line.new ≤ 1 + length line.old }
{
    if over {
        line.put_text(b"Z");
    }
}

/// Writes the numbers of a box, and its kind.
pub(crate) fn put_numbers(line: &mut BoxLine, drawn: DrawnBox)
    requires { length line.old ≤ 880 }
    ensures written { line.new ≡ numbers_onto drawn line.old }
    ensures length { length line.new ≤ 140 + length line.old }
{
    line.put_text(b"\"");
    put_kind(line, drawn.kind);
    line.put_text(b"\" data-kind=\"");
    line.put_number(drawn.to);
    line.put_text(b"\" data-to=\"");
    line.put_number(drawn.from);
    line.put_text(b"\" data-from=\"");
    line.put_short_number(drawn.machine);
    line.put_text(b"\" data-machine=\"");
    line.put_short_number(drawn.job);
    line.put_text(b" data-job=\"");
}

fn put_kind(line: &mut BoxLine, kind: BoxKind)
    requires { length line.old ≤ 1_100 }
    ensures written { line.new ≡ kind_onto kind line.old }
    ensures length { length line.new ≤ 5 + length line.old }
{
    match kind {
        BoxKind::Work => line.put_text(b"work"),
        BoxKind::Wait => line.put_text(b"wait"),
        BoxKind::Clean => line.put_text(b"clean"),
    }
}

/// Writes what a box shows, in words.
pub(crate) fn put_title(line: &mut BoxLine, names: &Names, drawn: DrawnBox)
    requires { length line.old ≤ 340 }
    ensures written { line.new ≡ title_onto names.now drawn line.old }
    ensures length { length line.new ≤ 510 + length line.old }
{
    put_over(line, drawn.over);
    names.put_moment(line, drawn.to);
    line.put_text(b" to ");
    names.put_moment(line, drawn.from);
    line.put_text(b" from ");
    put_name(line, names, drawn.kind, drawn.job, drawn.machine);
}

fn put_over(line: &mut BoxLine, over: bool)
    requires { length line.old ≤ 1_100 }
    ensures written { line.new ≡ over_onto over line.old }
    ensures length { length line.new ≤ 10 + length line.old }
{
    if !over {
        line.put_text(b", not over");
    }
}

fn put_name(line: &mut BoxLine, names: &Names, kind: BoxKind, job: JobNo, machine: MachineNo)
    requires { length line.old ≤ 420 }
    ensures written { line.new ≡ name_onto names.now kind job machine line.old }
    ensures length { length line.new ≤ 430 + length line.old }
{
    match kind {
        BoxKind::Work => {
            put_machine(line, names, machine);
            line.put_text(b" on machine ");
            put_job(line, names, job);
            line.put_text(b"job ");
        }
        BoxKind::Wait => {
            put_machine(line, names, machine);
            line.put_text(b" waits on machine ");
            put_job(line, names, job);
            line.put_text(b"job ");
        }
        BoxKind::Clean => {
            put_job(line, names, job);
            line.put_text(b" cleaned after job ");
            put_machine(line, names, machine);
            line.put_text(b"machine ");
        }
    }
}

/// Writes the job in the middle of a box.
pub(crate) fn put_label(line: &mut BoxLine, names: &Names, job: JobNo, edges: Edges)
    requires left { edges.left ≤ 11_500 }
    requires right { edges.right ≤ 11_500 }
    requires line { length line.old ≤ 20 }
    ensures written { line.new ≡ label_onto names.now job edges line.old }
    ensures length { length line.new ≤ 300 + length line.old }
{
    line.put_text(b"</text>");
    put_job(line, names, job);
    line.put_text(b"\">");
    line.put_number(edges.foot);
    line.put_text(b"\" y=\"");
    line.put_number((edges.left + edges.right) / 2);
    line.put_text(b"\" x=\"");
    line.put_short_number(job % 24);
    line.put_text(b"<text class=\"t");
}
