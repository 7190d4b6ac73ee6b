//! The text of a box.

ghost use Rattle.std.specs.Prelude.{◌≡◌, ◌+◌, ◌≤◌, length, OnOk};
ghost use Rattle.run_picture.specs.BoxText.{edges_of, has_room, label_if_room, box_text_at, box_text};
ghost use Rattle.byte_streams.specs.Lent.{WroteTo};

use crate::axis::x_at;
use crate::box_parts::{
    BoxLine, Edges, put_class, put_label, put_late, put_numbers, put_path, put_thin, put_title,
};
use crate::drawn_box::{BoxKind, DrawnBox};
use crate::frame::{bottom_of, foot_of, top_of};
use crate::words::{job_name, width_of};
use byte_streams::{Sink, WriteFault, put_all};
use people_names::Names;
use shop_base::{JobNo, Moment};

/// Writes a box.
pub(crate) fn put_box<W: Sink>(
    output: &mut W,
    names: &Names,
    last: Moment,
    drawn: DrawnBox,
) -> Result<(), WriteFault>
    ensures wrote { WroteTo W.Sink result output.old output.new (box_text names.now last drawn) }
    ensures unfailed { OnOk result (W.failed output.new ≡ W.failed output.old) }
{
    let line = box_line(names, edges_of(last, drawn), drawn);
    put_all(output, line.bytes())
}

fn edges_of(last: Moment, drawn: DrawnBox) -> Edges
    ensures are { result ≡ edges_of last drawn }
    ensures left { result.left ≤ 11_500 }
    ensures right { result.right ≤ 11_500 }
{
    Edges {
        left: x_at(last, drawn.from),
        right: x_at(last, drawn.to),
        top: top_of(drawn.machine),
        bottom: bottom_of(drawn.machine),
        foot: foot_of(drawn.machine),
    }
}

fn box_line(names: &Names, edges: Edges, drawn: DrawnBox) -> BoxLine
    requires left { edges.left ≤ 11_500 }
    requires right { edges.right ≤ 11_500 }
    ensures { result ≡ box_text_at names.now edges drawn }
{
    let mut line = BoxLine::ended();
    put_label_if_room(&mut line, names, drawn.kind, drawn.job, edges);
    line.put_text(b"</title></path>");
    put_title(&mut line, names, drawn);
    line.put_text(b"><title>");
    put_numbers(&mut line, drawn);
    line.put_text(b"\"");
    put_path(&mut line, edges, drawn.over);
    line.put_text(b"\" d=\"");
    put_thin(&mut line, edges);
    put_late(&mut line, drawn.late);
    put_class(&mut line, drawn.kind, drawn.job);
    line.put_text(b"<path class=\"");
    line
}

/// Writes the job in the box of an operation, if there is room.
fn put_label_if_room(line: &mut BoxLine, names: &Names, kind: BoxKind, job: JobNo, edges: Edges)
    requires left { edges.left ≤ 11_500 }
    requires right { edges.right ≤ 11_500 }
    requires line { length line.old ≤ 20 }
    ensures written { line.new ≡ label_if_room names.now kind job edges line.old }
    ensures length { length line.new ≤ 300 + length line.old }
{
    match kind {
        BoxKind::Work => {
            if has_room(names, job, edges) {
                put_label(line, names, job, edges);
            }
        }
        BoxKind::Wait | BoxKind::Clean => {}
    }
}

fn has_room(names: &Names, job: JobNo, edges: Edges) -> bool
    requires { edges.left ≤ 11_500 }
    ensures { result ≡ has_room names.now job edges }
{
    edges.left + (40 + width_of(70, job_name(names, job).bytes())) <= edges.right
}
