//! A whole picture.

ghost use Rattle.std.specs.Prelude.{◌≡◌, ◌≤◌, [], ◌∷◌, codes, flat_map, OnOk};
ghost use Rattle.run_picture.specs.{Late.is_late, BoxText.box_text, Boxes.if_any, Parts.before};
ghost use Rattle.run_picture.specs.PictureText.{frame_text, axis_text, rows_text, visit_text, visits_text};
ghost use Rattle.run_picture.specs.PictureText.{marks_text, present_text, picture_text, IsPicture};
ghost use Rattle.byte_streams.specs.Lent.{WroteTo};

use crate::axis::Ticks;
use crate::box_text::put_box;
use crate::drawn_box::{DrawnBox, clean_box, wait_box, work_box};
use crate::frame::left_margin;
use crate::frame_text::{
    colour_text, ground_line, mark_line, moment_line, present_line, row_line, size_line,
    style_text, words_line,
};
use crate::head::{Head, Sheet};
use crate::late_leaving::LateLeaving;
use crate::visit::DrawnVisit;
use byte_streams::{Sink, WriteFault, put_all};
use people_names::Names;
use shop_base::{JobNo, Moment};
use std::marker::Model;

/// A picture of visits to machines, seen as the text of its SVG document. The text itself isn't held.
#[derive(Drop)]
pub struct Picture {
    names: Names,
    sheet: Sheet,
    ticks: Ticks,
    visits: Vec<DrawnVisit>,
    late: Vec<Option<LateLeaving>>,
}

impl Model for Picture {
    ghost use Rattle.std.specs.Prelude.{ℕ, List};
    ghost use Rattle.run_picture.specs.PictureText.{picture_text};

    ghost Value = { List ℕ };

    ghost view = { λ p. picture_text p.names p.sheet p.visits.items p.late.items p.ticks };
}

impl Picture {
    /// The picture of these visits to machines numbered from 0. Each machine has a row with its name, else its number,
    /// and the axis of time goes from 0 to the last moment. The boxes come in the order of the visits. The late
    /// leavings are given by job: those of such a job have red outlines, and its leaving a red mark.
    pub fn new(
        names: Names,
        sheet: Sheet,
        visits: Vec<DrawnVisit>,
        late: Vec<Option<LateLeaving>>,
    ) -> Picture
        ensures { IsPicture names sheet visits.items late.items result }
    {
        let ticks = Ticks::new(names.clock(), sheet.last);
        Picture {
            names,
            sheet,
            ticks,
            visits,
            late,
        }
    }

    /// Writes the picture.
    pub fn put<W: Sink>(&self, output: &mut W) -> Result<(), WriteFault>
        ensures wrote { WroteTo W.Sink result output.old output.new self.now }
        ensures unfailed { OnOk result (W.failed output.new ≡ W.failed output.old) }
    {
        put_picture(
            output,
            &self.names,
            self.sheet,
            &self.visits,
            &self.late,
            &self.ticks,
        )
    }
}

fn put_picture<W: Sink>(
    output: &mut W,
    names: &Names,
    sheet: Sheet,
    visits: &[DrawnVisit],
    late: &[Option<LateLeaving>],
    ticks: &Ticks,
) -> Result<(), WriteFault>
    ensures wrote { WroteTo W.Sink result output.old output.new
        (picture_text names.now sheet visits.now late.now ticks.now) }
    ensures unfailed { OnOk result (W.failed output.new ≡ W.failed output.old) }
{
    let margin = left_margin(names, sheet.machines);
    put_head(output, margin, sheet.machines, sheet.head)?;
    put_axis(output, names, sheet.machines, sheet.last, ticks)?;
    put_drawing(output, names, sheet, visits, late)
}

/// Writes what comes after the axis.
fn put_drawing<W: Sink>(
    output: &mut W,
    names: &Names,
    sheet: Sheet,
    visits: &[DrawnVisit],
    late: &[Option<LateLeaving>],
) -> Result<(), WriteFault>
    ensures wrote { WroteTo W.Sink result output.old output.new
        (before
        (rows_text names.now sheet.machines
        ∷ visits_text names.now sheet.last late.now visits.now
        ∷ marks_text sheet.last late.now
        ∷ present_text sheet.machines sheet.last sheet.present
        ∷ [])
        (codes "</svg>\n")) }
    ensures unfailed { OnOk result (W.failed output.new ≡ W.failed output.old) }
{
    put_rows(output, names, sheet.machines)?;
    put_visits(output, names, sheet.last, late, visits)?;
    put_marks(output, sheet.last, late)?;
    put_present(output, sheet)?;
    put_all(output, b"</svg>\n")
}

/// Writes what comes before the axis.
fn put_head<W: Sink>(
    output: &mut W,
    margin: u64,
    machines: u32,
    head: Head,
) -> Result<(), WriteFault>
    requires { margin ≤ 4_240 }
    ensures wrote { WroteTo W.Sink result output.old output.new (frame_text margin machines head) }
    ensures unfailed { OnOk result (W.failed output.new ≡ W.failed output.old) }
{
    put_all(output, size_line(margin, machines).bytes())?;
    put_all(output, style_text())?;
    put_all(output, colour_text())?;
    put_all(output, ground_line(margin, machines).bytes())?;
    put_all(output, words_line(head).bytes())
}

/// Writes the moments that the axis names.
fn put_axis<W: Sink>(
    output: &mut W,
    names: &Names,
    machines: u32,
    last: Moment,
    ticks: &Ticks,
) -> Result<(), WriteFault>
    ensures wrote { WroteTo W.Sink result output.old output.new (axis_text names.now machines last ticks.now) }
    ensures unfailed { OnOk result (W.failed output.new ≡ W.failed output.old) }
{
    for number in 0..ticks.count() {
        put_all(
            output,
            moment_line(names, machines, last, ticks.at(number)).bytes(),
        )?;
    }
    Ok(())
}

/// Writes the machines before their rows.
fn put_rows<W: Sink>(output: &mut W, names: &Names, machines: u32) -> Result<(), WriteFault>
    ensures wrote { WroteTo W.Sink result output.old output.new (rows_text names.now machines) }
    ensures unfailed { OnOk result (W.failed output.new ≡ W.failed output.old) }
{
    for machine in 0..machines {
        put_all(output, row_line(names, machine).bytes())?;
    }
    Ok(())
}

/// Writes the boxes of the visits.
fn put_visits<W: Sink>(
    output: &mut W,
    names: &Names,
    last: Moment,
    late: &[Option<LateLeaving>],
    visits: &[DrawnVisit],
) -> Result<(), WriteFault>
    ensures wrote { WroteTo W.Sink result output.old output.new (visits_text names.now last late.now visits.now) }
    ensures unfailed { OnOk result (W.failed output.new ≡ W.failed output.old) }
{
    for visit in visits {
        put_visit(output, names, last, late, *visit)?;
    }
    Ok(())
}

/// Writes the boxes of a visit.
fn put_visit<W: Sink>(
    output: &mut W,
    names: &Names,
    last: Moment,
    late: &[Option<LateLeaving>],
    visit: DrawnVisit,
) -> Result<(), WriteFault>
    ensures wrote { WroteTo W.Sink result output.old output.new (visit_text names.now last late.now visit) }
    ensures unfailed { OnOk result (W.failed output.new ≡ W.failed output.old) }
{
    let is_late = is_late(late, visit.job);
    put_box(output, names, last, work_box(last, is_late, visit))?;
    put_any(output, names, last, wait_box(last, is_late, visit))?;
    put_any(output, names, last, clean_box(last, visit))
}

/// Whether the job leaves past its budget.
fn is_late(late: &[Option<LateLeaving>], job: JobNo) -> bool
    ensures { result ≡ is_late late.now job }
{
    match late.get(job as usize) {
        Some(leaving) => leaving.is_some(),
        None => false,
    }
}

/// Writes a box, if there is one.
fn put_any<W: Sink>(
    output: &mut W,
    names: &Names,
    last: Moment,
    drawn: Option<DrawnBox>,
) -> Result<(), WriteFault>
    ensures wrote { WroteTo W.Sink result output.old output.new (flat_map (box_text names.now last) (if_any drawn)) }
    ensures unfailed { OnOk result (W.failed output.new ≡ W.failed output.old) }
{
    match drawn {
        Some(drawn) => put_box(output, names, last, drawn),
        None => Ok(()),
    }
}

/// Writes the marks of the late leavings.
fn put_marks<W: Sink>(
    output: &mut W,
    last: Moment,
    late: &[Option<LateLeaving>],
) -> Result<(), WriteFault>
    ensures wrote { WroteTo W.Sink result output.old output.new (marks_text last late.now) }
    ensures unfailed { OnOk result (W.failed output.new ≡ W.failed output.old) }
{
    for leaving in late {
        put_all(output, mark_line(last, *leaving).bytes())?;
    }
    Ok(())
}

/// Writes the line of the present moment, if there is one.
fn put_present<W: Sink>(output: &mut W, sheet: Sheet) -> Result<(), WriteFault>
    ensures wrote { WroteTo W.Sink result output.old output.new (present_text sheet.machines sheet.last sheet.present) }
    ensures unfailed { OnOk result (W.failed output.new ≡ W.failed output.old) }
{
    let line = present_line(sheet.machines, sheet.last, sheet.present);
    put_all(output, line.bytes())
}
