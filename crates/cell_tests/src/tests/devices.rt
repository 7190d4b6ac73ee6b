//! A reader and a writer that fail once, and what comes of a call over them.

ghost use Rattle.std.specs.Prelude.{◌≡◌};

use super::cells::{Texts, accepted};
use super::driven_inputs::{Driven, Driver, End};
use super::one_byte_writer::OneByteWriter;
use super::piece_reader::PieceReader;
use cell_drive::{Buffered, DriveFault, FromRead, LineHandler, drive, drive_hub, stream};
use plan_verifier::Verified;
use run_log::{Sink, WriteFault, put_all};
use std::alloc::Global;
use std::cell::Cell;
use std::test::Fail;

/// How much the reader gives a call at most, how much is gathered before it is written, after how many calls the next
/// read, write or flush fails, and whether a write that fails takes nothing.
#[derive(Clone, Copy)]
pub(super) struct Limits {
    pub(super) piece: usize,
    pub(super) buffered: usize,
    pub(super) reads: usize,
    pub(super) writes: usize,
    pub(super) shows: usize,
    pub(super) takes_nothing: bool,
}

/// No device fails.
pub(super) const GOOD: Limits = Limits {
    piece: 1000,
    buffered: 1000,
    reads: 1000,
    writes: 1000,
    shows: 1000,
    takes_nothing: false,
};

type Reader<'a> = FromRead<PieceReader<'a>>;

type Writer<'a> = Buffered<OneByteWriter<'a>>;

/// What came of a call: its answer, whether all that was written is the beginning of the answers, how much that is and
/// how much of it was out before the last read, and how many reads were made.
#[derive(Clone, Copy)]
pub(super) struct Outcome {
    pub(super) end: Result<End, DriveFault>,
    pub(super) alike: bool,
    pub(super) count: usize,
    pub(super) before_last_read: usize,
    pub(super) reads: usize,
}

impl Outcome {
    /// Whether the call has answered this, and exactly so many bytes of the answers are out.
    pub(super) fn is(self, end: Result<End, DriveFault>, count: usize) -> bool {
        self.end == end && self.alike && self.count == count
    }
}

fn verified(alloc: Global, plans: &[Texts]) -> Result<Vec<Verified>, Fail> {
    let mut cells = Vec::new(alloc);
    for &texts in plans {
        cells.push(accepted(alloc, texts)?)?;
    }
    Ok(cells)
}

fn driven_cell(
    alloc: Global,
    verified: Verified,
    reader: &mut Reader<'_>,
    writer: &mut Writer<'_>,
) -> Result<End, DriveFault> {
    match drive(alloc, verified, reader, writer) {
        Ok(end) => Ok((end.done, end.last, end.left)),
        Err(fault) => Err(fault),
    }
}

fn driven_cells(
    alloc: Global,
    cells: Vec<Verified>,
    reader: &mut Reader<'_>,
    writer: &mut Writer<'_>,
) -> Result<End, DriveFault> {
    match drive_hub(alloc, cells, reader, writer) {
        Ok(end) => Ok((end.all_done, 0, 0)),
        Err(fault) => Err(fault),
    }
}

fn echoed(reader: &mut Reader<'_>, writer: &mut Writer<'_>) -> Result<End, DriveFault> {
    let mut room = [0; 80];
    match stream(&mut Echo, reader, &mut room, writer) {
        Ok(()) => Ok((true, 0, 0)),
        Err(fault) => Err(fault),
    }
}

/// Drives what is to be driven over this reader and this writer.
fn driven_by(
    alloc: Global,
    driver: Driver,
    reader: &mut Reader<'_>,
    writer: &mut Writer<'_>,
) -> Result<Result<End, DriveFault>, Fail> {
    match driver {
        Driver::Cell(texts) => Ok(driven_cell(alloc, accepted(alloc, texts)?, reader, writer)),
        Driver::Cells(plans) => Ok(driven_cells(alloc, verified(alloc, plans)?, reader, writer)),
        Driver::Echo => Ok(echoed(reader, writer)),
    }
}

/// Drives what is to be driven over devices with these limits.
pub(super) fn driven_over(alloc: Global, driven: &Driven, limits: Limits) -> Result<Outcome, Fail> {
    let written = Cell::new(0);
    let mut reader = FromRead::new(PieceReader::new(
        driven.input,
        &written,
        limits.piece,
        limits.reads,
    ));
    let device = OneByteWriter::new(
        driven.text,
        &written,
        limits.writes,
        limits.shows,
        limits.takes_nothing,
    );
    let mut writer = Buffered::new(alloc, limits.buffered, device)?;
    let end = driven_by(alloc, driven.driver, &mut reader, &mut writer);
    let giver = reader.into_inner();
    let alike = writer.into_inner().alike;
    Ok(Outcome {
        end: end?,
        alike,
        count: written.get(),
        before_last_read: giver.written_at_last,
        reads: giver.calls,
    })
}

/// Answers a line by its number's last digit, its bytes and a bar, an empty line by nothing, and ends by a full stop.
#[derive(Drop)]
pub(super) struct Echo;

impl LineHandler for Echo {
    ghost answers = { λ s number line text end. end ≡ s };

    ghost closes = { λ s text. s ≡ s };

    fn answer<W: Sink>(
        &mut self,
        number: u64,
        line: Option<&[u8]>,
        writer: &mut W,
    ) -> Result<(), WriteFault> {
        let Some(line) = line else {
            return put_all(writer, b"long|");
        };
        if line.is_empty() {
            return put_all(writer, b"");
        }
        let mut text = [b'|'; 65];
        text[0] = b'0' + (number % 10) as u8;
        text[1..line.len() + 1].copy_from_slice(line);
        put_all(writer, &text[..line.len() + 2])
    }

    fn put_closing<W: Sink>(&self, writer: &mut W) -> Result<(), WriteFault> {
        put_all(writer, b".")
    }
}
