//! Two jobs that cross on two machines, and their run; and that of racks, one of which is rinsed in a tank twice.

use super::cells::{CROSSING, RINSED, Texts, accepted};
use super::memory_log::MemoryLog;
use super::piece_reader::PieceReader;
use byte_streams::{Buffered, FromRead};
use cell_drive::{DriveEnd, Protocol, begin_in};
use event_lines::RunDigits;
use logged_drive::{LoggedEnd, drive_logged};
use run_journal::{UnknownHistory, WritingRoom};
use std::alloc::Global;
use std::cell::Cell;
use std::test::Fail;

/// The digits of some plan and its shop.
pub(super) const DIGITS: RunDigits = RunDigits {
    plan: *b"9d494b630a55b7fb",
    shop: *b"b59842d39b1df915",
};

/// The line of that plan.
pub(super) const LINE: &[u8] = b"unfinished plan 9d494b630a55b7fb shop b59842d39b1df915\n";

/// Their reports, with a line between them that is none.
pub(super) const REPORTS: &[u8] =
    b"arrive 0 0\narrive 1 0\nready\nfinish 0 0 2\nfinish 0 1 4\nfinish 1 1 8\nfinish 1 0 9\n";

/// The answers before that line.
pub(super) const FIRST: &[u8] = b"report 0 arrive 0\norder 0 0 out 0\nreport 0 arrive 1\n";

/// Those after it.
pub(super) const LATER: &[u8] =
    b"report 2 finish 0 0\norder 2 0 0 1\nreport 4 finish 0 1\norder 4 0 1 out\norder 4 1 out 1\nreport 8 finish 1 1\norder 8 1 1 0\nreport 9 finish 1 0\norder 9 1 0 out\n";

/// Version 1 of the lines.
pub(super) const PLAIN: Protocol = Protocol {
    version_2: false,
    max_gap: None,
    from: 0,
};

/// Version 2, in which no report comes more than 100 after the last one.
pub(super) const V2_MANNER: Protocol = Protocol {
    version_2: true,
    max_gap: Some(100),
    from: 0,
};

/// A plan, the protocol by which its cell is driven, the lines that are sent, and the answers behind the first ones.
#[derive(Clone, Copy)]
pub(super) struct Shift {
    pub(super) texts: Texts,
    pub(super) protocol: Protocol,
    pub(super) reports: &'static [u8],
    pub(super) later: &'static [u8],
}

/// That of the two jobs.
pub(super) const CROSSED: Shift = Shift {
    texts: CROSSING,
    protocol: PLAIN,
    reports: REPORTS,
    later: LATER,
};

/// The same in version 2.
pub(super) const CROSSED_IN_V2: Shift = Shift {
    protocol: V2_MANNER,
    ..CROSSED
};

/// That of the racks, by steps. Copies of the end of the first rinsing come when the rack is in the bath, and when it is
/// rinsed again; of the cleanings when the tank is cleaned after the next visit.
pub(super) const RINSES: Shift = Shift {
    texts: RINSED,
    protocol: V2_MANNER,
    reports: b"arrive 0 0\narrive 1 0\nfinish 0.0 3\nfinish 0.0 5\nfinish 0.1 5\nclean 0 0.0 9\n\
        finish 0.0 12\nfinish 0.2 12\nclean 0 0.0 18\nclean 0 0.2 18\nfinish 1.0 21\nclean 0 0.2 27\n\
        clean 0 1.0 27\n",
    later: b"report 3 finish 0 0\norder 3 0 0 1\nreport 5 finish 0 1\nreport 9 clean 0\norder 9 0 1 0\n\
        report 12 finish 0 0\norder 12 0 0 out\nreport 18 clean 0\norder 18 1 out 0\n\
        report 21 finish 1 0\norder 21 1 0 out\nreport 27 clean 0\n",
};

/// Whether the text is these texts, one after another.
pub(super) fn is_joined(text: &[u8], texts: &[&[u8]]) -> bool {
    let mut rest = text;
    for part in texts {
        match rest.strip_prefix(*part) {
            Some(behind) => rest = behind,
            None => return false,
        }
    }
    rest.is_empty()
}

/// The run of a shift, with a log that holds this, of which so many calls don't fail. No more than so many bytes are read
/// at a time.
pub(super) fn driven(
    alloc: Global,
    shift: Shift,
    held: &[u8],
    calls: usize,
    piece: usize,
) -> Result<LoggedEnd<DriveEnd, Buffered<Vec<u8>>, MemoryLog>, Fail> {
    let written = Cell::new(0);
    let mut reader = FromRead::new(PieceReader::new(shift.reports, &written, piece, usize::MAX));
    let log = MemoryLog::new(held.to_vec(alloc)?, calls, 5);
    let output = Buffered::new(alloc, 16, Vec::new(alloc))?;
    let room = WritingRoom::new(alloc)?;
    let begun = begin_in(alloc, accepted(alloc, shift.texts)?, shift.protocol)?;
    Ok(drive_logged(begun, room, &mut reader, log, output, UnknownHistory))
}
