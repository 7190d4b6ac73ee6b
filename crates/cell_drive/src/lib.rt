//! Cells driven by lines of text: reports in, move orders out, over any reader and any writer of bytes.
//!
//! A session is a controller and the [`Protocol`] in which lines are read and answered. [`drive`] and [`drive_hub`]
//! begin one at the start of a run, for one cell or for several. A driven run is recovered from its log, which may
//! have been cut at any byte: [`recover`] gives what the run had come to by the log, or why it can't be recovered.
//! [`resume_in`] goes on from there: it writes the run once more, and drives it on.
#![tactic(auto)]

mod begin;
mod examining;
mod hub;
mod lateness;
mod protocol;
mod recovery;
mod refusals;
mod replay;
mod replies;
mod requests;
mod resume;
mod resume_fault;
mod session;
mod states;
mod v1_replay;

pub use begin::{Begun, DriveEnd, begin_in, drive, drive_begun, drive_in};
pub use byte_streams::{
    Buffered, BufferedSink, DriveFault, FromRead, LineHandler, MAX_LINE, MAX_PIECE, ReadFault,
    Source, reading_room, stream,
};
pub use event_lines::{done_line, late_line, refused_line, report_of, unfinished_line};
pub use hub::{HubEnd, drive_hub, drive_hub_in};
pub use protocol::Protocol;
pub use recovery::{RecoveredRun, Replayed, recover};
pub use refusals::Refusal;
pub use resume::{RestEnd, continue_in, replay_in, resume_in};
pub use resume_fault::ResumeFault;
