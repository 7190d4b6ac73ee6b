//! Bytes that come and go: sources, sinks and outputs, and lines of a stream that are answered one by one.
#![tactic(auto)]

mod buffered;
mod buffered_sink;
mod drive_fault;
mod from_read;
mod held_line;
mod into_sink;
pub mod laws;
mod line_handler;
mod pieces;
mod rooms;
mod sink;
mod source;
mod streaming;
mod writing;

pub use buffered::Buffered;
pub use buffered_sink::BufferedSink;
pub use drive_fault::DriveFault;
pub use from_read::FromRead;
pub use held_line::MAX_LINE;
pub use into_sink::IntoSink;
pub use line_handler::LineHandler;
pub use rooms::{MAX_PIECE, reading_room};
pub use sink::{Sink, WriteFault};
pub use source::{ReadFault, Source};
pub use streaming::stream;
pub use writing::put_all;
