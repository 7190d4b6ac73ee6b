//! A log that is on the disk before what it records is shown.
//!
//! [`open_log`] and [`cut_end`] open a log that a crash may have left. [`Logged`] goes on with it: of what is written
//! the lines of events are put into the log, which is synced, and only then all of it is shown.
#![tactic(auto)]

mod file_fault;
pub mod laws;
mod log_file;
mod log_run;
mod logged;
mod logs;
mod opening;
mod selection;
mod torn_end;
mod writing_room;

pub use file_fault::FileFault;
pub use log_file::LogFile;
pub use log_run::{LogRun, run_of};
pub use logged::{FULL, InitialState, Logged, MAX_PENDING, UnknownHistory};
pub use logs::Logs;
pub use opening::{LogText, Unopened, cut_end, name_plan, new_log, open_log, read_log};
pub use torn_end::is_torn_end;
pub use writing_room::WritingRoom;
