//! A run that is driven with a log, which survives whatever ends the program or the machine.
//!
//! [`drive_logged`] drives a cell from its start: each event is in the log, on the disk, before it is shown.
//! [`recover_log`] recovers the run from what a crash has left of the log, with all the memory that it continues with,
//! and [`continue_logged`] continues it. [`laws`] says that whatever a crash leaves is recovered.
#![tactic(auto)]

mod continuing;
pub mod laws;
mod logged_run;
mod recovered_log;
mod recovery;

pub use continuing::continue_logged;
pub use logged_run::{LoggedEnd, drive_logged};
pub use recovered_log::{RecoverFault, RecoveredLog};
pub use recovery::recover_log;
