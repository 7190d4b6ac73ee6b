//! The log of a cell's run, the lines in which it is written to any writer of bytes, the audit of such lines, and the
//! run that they record, with the cell at its end.
//!
//! A log knows the plan and the shop of its run by digits. They are of the numbers alone: of the text that is written for
//! a plan, and of the one that is written for an instance without its description. So blanks, comments and the version
//! of a plan that says what version 1 says don't count.
#![tactic(auto)]

mod audit_fault;
mod audit_result;
mod auditing;
mod digits;
mod ended;
mod entry_check;
mod log_text;
mod logged_run;
mod present_run;
mod run_log;

pub use audit_fault::AuditFault;
pub use audit_result::Audit;
pub use auditing::audit;
pub use byte_streams::{IntoSink, Sink, WriteFault, put_all};
pub use cell_tables::Entry;
pub use digits::run_digits;
pub use entry_check::follow_entry;
pub use log_text::write_lines;
pub use present_run::{LoggedRest, RunFault, rest_at};
pub use run_log::{LogFault, RunLog};
