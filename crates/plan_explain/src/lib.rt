//! Verdicts that explain themselves: the first line of a verdict, and after it the arcs of its evidence in
//! lines that name machines and jobs.
//!
//! All is printed of the rest of a run; a whole plan is that of a run that hasn't begun.
#![tactic(auto)]

mod arcs;
mod chains;
mod cycles;
mod explaining;
mod first_lines;
mod labels;
pub mod laws;
mod leaving_lines;
mod words;

pub use explaining::explain;
pub use first_lines::{first_line, push_cycle_line};
pub use labels::Label;
pub use words::{LINE_ROOM, Line, push_job_at, push_line, put_job, put_visit};
