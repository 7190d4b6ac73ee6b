//! The schedule of a plan: when each job arrives, when each visit and each cleaning begins and ends in the exact
//! run, and how late each may end.
//!
//! All is printed of the rest of a run; a whole plan is that of a run that hasn't begun.
#![tactic(auto)]

mod calendar;
mod late_rest;
pub mod laws;
mod lines;
mod picture_visits;
mod schedules;
mod scheduling;

pub use picture_visits::{DrawnRun, drawn_run};
pub use schedules::schedule;
