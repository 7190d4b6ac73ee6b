//! A run and its plan revised together: the jobs that are over may be left out, the changes are made, and what has
//! happened so far is told anew for the shop and the plan that come of it.
//!
//! Jobs and machines are numbered from 0. Moments are whole time units, counted from moment 0. Changes name jobs by the
//! numbers that are given, also where jobs are left out.
#![tactic(auto)]

pub mod laws;
mod next;
mod renumbering;
mod replaying;
mod run_changes;

pub use next::{NextRun, next_run};
