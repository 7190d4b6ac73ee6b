//! A plan and its shop changed in mid-run: an operation that is known to last longer, one more job, a job that is
//! scrapped or won't come, a machine that is held or does no more. What is ahead is changed, and the run so far stays a run.
//!
//! Jobs, machines and places are numbered from 0. Moments are whole time units, counted from moment 0.
#![tactic(auto)]

mod adding;
mod aside;
mod change;
mod changing;
mod checking;
mod dates;
mod draft;
mod ending;
mod holding;
pub mod laws;
mod orders;
mod reaching;
mod rerouting;
mod revising;
mod run_so_far;
mod stopping;
mod visiting;

pub use aside::plant_of;
pub use change::{Change, ChangeFault, NotRevised};
pub use revising::{revise, revise_within};
