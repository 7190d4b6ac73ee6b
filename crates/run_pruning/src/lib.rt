//! A run without the jobs that are over: the planned shop, the events and the cell of those that stay alone.
//!
//! Jobs are numbered anew from 0, in their order; machines keep their numbers. Moments are whole time units, counted from
//! moment 0. The only error is want of memory.
#![tactic(auto)]

mod finding;
mod kept_jobs;
pub mod laws;
mod leavers;
mod pruning;
mod spare;
mod what_is_left;

pub use kept_jobs::KeptJobs;
pub use spare::without_spare;
pub use what_is_left::{LeftRun, left_run};
