//! What no plan can do, whatever its orders: lower bounds of the moment at which each job leaves, and of the makespan,
//! for a shop with given releases and cleaning times. No call of this crate can run out of memory.
#![tactic(auto)]

mod alone;
mod bounds;
pub mod laws;
mod makespan;
mod visits;
pub mod worked_runs;

pub use alone::out_alone;
pub use bounds::{job_bound, machine_bound};
pub use makespan::{By, LeastMakespan, least_makespan};
