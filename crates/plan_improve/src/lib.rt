//! Better plans, and never a worse one: untrusted improvers are asked for orders, and the best plan so far is kept. A
//! whole plan is improved, or one for the rest of a run, from its cell and the present moment on; then the best
//! plan keeps all that was done.
#![tactic(auto)]

mod alternating_improver;
mod annealing_improver;
mod beginning;
mod best;
mod cost;
mod costing;
mod fixed;
mod improve_fault;
mod improved;
mod improver;
mod improving;
mod judging;
pub mod laws;
mod left;
mod not_improved;
mod opening_improver;
mod plan_out;
mod rest_improving;
mod rounds;
mod searching;
mod watch;

pub use alternating_improver::AlternatingImprover;
pub use annealing_improver::AnnealingImprover;
pub use cost::Cost;
pub use improve_fault::ImproveFault;
pub use improved::Improved;
pub use improver::Improver;
pub use improving::improve;
pub use not_improved::NotImproved;
pub use opening_improver::OpeningImprover;
pub use plan_net::{JobAhead, PartAhead};
pub use plan_seek::{MAX_ROUNDS, Proposed};
pub use rest_improving::better_rest;
pub use watch::Watch;
