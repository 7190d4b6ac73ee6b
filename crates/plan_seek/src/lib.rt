//! Untrusted planners, and the search for a plan that is accepted: what a planner proposes is checked, so a
//! planner can be wrong, and the plan that is found can't.
#![tactic(auto)]

mod attempt;
mod greedy;
mod orders;
mod proposer;
mod rounds;
mod safe_sequence;
mod search;
mod seek_fault;
mod serial;
mod simulated_cell;
mod task;

pub use greedy::GreedyProposer;
pub use orders::ShiftProposer;
pub use proposer::{Proposed, Proposer};
pub use search::{MAX_ROUNDS, seek, the_most_rounds_in_numbers};
pub use seek_fault::{NotFound, SeekFault};
pub use serial::serial_orders;
