//! Verdicts on plans, and on the rest of a run: a plan is accepted where its graph has no cycle and each job's earliest
//! leaving is within its budget, and else it is refused, with a cycle or a chain as evidence.
//!
//! The rest of a run is what is ahead of a cell from a present moment on: each job's next node isn't before the present
//! moment, and what is held up not before what holds it up is due. A whole plan is that of a run that hasn't begun.
#![tactic(auto)]

mod ahead;
mod cell_bounds;
mod chain_check;
mod in_range;
mod judging;
pub mod laws;
mod leavings;
mod node_bound;
mod verdict;
mod verified;
mod verifying;
pub mod worked_runs;

pub use ahead::{bound_of, check_chain_ahead, deadlines_of, earliest_moments, judge};
pub use in_range::cleanings_in_range;
pub use leavings::{last_to_leave, later, leave_time, leaving_of, makespan};
pub use node_bound::{Hold, NodeBound};
pub use verdict::{Judged, Verdict, Why};
pub use verified::Verified;
pub use verifying::verify;
