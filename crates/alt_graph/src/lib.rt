//! The alternative graph of a planned shop (Mascis and Pacciarelli, EJOR 143, 2002): ranks and greatest
//! lengths of its nodes where it has no cycle, else a cycle; checks of the evidence for a refusal, which
//! look at the plan and the evidence alone; and the latest moments of its nodes, backwards from the budgets.
//!
//! A node is a job's entry of a step, or its leaving. Job arcs go from each place of a job to the next, with
//! the nominal time of the step; a blocking arc goes from the entry that follows a job's step on a machine
//! to the next visit in that machine's order, with the machine's cleaning time. Where both join two nodes,
//! the longer one counts.
#![tactic(auto)]

mod arcs;
mod bounds;
mod chain_check;
mod cycle_check;
mod cycles;
mod graph;
mod latest;
mod lookups;
mod node_order;
mod numbers;
mod ranking;
mod solving;
mod sources;
mod times;
mod turns;

pub use bounds::{Bounds, Whole};
pub use chain_check::{check_chain, check_chain_from};
pub use cycle_check::check_cycle;
pub use graph::Graph;
pub use latest::{Deadlines, by_rank, latest_moments};
pub use solving::{Solved, solve, solve_from};
pub use sources::{ArcIn, job_source};
pub use times::Times;
