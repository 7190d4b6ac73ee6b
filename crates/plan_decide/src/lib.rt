//! Whether any plan can keep the promises that are given by budgets, which promises exclude each other, and how soon
//! all jobs, or one of them, can be out where they are kept: complete searches, whose answers hold of all plans.
#![tactic(auto)]

mod aim;
mod alone;
mod asked;
mod asker;
mod begun;
mod copying;
mod cycles;
mod decide_fault;
mod decided;
mod deciding;
mod first_plan;
mod halving;
mod judging;
mod keeping;
mod kept;
pub mod laws;
mod leaving_out;
mod listing;
mod pairs;
mod promises;
mod setting;
mod standing;

pub use aim::{Aim, Objective};
pub use asker::{PAIR_CHOICES, Watch};
pub use decide_fault::DecideFault;
pub use decided::{Decided, Excluded, Exclusions, Within};
pub use deciding::{decide, decide_rest};
pub use pairs::PAIRED_JOBS;
