//! The state of a run, as an operator reads it: where each job is that hasn't left, which machines are being cleaned,
//! since when and until when, what of that is overdue, and how much is left.
#![tactic(auto)]

pub mod laws;
mod rest_state;
mod standing_lines;

pub use rest_state::push_state;
