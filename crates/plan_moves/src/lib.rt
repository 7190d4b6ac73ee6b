//! The moves of a run in which everything is reported when it is due, in the order in which they are made: what a floor
//! without a controller does, one move after the other.
#![tactic(auto)]

pub mod laws;
mod line;
mod moves;
mod next_report;

pub use line::push_move_lines;
pub use moves::moves_from;
