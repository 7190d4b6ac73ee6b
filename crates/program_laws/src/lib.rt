//! The laws of the whole program.
#![tactic(auto)]

pub mod laws;
