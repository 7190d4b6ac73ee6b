//! The laws of driven cells: of the texts that answer an input, of the logs that they are, and of runs that are
//! recovered from these.
#![tactic(auto)]

pub mod laws;
