//! The tests of calls behind commands: what is loaded of a plan, what its search answers, and calls whose memory
//! runs out. What whole commands write is shown on the built program, by the scripts of `tests/`.
//!
//! They stand apart from what they test, since a crate with tests is proved once more for them.
#![tactic(auto)]

#[cfg(test)]
mod tests;
