//! The tests of what runs: worked runs and faulty devices, given to the controller, the hub, the log and the driven
//! cells; and logs in memory, which fail and lose what wasn't synced.
//!
//! They stand in a crate of their own since a crate with tests is proved once more for them. It gives nothing to
//! others.
#![tactic(auto)]

#[cfg(test)]
mod tests;
