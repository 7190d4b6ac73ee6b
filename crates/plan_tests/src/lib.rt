//! The tests of texts, of shops and plans, of the alternative graph, and of the searches for a plan and for a better
//! one, by public items alone. They stand apart from what they test, since a crate with tests is proved once more for
//! them.
#![tactic(auto)]

#[cfg(test)]
mod tests;
