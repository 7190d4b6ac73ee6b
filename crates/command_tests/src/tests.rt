//! Calls behind commands, and what they are made of.

mod alloc_failures;
mod answers;
mod checks;
mod shelf;
mod statuses;
mod verdicts;
