//! A log that begins with its own texts: those of its shop, of its plan and of its names, what each job was before, and
//! the events of its run so far. Every reader of logs passes over the lines of the texts.
#![tactic(auto)]

pub mod laws;
mod naming;
mod parts;
mod writing;

pub use naming::has_names;
pub use parts::{Origin, Texts};
pub use writing::chapter;
