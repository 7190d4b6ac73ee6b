//! The words of the command line of `cellplan`, and what they ask for.
#![tactic(auto)]

mod words;

pub use words::{
    AskedChange, ChangeKind, Chosen, CommandName, Lines, LogStart, Prints, WordsFault, read_words,
};
