//! What people call the jobs and machines of a shop, and the clock by which they read its moments: a TOML document with
//! the keys `jobs`, `machines` and `begin`, each of which may be missing; and the words that a line has for a job, a
//! machine and a moment.
//!
//! How a key is written in a fault is proved, and a fault's whole text isn't. A TOML document and its table are what
//! the kit's `toml` reads: nothing is proved of that grammar here.
#![tactic(auto)]

mod clock;
mod document;
mod kept;
mod keys;
pub mod laws;
mod lists;
mod name_texts;
mod names;
mod names_fault;
mod read;
mod unnamed;

pub use clock::{Clock, clock_of};
pub use keys::NamesKey;
pub use names::{LONGEST_MOMENT, LONGEST_NAME, LONGEST_VISIT, Names};
pub use names_fault::{KeyText, NamesFault};
pub use read::read_names;
pub use unnamed::{JobNameFault, NotNamed};
