//! Plan texts: TOML documents with the keys `release`, `budget` and `order`, and in version 2 `version` and `clean`
//! too.
//!
//! How a key and the row of a fault are written is proved, and a fault's whole text isn't. A TOML document and its
//! table are what the kit's `toml` reads: nothing is proved of that grammar here.
#![tactic(auto)]

mod compare;
mod document;
mod keys;
mod plan_fault;
mod read;
mod values;

pub use document::{plan_document, plan_lines};
pub use keys::PlanKey;
pub use plan_fault::PlanFault;
pub use read::read_plan;
