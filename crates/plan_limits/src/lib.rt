//! Whether a shop has any plan that has given jobs out by given limits, whatever its orders: the question is put to a
//! complete search over alternative graphs (Mascis and Pacciarelli, EJOR 143, 2002), which knows no shop.
#![tactic(auto)]

mod arcs;
mod asking;
pub mod laws;
mod moments;
mod numbering;
mod orders;
mod pairs;
mod questions;

pub use asking::{LimitsAnswer, ask};
