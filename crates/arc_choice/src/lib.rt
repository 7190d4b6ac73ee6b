//! Moments for nodes that keep arcs, and one of each pair of alternative arcs (Mascis and Pacciarelli, EJOR 143,
//! 2002): a complete search for them, which may end in the proof that there are none.
#![tactic(auto)]

mod branch;
mod choosing;
mod exploring;
mod links;
mod propagating;
mod question;
mod reach;
mod rules;
mod work;

pub use branch::State;
pub use choosing::{Choose, LeastSlack};
pub use exploring::{Outcome, explore};
pub use question::{Arc, Pair, Question, Side};
