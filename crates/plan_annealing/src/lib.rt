//! Two searches for better plans, or for a better rest of a run: simulated annealing over the orders of the machines,
//! and a large neighbourhood search that decides the pairs of a few jobs anew. Whoever asks for their orders judges
//! them.
#![tactic(auto)]

mod annealed;
mod annealing;
mod complete;
mod draws;
mod due;
mod estimate;
mod heat;
mod known;
mod moves;
mod neighbours;
mod opened;
mod opening;
mod pairs;
mod passing;
mod price;
mod propagation;
mod standing;
mod state;
mod subproblem;
mod timing;
mod turning;
mod visits;

pub use annealed::annealed_orders;
pub use known::Known;
pub use opened::{can_open, opened_orders};
