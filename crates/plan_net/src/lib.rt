//! The net of a plan, or of what a run has left of it: a graph as rows of numbers, in which a search for better orders
//! writes. Whoever asks for its orders judges them.
#![tactic(auto)]

mod ahead;
mod net;
mod net_of_plan;

pub use ahead::{JobAhead, PartAhead};
pub use net::{NONE, Net, Span, Spot, count, link, spot_at, swap};
pub use net_of_plan::{net_of, orders_of};
