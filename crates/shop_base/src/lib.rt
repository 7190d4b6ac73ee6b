//! The blocking job shop: what an instance, a plan and a cell are, and the laws that hold of every run.
//!
//! Jobs, machines, steps and places are numbered from 0. Moments are whole time units, counted from
//! moment 0. Only the calls of [`SharedShop`] can answer that they are out of memory.
#![tactic(auto)]

mod job_state;
pub mod laws;
mod limit_check;
pub mod limits;
mod move_order;
mod node;
mod plan;
mod planned;
mod readers;
mod report;
mod routes;
mod shape_check;
mod shape_fault;
mod shaped;
mod shared_shop;
mod shop;
mod shop_fault;
pub mod worked_runs;

pub use job_state::JobState;
pub use limit_check::check_limits;
pub use move_order::{MoveOrder, Spot};
pub use node::Node;
pub use plan::Plan;
pub use planned::Planned;
pub use report::Report;
pub use shape_fault::ShapeFault;
pub use shaped::{NotShaped, Shaped, shape};
pub use shared_shop::SharedShop;
pub use shop::{JobNo, MachineNo, Moment, Shop, Step};
pub use shop_fault::ShopFault;
