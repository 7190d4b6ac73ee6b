//! Many cells at once, each under a ticket of its own.
//!
//! A [`Hub`] takes accepted plans, and gives a [`Ticket`] for the cell of each. With the ticket the cell is given
//! reports, looked at and removed again. The cells know nothing of one another: each is a controller alone.
//!
//! A hub of [`cell_control::LeanPlan`]s keeps no ranks and lengths.
//!
//! Only [`Hub::admit`] and [`HubOf::admit_lean`] take memory.
#![tactic(auto)]

mod hub;
mod hub_fault;
pub mod laws;
mod slots;

pub use hub::{Hub, HubOf};
pub use hub_fault::HubFault;
pub use slots::Ticket;
