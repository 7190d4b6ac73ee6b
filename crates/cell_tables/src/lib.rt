//! The cell of a run of a plan, as a value: a [`WorkCell`] says where the jobs are and which can move, and is changed
//! by the end of an activity and by a move. Its reports and orders are the [`Entry`]s of a log, and what is said to
//! have ended is a [`Claim`]. A cell can be taken apart into its [`Tables`], and made of such.
//!
//! The [`Rest`] of a run is such a cell, with which a run of its plan ends, and a present moment. Both can be recast to
//! another plan that all that was done keeps.
//!
//! Moments are whole time units, counted from moment 0. Only the start of a cell and a recast take memory.
//!
//! The controller and the audit follow a run by this cell.
#![tactic(auto)]

mod carrying;
mod claim;
mod due_moments;
mod entry;
mod keeping;
pub mod laws;
mod moves;
mod places;
mod plan_readers;
mod planned;
mod present_fault;
mod recast_fault;
mod recasting;
mod reordering;
mod rest;
mod rest_reordering;
mod standing;
mod tables;
mod work_cell;

pub use claim::Claim;
pub use entry::Entry;
pub use present_fault::PresentFault;
pub use recast_fault::RecastFault;
pub use reordering::{Replaced, copy_orders, put_back, replace};
pub use rest::Rest;
pub use rest_reordering::{RestReordered, reorder, reorder_by};
pub use standing::{Standing, Visit};
pub use tables::{MachineRow, Tables};
pub use work_cell::WorkCell;
