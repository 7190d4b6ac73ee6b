//! The control of a cell, from any cell on: it gets reports of what has ended, and orders the moves that keep the plan.
//!
//! A controller takes one [`Report`] at a time. It accepts exactly the reports that are possible, and answers each with
//! the moves that it releases. All its calls are those of [`Core`]. A [`Controller`] is made of a `Verified` plan, and
//! begins with it. A [`RestController`] is begun from the [`Rest`] of a run, by a plan without a cycle, or made of a
//! `Controller`: first it moves all jobs that can move then. It can be handed over, at a moment, to another plan that
//! the run so far keeps, of the same shop or of another one.
//!
//! A `RestController` asks for no budgets: a cell that has begun has to go on, however late. What holds of moments is
//! what `judge` of `plan_verifier` says of the same rest.
//!
//! Moments are whole time units, counted from moment 0. Only [`Controller::new`], [`RestController::begin`],
//! [`RestController::hand_over`], [`Core::rest_at`], [`LeanPlan::of`], [`LeanController::start`] and [`Dues::sized`]
//! take memory.
#![tactic(auto)]

mod ack;
mod checking;
mod claiming;
mod controller;
mod core_controller;
mod counting;
mod dispatching;
mod due_moments;
mod due_row;
mod dues;
mod ending;
mod hand_over_fault;
mod handing;
pub mod laws;
mod lean;
mod phase;
mod possible;
mod preparing;
mod releasing;
mod report_fault;
mod rest_controller;
mod rest_fault;
mod room;
mod scan_dues;
mod step;
mod timed;
mod tourney_dues;
pub mod worked_runs;

pub use ack::Ack;
pub use cell_tables::Claim;
pub use checking::{check_claim, check_report};
pub use controller::Controller;
pub use core_controller::Core;
pub use counting::count_left;
pub use due_moments::note_all;
pub use dues::Dues;
pub use ending::end_activity;
pub use hand_over_fault::HandOverFault;
pub use lean::{LeanController, LeanPlan};
pub use phase::Phase;
pub use possible::Possible;
pub use releasing::advance;
pub use report_fault::ReportFault;
pub use rest_controller::RestController;
pub use rest_fault::RestFault;
pub use scan_dues::ScanDues;
pub use shop_base::{MoveOrder, Report, Spot};
pub use step::is_past_due;
pub use timed::{Held, Ranked, Timed};
pub use tourney_dues::TourneyDues;
