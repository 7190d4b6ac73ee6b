//! The whole program of `cellplan`, over files and streams that are given to it.
#![tactic(auto)]

mod apart;
mod choice_progress;
mod choosers;
mod command;
mod devices;
mod drives;
mod ending;
mod hubs;
mod improvers;
mod input;
mod log_faults;
mod logs;
mod misfits;
mod pictures;
mod planners;
mod program;
mod progress;
mod readiness;
mod resumes;
mod revisions;
mod unchosen;

pub use devices::{Devices, Screen, Streams};
pub use ending::print_fault;
pub use misfits::Misfit;
pub use program::run;
