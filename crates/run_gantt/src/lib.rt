//! The drawing of a run: in text, each machine's visits and a bar of which job is on it when; and the visits and the
//! leavings that make up a picture.
#![tactic(auto)]

mod bar;
mod drawn_log;
mod first_moments;
mod gantt_text;
mod visit_ends;
mod visits;

pub use drawn_log::{drawn_visits, leavings_so_far};
pub use gantt_text::{gantt, gantt_for, the_columns_in_numbers};
