//! A run as a picture: the visits of jobs to machines as boxes along an axis of time, in one SVG document, with marks
//! of the jobs that leave past their budgets.
#![tactic(auto)]

mod axis;
mod box_parts;
mod box_text;
mod drawn_box;
mod frame;
mod frame_text;
mod head;
mod late_leaving;
mod picture;
mod visit;
mod words;

pub use head::{Head, Sheet};
pub use late_leaving::{LateLeaving, late_leavings, latest};
pub use picture::Picture;
pub use visit::{Cleaned, DrawnVisit, last_moment};
