//! The reserve of an accepted plan: how much longer everything may take without any job being late for its budget.
//!
//! It is a number of thousandths: with 100, a nominal time of 20 may become 22. Releases and budgets stay.
#![tactic(auto)]

mod lengths;
mod line;
mod margin;

pub use line::push_margin_line;
pub use margin::{MAX_MARGIN, Margin, find_margin, the_greatest_margin_in_numbers};
