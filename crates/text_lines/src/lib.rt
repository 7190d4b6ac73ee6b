//! The lines of a text, the decimal numbers among their words, and a line that is written.
#![tactic(auto)]

mod cuts;
mod limits;
mod line_text;
mod lines;
mod numbers;

pub use cuts::{after_prefix, cut_line, cut_word};
pub use limits::{MAX_INPUT, the_most_input_in_numbers};
pub use line_text::LineText;
pub use lines::{ended_part, line_count, next_line, without_return};
pub use numbers::{number_before_space, number_of, short_number_of};
