//! The lines of a driven cell: a report as it is sent, which is read; a report as it is logged and an order, each with
//! its writer and its reader; the other answers, which are written, and which a log passes over; and a cell's number
//! before any of these.
//!
//! A line is words with one space between each two: texts, and numbers, which may be read with leading zeros and are
//! written without.
#![tactic(auto)]

mod answers;
mod cell_numbers;
mod details;
mod entries;
pub mod laws;
mod line_text;
mod logged_reports;
mod orders;
mod requests;
mod run_digits;
mod sent_reports;
mod words;

pub use answers::{
    done_line, is_passed_over, late_line, put_late_line, refused_line, unfinished_line,
};
pub use cell_numbers::{cell_prefix, cell_report_of};
pub use details::{
    Detail, DetailText, Overdue, late_overdue_line, put_unfinished_standing, refused_detail_line,
};
pub use entries::{entry_in, entry_of, put_entry_line};
pub use line_text::LineText;
pub use requests::{Request, cell_request_of, request_of};
pub use run_digits::{RunDigits, digits_of_line, plan_line, put_digits};
pub use sent_reports::report_of;
