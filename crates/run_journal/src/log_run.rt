//! What the whole lines of a log record of its run.

ghost use Rattle.std.specs.Prelude.{◌≡◌, ◌↔◌, IsTrue, MatchOption};
ghost use Rattle.text_lines.specs.Lines.{lines_of};
ghost use Rattle.run_journal.specs.declared.log_run.LogRun.{LogRun};
ghost use Rattle.event_lines.specs.LastPlan.{AreNoPlans, IsLastPlan};
ghost use Rattle.run_journal.specs.LogRuns.{HasBegun, IsOfRun, IsLogRunOf};

use event_lines::{RunDigits, digits_of_line, entry_of};
use text_lines::next_line;

/// What the whole lines of a log record of its run.
#[derive(Clone, Copy, Debug, PartialEq, Eq)]
pub enum LogRun {
    /// It hasn't begun: no line has the form of a report, of an order or of the line of a plan.
    Unbegun,
    /// It has begun, and no line says by which plan.
    Unnamed,
    /// These are the digits in the last line of a plan.
    Named(RunDigits),
}

/// What these lines record of a run.
pub fn run_of(lines: &[u8]) -> LogRun
    ensures { IsLogRunOf (lines_of lines.now) result }
{
    match last_plan(lines) {
        Some(digits) => LogRun::Named(digits),
        None => {
            if has_begun(lines) {
                LogRun::Unnamed
            } else {
                LogRun::Unbegun
            }
        }
    }
}

impl LogRun {
    /// Whether these are the digits in the last line of a plan.
    pub fn names(&self, digits: &RunDigits) -> bool
        ensures { IsTrue result ↔ (self.now ≡ LogRun.Named digits.now) }
    {
        match self {
            LogRun::Named(named) => are_same(named, digits),
            LogRun::Unbegun | LogRun::Unnamed => false,
        }
    }
}

fn are_same(one: &RunDigits, other: &RunDigits) -> bool
    ensures { IsTrue result ↔ (one.now ≡ other.now) }
{
    one == other
}

/// The digits in the last of these lines that is the line of a plan.
fn last_plan(lines: &[u8]) -> Option<RunDigits>
    ensures { MatchOption result (AreNoPlans (lines_of lines.now)) (IsLastPlan (lines_of lines.now)) }
{
    let mut last = None;
    let mut rest = lines;
    while let Some((line, after)) = next_line(rest) {
        if let Some(digits) = digits_of_line(line) {
            last = Some(digits);
        }
        rest = after;
    }
    last
}

/// Whether one of these lines has the form of a report, of an order or of the line of a plan.
fn has_begun(lines: &[u8]) -> bool
    ensures { IsTrue result ↔ HasBegun (lines_of lines.now) }
{
    let mut rest = lines;
    while let Some((line, after)) = next_line(rest) {
        if is_of_run(line) {
            return true;
        }
        rest = after;
    }
    false
}

fn is_of_run(line: &[u8]) -> bool
    ensures { IsTrue result ↔ IsOfRun line.now }
{
    entry_of(line).is_some() || digits_of_line(line).is_some()
}
