//! What more is sent than reports, from version 2 of the lines on: `finish J.K T`, `clean M J T`, `clean M J.K T` and
//! `status`.

ghost use Rattle.std.specs.Prelude.{◌≡◌, MatchOption};
ghost use Rattle.text_lines.specs.Searches.{SomeIfAny};
ghost use Rattle.event_lines.specs.Requests.{IsClaimLine, IsNoFinishStep, IsNoCleanAfter, IsNoCleanAfterStep};
ghost use Rattle.event_lines.specs.Requests.{ClaimsReports, IsRequestLine, IsCellRequest, IsNoCellRequest};

use crate::sent_reports::report_of;
use crate::words::{number_and_moment, number_first, step_and_moment};
use cell_tables::Claim;
use shop_base::{JobNo, MachineNo, Moment};
use text_lines::after_prefix;

/// What a line asks for, from version 2 of the lines on.
#[derive(Clone, Copy, Debug)]
pub enum Request {
    /// That this is assumed to have ended.
    Claim(Claim),
    /// The state.
    Status,
}

/// The job, its step and the moment of `finish J.K T`, if the line is one.
fn finish_step_of(line: &[u8]) -> Option<(JobNo, u32, Moment)>
    ensures { MatchOption result (IsNoFinishStep line.now)
        (λ found. IsClaimLine line.now (Claim.FinishStep found.0 found.1 found.2)) }
{
    let words = after_prefix(line, b"finish ")?;
    let found = step_and_moment(words)?;
    Some(found)
}

/// The machine, job and moment of `clean M J T`, if the line is one.
fn clean_after_of(line: &[u8]) -> Option<(MachineNo, JobNo, Moment)>
    ensures { MatchOption result (IsNoCleanAfter line.now)
        (λ found. IsClaimLine line.now (Claim.CleanAfter found.0 found.1 found.2)) }
{
    let words = after_prefix(line, b"clean ")?;
    let (machine, rest) = number_first(words, 9)?;
    let (job, at) = number_and_moment(rest)?;
    Some((machine as MachineNo, job, at))
}

/// The machine, job, step and moment of `clean M J.K T`, if the line is one.
fn clean_after_step_of(line: &[u8]) -> Option<(MachineNo, JobNo, u32, Moment)>
    ensures { MatchOption result (IsNoCleanAfterStep line.now)
        (λ found. IsClaimLine line.now (Claim.CleanAfterStep found.0 found.1 found.2 found.3)) }
{
    let words = after_prefix(line, b"clean ")?;
    let (machine, rest) = number_first(words, 9)?;
    let (job, step, at) = step_and_moment(rest)?;
    Some((machine as MachineNo, job, step, at))
}

/// What the line says to have ended more exactly than a report does, if it does.
fn named_end_of(line: &[u8]) -> Option<Claim>
    ensures { MatchOption result (ClaimsReports line.now) (IsClaimLine line.now) }
{
    if let Some((job, step, at)) = finish_step_of(line) {
        return Some(Claim::FinishStep { job, step, at });
    }
    if let Some((machine, job, at)) = clean_after_of(line) {
        return Some(Claim::CleanAfter { machine, job, at });
    }
    let (machine, job, step, at) = clean_after_step_of(line)?;
    Some(Claim::CleanAfterStep {
        machine,
        job,
        step,
        at,
    })
}

/// What the line asks for, if it asks for anything. Most are reports, so these are looked for first.
pub fn request_of(line: &[u8]) -> Option<Request>
    ensures { SomeIfAny result (IsRequestLine line.now) }
{
    if let Some(report) = report_of(line) {
        return Some(Request::Claim(Claim::Report(report)));
    }
    if line == b"status".as_slice() {
        return Some(Request::Status);
    }
    let claim = named_end_of(line)?;
    Some(Request::Claim(claim))
}

/// What the line asks of a cell, and the number of that cell before it, if it asks for anything.
pub fn cell_request_of(line: &[u8]) -> Option<(u32, Request)>
    ensures { MatchOption result (IsNoCellRequest line.now) (λ found. IsCellRequest line.now found.0 found.1) }
{
    let (cell, rest) = number_first(line, 9)?;
    let request = request_of(rest)?;
    Some((cell as u32, request))
}
