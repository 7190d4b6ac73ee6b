//! A report as it is sent: `arrive J T`, `finish J M T` or `clean M T`.

ghost use Rattle.text_lines.specs.Searches.{SomeIfAny};
ghost use Rattle.event_lines.specs.SentLines.{IsReportLine};

use crate::words::{number_and_moment, number_first};
use shop_base::{JobNo, Report};
use text_lines::after_prefix;

/// The report that the line is, if it is one. Most are ends of operations, so these are looked for first.
#[inline(always)]
pub fn report_of(line: &[u8]) -> Option<Report>
    ensures { SomeIfAny result (IsReportLine line.now) }
{
    if let Some(words) = after_prefix(line, b"finish ") {
        let (job, rest) = number_first(words, 9)?;
        let (machine, at) = number_and_moment(rest)?;
        return Some(Report::Finish {
            job: job as JobNo,
            machine,
            at,
        });
    }
    if let Some(words) = after_prefix(line, b"arrive ") {
        let (job, at) = number_and_moment(words)?;
        return Some(Report::Arrive { job, at });
    }
    let words = after_prefix(line, b"clean ")?;
    let (machine, at) = number_and_moment(words)?;
    Some(Report::Clean { machine, at })
}
