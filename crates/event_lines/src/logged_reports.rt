//! A report as it is logged: `report T arrive J`, `report T finish J M` or `report T clean M`.

ghost use Rattle.std.specs.Prelude.{◌≡◌, ◌+◌, ◌≤◌, [], ◌∷◌, ◌++◌, length, codes, decimal};
ghost use Rattle.shop_base.specs.Report.{at};
ghost use Rattle.text_lines.specs.Searches.{SomeIfAny};
ghost use Rattle.event_lines.specs.Words.{moment, words_before, IsReadAs};
ghost use Rattle.event_lines.specs.EventLines.{end_words, logged_words};

use crate::words::{number_first, short_last};
use shop_base::{JobNo, Moment, Report};
use text_lines::after_prefix;

/// Writes `report T`, the word of what has ended, with a space on each side, and the number of its job or machine.
#[inline(always)]
fn put_ended<const ROOM: usize>(
    line: &mut text_lines::LineText<ROOM>,
    ended: &[u8],
    number: u32,
    at: Moment,
)
    requires ended { length ended.now ≤ 8 }
    requires room { 45 + length line.old ≤ ROOM }
    ensures written { line.new ≡ codes "report " ++ (decimal at ++ (ended.now ++ (decimal number ++ line.old))) }
    ensures length { length line.new ≤ 45 + length line.old }
{
    line.put_short_number(number);
    line.put_text(ended);
    line.put_number(at);
    line.put_text(b"report ");
}

/// Writes the words of an accepted report before what there is.
#[inline(always)]
pub(crate) fn put_report_words<const ROOM: usize>(
    line: &mut text_lines::LineText<ROOM>,
    report: Report,
)
    requires { 56 + length line.old ≤ ROOM }
    ensures written { line.new ≡ words_before (logged_words report) line.old }
    ensures length { length line.new ≤ 56 + length line.old }
{
    match report {
        Report::Arrive { job, at } => put_ended(line, b" arrive ", job, at),
        Report::Finish { job, machine, at } => {
            line.put_short_number(machine);
            line.put_text(b" ");
            put_ended(line, b" finish ", job, at);
        }
        Report::Clean { machine, at } => put_ended(line, b" clean ", machine, at),
    }
}

/// What has ended at this moment, by these words.
#[tactic(auto, using(crate::proofs::Ends::no_end))]
fn ended_of(words: &[u8], moment: Moment) -> Option<Report>
    ensures { SomeIfAny result (λ report. IsReadAs words.now (end_words report) × (at report ≡ moment)) }
{
    if let Some(rest) = after_prefix(words, b"arrive ") {
        let job = short_last(rest)?;
        return Some(Report::Arrive { job, at: moment });
    }
    if let Some(rest) = after_prefix(words, b"finish ") {
        let (job, rest) = number_first(rest, 9)?;
        let machine = short_last(rest)?;
        return Some(Report::Finish {
            job: job as JobNo,
            machine,
            at: moment,
        });
    }
    let rest = after_prefix(words, b"clean ")?;
    let machine = short_last(rest)?;
    Some(Report::Clean {
        machine,
        at: moment,
    })
}

/// The report that the words after `report` give.
#[tactic(auto, using(crate::proofs::WordByWord::word_steps, crate::proofs::WordByWord::same_first))]
pub(crate) fn logged_report_of(words: &[u8]) -> Option<Report>
    ensures { SomeIfAny result (λ report. IsReadAs words.now (moment (at report) ∷ end_words report)) }
{
    let (at, rest) = number_first(words, 13)?;
    let report = ended_of(rest, at)?;
    Some(report)
}
