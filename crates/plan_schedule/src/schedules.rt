//! The schedule of a plan, or of the rest of a run.

ghost use Rattle.std.specs.Prelude.{IfOk, OnOk};
ghost use Rattle.plan_verifier.specs.Rest.{AreOrderedAhead};
ghost use Rattle.plan_explain.specs.{Added.Adds, Known.IsKnownVerdict};
ghost use Rattle.plan_schedule.specs.Calendars.{HasDeadlines, seen, due_in};
ghost use Rattle.plan_schedule.specs.{ScheduleLines.AreScheduleLines, Scheduled.AreVerdictLines, Scheduled.IsScheduled};
ghost use Rattle.alt_graph.specs.Times.{earliest_of};

use crate::calendar::Calendar;
use crate::scheduling::push_all;
use alt_graph::{Deadlines, Times};
use cell_tables::Rest;
use people_names::Names;
use plan_explain::first_line;
use plan_verifier::{Judged, Why, deadlines_of};
use shop_base::Planned;
use std::alloc::{AllocError, Global};

/// When what is left of a run begins and ends, and how late it may end: after the verdict's first line the lines of each
/// job in ascending order, its arrival, its visits in the order of its route, and after each visit of a machine with a
/// cleaning time the cleaning; and then the lines of the cleanings that go on. What is overdue is assumed to end at the
/// present moment. Moments are whole time units, the earliest for each move ahead; of a whole plan those of the exact
/// run, in which each activity takes its nominal time. If the rest is accepted, the deadlines follow them. A plan with a
/// cycle has only its first line, as no run of it has moments for all. Behind the first line jobs, machines and moments
/// are written by names and clock, and visits, in a shop with recirculation, with their steps.
pub fn schedule<P: Planned>(
    alloc: Global,
    names: &Names,
    rest: &Rest<P>,
    verdict: &Judged,
) -> Result<Vec<u8>, AllocError>
    requires { IsKnownVerdict rest.now.plan rest.now.cell rest.now.present verdict.now }
    ensures { let r = rest.now in
        IfOk result (λ text. IsScheduled names.now r.plan r.cell r.present verdict.now text.items) }
{
    let mut text = first_line(alloc, rest, verdict)?;
    push_lines_behind(alloc, &mut text, names, rest, verdict)?;
    Ok(text)
}

/// Adds the lines after the first one.
fn push_lines_behind<P: Planned>(
    alloc: Global,
    text: &mut Vec<u8>,
    names: &Names,
    rest: &Rest<P>,
    verdict: &Judged,
) -> Result<(), AllocError>
    requires { IsKnownVerdict rest.now.plan rest.now.cell rest.now.present verdict.now }
    ensures { let r = rest.now in
        OnOk result (Adds (AreVerdictLines names.now r.plan r.cell r.present verdict.now) text.old.items text.new.items) }
{
    match verdict {
        Judged::Accepted(times) => {
            let deadlines = deadlines_of(alloc, rest, times)?;
            push_lines(alloc, text, names, rest, times, Some(&deadlines))
        }
        Judged::Refused(why) => match why {
            Why::Cycle(_) => Ok(()),
            Why::Late {
                job: _,
                leaves: _,
                chain: _,
                times,
            } => push_lines(alloc, text, names, rest, times, None),
        },
    }
}

/// Adds the lines of all jobs and of the cleanings that go on, by these moments and deadlines.
fn push_lines<'a, P: Planned>(
    alloc: Global,
    text: &mut Vec<u8>,
    names: &Names,
    rest: &'a Rest<P>,
    times: &'a Times,
    deadlines: Option<&'a Deadlines>,
) -> Result<(), AllocError>
    requires ordered { AreOrderedAhead rest.now.plan rest.now.cell rest.now.present times.now }
    requires deadlines { HasDeadlines rest.now.plan (seen deadlines (λ d. d.now)) }
    ensures { let r = rest.now in
        OnOk result (Adds (AreScheduleLines names.now r.plan r.cell r.present (earliest_of times.now)
        (due_in (seen deadlines.entry (λ d. d.now)))) text.old.items text.new.items) }
{
    let calendar = Calendar::new(alloc, rest, times, deadlines)?;
    push_all(text, names, &calendar)
}
