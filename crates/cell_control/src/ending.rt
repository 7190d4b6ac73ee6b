//! The end of an activity that is reported, and who may move after it.

ghost use Rattle.std.specs.Prelude.{◌≡◌, ◌<◌, IfSome};
ghost use Rattle.shop_base.specs.{Plan.jobs, Report.CanReport, Report.after_report, Run.IsAtRest};
ghost use Rattle.cell_control.specs.{DueMoments.AreDueMoments, Sequences.OnlyMay};

use crate::due_moments::cleaning_key;
use crate::dues::Dues;
use cell_tables::WorkCell;
use shop_base::{JobNo, Planned, Report};

/// Ends the activity of a possible report, which is due no more.
pub fn end_activity<P: Planned, D: Dues>(cell: &mut WorkCell<P>, dues: &mut D, report: Report)
    requires due_moments { AreDueMoments cell.old.plan cell.old.cell (D.dues dues.old) }
    requires possible { CanReport cell.old.plan cell.old.cell report }
    ensures ended { cell.new ≡ record cell.old { cell = after_report cell.old.cell report } }
    ensures due_moments { AreDueMoments cell.old.plan cell.new.cell (D.dues dues.new) }
{
    let _plan = cell.shaped();
    cell.end(report);
    match report {
        Report::Arrive { job, .. } => dues.clear(job),
        Report::Finish { job, .. } => dues.clear(job),
        Report::Clean { machine, .. } => dues.clear(cleaning_key(cell, machine)),
    }
}

/// The job that may be able to move once the activity of a possible report has ended, as none can before.
pub(crate) fn candidate_after<P: Planned>(cell: &WorkCell<P>, report: Report) -> Option<JobNo>
    requires quiescent { IsAtRest cell.now.plan cell.now.cell }
    requires possible { CanReport cell.now.plan cell.now.cell report }
    ensures only { OnlyMay cell.now.plan (after_report cell.now.cell report) result }
    ensures of_shop { IfSome result (λ job. job < jobs cell.now.plan) }
{
    let _plan = cell.shaped();
    match report {
        Report::Arrive { job, .. } => Some(job),
        Report::Finish { job, .. } => Some(job),
        Report::Clean { machine, .. } => cell.next_on(machine),
    }
}
