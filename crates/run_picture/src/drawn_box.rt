//! The boxes of a visit.

ghost use Rattle.std.specs.Prelude.{◌≡◌};
ghost use Rattle.run_picture.specs.Boxes.{end_of, is_known, work_box, wait_box, clean_box};

use crate::visit::{Cleaned, DrawnVisit};
use shop_base::{JobNo, MachineNo, Moment};

/// What a box shows.
#[derive(Clone, Copy)]
pub(crate) enum BoxKind {
    /// An operation.
    Work,
    /// A job that waits on a machine after its operation.
    Wait,
    /// A cleaning.
    Clean,
}

/// A box: what it shows, for which job on which machine, from when to when, and whether it is over then.
#[derive(Clone, Copy)]
pub(crate) struct DrawnBox {
    pub kind: BoxKind,
    pub job: JobNo,
    pub machine: MachineNo,
    pub from: Moment,
    pub to: Moment,
    pub over: bool,
    /// Whether the job leaves past its budget.
    pub late: bool,
}

/// The box of a visit's operation.
pub(crate) fn work_box(last: Moment, late: bool, visit: DrawnVisit) -> DrawnBox
    ensures { result ≡ work_box last late visit }
{
    DrawnBox {
        kind: BoxKind::Work,
        job: visit.job,
        machine: visit.machine,
        from: visit.enter,
        to: end_of(last, visit.finish),
        over: is_known(visit.finish),
        late,
    }
}

/// The box of a visit's wait, if there is one.
pub(crate) fn wait_box(last: Moment, late: bool, visit: DrawnVisit) -> Option<DrawnBox>
    ensures { result ≡ wait_box last late visit }
{
    let from = visit.finish?;
    let to = end_of(last, visit.leave);
    if from >= to {
        return None;
    }
    Some(DrawnBox {
        kind: BoxKind::Wait,
        job: visit.job,
        machine: visit.machine,
        from,
        to,
        over: is_known(visit.leave),
        late,
    })
}

/// The box of the cleaning after a visit, if there is one.
pub(crate) fn clean_box(last: Moment, visit: DrawnVisit) -> Option<DrawnBox>
    ensures { result ≡ clean_box last visit }
{
    let from = visit.leave?;
    let (to, over) = match visit.cleaned {
        Cleaned::Never => return None,
        Cleaned::NotYet => (last, false),
        Cleaned::By(end) => (end, true),
    };
    Some(DrawnBox {
        kind: BoxKind::Clean,
        job: visit.job,
        machine: visit.machine,
        from,
        to,
        over,
        late: false,
    })
}

/// When something ends: at its end if that is known, else at the last moment.
fn end_of(last: Moment, end: Option<Moment>) -> Moment
    ensures { result ≡ end_of last end }
{
    match end {
        Some(end) => end,
        None => last,
    }
}

fn is_known(end: Option<Moment>) -> bool
    ensures { result ≡ is_known end }
{
    end.is_some()
}
