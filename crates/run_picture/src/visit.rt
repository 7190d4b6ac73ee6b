//! The visits that are drawn, and their last moment.

ghost use Rattle.std.specs.Prelude.{◌≡◌};
ghost use Rattle.run_picture.specs.LastMoments.{moment_or_none, clean_end_or_none, last_of_visit, last_of};

use shop_base::{JobNo, MachineNo, Moment};

/// What is known of the cleaning after a visit, which begins as the job leaves.
#[derive(Clone, Copy, Debug)]
pub enum Cleaned {
    /// The machine isn't cleaned after it.
    Never,
    /// Its end isn't known.
    NotYet,
    /// It ends at this moment.
    By(Moment),
}

/// A visit of a job to a machine, as it is drawn.
#[derive(Clone, Copy, Debug)]
pub struct DrawnVisit {
    /// The job.
    pub job: JobNo,
    /// The machine.
    pub machine: MachineNo,
    /// When the job enters, and its operation begins.
    pub enter: Moment,
    /// When its operation ends, if that is known.
    pub finish: Option<Moment>,
    /// When the job leaves, if that is known.
    pub leave: Option<Moment>,
    /// The cleaning after it.
    pub cleaned: Cleaned,
}

/// The greatest moment in the visits, 0 if there is none.
pub fn last_moment(visits: &[DrawnVisit]) -> Moment
    ensures { result ≡ last_of visits.now }
{
    let mut last = 0;
    for visit in visits {
        last = last.max(last_of_visit(*visit));
    }
    last
}

/// The greatest moment in a visit.
fn last_of_visit(visit: DrawnVisit) -> Moment
    ensures { result ≡ last_of_visit visit }
{
    let finish = moment_or_none(visit.finish);
    let leave = moment_or_none(visit.leave);
    let clean = clean_end_or_none(visit.cleaned);
    visit.enter.max(finish.max(leave.max(clean)))
}

pub(crate) fn moment_or_none(moment: Option<Moment>) -> Moment
    ensures { result ≡ moment_or_none moment }
{
    match moment {
        Some(moment) => moment,
        None => 0,
    }
}

fn clean_end_or_none(cleaned: Cleaned) -> Moment
    ensures { result ≡ clean_end_or_none cleaned }
{
    match cleaned {
        Cleaned::Never | Cleaned::NotYet => 0,
        Cleaned::By(end) => end,
    }
}
