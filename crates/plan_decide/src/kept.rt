//! A plan that is accepted, with the moments of its nodes.

ghost use Rattle.std.specs.Prelude.{◌≡◌, ◌<◌};
ghost use Rattle.shop_base.specs.Plan.{jobs};
ghost use Rattle.plan_decide.specs.declared.aim.Objective.TheVariants.{Makespan, Leaving};
ghost use Rattle.plan_decide.specs.Cases.{HasValue};
ghost use Rattle.plan_decide.specs.Settings.{case_in, plan_of, FitsPast};

use crate::setting::Setting;
use alt_graph::Times;
use plan_verifier::{Verified, leave_time, makespan};
use shop_base::{JobNo, Moment, Planned, Shaped};

/// An accepted plan: as a whole, or for the rest of a run.
#[derive(Drop)]
pub(crate) enum Kept {
    Whole(Verified),
    Rest(Shaped, Times),
}

/// The plan's makespan.
pub(crate) fn makespan_of<P: Planned>(setting: &Setting<'_, P>, kept: &Kept) -> Moment
    requires { FitsPast (case_in setting.now).past kept.now }
    ensures { HasValue (case_in setting.now).past Makespan (plan_of kept.now) result }
{
    match kept {
        Kept::Whole(verified) => verified.makespan(),
        Kept::Rest(shaped, times) => makespan(shaped, times),
    }
}

/// The leaving of a job.
pub(crate) fn leaving_in<P: Planned>(setting: &Setting<'_, P>, kept: &Kept, job: JobNo) -> Moment
    requires fits { FitsPast (case_in setting.now).past kept.now }
    requires job { job < jobs (plan_of kept.now) }
    ensures { HasValue (case_in setting.now).past (Leaving job) (plan_of kept.now) result }
{
    match kept {
        Kept::Whole(verified) => match verified.earliest_leave(job) {
            Some(moment) => moment,
            None => unreachable!(),
        },
        Kept::Rest(shaped, times) => leave_time(shaped, times, job),
    }
}

impl Kept {
    /// The plan, taken out.
    pub(crate) fn into_shaped(self) -> Shaped
        ensures { result ≡ plan_of self }
    {
        match self {
            Kept::Whole(verified) => verified.into_shaped(),
            Kept::Rest(shaped, times) => {
                drop(times);
                shaped
            }
        }
    }
}
