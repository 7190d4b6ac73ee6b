ghost use Rattle.std.specs.Prelude.{MatchBool};
ghost use Rattle.plan_decide.specs.Pasts.{whole_case};
ghost use Rattle.plan_decide.specs.Promises.{IsInRange};

use shop_base::{JobNo, Shaped};

/// What is to be decided.
#[derive(Clone, Copy, Debug, PartialEq, Eq, Drop)]
pub enum Aim {
    /// Whether all promises can be kept.
    Promises,
    /// And the least value of this objective where they are.
    Least(Objective),
}

/// What is to be as small as it can be (Pinedo, Scheduling: an objective).
#[derive(Clone, Copy, Debug, PartialEq, Eq, Drop)]
pub enum Objective {
    /// The makespan.
    Makespan,
    /// The earliest leaving of this job, whose own promise isn't asked for.
    Leaving(JobNo),
}

/// Whether the job whose leaving is asked for is of the shop.
pub(crate) fn is_in_range(shaped: &Shaped, aim: Aim) -> bool
    ensures { let t = whole_case shaped.now in MatchBool result (IsInRange t aim) (IsInRange t aim → ⊥) }
{
    match aim {
        Aim::Least(Objective::Leaving(job)) => job < shaped.job_count(),
        _ => true,
    }
}
