//! How hot a round is.

/// How hot a round begins. A hot one gets away from a plan that the others can't leave. A cool one keeps most of the
/// plan that it begins with: if there are many steps, a warm round looks at too few plans to find a better one again.
/// Where a job visits a machine again, such rounds don't get away from the plan that they begin with, so each begins
/// hot.
#[derive(Clone, Copy, PartialEq, Eq)]
pub(crate) enum Heat {
    Warm,
    Cool,
    Hot,
    Recurring,
}

/// The most steps for which no round is cool.
const FEW_STEPS: u64 = 100;

impl Heat {
    /// The heat of a round over so many steps, by whether a job is late and whether one visits a machine again: every
    /// fourth round is hot (1, 5, ..), and the first is warm.
    pub(crate) fn of(round: u32, steps: u64, is_late: bool, recurs: bool) -> Heat {
        if round & 3 == 1 {
            Heat::Hot
        } else if recurs {
            Heat::Recurring
        } else if round == 0 || steps <= FEW_STEPS || is_late {
            Heat::Warm
        } else {
            Heat::Cool
        }
    }

    /// The temperature at the beginning, in hundredths of the mean time of a step.
    pub(crate) fn beginning(self) -> u64 {
        match self {
            Heat::Warm => 80,
            Heat::Cool => 40,
            Heat::Hot | Heat::Recurring => 240,
        }
    }

    /// By what it is multiplied in each of 256 phases, in 1/65536: after all of them it is at 15 hundredths, or at 90
    /// where a job visits a machine again.
    pub(crate) fn fall(self) -> u64 {
        match self {
            Heat::Warm => 65108,
            Heat::Cool => 65285,
            Heat::Hot => 64830,
            Heat::Recurring => 65285,
        }
    }
}
