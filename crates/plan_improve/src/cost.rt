ghost use Rattle.std.specs.Prelude.{MatchBool};
ghost use Rattle.plan_improve.specs.{Costs.IsLess, Costs.IsAtMost, AtBound.Meets};

use shop_base::Moment;

/// How late a plan is, and how long it takes.
#[derive(Clone, Copy)]
pub struct Cost {
    /// What all jobs' earliest leavings together are past their budgets: the sum over the jobs, where one in time
    /// counts 0.
    pub late: Moment,
    /// The latest of all jobs' earliest leavings.
    pub makespan: Moment,
}

impl Cost {
    /// Whether it is less: the lateness decides, and if that is the same, the makespan.
    pub fn is_less(&self, other: &Cost) -> bool
        ensures { MatchBool result (IsLess self.now other.now) (IsAtMost other.now self.now) }
    {
        if self.late == other.late {
            return self.makespan < other.makespan;
        }
        self.late < other.late
    }

    /// Whether no job is late, and the makespan is this bound, below which none can be, if one is known.
    pub fn meets(&self, at_least: Option<Moment>) -> bool
        ensures { MatchBool result (Meets self.now at_least) (Meets self.now at_least → ⊥) }
    {
        if self.late > 0 {
            return false;
        }
        match at_least {
            Some(at_least) => self.makespan == at_least,
            None => false,
        }
    }
}
