use crate::timing::{Row, head_in};
use plan_net::{NONE, Span};
use shop_base::Moment;
use shop_base::limits::MAX_MOMENT;

/// What the annealing lessens.
#[derive(Clone, Copy, PartialEq, Eq)]
pub(crate) enum Aim {
    /// The most by which a job leaves past its budget or, if none does, the least by which it leaves before it.
    Budgets,
    /// The makespan and the total lateness together.
    Makespan,
}

/// How late a plan is, how long it takes, and the leavings that say so.
#[derive(Clone, Copy)]
pub(crate) struct Price {
    /// The greatest leaving less its job's budget, and `MAX_MOMENT`, so that it isn't below 0.
    pub urgency: Moment,
    pub urgent: u32,
    pub makespan: Moment,
    pub longest: u32,
    /// What all jobs together leave past their budgets.
    pub total: Moment,
}

impl Price {
    /// What nothing is known of.
    pub(crate) fn none() -> Price {
        Price {
            urgency: 0,
            urgent: NONE,
            makespan: 0,
            longest: NONE,
            total: 0,
        }
    }

    /// The price of a plan with these moments.
    pub(crate) fn of(spans: &[Span], rows: &[Row]) -> Price {
        let mut price = Price::none();
        for span in spans {
            let leaves = head_in(rows, span.last);
            price.total = price.total.wrapping_add(leaves.saturating_sub(span.budget));
            let urgency = leaves.wrapping_add(MAX_MOMENT).wrapping_sub(span.budget);
            if urgency > price.urgency {
                price.urgency = urgency;
                price.urgent = span.last;
            }
            if leaves > price.makespan {
                price.makespan = leaves;
                price.longest = span.last;
            }
        }
        price
    }

    /// Whether it is less: the total lateness decides, and if that is the same, the makespan.
    pub(crate) fn is_less(&self, other: &Price) -> bool {
        self.total < other.total || self.total == other.total && self.makespan < other.makespan
    }

    /// What is to be lessened.
    pub(crate) fn weight(&self, aim: Aim) -> u64 {
        match aim {
            Aim::Budgets => self.urgency,
            Aim::Makespan => self.makespan.wrapping_add(self.total),
        }
    }

    /// The leaving that has to come sooner.
    pub(crate) fn leaving(&self, aim: Aim) -> u32 {
        match aim {
            Aim::Makespan if self.total == 0 => self.longest,
            _ => self.urgent,
        }
    }
}
