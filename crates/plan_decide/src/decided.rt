//! What is decided.

use shop_base::{JobNo, Moment, Shaped};

/// What is decided.
#[derive(Drop)]
pub enum Decided {
    /// All promises can be kept: an accepted plan.
    Kept(Shaped),
    /// They can, and this is the best plan that was found, with what is known of the objective. Where the least leaving
    /// of a job was asked for, the plan has the job's leaving as its budget.
    Best(Shaped, Within),
    /// They can't: the jobs that exclude each other.
    Never(Exclusions),
    /// No plan is without a cycle, whatever its orders: none gets all jobs out.
    Cyclic,
    /// Whether they can isn't decided, within the choices that were allowed or since the question is too large.
    Open,
}

/// Between which moments the least value of an objective lies, in whole time units. Where they are the same, it is
/// known.
#[derive(Clone, Copy, Debug, PartialEq, Eq, Drop)]
pub struct Within {
    /// No plan that keeps the promises has less.
    pub at_least: Moment,
    /// The best plan that was found has this.
    pub at_most: Moment,
    /// Whether a search for something better ended open. Where none did, both moments are the same.
    pub ended_open: bool,
}

/// The promises that exclude each other.
#[derive(Debug, Drop)]
pub struct Exclusions {
    /// What is listed, in order.
    pub listed: Vec<Excluded>,
    /// Whether a pair may be missing: the search for a plan that keeps the promises to two jobs ended open, or none was
    /// made, since more than `PAIRED_JOBS` jobs may have been in a pair.
    pub pairs_open: bool,
    /// Whether it isn't decided if any plan is without a cycle: a search for one ended open.
    pub cycles_open: bool,
}

/// Promised jobs that exclude each other: no plan without a cycle has all of them out by their budgets, even if all
/// others are late.
#[derive(Debug, Drop)]
pub enum Excluded {
    /// A job whose promise no plan keeps. Of whole plans that is one whose bound is past its budget.
    Alone(JobNo),
    /// Two jobs, the lesser first, of which neither is listed alone. Unless `or_fewer` holds, each can be out by its
    /// budget without the other.
    Pair {
        lesser: JobNo,
        greater: JobNo,
        /// Whether the search for a plan that keeps the promise to one of the two ended open.
        or_fewer: bool,
    },
    /// The jobs that remain where of all the promised ones those are left out, the greatest number first, without which
    /// the others still exclude each other. They ascend. Where no search of this ended open, each of them is needed:
    /// the promises of the others can be kept.
    Several {
        jobs: Vec<JobNo>,
        or_fewer: bool,
    },
}
