//! What a run has left of a plan.

use shop_base::Moment;

/// What a run has left of a plan: how each job goes on, and which machines are being cleaned. It is the same whatever
/// the orders of the entries ahead are.
#[derive(Drop)]
pub struct PartAhead {
    /// How each job goes on.
    pub jobs: Vec<JobAhead>,
    /// Since when each machine is being cleaned, if it is, in time units from moment 0.
    pub cleanings: Vec<Option<Moment>>,
}

/// How a job goes on.
#[derive(Clone, Copy)]
pub struct JobAhead {
    /// How many moves it has made: one for each step that it has entered, and one more once it has left.
    pub made: u32,
    /// The moment before which it doesn't make its next one, in time units from moment 0; of a job that has left, that
    /// at which it did.
    pub bound: Moment,
}
