//! What an audit finds.

use cell_tables::Entry;
use shop_base::Moment;

/// What a log records: a run of the plan, by any controller.
#[derive(Debug, Drop)]
pub struct Audit {
    /// How many reports it has.
    pub reports: u64,
    /// How many orders.
    pub orders: u64,
    /// The last moment, 0 if nothing is recorded.
    pub last: Moment,
    /// Whether the run has ended: all jobs are gone, and no cleaning is going on.
    pub complete: bool,
    /// Its reports and orders, in the order of the log.
    pub entries: Vec<Entry>,
}
