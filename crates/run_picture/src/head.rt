use shop_base::Moment;

/// What stands above the rows.
#[derive(Clone, Copy)]
pub enum Head {
    /// Of a plan that is accepted, or of such a rest of a run: the latest leaving.
    Accepted {
        /// When the last job leaves.
        makespan: Moment,
    },
    /// Of a late one: the greatest lateness of a job that its verdict judges.
    Late {
        /// In time units.
        by: Moment,
    },
    /// Of a log: its last moment, and whether its run has ended.
    Log {
        /// The last moment.
        last: Moment,
        /// Whether the run has ended.
        complete: bool,
    },
}

/// What a picture is of, besides its visits.
#[derive(Clone, Copy)]
pub struct Sheet {
    /// The number of machines. Each has a row.
    pub machines: u32,
    /// Where the axis of time ends.
    pub last: Moment,
    /// What stands above the rows.
    pub head: Head,
    /// The moment that has a line through all rows, if there is one.
    pub present: Option<Moment>,
}
