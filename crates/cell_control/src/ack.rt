/// The answer to an accepted report.
#[derive(Clone, Copy, Debug, PartialEq, Eq)]
pub struct Ack {
    /// The report came past the due moment of an activity that was going on, its own or another.
    pub late: bool,
}
