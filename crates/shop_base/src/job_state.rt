use crate::shop::Moment;

/// A job in the cell. It makes a move for each step of its route, and one to leave.
#[derive(Clone, Copy, Debug, PartialEq, Eq)]
pub struct JobState {
    /// How many moves it has made.
    pub made: u32,
    /// Whether it is ready for its next move.
    pub ready: bool,
    /// The moment of its last move, 0 before the first.
    pub since: Moment,
}
