use shop_base::{MoveOrder, Report};

/// An event of a run: a report that was accepted, or a move that was ordered.
#[derive(Clone, Copy, Debug, PartialEq, Eq)]
pub enum Entry {
    Report(Report),
    Order(MoveOrder),
}
