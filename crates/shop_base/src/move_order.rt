use crate::shop::{JobNo, MachineNo, Moment};

/// Where a job is, or goes: out of the cell, or on a machine.
#[derive(Clone, Copy, Debug, Default, PartialEq, Eq)]
pub enum Spot {
    #[default]
    Out,
    At(MachineNo),
}

/// An order to move a job from one spot to another at a moment.
#[derive(Clone, Copy, Debug, Default, PartialEq, Eq)]
pub struct MoveOrder {
    pub job: JobNo,
    pub source: Spot,
    pub target: Spot,
    pub at: Moment,
}
