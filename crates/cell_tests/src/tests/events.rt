//! Reports and orders in short.

use cell_control::Report;
use shop_base::{JobNo, MachineNo, Moment, MoveOrder, Spot};

pub(super) const fn arrive(job: JobNo, at: Moment) -> Report {
    Report::Arrive { job, at }
}

pub(super) const fn finish(job: JobNo, machine: MachineNo, at: Moment) -> Report {
    Report::Finish { job, machine, at }
}

pub(super) const fn clean(machine: MachineNo, at: Moment) -> Report {
    Report::Clean { machine, at }
}

pub(super) const fn enter(job: JobNo, machine: MachineNo, at: Moment) -> MoveOrder {
    MoveOrder {
        job,
        source: Spot::Out,
        target: Spot::At(machine),
        at,
    }
}

pub(super) const fn move_on(
    job: JobNo,
    source: MachineNo,
    target: MachineNo,
    at: Moment,
) -> MoveOrder {
    MoveOrder {
        job,
        source: Spot::At(source),
        target: Spot::At(target),
        at,
    }
}

pub(super) const fn leave(job: JobNo, machine: MachineNo, at: Moment) -> MoveOrder {
    MoveOrder {
        job,
        source: Spot::At(machine),
        target: Spot::Out,
        at,
    }
}
