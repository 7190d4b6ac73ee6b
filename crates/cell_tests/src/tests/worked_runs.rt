//! The worked runs: reports, with what a controller answers to each and the orders that stand then.

use cell_control::{Ack, Report, ReportFault};
use shop_base::{JobNo, Moment, MoveOrder, Spot};

/// A job, where it leaves, where it enters, and the moment.
type Order = (JobNo, Spot, Spot, Moment);

/// A report, what is answered, and the orders that stand then.
pub(super) type Row = (Report, Result<Ack, ReportFault>, &'static [Order]);

/// Whether these are the orders.
pub(super) fn are_orders(orders: &[MoveOrder], wanted: &[Order]) -> bool {
    if orders.len() != wanted.len() {
        return false;
    }
    for (order, &(job, source, target, at)) in orders.iter().zip(wanted) {
        let other = MoveOrder {
            job,
            source,
            target,
            at,
        };
        if *order != other {
            return false;
        }
    }
    true
}

const IN_TIME: Result<Ack, ReportFault> = Ok(Ack { late: false });

const LATE: Result<Ack, ReportFault> = Ok(Ack { late: true });

/// The first job arrives.
pub(super) const FIRST: &[Row] = &[(
    Report::Arrive { job: 0, at: 0 },
    IN_TIME,
    &[(0, Spot::Out, Spot::At(0), 0)],
)];

/// Then the second one, of two jobs that cross on two machines, and the first operation ends early.
pub(super) const EARLY: &[Row] = &[
    (Report::Arrive { job: 1, at: 0 }, IN_TIME, &[]),
    (
        Report::Finish {
            job: 0,
            machine: 0,
            at: 2,
        },
        IN_TIME,
        &[(0, Spot::At(0), Spot::At(1), 2)],
    ),
];

/// What isn't possible then.
pub(super) const REFUSED: &[Row] = &[
    (
        Report::Finish {
            job: 0,
            machine: 0,
            at: 2,
        },
        Err(ReportFault::WrongMachine { actual: 1 }),
        &[(0, Spot::At(0), Spot::At(1), 2)],
    ),
    (
        Report::Arrive { job: 0, at: 2 },
        Err(ReportFault::WrongKind),
        &[(0, Spot::At(0), Spot::At(1), 2)],
    ),
    (
        Report::Arrive { job: 1, at: 2 },
        Err(ReportFault::NotExpected),
        &[(0, Spot::At(0), Spot::At(1), 2)],
    ),
    (
        Report::Finish {
            job: 1,
            machine: 1,
            at: 2,
        },
        Err(ReportFault::NotExpected),
        &[(0, Spot::At(0), Spot::At(1), 2)],
    ),
    (
        Report::Arrive { job: 2, at: 0 },
        Err(ReportFault::JobOutOfRange),
        &[(0, Spot::At(0), Spot::At(1), 2)],
    ),
    (
        Report::Clean { machine: 1, at: 2 },
        Err(ReportFault::NotExpected),
        &[(0, Spot::At(0), Spot::At(1), 2)],
    ),
    (
        Report::Clean { machine: 2, at: 0 },
        Err(ReportFault::MachineOutOfRange),
        &[(0, Spot::At(0), Spot::At(1), 2)],
    ),
    (
        Report::Finish {
            job: 0,
            machine: 1,
            at: 1,
        },
        Err(ReportFault::Backwards { last: 2 }),
        &[(0, Spot::At(0), Spot::At(1), 2)],
    ),
];

/// How the run of the two jobs ends.
pub(super) const EARLY_END: &[Row] = &[
    (
        Report::Finish {
            job: 0,
            machine: 1,
            at: 4,
        },
        IN_TIME,
        &[
            (0, Spot::At(1), Spot::Out, 4),
            (1, Spot::Out, Spot::At(1), 4),
        ],
    ),
    (
        Report::Finish {
            job: 1,
            machine: 1,
            at: 8,
        },
        IN_TIME,
        &[(1, Spot::At(1), Spot::At(0), 8)],
    ),
    (
        Report::Finish {
            job: 1,
            machine: 0,
            at: 9,
        },
        IN_TIME,
        &[(1, Spot::At(0), Spot::Out, 9)],
    ),
];

/// In place of both the first operation ends past its due moment.
pub(super) const LATE_RUN: &[Row] = &[
    (Report::Arrive { job: 1, at: 0 }, IN_TIME, &[]),
    (
        Report::Finish {
            job: 0,
            machine: 0,
            at: 4,
        },
        LATE,
        &[(0, Spot::At(0), Spot::At(1), 4)],
    ),
    (
        Report::Finish {
            job: 0,
            machine: 1,
            at: 6,
        },
        IN_TIME,
        &[
            (0, Spot::At(1), Spot::Out, 6),
            (1, Spot::Out, Spot::At(1), 6),
        ],
    ),
    (
        Report::Finish {
            job: 1,
            machine: 1,
            at: 10,
        },
        IN_TIME,
        &[(1, Spot::At(1), Spot::At(0), 10)],
    ),
    (
        Report::Finish {
            job: 1,
            machine: 0,
            at: 11,
        },
        IN_TIME,
        &[(1, Spot::At(0), Spot::Out, 11)],
    ),
];

/// The latest moment of all.
const LATEST: u64 = 1_000_000_000_000;

/// That moment, and one past it.
pub(super) const AT_THE_LIMIT: &[Row] = &[
    (
        Report::Arrive { job: 0, at: LATEST },
        LATE,
        &[(0, Spot::Out, Spot::At(0), LATEST)],
    ),
    (
        Report::Arrive {
            job: 1,
            at: 1_000_000_000_001,
        },
        Err(ReportFault::MomentTooLarge),
        &[(0, Spot::Out, Spot::At(0), LATEST)],
    ),
    (
        Report::Arrive { job: 1, at: 5 },
        Err(ReportFault::Backwards { last: LATEST }),
        &[(0, Spot::Out, Spot::At(0), LATEST)],
    ),
    (
        Report::Finish {
            job: 1,
            machine: 0,
            at: LATEST,
        },
        Err(ReportFault::WrongKind),
        &[(0, Spot::Out, Spot::At(0), LATEST)],
    ),
];

/// One operation that takes no time.
pub(super) const AT_ONCE: &[Row] = &[
    (
        Report::Arrive { job: 0, at: 0 },
        IN_TIME,
        &[(0, Spot::Out, Spot::At(0), 0)],
    ),
    (
        Report::Finish {
            job: 0,
            machine: 0,
            at: 0,
        },
        IN_TIME,
        &[(0, Spot::At(0), Spot::Out, 0)],
    ),
];

/// The two jobs, where machine 1 has to be cleaned for 2 after each of them: job 1 waits for that.
pub(super) const CLEANING: &[Row] = &[
    (Report::Arrive { job: 1, at: 0 }, IN_TIME, &[]),
    (
        Report::Finish {
            job: 0,
            machine: 0,
            at: 3,
        },
        IN_TIME,
        &[(0, Spot::At(0), Spot::At(1), 3)],
    ),
    (
        Report::Finish {
            job: 0,
            machine: 1,
            at: 5,
        },
        IN_TIME,
        &[(0, Spot::At(1), Spot::Out, 5)],
    ),
];

/// How their run ends.
pub(super) const CLEANING_END: &[Row] = &[
    (
        Report::Clean { machine: 1, at: 7 },
        IN_TIME,
        &[(1, Spot::Out, Spot::At(1), 7)],
    ),
    (
        Report::Finish {
            job: 1,
            machine: 1,
            at: 11,
        },
        IN_TIME,
        &[(1, Spot::At(1), Spot::At(0), 11)],
    ),
    (
        Report::Finish {
            job: 1,
            machine: 0,
            at: 12,
        },
        IN_TIME,
        &[(1, Spot::At(0), Spot::Out, 12)],
    ),
    (Report::Clean { machine: 1, at: 13 }, IN_TIME, &[]),
];

/// In its place cleanings that aren't possible, and a late one.
pub(super) const UNCLEAN: &[Row] = &[
    (
        Report::Clean { machine: 0, at: 5 },
        Err(ReportFault::NotExpected),
        &[(0, Spot::At(1), Spot::Out, 5)],
    ),
    (
        Report::Clean { machine: 2, at: 5 },
        Err(ReportFault::MachineOutOfRange),
        &[(0, Spot::At(1), Spot::Out, 5)],
    ),
    (
        Report::Clean { machine: 1, at: 4 },
        Err(ReportFault::Backwards { last: 5 }),
        &[(0, Spot::At(1), Spot::Out, 5)],
    ),
    (
        Report::Clean { machine: 1, at: 8 },
        LATE,
        &[(1, Spot::Out, Spot::At(1), 8)],
    ),
];

/// Three jobs follow one another over three machines: two wait for the machine before them.
pub(super) const FOLLOWED: &[Row] = &[
    (Report::Arrive { job: 1, at: 0 }, IN_TIME, &[]),
    (Report::Arrive { job: 2, at: 0 }, IN_TIME, &[]),
    (
        Report::Finish {
            job: 0,
            machine: 0,
            at: 1,
        },
        IN_TIME,
        &[
            (0, Spot::At(0), Spot::At(1), 1),
            (1, Spot::Out, Spot::At(0), 1),
        ],
    ),
    (
        Report::Finish {
            job: 0,
            machine: 1,
            at: 2,
        },
        IN_TIME,
        &[(0, Spot::At(1), Spot::At(2), 2)],
    ),
    (
        Report::Finish {
            job: 1,
            machine: 0,
            at: 2,
        },
        IN_TIME,
        &[
            (1, Spot::At(0), Spot::At(1), 2),
            (2, Spot::Out, Spot::At(0), 2),
        ],
    ),
    (
        Report::Finish {
            job: 1,
            machine: 1,
            at: 3,
        },
        IN_TIME,
        &[],
    ),
    (
        Report::Finish {
            job: 2,
            machine: 0,
            at: 3,
        },
        IN_TIME,
        &[],
    ),
];

/// Then all three move at once, and leave.
pub(super) const FOLLOWED_END: &[Row] = &[
    (
        Report::Finish {
            job: 0,
            machine: 2,
            at: 7,
        },
        IN_TIME,
        &[
            (0, Spot::At(2), Spot::Out, 7),
            (1, Spot::At(1), Spot::At(2), 7),
            (2, Spot::At(0), Spot::At(1), 7),
        ],
    ),
    (
        Report::Finish {
            job: 1,
            machine: 2,
            at: 8,
        },
        IN_TIME,
        &[(1, Spot::At(2), Spot::Out, 8)],
    ),
    (
        Report::Finish {
            job: 2,
            machine: 1,
            at: 8,
        },
        IN_TIME,
        &[(2, Spot::At(1), Spot::At(2), 8)],
    ),
    (
        Report::Finish {
            job: 2,
            machine: 2,
            at: 9,
        },
        IN_TIME,
        &[(2, Spot::At(2), Spot::Out, 9)],
    ),
];

/// In its place the first job ends its last operation late.
pub(super) const LATE_LEAVING: &[Row] = &[(
    Report::Finish {
        job: 0,
        machine: 2,
        at: 11,
    },
    LATE,
    &[
        (0, Spot::At(2), Spot::Out, 11),
        (1, Spot::At(1), Spot::At(2), 11),
        (2, Spot::At(0), Spot::At(1), 11),
    ],
)];

/// Then the third one ends its operation on the machine before, late too.
pub(super) const LATE_WAITING: &[Row] = &[(
    Report::Finish {
        job: 2,
        machine: 1,
        at: 13,
    },
    LATE,
    &[],
)];

/// Then the second one ends its last operation, late too.
pub(super) const SECOND_LEAVING: &[Row] = &[(
    Report::Finish {
        job: 1,
        machine: 2,
        at: 14,
    },
    LATE,
    &[
        (1, Spot::At(2), Spot::Out, 14),
        (2, Spot::At(1), Spot::At(2), 14),
    ],
)];

/// Then the third one leaves.
pub(super) const THIRD_LEAVING: &[Row] = &[(
    Report::Finish {
        job: 2,
        machine: 2,
        at: 15,
    },
    IN_TIME,
    &[(2, Spot::At(2), Spot::Out, 15)],
)];

/// The first rack is rinsed, and is done in the bath before the tank is clean. No copy of the end of its rinsing is
/// possible meanwhile.
pub(super) const DIPPED: &[Row] = &[
    (Report::Arrive { job: 1, at: 0 }, IN_TIME, &[]),
    (
        Report::Finish {
            job: 0,
            machine: 0,
            at: 3,
        },
        IN_TIME,
        &[(0, Spot::At(0), Spot::At(1), 3)],
    ),
    (
        Report::Finish {
            job: 0,
            machine: 0,
            at: 4,
        },
        Err(ReportFault::WrongMachine { actual: 1 }),
        &[(0, Spot::At(0), Spot::At(1), 3)],
    ),
    (
        Report::Finish {
            job: 0,
            machine: 1,
            at: 5,
        },
        IN_TIME,
        &[],
    ),
    (
        Report::Finish {
            job: 0,
            machine: 0,
            at: 9,
        },
        Err(ReportFault::NotExpected),
        &[],
    ),
];

/// Then the tank is clean, and the rack is rinsed again.
pub(super) const BACK: &[Row] = &[(
    Report::Clean { machine: 0, at: 9 },
    IN_TIME,
    &[(0, Spot::At(1), Spot::At(0), 9)],
)];

/// How the run of the racks ends.
pub(super) const RINSED_END: &[Row] = &[
    (
        Report::Finish {
            job: 0,
            machine: 0,
            at: 12,
        },
        IN_TIME,
        &[(0, Spot::At(0), Spot::Out, 12)],
    ),
    (
        Report::Clean { machine: 0, at: 18 },
        IN_TIME,
        &[(1, Spot::Out, Spot::At(0), 18)],
    ),
    (
        Report::Finish {
            job: 1,
            machine: 0,
            at: 21,
        },
        IN_TIME,
        &[(1, Spot::At(0), Spot::Out, 21)],
    ),
    (Report::Clean { machine: 0, at: 27 }, IN_TIME, &[]),
];

/// In its place a copy of the end of the first rinsing: it is that of the second one.
pub(super) const COPIED: &[Row] = &[(
    Report::Finish {
        job: 0,
        machine: 0,
        at: 9,
    },
    IN_TIME,
    &[(0, Spot::At(0), Spot::Out, 9)],
)];

/// Where the other rack takes its turn while the first one is dipped, the tank is clean for that.
pub(super) const OTHER_BETWEEN: &[Row] = &[
    (
        Report::Clean { machine: 0, at: 9 },
        IN_TIME,
        &[(1, Spot::Out, Spot::At(0), 9)],
    ),
    (
        Report::Finish {
            job: 1,
            machine: 0,
            at: 12,
        },
        IN_TIME,
        &[(1, Spot::At(0), Spot::Out, 12)],
    ),
    (
        Report::Clean { machine: 0, at: 18 },
        IN_TIME,
        &[(0, Spot::At(1), Spot::At(0), 18)],
    ),
    (
        Report::Finish {
            job: 0,
            machine: 0,
            at: 21,
        },
        IN_TIME,
        &[(0, Spot::At(0), Spot::Out, 21)],
    ),
    (Report::Clean { machine: 0, at: 27 }, IN_TIME, &[]),
];
