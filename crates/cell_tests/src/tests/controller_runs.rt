//! Runs of a controller, report by report, and what its readers give then.

use super::calling::moves_of;
use super::cells::{CLEANED, CROSSING, FOLLOWING, INSTANT, RINSED, Texts, controller};
use super::events::{arrive, enter, finish, move_on};
use super::worked_runs::{
    AT_ONCE, AT_THE_LIMIT, BACK, CLEANING, CLEANING_END, COPIED, DIPPED, EARLY, EARLY_END, FIRST,
    FOLLOWED, FOLLOWED_END, LATE_LEAVING, LATE_RUN, LATE_WAITING, REFUSED, RINSED_END, Row,
    SECOND_LEAVING, THIRD_LEAVING, UNCLEAN, are_orders,
};
use cell_control::{Controller, Core, Dues, Phase, Report, ScanDues, Timed, TourneyDues};
use shop_base::{JobNo, MachineNo, Moment, MoveOrder};
use std::alloc::Global;
use std::process::Abort;
use std::test::Fail;

/// A job, where it is, and when its activity is due.
type OfJob = (JobNo, Option<Phase>, Option<Moment>);

/// A machine, who is on it, and when its cleaning is due.
type OfMachine = (MachineNo, Option<JobNo>, Option<Moment>);

/// A plan, the parts of the run of its cell, and what the readers give then.
struct Run {
    texts: Texts,
    parts: &'static [&'static [Row]],
    /// How many reports are left, the moment of the last accepted one, and whether none was late.
    end: (u64, Moment, bool),
    jobs: &'static [OfJob],
    machines: &'static [OfMachine],
}

const RUNS: &[Run] = &[
    // A number that is no job's or no machine's has no phase, no holder and nothing due.
    Run {
        texts: CROSSING,
        parts: &[],
        end: (6, 0, true),
        jobs: &[
            (1, Some(Phase::Outside { ready: false }), Some(0)),
            (2, None, None),
        ],
        machines: &[(0, None, None), (2, None, None)],
    },
    Run {
        texts: CROSSING,
        parts: &[FIRST],
        end: (5, 0, true),
        jobs: &[(
            0,
            Some(Phase::OnMachine {
                machine: 0,
                ready: false,
            }),
            Some(3),
        )],
        machines: &[(0, Some(0), None)],
    },
    Run {
        texts: CROSSING,
        parts: &[FIRST, EARLY, REFUSED],
        end: (3, 2, true),
        jobs: &[
            (
                0,
                Some(Phase::OnMachine {
                    machine: 1,
                    ready: false,
                }),
                Some(4),
            ),
            (1, Some(Phase::Outside { ready: true }), None),
        ],
        machines: &[(0, None, None), (1, Some(0), None)],
    },
    Run {
        texts: CROSSING,
        parts: &[FIRST, EARLY, EARLY_END],
        end: (0, 9, true),
        jobs: &[],
        machines: &[],
    },
    Run {
        texts: CROSSING,
        parts: &[FIRST, EARLY, REFUSED, EARLY_END],
        end: (0, 9, true),
        jobs: &[
            (0, Some(Phase::Gone { at: 4 }), None),
            (1, Some(Phase::Gone { at: 9 }), None),
        ],
        machines: &[],
    },
    Run {
        texts: CROSSING,
        parts: &[FIRST, LATE_RUN],
        end: (0, 11, false),
        jobs: &[],
        machines: &[],
    },
    Run {
        texts: CROSSING,
        parts: &[AT_THE_LIMIT],
        end: (5, 1_000_000_000_000, false),
        jobs: &[],
        machines: &[],
    },
    Run {
        texts: INSTANT,
        parts: &[AT_ONCE],
        end: (0, 0, true),
        jobs: &[(0, Some(Phase::Gone { at: 0 }), None)],
        machines: &[(0, None, None)],
    },
    Run {
        texts: CLEANED,
        parts: &[FIRST, CLEANING],
        end: (4, 5, true),
        jobs: &[
            (0, Some(Phase::Gone { at: 5 }), None),
            (1, Some(Phase::Outside { ready: true }), None),
        ],
        machines: &[(0, None, None), (1, None, Some(7))],
    },
    Run {
        texts: CLEANED,
        parts: &[FIRST, CLEANING, CLEANING_END],
        end: (0, 13, true),
        jobs: &[],
        machines: &[],
    },
    Run {
        texts: CLEANED,
        parts: &[FIRST, CLEANING, UNCLEAN],
        end: (3, 8, false),
        jobs: &[],
        machines: &[],
    },
    Run {
        texts: FOLLOWING,
        parts: &[FIRST, FOLLOWED, FOLLOWED_END],
        end: (0, 9, true),
        jobs: &[
            (0, Some(Phase::Gone { at: 7 }), None),
            (1, Some(Phase::Gone { at: 8 }), None),
            (2, Some(Phase::Gone { at: 9 }), None),
        ],
        machines: &[],
    },
    // A job is gone since it left, whatever comes late.
    Run {
        texts: FOLLOWING,
        parts: &[FIRST, FOLLOWED, LATE_LEAVING],
        end: (3, 11, false),
        jobs: &[
            (0, Some(Phase::Gone { at: 11 }), None),
            (
                1,
                Some(Phase::OnMachine {
                    machine: 2,
                    ready: false,
                }),
                Some(12),
            ),
            (
                2,
                Some(Phase::OnMachine {
                    machine: 1,
                    ready: false,
                }),
                Some(12),
            ),
        ],
        machines: &[],
    },
    Run {
        texts: FOLLOWING,
        parts: &[FIRST, FOLLOWED, LATE_LEAVING, LATE_WAITING],
        end: (2, 13, false),
        jobs: &[
            (0, Some(Phase::Gone { at: 11 }), None),
            (
                1,
                Some(Phase::OnMachine {
                    machine: 2,
                    ready: false,
                }),
                Some(12),
            ),
            (
                2,
                Some(Phase::OnMachine {
                    machine: 1,
                    ready: true,
                }),
                None,
            ),
        ],
        machines: &[],
    },
    Run {
        texts: FOLLOWING,
        parts: &[FIRST, FOLLOWED, LATE_LEAVING, LATE_WAITING, SECOND_LEAVING],
        end: (1, 14, false),
        jobs: &[
            (0, Some(Phase::Gone { at: 11 }), None),
            (1, Some(Phase::Gone { at: 14 }), None),
            (
                2,
                Some(Phase::OnMachine {
                    machine: 2,
                    ready: false,
                }),
                Some(15),
            ),
        ],
        machines: &[],
    },
    Run {
        texts: FOLLOWING,
        parts: &[
            FIRST,
            FOLLOWED,
            LATE_LEAVING,
            LATE_WAITING,
            SECOND_LEAVING,
            THIRD_LEAVING,
        ],
        end: (0, 15, false),
        jobs: &[
            (0, Some(Phase::Gone { at: 11 }), None),
            (1, Some(Phase::Gone { at: 14 }), None),
            (2, Some(Phase::Gone { at: 15 }), None),
        ],
        machines: &[],
    },
    // A rack comes to the tank again: it waits for the cleaning after its own first visit, and stays in time. A copy of
    // that visit's end is refused until the rack is back, and then ends the second one.
    Run {
        texts: RINSED,
        parts: &[FIRST, DIPPED],
        end: (5, 5, true),
        jobs: &[
            (
                0,
                Some(Phase::OnMachine {
                    machine: 1,
                    ready: true,
                }),
                None,
            ),
            (1, Some(Phase::Outside { ready: true }), None),
        ],
        machines: &[(0, None, Some(9)), (1, Some(0), None)],
    },
    Run {
        texts: RINSED,
        parts: &[FIRST, DIPPED, BACK],
        end: (4, 9, true),
        jobs: &[(
            0,
            Some(Phase::OnMachine {
                machine: 0,
                ready: false,
            }),
            Some(12),
        )],
        machines: &[(0, Some(0), None), (1, None, None)],
    },
    Run {
        texts: RINSED,
        parts: &[FIRST, DIPPED, BACK, RINSED_END],
        end: (0, 27, true),
        jobs: &[
            (0, Some(Phase::Gone { at: 12 }), None),
            (1, Some(Phase::Gone { at: 21 }), None),
        ],
        machines: &[(0, None, None)],
    },
    Run {
        texts: RINSED,
        parts: &[FIRST, DIPPED, BACK, COPIED],
        end: (3, 9, true),
        jobs: &[(0, Some(Phase::Gone { at: 9 }), None)],
        machines: &[(0, None, Some(15))],
    },
];

/// Gives the reports to the controller.
pub(super) fn gives<P: Timed, D: Dues>(rt: &impl Abort, cell: &mut Core<P, D>, rows: &[Row]) {
    for &(report, answer, orders) in rows {
        assert!(rt;
            cell.report(report) == answer && are_orders(cell.orders(), orders),
            "{report:?}"
        );
    }
}

/// Whether the readers give this of the jobs.
fn shows_jobs<D: Dues>(cell: &Controller<D>, jobs: &[OfJob]) -> bool {
    for &(job, phase, due) in jobs {
        if cell.phase(job) != phase || cell.due(job) != due {
            return false;
        }
    }
    true
}

/// Whether the readers give this of the machines.
fn shows_machines<D: Dues>(cell: &Controller<D>, machines: &[OfMachine]) -> bool {
    for &(machine, holder, due) in machines {
        if cell.holder(machine) != holder || cell.clean_due(machine) != due {
            return false;
        }
    }
    true
}

/// Whether the readers give this of the run.
fn shows_end<D: Dues>(cell: &Controller<D>, end: (u64, Moment, bool)) -> bool {
    let (left, now, punctual) = end;
    cell.reports_left() == left
        && cell.is_done() == (left == 0)
        && cell.now() == now
        && cell.punctual() == punctual
}

/// Makes a run with a new controller, and asserts what its readers give then.
fn makes<D: Dues>(rt: &impl Abort, cell: &mut Controller<D>, run: &Run) {
    for rows in run.parts {
        gives(rt, cell, rows);
    }
    let found = (
        shows_end(cell, run.end),
        shows_jobs(cell, run.jobs),
        shows_machines(cell, run.machines),
    );
    let now = run.end.1;
    assert!(rt; found == (true, true, true), "{found:?} at {now}");
}

fn makes_each_run<D: Dues>(rt: &(impl Abort + AllocGlobal)) -> Result<(), Fail> {
    for run in RUNS {
        let mut cell: Controller<D> = controller(rt.alloc(), run.texts)?;
        makes(rt, &mut cell, run);
        drop(cell);
    }
    Ok(())
}

#[test]
fn scan_dues_serve_a_controller(rt: HostRuntime) -> Result<(), Fail> {
    makes_each_run::<ScanDues>(&rt)
}

#[test]
fn tourney_dues_serve_a_controller(rt: HostRuntime) -> Result<(), Fail> {
    makes_each_run::<TourneyDues>(&rt)
}

/// The makespans of the plan that a controller keeps, and of the one that is taken out.
fn makespans(cell: Controller<TourneyDues>) -> (Moment, Moment) {
    let kept = cell.verified().makespan();
    let verified = cell.into_verified();
    let makespan = verified.makespan();
    drop(verified);
    (kept, makespan)
}

#[test]
fn a_controller_keeps_its_plan(rt: HostRuntime) -> Result<(), Fail> {
    let mut cell = controller::<TourneyDues>(rt.alloc(), CLEANED)?;
    let is_still = cell.orders().is_empty();
    gives(&rt, &mut cell, FIRST);
    let found = makespans(cell);
    assert!(rt; is_still && found == (12, 12));
    Ok(())
}

/// Whether these are the moves, or there are none.
fn are_moves(moves: &Option<Vec<MoveOrder>>, wanted: Option<&[MoveOrder]>) -> bool {
    match moves {
        Some(moves) => wanted == Some(moves.as_slice()),
        None => wanted.is_none(),
    }
}

/// Whether a caller is given these moves by the reports, or none where one isn't possible.
fn are_given(
    alloc: Global,
    reports: &[Report],
    wanted: Option<&[MoveOrder]>,
) -> Result<bool, Fail> {
    let mut cell = controller::<TourneyDues>(alloc, CROSSING)?;
    let moves = moves_of(alloc, &mut cell, reports);
    drop(cell);
    Ok(are_moves(&moves?, wanted))
}

#[test]
fn a_caller_is_given_the_moves(rt: HostRuntime) -> Result<(), Fail> {
    let reports = [arrive(0, 0), arrive(1, 0), finish(0, 0, 3)];
    let wanted = [enter(0, 0, 0), move_on(0, 0, 1, 3)];
    let given = are_given(rt.alloc(), &reports, Some(wanted.as_slice()))?;
    let none = are_given(rt.alloc(), &reports[2..], None)?;
    assert!(rt; given && none);
    Ok(())
}
