//! The reports of a run in many orders.

ghost use Rattle.std.specs.Prelude.{◌<◌, length};

use super::cells::{CLEANED, CROSSING, FOLLOWING, RINSED, Texts, controller};
use super::events::{arrive, clean, finish};
use cell_control::{Controller, Dues, Report, ScanDues, TourneyDues};
use shop_base::{JobNo, MachineNo, Moment};
use std::process::Abort;
use std::test::Fail;

/// What a report says has ended, at any moment.
#[derive(Clone, Copy)]
enum Ended {
    Arrival(JobNo),
    Operation(JobNo, MachineNo),
    Cleaning(MachineNo),
}

/// What the two jobs that cross report, and a cleaning.
const CROSSED: &[Ended] = &[
    Ended::Arrival(0),
    Ended::Arrival(1),
    Ended::Operation(0, 0),
    Ended::Operation(0, 1),
    Ended::Operation(1, 1),
    Ended::Operation(1, 0),
    Ended::Cleaning(1),
];

/// What the three jobs that follow one another report.
const FOLLOWED: &[Ended] = &[
    Ended::Arrival(0),
    Ended::Arrival(1),
    Ended::Arrival(2),
    Ended::Operation(0, 0),
    Ended::Operation(0, 1),
    Ended::Operation(1, 0),
    Ended::Operation(1, 1),
    Ended::Operation(2, 0),
    Ended::Operation(0, 2),
    Ended::Operation(1, 2),
    Ended::Operation(2, 1),
    Ended::Operation(2, 2),
];

/// What the racks report, one of which comes to the tank again, so that its words come twice.
const RINSES: &[Ended] = &[
    Ended::Arrival(0),
    Ended::Arrival(1),
    Ended::Operation(0, 0),
    Ended::Operation(0, 1),
    Ended::Cleaning(0),
    Ended::Operation(0, 0),
    Ended::Cleaning(0),
    Ended::Operation(1, 0),
    Ended::Cleaning(0),
];

/// The report of it at this moment.
fn report_of(ended: Ended, at: Moment) -> Report {
    match ended {
        Ended::Arrival(job) => arrive(job, at),
        Ended::Operation(job, machine) => finish(job, machine, at),
        Ended::Cleaning(machine) => clean(machine, at),
    }
}

/// Whether something is due, of three jobs and machines at the most.
fn is_due<D: Dues>(cell: &Controller<D>) -> bool {
    for number in 0..3 {
        if cell.due(number).is_some() || cell.clean_due(number).is_some() {
            return true;
        }
    }
    false
}

/// Gives the reports, each so long after the last moment. One fewer is left where a report is accepted, and as many
/// where it is refused; and then something is due, or else the run has ended.
fn goes_on<D: Dues>(rt: &impl Abort, cell: &mut Controller<D>, reports: &[Ended], pace: Moment) {
    for &ended in reports {
        let left = cell.reports_left();
        let at = cell.now().saturating_add(pace);
        let fall = if cell.report(report_of(ended, at)).is_ok() {
            1
        } else {
            0
        };
        let fell = left.checked_sub(fall) == Some(cell.reports_left());
        assert!(rt; fell && is_due(cell) != cell.is_done());
    }
}

/// Gives a new controller of the plan these reports, and then all of them again and again: each round has one that is
/// accepted, so the run ends.
fn ends<D: Dues>(
    rt: &(impl Abort + AllocGlobal),
    texts: Texts,
    first: [&[Ended]; 2],
    reports: &[Ended],
    pace: Moment,
) -> Result<(), Fail> {
    let mut cell: Controller<D> = controller(rt.alloc(), texts)?;
    goes_on(rt, &mut cell, first[0], pace);
    goes_on(rt, &mut cell, first[1], pace);
    for _round in 0..cell.reports_left() {
        goes_on(rt, &mut cell, reports, pace);
    }
    let ended = cell.is_done() && cell.punctual() == (pace == 0);
    drop(cell);
    assert!(rt; ended);
    Ok(())
}

/// With one report held back until so many of those behind it have come, at once, a bit later and much later after each
/// other.
fn ends_without<D: Dues>(
    rt: &(impl Abort + AllocGlobal),
    texts: Texts,
    reports: &[Ended],
    held_back: usize,
) -> Result<(), Fail>
    requires { held_back < length reports.now }
{
    let behind = &reports[held_back + 1..];
    for passed_by in 0..reports.len() - held_back {
        let first = [&reports[..held_back], &behind[..passed_by]];
        for pace in [0, 1, 9] {
            ends::<D>(rt, texts, first, reports, pace)?;
        }
    }
    Ok(())
}

/// With each of the reports held back.
fn ends_without_each<D: Dues>(
    rt: &(impl Abort + AllocGlobal),
    texts: Texts,
    reports: &[Ended],
) -> Result<(), Fail> {
    for held_back in 0..reports.len() {
        ends_without::<D>(rt, texts, reports, held_back)?;
    }
    Ok(())
}

#[test]
fn an_accepted_plan_goes_on_in_many_orders(rt: HostRuntime) -> Result<(), Fail> {
    ends_without_each::<TourneyDues>(&rt, CROSSING, CROSSED)?;
    ends_without_each::<TourneyDues>(&rt, CLEANED, CROSSED)?;
    ends_without_each::<TourneyDues>(&rt, FOLLOWING, FOLLOWED)?;
    ends_without_each::<TourneyDues>(&rt, RINSED, RINSES)?;
    ends_without_each::<ScanDues>(&rt, FOLLOWING, FOLLOWED)
}
