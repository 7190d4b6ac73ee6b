//! A run that is driven on from a cell, and handed over to a plan, where there is memory enough.

use super::plans::{CLEANED, TWO, planned};
use cell_control::{Report, RestController, TourneyDues};
use cell_tables::Rest;
use shop_base::Shaped;
use std::alloc::Global;
use std::test::Fail;

/// Whether job 0 is sent in once it has come, and what is kept and left then.
fn sends_in(controller: &mut RestController<TourneyDues>) -> bool {
    let report = Report::Arrive { job: 0, at: 0 };
    controller.report(report).is_ok()
        && controller.orders().len() == 1
        && controller.leave_by(1) == Some(12)
        && controller.reports_left() == 7
}

/// Whether the plan takes over at moment 2, with nothing to move, and what is kept and left then.
fn takes_over(alloc: Global, controller: &mut RestController<TourneyDues>, shaped: Shaped) -> bool {
    controller.hand_over(alloc, shaped, 2).is_ok()
        && controller.orders().is_empty()
        && controller.leave_by(0) == Some(5)
        && controller.reports_left() == 7
}

/// A controller that begins with the rest of a run that hasn't begun.
fn resting(alloc: Global) -> Result<RestController<TourneyDues>, Fail> {
    let rest = Rest::start(alloc, planned(alloc, TWO, CLEANED)?)?;
    Ok(RestController::begin(alloc, rest)?)
}

/// Whether it does both.
fn goes_on(
    alloc: Global,
    controller: &mut RestController<TourneyDues>,
) -> Result<(bool, bool), Fail> {
    let sent = sends_in(controller);
    let shaped = planned(alloc, TWO, CLEANED)?;
    Ok((sent, takes_over(alloc, controller, shaped)))
}

#[test]
fn the_rest_of_a_run_is_driven_on(rt: HostRuntime) -> Result<(), Fail> {
    let mut controller = resting(rt.alloc())?;
    let went = goes_on(rt.alloc(), &mut controller);
    drop(controller);
    assert!(rt; went? == (true, true));
    Ok(())
}
