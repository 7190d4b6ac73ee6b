//! Other plans for a run in which a rack comes to a tank again: which of them it keeps, and how it goes on by one to
//! which it is handed over.

use super::cells::{RACKS, RINSED, Texts, shaped};
use super::controller_runs::gives;
use super::worked_runs::OTHER_BETWEEN;
use cell_control::{RestController, TourneyDues};
use cell_tables::{RecastFault, Rest, RestReordered, copy_orders, reorder};
use run_log::{LoggedRest, rest_at};
use shop_base::{JobNo, Shaped};
use std::alloc::Global;
use std::test::Fail;

/// The rack is done in the bath, while the tank is cleaned.
const DIPPED: &[u8] = b"report 0 arrive 0\norder 0 0 out 0\nreport 0 arrive 1\n\
    report 3 finish 0 0\norder 3 0 0 1\nreport 5 finish 0 1\n";

/// It is in the tank again, whose cleaning has ended.
const BACK: &[u8] = b"report 0 arrive 0\norder 0 0 out 0\nreport 0 arrive 1\n\
    report 3 finish 0 0\norder 3 0 0 1\nreport 5 finish 0 1\nreport 9 clean 0\norder 9 0 1 0\n";

/// The other rack is rinsed while the first one is dipped.
const BETWEEN: Texts = (
    RACKS,
    b"version = 2\nrelease = [0, 0]\nbudget = [12, 21]\norder = [[0, 1, 0], [0]]\nclean = [6, 0]\n",
);

/// The other rack goes first.
const TURNED: Texts = (
    RACKS,
    b"version = 2\nrelease = [0, 0]\nbudget = [12, 21]\norder = [[1, 0, 0], [0]]\nclean = [6, 0]\n",
);

/// The tank isn't cleaned.
const UNCLEANED: Texts = (
    RACKS,
    b"release = [0, 0]\nbudget = [40, 40]\norder = [[0, 0, 1], [0]]\n",
);

/// The rack isn't rinsed again.
const ONCE: Texts = (
    b"rinse\n2 2\n0 3 1 2\n0 3\n",
    b"version = 2\nrelease = [0, 0]\nbudget = [40, 40]\norder = [[0, 1], [0]]\nclean = [6, 0]\n",
);

/// It is dipped again.
const DIPPED_AGAIN: Texts = (
    b"rinse\n2 2 recrc\n0 3 1 2 0 3 1 2\n0 3\n",
    b"version = 2\nrelease = [0, 0]\nbudget = [40, 40]\norder = [[0, 0, 1], [0, 0]]\nclean = [6, 0]\n",
);

/// A third rack is rinsed behind it.
const ADDED: Texts = (
    b"rinse\n3 2 recrc\n0 3 1 2 0 3\n0 3\n0 3\n",
    b"version = 2\nrelease = [0, 0, 0]\nbudget = [40, 40, 40]\norder = [[0, 0, 2, 1], [0]]\nclean = [6, 0]\n",
);

/// What is left of the run in this log.
fn left(alloc: Global, log: &[u8]) -> Result<Rest<Shaped>, Fail> {
    let LoggedRest { rest, entries } = rest_at(alloc, shaped(alloc, RINSED)?, log, None)??;
    drop(entries);
    Ok(rest)
}

/// Why the rest isn't one of this plan, if it isn't.
fn refused(alloc: Global, rest: &Rest<Shaped>, texts: Texts) -> Result<Option<RecastFault>, Fail> {
    match rest.recast(alloc, shaped(alloc, texts)?) {
        Ok(other) => {
            drop(other);
            Ok(None)
        }
        Err((fault, back)) => {
            drop(back);
            Ok(Some(fault))
        }
    }
}

/// The same of the run in the log.
fn not_kept(alloc: Global, log: &[u8], texts: Texts) -> Result<Option<RecastFault>, Fail> {
    let rest = left(alloc, log)?;
    let fault = refused(alloc, &rest, texts);
    drop(rest);
    fault
}

const IS_KEPT: Option<RecastFault> = None;

const IS_NOT: Option<RecastFault> = Some(RecastFault::IncompatiblePlan);

/// A log, a plan for the same shop with other orders alone, and whether the run keeps it: whether the visits so far begin
/// the tank's order.
const ORDERS: &[(&[u8], Texts, Option<RecastFault>)] = &[
    (DIPPED, RINSED, IS_KEPT),
    (DIPPED, BETWEEN, IS_KEPT),
    (DIPPED, TURNED, IS_NOT),
    (BACK, RINSED, IS_KEPT),
    (BACK, BETWEEN, IS_NOT),
];

/// The same of other plans.
const OTHERS: &[(&[u8], Texts, Option<RecastFault>)] = &[
    (DIPPED, UNCLEANED, IS_KEPT),
    (BACK, UNCLEANED, IS_NOT),
    (DIPPED, ONCE, IS_KEPT),
    (BACK, ONCE, IS_NOT),
    (BACK, DIPPED_AGAIN, IS_KEPT),
    (BACK, ADDED, IS_KEPT),
];

/// The orders of the plan.
fn orders(alloc: Global, texts: Texts) -> Result<Vec<Vec<JobNo>>, Fail> {
    let shaped = shaped(alloc, texts)?;
    let orders = copy_orders(alloc, &shaped.plan().order);
    drop(shaped);
    Ok(orders?)
}

/// Whether the orders fit the rest.
fn fit(rest: Rest<Shaped>, orders: Vec<Vec<JobNo>>) -> bool {
    match reorder(rest, orders) {
        RestReordered::Fits(rest, old) => {
            drop(rest);
            drop(old);
            true
        }
        RestReordered::Stays(rest) => {
            drop(rest);
            false
        }
    }
}

/// Whether the orders of the plan fit the rest of the run in the log.
fn is_reordered(alloc: Global, log: &[u8], texts: Texts) -> Result<bool, Fail> {
    let orders = orders(alloc, texts)?;
    Ok(fit(left(alloc, log)?, orders))
}

/// Instances of `a_kept_run_is_one_of_the_other_plan`, `a_run_of_both_plans_is_kept` and `the_entries_tell_what_is_kept`,
/// in which a job stands twice in the order of a machine.
#[test]
fn visits_tell_which_plans_are_kept(rt: HostRuntime) -> Result<(), Fail> {
    for &(log, texts, fault) in ORDERS {
        assert!(rt; not_kept(rt.alloc(), log, texts)? == fault);
        assert!(rt; is_reordered(rt.alloc(), log, texts)? == fault.is_none());
    }
    for &(log, texts, fault) in OTHERS {
        assert!(rt; not_kept(rt.alloc(), log, texts)? == fault);
    }
    Ok(())
}

/// A controller that goes on with the rack in the bath.
fn resting(alloc: Global) -> Result<RestController<TourneyDues>, Fail> {
    Ok(RestController::begin(alloc, left(alloc, DIPPED)?)?)
}

/// Whether the other plan takes over at moment 5, with nothing to move, and keeps these moments: the tank is clean at 9,
/// the other rack out at 12, the tank clean again at 18, and the first rack out at 21.
fn takes_over(alloc: Global, controller: &mut RestController<TourneyDues>) -> Result<bool, Fail> {
    let other = shaped(alloc, BETWEEN)?;
    Ok(
        controller.hand_over(alloc, other, 5).is_ok()
            && controller.orders().is_empty()
            && controller.leave_by(0) == Some(21)
            && controller.leave_by(1) == Some(12)
            && controller.reports_left() == 5,
    )
}

/// An instance of `calls_go_on` and `a_handed_over_run_is_one_run`.
#[test]
fn a_run_is_handed_over_between_two_visits(rt: HostRuntime) -> Result<(), Fail> {
    let mut controller = resting(rt.alloc())?;
    let over = takes_over(rt.alloc(), &mut controller);
    gives(&rt, &mut controller, OTHER_BETWEEN);
    let ended = controller.is_done() && controller.punctual();
    drop(controller);
    assert!(rt; over? && ended);
    Ok(())
}
