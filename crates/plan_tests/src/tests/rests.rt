//! The rest of a run that hasn't begun, where there is memory enough: from moment 0 on it is the whole plan, and later
//! it is late.

use super::plans::{CLEANED, TWO, planned};
use alt_graph::Solved;
use cell_tables::Rest;
use plan_verifier::{
    Judged, Why, check_chain_ahead, deadlines_of, earliest_moments, judge, makespan,
};
use shop_base::{Moment, Node, Shaped};
use std::alloc::{AllocError, Global};
use std::test::Fail;

/// The rest, from a moment on, of a run that hasn't begun, of a plan by which neither job can come later.
fn begun(alloc: Global, present: Moment) -> Result<Rest<Shaped>, Fail> {
    let (cell, _) = Rest::start(alloc, planned(alloc, TWO, CLEANED)?)?.into_parts();
    Ok(Rest::at(cell, Some(present))?)
}

/// Whether the rest has the moments and the deadlines of the plan.
fn is_in_time(alloc: Global, rest: &Rest<Shaped>) -> Result<bool, AllocError> {
    match judge(alloc, rest)? {
        Judged::Accepted(times) => {
            let deadlines = deadlines_of(alloc, rest, &times)?;
            let due = deadlines.deadline(Node { job: 1, place: 0 });
            Ok(makespan(rest, &times) == 12 && due == Some(7))
        }
        Judged::Refused(_) => Ok(false),
    }
}

/// Whether job 0 is late, with a path ahead that is confirmed.
fn is_late(alloc: Global, rest: &Rest<Shaped>) -> Result<bool, AllocError> {
    match judge(alloc, rest)? {
        Judged::Refused(
            Why::Late {
                job,
                leaves,
                chain,
                times: _,
            },
        ) => Ok(job == 0 && leaves == 6 && check_chain_ahead(rest, &chain) == Some(6)),
        _ => Ok(false),
    }
}

/// Whether its earliest moments are found.
fn is_solved(alloc: Global, rest: &Rest<Shaped>) -> Result<bool, AllocError> {
    match earliest_moments(alloc, rest)? {
        Solved::Ordered(times) => Ok(times.earliest(Node { job: 0, place: 2 }) == Some(6)),
        Solved::Cyclic(_) => Ok(false),
    }
}

/// Whether it is late and solved.
fn verdicts(alloc: Global, rest: &Rest<Shaped>) -> Result<(bool, bool), AllocError> {
    let late = is_late(alloc, rest)?;
    Ok((late, is_solved(alloc, rest)?))
}

#[test]
fn the_rest_from_the_start_on_is_the_plan(rt: HostRuntime) -> Result<(), Fail> {
    let rest = begun(rt.alloc(), 0)?;
    let found = is_in_time(rt.alloc(), &rest);
    drop(rest);
    assert!(rt; found?);
    Ok(())
}

#[test]
fn a_rest_that_begins_later_is_late(rt: HostRuntime) -> Result<(), Fail> {
    let rest = begun(rt.alloc(), 1)?;
    let found = verdicts(rt.alloc(), &rest);
    drop(rest);
    assert!(rt; found? == (true, true));
    Ok(())
}
