//! What is loaded of a plan: its verdict, with evidence that stands its check, or the first fault of its shape.

use super::shelf::{CROSSED, IN_TIME, LATE, TWO};
use super::verdicts::said;
use command_answers::{Loaded, load};
use plan_verifier::Verified;
use shop_base::{JobNo, Moment, ShapeFault};
use std::alloc::{AllocError, Global};
use std::test::Fail;

const RING: &[u8] = b"ring\n3 3\n0 1 1 1\n1 1 2 1\n2 1 0 1\n";

const LOCKED_RING: &[u8] =
    b"release = [0, 0, 0]\nbudget = [100, 100, 100]\norder = [[0, 2], [1, 0], [2, 1]]\n";

const FIRST_LATE: &[u8] = b"release = [0, 0]\nbudget = [4, 9]\norder = [[0, 1], [0, 1]]\n";

const LATE_BY_CLEANING: &[u8] =
    b"version = 2\nrelease = [0, 0]\nbudget = [5, 10]\norder = [[0, 1], [0, 1]]\nclean = [0, 2]\n";

/// Instances, plans and their verdicts.
const JUDGED: &[(&[u8], &[u8], &str)] = &[
    (TWO, IN_TIME, "accepted"),
    (TWO, CROSSED, "cycle"),
    (RING, LOCKED_RING, "cycle"),
    (TWO, LATE, "late"),
    (TWO, FIRST_LATE, "late"),
    (TWO, LATE_BY_CLEANING, "late"),
];

/// What is said of a plan that is well shaped.
fn loaded(loaded: &Loaded) -> &'static str {
    match loaded {
        Loaded::Judged(verdict) => said(verdict),
        Loaded::NotShaped(_) => "not shaped",
    }
}

#[test]
fn evidence_stands_the_checks(rt: HostRuntime) -> Result<(), Fail> {
    for &(instance, plan, verdict) in JUDGED {
        let answer = load(rt.alloc(), instance, None, plan)?;
        let is = loaded(&answer) == verdict;
        drop(answer);
        assert!(rt; is, "{verdict}");
    }
    Ok(())
}

/// Plans that aren't well shaped for the two jobs, and their first faults.
const NOT_SHAPED: &[(&[u8], ShapeFault)] = &[
    (
        b"release = [0, 0]\nbudget = [5, 10]\norder = [[0, 1], [0]]\n",
        ShapeFault::JobMissing { machine: 1, job: 1 },
    ),
    (
        b"release = [0, 0]\nbudget = [5, 10]\norder = [[0, 2], [0, 1]]\n",
        ShapeFault::JobOutOfRange {
            machine: 0,
            place: 1,
        },
    ),
    (
        b"release = [0, 0]\nbudget = [5, 10]\norder = [[0, 0], [0, 1]]\n",
        ShapeFault::JobTwice {
            machine: 0,
            place: 1,
        },
    ),
    (
        b"release = [0, 0]\nbudget = [5, 1000000000001]\norder = [[0, 1], [0, 1]]\n",
        ShapeFault::BudgetTooLarge { job: 1 },
    ),
];

/// Whether a plan of this first fault was loaded.
fn is_not_shaped(loaded: &Loaded, first: ShapeFault) -> bool {
    match loaded {
        Loaded::NotShaped(fault) => *fault == first,
        Loaded::Judged(_) => false,
    }
}

#[test]
fn the_first_fault_of_a_shape_is_loaded(rt: HostRuntime) -> Result<(), Fail> {
    for &(plan, first) in NOT_SHAPED {
        let answer = load(rt.alloc(), TWO, None, plan)?;
        let is = is_not_shaped(&answer, first);
        drop(answer);
        assert!(rt; is);
    }
    Ok(())
}

/// How many nodes a longest chain to the job's leaving has, 0 where there is none.
fn chain_length(alloc: Global, verified: &Verified, job: JobNo) -> Result<usize, AllocError> {
    match verified.chain(alloc, job)? {
        Some(nodes) => Ok(nodes.len()),
        None => Ok(0),
    }
}

/// The earliest leaving of a job, and how many nodes its chain has.
fn leaving(
    alloc: Global,
    verified: &Verified,
    job: JobNo,
) -> Result<(Option<Moment>, usize), AllocError> {
    let leave = verified.earliest_leave(job);
    Ok((leave, chain_length(alloc, verified, job)?))
}

/// The same of the two jobs, and of one that isn't there.
fn leavings(
    alloc: Global,
    verified: &Verified,
) -> Result<[(Option<Moment>, usize); 3], AllocError> {
    let first = leaving(alloc, verified, 0)?;
    let second = leaving(alloc, verified, 1)?;
    Ok([first, second, leaving(alloc, verified, 2)?])
}

/// The makespan, and how many reports there are of the plan, and of the one that is taken out.
fn counts(verified: Verified) -> (Moment, u64, u64) {
    let (makespan, count) = (verified.makespan(), verified.shaped().report_count());
    let shaped = verified.into_shaped();
    let same_count = shaped.report_count();
    drop(shaped);
    (makespan, count, same_count)
}

#[test]
fn an_accepted_plan_gives_its_leavings_and_chains(rt: HostRuntime) -> Result<(), Fail> {
    let verified = load(rt.alloc(), TWO, None, IN_TIME)?.accepted()?;
    let leavings = leavings(rt.alloc(), &verified);
    let counts = counts(verified);
    assert!(rt; leavings? == [(Some(5), 3), (Some(10), 6), (None, 0)]);
    assert!(rt; counts == (10, 6, 6));
    Ok(())
}
