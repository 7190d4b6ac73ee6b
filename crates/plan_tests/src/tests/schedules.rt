//! What a schedule answers of an accepted plan, of a late one, and of one with a cycle, and what is drawn, where there
//! is memory enough.

use super::plans::{CLEANED, CROSSED, TWO, planned};
use cell_tables::Rest;
use people_names::Names;
use plan_schedule::schedule;
use plan_verifier::judge;
use shop_base::Shaped;
use std::alloc::{AllocError, Global};
use std::test::Fail;

/// In series, but job 1 can't be out by moment 9.
const LATE: &[u8] = b"release = [0, 0]\nbudget = [5, 9]\norder = [[0, 1], [0, 1]]\n";

/// A plan for the two jobs, and its schedule.
const SCHEDULES: &[(&[u8], &[u8])] = &[
    (
        CLEANED,
        b"accepted makespan 12 leaves 5 12\n\
            job 0 arrives 0 by 0\n\
            job 0 on machine 0 from 0 to 3 by 3 leaves 3\n\
            job 0 on machine 1 from 3 to 5 by 5 leaves 5\n\
            machine 1 cleaned from 5 to 7 by 7\n\
            job 1 arrives 0 by 7\n\
            job 1 on machine 1 from 7 to 11 by 11 leaves 11\n\
            machine 1 cleaned from 11 to 13\n\
            job 1 on machine 0 from 11 to 12 by 12 leaves 12\n",
    ),
    (
        LATE,
        b"refused late 1 10 0.0 0.1 0.2 1.0 1.1 1.2\n\
            job 0 arrives 0\n\
            job 0 on machine 0 from 0 to 3 leaves 3\n\
            job 0 on machine 1 from 3 to 5 leaves 5\n\
            job 1 arrives 0\n\
            job 1 on machine 1 from 5 to 9 leaves 9\n\
            job 1 on machine 0 from 9 to 10 leaves 10\n",
    ),
    (CROSSED, b"refused cycle 0.1 1.1\n"),
];

/// The schedule of the rest of a run.
fn scheduled(alloc: Global, rest: &Rest<Shaped>) -> Result<Vec<u8>, AllocError> {
    let verdict = judge(alloc, rest)?;
    let names = Names::none(alloc);
    let answer = schedule(alloc, &names, rest, &verdict);
    drop(names);
    drop(verdict);
    answer
}

/// Whether the schedule of the plan, from its start on, is this text.
fn answers(alloc: Global, plan: &[u8], text: &[u8]) -> Result<bool, Fail> {
    let rest = Rest::start(alloc, planned(alloc, TWO, plan)?)?;
    let answer = scheduled(alloc, &rest);
    drop(rest);
    Ok(answer?.as_slice() == text)
}

#[test]
fn each_verdict_has_its_schedule(rt: HostRuntime) -> Result<(), Fail> {
    for &(plan, text) in SCHEDULES {
        assert!(rt; answers(rt.alloc(), plan, text)?);
    }
    Ok(())
}
