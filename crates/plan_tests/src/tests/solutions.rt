//! What the solver of the alternative graph finds. What it takes memory for is asked in `alloc_failures.rt`
//! of `command_tests`, which shows a cycle and a whole chain as well.

use super::plans::{CLEANED, IN_SERIES, TWO, planned};
use alt_graph::{Solved, solve};
use shop_base::{JobNo, Moment, Node, Shaped};
use std::alloc::Global;
use std::test::Fail;

/// A plan for the two jobs, a job and a place, and the earliest moment of that node, if it is one.
type Time = (&'static [u8], JobNo, u32, Option<Moment>);

const TIMES: &[Time] = &[
    (IN_SERIES, 0, 0, Some(0)),
    (IN_SERIES, 0, 1, Some(3)),
    (IN_SERIES, 0, 2, Some(5)),
    (IN_SERIES, 1, 0, Some(5)),
    (IN_SERIES, 1, 1, Some(9)),
    (IN_SERIES, 1, 2, Some(10)),
    // No nodes: past the last place of a job, and past the last job.
    (IN_SERIES, 0, 3, None),
    (IN_SERIES, 2, 0, None),
    (CLEANED, 0, 2, Some(5)),
    (CLEANED, 1, 2, Some(12)),
];

/// The earliest moment of a node, and whether it has a rank and a chain.
type Bounds = (Option<Moment>, bool, bool);

/// Where there is a cycle, no node has any.
fn bounds(alloc: Global, solved: &Solved, node: Node) -> Result<Bounds, Fail> {
    match solved {
        Solved::Ordered(times) => {
            let chain = times.chain(alloc, node)?.is_some();
            Ok((times.earliest(node), times.rank(node).is_some(), chain))
        }
        Solved::Cyclic(_) => Ok((None, false, false)),
    }
}

fn bounds_of_graph(alloc: Global, shaped: &Shaped, node: Node) -> Result<Bounds, Fail> {
    let solved = solve(alloc, shaped)?;
    let found = bounds(alloc, &solved, node);
    drop(solved);
    found
}

fn bounds_of_plan(alloc: Global, plan: &[u8], node: Node) -> Result<Bounds, Fail> {
    let shaped = planned(alloc, TWO, plan)?;
    let found = bounds_of_graph(alloc, &shaped, node);
    drop(shaped);
    found
}

#[test]
fn just_nodes_have_times_ranks_and_chains(rt: HostRuntime) -> Result<(), Fail> {
    for &(plan, job, place, moment) in TIMES {
        let is_node = moment.is_some();
        let found = bounds_of_plan(rt.alloc(), plan, Node { job, place })?;
        assert!(rt; found == (moment, is_node, is_node));
    }
    Ok(())
}
