//! What the checks of the evidence for a refusal say of nodes.

use super::plans::{CLEANED, CROSSED, IN_SERIES, TWO, planned};
use alt_graph::{check_chain, check_cycle};
use shop_base::{JobNo, Moment, Node, Shaped};
use std::alloc::{AllocError, Global};
use std::test::Fail;

/// A plan for the two jobs, nodes as pairs of job and place, their length where they are a chain,
/// and whether they are a cycle.
type Evidence = (&'static [u8], &'static [(JobNo, u32)], Option<Moment>, bool);

/// In series, with 7 for the release of job 0.
const LATER: &[u8] = b"release = [7, 0]\nbudget = [5, 10]\norder = [[0, 1], [0, 1]]\n";

const THROUGH: &[(JobNo, u32)] = &[(0, 0), (0, 1), (0, 2), (1, 0), (1, 1), (1, 2)];

const EVIDENCE: &[Evidence] = &[
    (IN_SERIES, THROUGH, Some(10), false),
    (IN_SERIES, &[(0, 0)], Some(0), false),
    (LATER, THROUGH, Some(17), false),
    (CLEANED, THROUGH, Some(12), false),
    // A chain begins at a place 0, and arcs lead from node to node.
    (IN_SERIES, &[], None, false),
    (IN_SERIES, &[(0, 1), (0, 2)], None, false),
    (IN_SERIES, &[(2, 0)], None, false),
    (IN_SERIES, &[(0, 0), (1, 1)], None, false),
    (IN_SERIES, &[(0, 1), (1, 1)], None, false),
    // It has no more nodes than the shop.
    (
        CROSSED,
        &[(0, 0), (0, 1), (1, 1), (0, 1), (1, 1), (0, 1)],
        Some(3),
        false,
    ),
    (
        CROSSED,
        &[(0, 0), (0, 1), (1, 1), (0, 1), (1, 1), (0, 1), (1, 1)],
        None,
        false,
    ),
    // A cycle begins at its least node, and its nodes are distinct.
    (CROSSED, &[(0, 1), (1, 1)], None, true),
    (CROSSED, &[(1, 1), (0, 1)], None, false),
    (CROSSED, &[(0, 1)], None, false),
    (CROSSED, &[], None, false),
    (CROSSED, &[(0, 1), (1, 1), (0, 1), (1, 1)], None, false),
];

fn nodes(alloc: Global, places: &[(JobNo, u32)]) -> Result<Vec<Node>, AllocError> {
    let mut nodes = Vec::new(alloc);
    for &(job, place) in places {
        nodes.push(Node { job, place })?;
    }
    Ok(nodes)
}

/// The length of the nodes where they are a chain, and whether they are a cycle.
fn checked(
    alloc: Global,
    shaped: &Shaped,
    places: &[(JobNo, u32)],
) -> Result<(Option<Moment>, bool), Fail> {
    let nodes = nodes(alloc, places)?;
    let found = (check_chain(shaped, &nodes), check_cycle(shaped, &nodes));
    drop(nodes);
    Ok(found)
}

fn found(
    alloc: Global,
    plan: &[u8],
    places: &[(JobNo, u32)],
) -> Result<(Option<Moment>, bool), Fail> {
    let shaped = planned(alloc, TWO, plan)?;
    let found = checked(alloc, &shaped, places);
    drop(shaped);
    found
}

#[test]
fn chains_and_cycles_are_known_from_other_nodes(rt: HostRuntime) -> Result<(), Fail> {
    for &(plan, places, length, cycle) in EVIDENCE {
        assert!(rt; found(rt.alloc(), plan, places)? == (length, cycle));
    }
    Ok(())
}
