//! The pairs of alternative arcs between visits of two jobs to a machine.

ghost use Rattle.std.specs.Prelude.{◌≡◌, ◌+◌, ◌<◌, ◌≤◌, IfOk, OnOk, length};
ghost use Rattle.shop_base.specs.Plan.{IsWellShaped};
ghost use Rattle.plan_bounds.specs.Bounds.{times_of};
ghost use Rattle.plan_limits.specs.Asked.{AreMachinePairs, AreEntries, pair_between, AreEmpty};

use crate::moments::FINE;
use crate::questions::MAX_NODES;
use arc_choice::{Arc, Pair};
use shop_base::{Node, Shaped};
use std::alloc::{AllocError, Global};

/// A pair for each two visits to a machine that are of two of these jobs.
pub(crate) fn machine_pairs(
    alloc: Global,
    shaped: &Shaped,
    nodes: &[Node],
) -> Result<Vec<Pair>, AllocError>
    requires few { length nodes.now ≤ MAX_NODES }
    ensures pairs { IfOk result (λ pairs. AreMachinePairs (times_of shaped.now) nodes.now pairs.items) }
    ensures well_shaped { OnOk result (IsWellShaped shaped.now) }
{
    let mut entries = empty_rows(alloc, shaped.machine_count())?;
    let mut pairs = Vec::new(alloc);
    for number in 0..nodes.len() {
        add_pairs(shaped, nodes, number as u32, &mut entries, &mut pairs)?;
    }
    Ok(pairs)
}

/// Adds the pairs of a node at which a job enters a machine with the entries of that machine by other jobs that are
/// noted, and notes it.
fn add_pairs(
    shaped: &Shaped,
    nodes: &[Node],
    number: u32,
    entries: &mut Vec<Vec<u32>>,
    pairs: &mut Vec<Pair>,
) -> Result<(), AllocError>
    requires few { length nodes.now ≤ MAX_NODES }
    requires number { number < length nodes.now }
    requires entries { AreEntries (times_of shaped.now) nodes.now number entries.old.items }
    requires pairs { AreMachinePairs (times_of shaped.now) nodes.now pairs.old.items }
    ensures entries { OnOk result (AreEntries (times_of shaped.now) nodes.now (number + 1) entries.new.items) }
    ensures pairs { OnOk result (AreMachinePairs (times_of shaped.now) nodes.now pairs.new.items) }
{
    let node = nodes[number as usize];
    let Some(machine) = shaped.machine_at(node.job, node.place) else {
        return Ok(());
    };
    let length = shaped.clean_of(machine) * FINE + 1;
    for earlier in &entries[machine as usize] {
        if nodes[*earlier as usize].job != node.job {
            pairs.push(pair_of(*earlier, number, length))?;
        }
    }
    entries[machine as usize].push(number)?;
    Ok(())
}

/// The two arcs, of this length, between jobs that enter a machine at these nodes.
fn pair_of(one: u32, other: u32, length: u64) -> Pair
    requires one { one < MAX_NODES }
    requires other { other < MAX_NODES }
    ensures { result ≡ pair_between one other length }
{
    Pair {
        one: Arc {
            from: one + 1,
            to: other,
            length,
        },
        other: Arc {
            from: other + 1,
            to: one,
            length,
        },
    }
}

/// So many empty rows.
fn empty_rows(alloc: Global, count: u32) -> Result<Vec<Vec<u32>>, AllocError>
    ensures count { IfOk result (λ rows. length rows.items ≡ count) }
    ensures empty { IfOk result (λ rows. AreEmpty rows.items) }
{
    let mut rows = Vec::new(alloc);
    for _ in 0..count {
        rows.push(Vec::new(alloc))?;
    }
    Ok(rows)
}
