//! The rest of a run by its plan with other orders.

ghost use Rattle.std.specs.Prelude.{◌≡◌, ◌↔◌, IsTrue};
ghost use Rattle.shop_base.specs.{Plan.IsWellShaped, Plan.machines, Move.IsPrefix, Vectors.lists_of};
ghost use Rattle.cell_tables.specs.Reordered.{BeginsWithEntries, reordered, IsRestReordered, Begin};

use crate::reordering::{Replaced, put_back, replace};
use crate::rest::Rest;
use crate::work_cell::WorkCell;
use shop_base::{JobNo, Shaped};

/// What came of replacing the orders of a rest's plan.
#[derive(Drop)]
pub enum RestReordered {
    /// The rest by the plan with the new orders, and the old ones.
    Fits(Rest<Shaped>, Vec<Vec<JobNo>>),
    /// The new orders don't fit the shop, or don't begin with the entries so far; the rest is as it was.
    Stays(Rest<Shaped>),
}

/// The rest by its plan with other orders, if they fit the shop and begin with the entries so far: then all that was
/// done keeps that plan, and leads to the same cell. Takes no memory.
pub fn reorder(rest: Rest<Shaped>, order: Vec<Vec<JobNo>>) -> RestReordered
    ensures { IsRestReordered rest (lists_of order.items) result }
{
    // Called for its clauses alone: the plan is well shaped, and the cell sound.
    let _plan = rest.shaped();
    if !begin(rest.cell(), &order) {
        return RestReordered::Stays(rest);
    }
    let (cell, present) = rest.into_parts();
    let (shaped, tables) = cell.into_parts();
    match replace(shaped, order) {
        Replaced::Fits(shaped, old) => RestReordered::Fits(
            Rest {
                cell: WorkCell::of_parts(shaped, tables),
                present,
            },
            old,
        ),
        Replaced::Stays(shaped) => RestReordered::Stays(Rest {
            cell: WorkCell::of_parts(shaped, tables),
            present,
        }),
    }
}

/// The rest by its plan with orders that fit it, and begin with the entries so far. Takes no memory.
pub fn reorder_by(rest: Rest<Shaped>, order: Vec<Vec<JobNo>>) -> Rest<Shaped>
    requires shaped { IsWellShaped (reordered rest.plan (lists_of order.items)) }
    requires begins { BeginsWithEntries rest.cell (reordered rest.plan (lists_of order.items)) }
    ensures plan { result.plan ≡ reordered rest.plan (lists_of order.items) }
    ensures cell { result.cell ≡ rest.cell }
    ensures present { result.present ≡ rest.present }
{
    // Called for its clauses alone: the plan is well shaped, and the cell sound.
    let _plan = rest.shaped();
    let (cell, present) = rest.into_parts();
    let (shaped, tables) = cell.into_parts();
    Rest {
        cell: WorkCell::of_parts(put_back(shaped, order), tables),
        present,
    }
}

/// Whether there is a new order for each machine, which begins with the jobs that have entered it.
fn begin(cell: &WorkCell<Shaped>, new: &[Vec<JobNo>]) -> bool
    ensures { IsTrue result ↔ Begin (machines cell.now.plan) cell.now.cell (lists_of new.now) }
{
    // Called for its clause alone: the cell is sound.
    let _plan = cell.shaped();
    if new.len() < cell.machine_count() as usize {
        return false;
    }
    for machine in 0..cell.machine_count() {
        let front = &cell.order_of(machine)[..cell.entered(machine) as usize];
        if !begins(&new[machine as usize], front) {
            return false;
        }
    }
    true
}

/// Whether the order begins with these jobs.
fn begins(order: &[JobNo], front: &[JobNo]) -> bool
    ensures { IsTrue result ↔ IsPrefix front.now order.now }
{
    order.starts_with(front)
}
