//! Where a search begins.

ghost use Rattle.std.specs.Prelude.{◌≡◌, ◌↔◌, false, IfOk, IfErr};
ghost use Rattle.alt_graph.specs.Solved.{HasCycle};
ghost use Rattle.cell_tables.specs.Reordered.{IsReordered};
ghost use Rattle.plan_improve.specs.Keeping.{setting_of, IsFirst, IsRestOfDone};

use crate::best::Best;
use crate::fixed::Fixed;
use crate::plan_out::plan_of;
use cell_tables::{Rest, reorder_by};
use plan_seek::serial_orders;
use shop_base::Shaped;
use std::alloc::{AllocError, Global};

/// With which plan a search begins.
#[derive(Drop)]
pub(crate) enum First {
    /// This one, with its cost.
    Begins(Best),
    /// The plan has a cycle, and by what was done no other one is known.
    Stays(Rest<Shaped>),
}

/// The rest by its plan itself or, if that has a cycle and nothing was done yet, by the serial plan; on a fault either.
pub(crate) fn first_plan(
    alloc: Global,
    start: Rest<Shaped>,
    fixed: &Fixed<'_>,
    has_begun: bool,
) -> Result<First, (AllocError, Shaped)>
    requires stands { IsRestOfDone (setting_of fixed.now start) start }
    requires begun { (has_begun ≡ false) ↔ (setting_of fixed.now start).fresh start.plan }
    ensures first { IfOk result (IsFirst (setting_of fixed.now start) start.plan) }
    ensures handed_back { IfErr result (λ refused. IsReordered start.plan refused.1) }
{
    match fixed.cost(alloc, &start) {
        Ok(Some(cost)) => Ok(First::Begins(Best { rest: start, cost })),
        Ok(None) => {
            if has_begun {
                Ok(First::Stays(start))
            } else {
                first_serially(alloc, start, fixed)
            }
        }
        Err(error) => Err((error, plan_of(start))),
    }
}

/// The serial plan, where nothing was done yet.
fn first_serially(
    alloc: Global,
    start: Rest<Shaped>,
    fixed: &Fixed<'_>,
) -> Result<First, (AllocError, Shaped)>
    requires stands { IsRestOfDone (setting_of fixed.now start) start }
    requires cycle { HasCycle start.plan }
    requires fresh { (setting_of fixed.now start).fresh start.plan }
    ensures first { IfOk result (IsFirst (setting_of fixed.now start) start.plan) }
    ensures handed_back { IfErr result (λ refused. IsReordered start.plan refused.1) }
{
    match serial_orders(alloc, start.shaped().shop()) {
        Ok(order) => {
            let serial = reorder_by(start, order);
            match fixed.cost(alloc, &serial) {
                Ok(Some(cost)) => Ok(First::Begins(Best { rest: serial, cost })),
                Ok(None) => unreachable!(),
                Err(error) => Err((error, plan_of(serial))),
            }
        }
        Err(error) => Err((error, plan_of(start))),
    }
}
