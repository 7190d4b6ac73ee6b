//! One answer put to the test.

ghost use Rattle.std.specs.Prelude.{IfOk, IfErr, Some};
ghost use Rattle.shop_base.specs.Vectors.{lists_of};
ghost use Rattle.cell_tables.specs.Reordered.{IsReordered};
ghost use Rattle.plan_improve.specs.Keeping.{setting_of, IsNext, IsRestOfDone};

use crate::best::Best;
use crate::fixed::Fixed;
use crate::plan_out::plan_of;
use cell_tables::{RestReordered, reorder, reorder_by};
use shop_base::{JobNo, Shaped};
use std::alloc::{AllocError, Global};

/// The plan with these orders if it keeps what is fixed and is better, else the best plan again; on a fault either.
pub(crate) fn judge_orders(
    alloc: Global,
    best: Best,
    order: Vec<Vec<JobNo>>,
    fixed: &Fixed<'_>,
) -> Result<Best, (AllocError, Shaped)>
    requires stands { IsRestOfDone (setting_of fixed.now best.rest) best.rest }
    requires cost { (setting_of fixed.now best.rest).costs best.rest.plan best.cost }
    ensures judged { let s = setting_of fixed.now best.rest in
        IfOk result (IsNext s best.rest.plan best.cost (Some (lists_of order.items))) }
    ensures handed_back { IfErr result (λ refused. IsReordered best.rest.plan refused.1) }
{
    let Best { rest, cost } = best;
    // Called for its clause alone: the cell is sound.
    let _plan = rest.shaped();
    match reorder(rest, order) {
        RestReordered::Stays(rest) => Ok(Best { rest, cost }),
        RestReordered::Fits(rest, old) => match fixed.cost_below(alloc, &rest, &cost) {
            Ok(Some(cost)) => Ok(Best { rest, cost }),
            Ok(None) => Ok(Best {
                rest: reorder_by(rest, old),
                cost,
            }),
            Err(error) => Err((error, plan_of(rest))),
        },
    }
}
