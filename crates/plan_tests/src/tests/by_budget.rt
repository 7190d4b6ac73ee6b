use plan_improve::{Improver, PartAhead, Proposed};
use shop_base::Shaped;
use std::alloc::Global;

/// An improver whose machines all take the job with the least budget first (Jackson's rule).
#[derive(Drop)]
pub struct BudgetImprover;

impl Improver for BudgetImprover {
    ghost may = { λ improver shaped rest round answer. Unit {0} };

    fn improve(&self, alloc: Global, shaped: &Shaped, _: Option<&PartAhead>, _: u32) -> Proposed {
        let plan = shaped.plan();
        let mut orders = Vec::new(alloc);
        for order in &plan.order {
            let mut sorted = order.as_slice().to_vec(alloc)?;
            sorted.sort_by_key(|job| (plan.budget.get(*job as usize).copied(), *job))?;
            orders.push(sorted)?;
        }
        Ok(Some(orders))
    }
}
