use plan_seek::{Proposed, Proposer};
use shop_base::{JobNo, MachineNo, Shop};
use std::alloc::{AllocError, Global};

/// A planner whose machines all take their jobs in descending order.
#[derive(Drop)]
pub struct DescendingProposer;

impl Proposer for DescendingProposer {
    ghost may = { λ proposer shop round proposal. Unit {0} };

    fn propose(&self, alloc: Global, shop: &Shop, _round: u32) -> Proposed {
        let mut orders = Vec::new(alloc);
        for machine in 0..shop.machines() {
            orders.push(descending(alloc, shop, machine)?)?;
        }
        Ok(Some(orders))
    }
}

fn descending(alloc: Global, shop: &Shop, machine: MachineNo) -> Result<Vec<JobNo>, AllocError> {
    let mut order = Vec::new(alloc);
    for job in (0..shop.jobs()).rev() {
        if let Some(route) = shop.route(job) {
            if route.iter().any(|step| step.machine == machine) {
                order.push(job)?;
            }
        }
    }
    Ok(order)
}
