use crate::improver::Improver;
use plan_annealing::annealed_orders;
use plan_net::PartAhead;
use plan_seek::Proposed;
use shop_base::Shaped;
use std::alloc::Global;

/// A local search from the best plan so far, in which only entries that are ahead are exchanged: simulated annealing
/// over the orders of the machines, as plan_annealing does it. Another seed searches elsewhere, and the same one does
/// the same again. By its clause it may answer anything: it is only proved that it is safe and ends.
#[derive(Clone, Copy)]
pub struct AnnealingImprover {
    seed: u32,
}

impl AnnealingImprover {
    /// The annealing whose random numbers begin from this seed.
    pub fn new(seed: u32) -> AnnealingImprover {
        AnnealingImprover { seed }
    }
}

impl Improver for AnnealingImprover {
    ghost may = { λ improver shaped rest round answer. Unit {0} };

    fn improve(
        &self,
        alloc: Global,
        shaped: &Shaped,
        rest: Option<&PartAhead>,
        round: u32,
    ) -> Proposed {
        annealed_orders(alloc, shaped, rest, self.seed, round)
    }
}
