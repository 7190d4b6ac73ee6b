use crate::annealing_improver::AnnealingImprover;
use crate::improver::Improver;
use crate::opening_improver::OpeningImprover;
use plan_annealing::can_open;
use plan_net::PartAhead;
use plan_seek::Proposed;
use shop_base::Shaped;
use std::alloc::Global;

/// Two searches by turns: an annealing in every fourth round (0, 4, ..) or, as long as a job is late, in every other one
/// (0, 2, ..), and a large neighbourhood search in the others. Where the shop is too large for that one, the annealing
/// has all rounds. By its clause it may answer anything.
#[derive(Drop)]
pub struct AlternatingImprover {
    annealing: AnnealingImprover,
    opening: OpeningImprover,
}

impl AlternatingImprover {
    /// The searches whose random numbers begin from this seed.
    pub fn new(alloc: Global, seed: u32) -> AlternatingImprover {
        AlternatingImprover {
            annealing: AnnealingImprover::new(seed),
            opening: OpeningImprover::new(alloc, seed),
        }
    }
}

impl Improver for AlternatingImprover {
    ghost may = { λ improver shaped rest round answer. Unit {0} };

    fn improve(
        &self,
        alloc: Global,
        shaped: &Shaped,
        rest: Option<&PartAhead>,
        round: u32,
    ) -> Proposed {
        if !can_open(shaped) {
            return self.annealing.improve(alloc, shaped, rest, round);
        }
        let turns = if self.opening.is_late() { 2 } else { 4 };
        if round % turns == 0 {
            self.annealing.improve(alloc, shaped, rest, round / turns)
        } else {
            self.opening.improve(alloc, shaped, rest, round)
        }
    }
}
