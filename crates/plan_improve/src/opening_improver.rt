use crate::improver::Improver;
use plan_annealing::{Known, opened_orders};
use plan_net::PartAhead;
use plan_seek::Proposed;
use shop_base::Shaped;
use std::alloc::Global;
use std::cell::RefCell;

/// A large neighbourhood search from the best plan so far, or from where its last round has ended: the pairs of a few
/// jobs are opened and decided anew by a complete search, as plan_annealing does it. Another seed searches elsewhere, and
/// the same one does the same again if it is asked the same again from the start. By its clause it may answer anything:
/// it is only proved that it is safe and ends.
#[derive(Drop)]
pub struct OpeningImprover {
    seed: u32,
    known: RefCell<Known>,
}

impl OpeningImprover {
    /// The search whose random numbers begin from this seed, before its first round.
    pub fn new(alloc: Global, seed: u32) -> OpeningImprover {
        OpeningImprover {
            seed,
            known: RefCell::new(Known::new(alloc)),
        }
    }

    /// Whether a job is late in the best plan that it has met, or it has met none.
    pub(crate) fn is_late(&self) -> bool {
        match self.known.try_borrow() {
            Ok(known) => known.is_late(),
            Err(_) => false,
        }
    }
}

impl Improver for OpeningImprover {
    ghost may = { λ improver shaped rest round answer. Unit {0} };

    fn improve(
        &self,
        alloc: Global,
        shaped: &Shaped,
        rest: Option<&PartAhead>,
        round: u32,
    ) -> Proposed {
        match self.known.try_borrow_mut() {
            Ok(mut known) => opened_orders(alloc, shaped, rest, self.seed, round, &mut *known),
            Err(_) => Ok(None),
        }
    }
}
