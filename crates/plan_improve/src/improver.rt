ghost use Rattle.std.specs.Prelude.{ℕ, Option, IfOk, option_copied};
ghost use Rattle.shop_base.specs.Plan.{PlannedShop};
ghost use Rattle.plan_net.specs.declared.ahead.PartAhead.{PartAhead};
ghost use Rattle.plan_seek.specs.Orders.{Proposal, proposal_of};

use plan_net::PartAhead;
use plan_seek::Proposed;
use shop_base::Shaped;
use std::alloc::Global;

/// An improver of plans that needn't be trusted: each answer is judged.
pub trait Improver: Drop {
    /// The answers that it may give, for a plan, what a run has left of it, and a round.
    ghost may: { Self → PlannedShop → Option PartAhead → ℕ → Proposal → Type 0 };

    /// An order for each machine of the shop, or none, where the plan is the best one so far. What a run has left of it
    /// is given too; `None` where no run has begun. Rounds are numbered from 0, so that an improver that is asked again
    /// can look elsewhere. Nothing is required of an answer: orders that don't fit the shop, don't begin with the
    /// entries so far, make a cycle or are no better are passed over.
    fn improve(
        &self,
        alloc: Global,
        shaped: &Shaped,
        rest: Option<&PartAhead>,
        round: u32,
    ) -> Proposed
        ensures allowed { IfOk result (λ answer.
            may self.now shaped.now (option_copied rest.entry) round (proposal_of answer)) };
}
