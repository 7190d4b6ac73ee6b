ghost use Rattle.std.specs.Prelude.{ℕ, IfOk};
ghost use Rattle.shop_base.specs.Shop.{JobShop};
ghost use Rattle.plan_seek.specs.Orders.{Proposal, proposal_of};

use shop_base::{JobNo, Shop};
use std::alloc::{AllocError, Global};

/// What a planner proposes: an order for each machine of the shop, or none.
pub type Proposed = Result<Option<Vec<Vec<JobNo>>>, AllocError>;

/// A planner that needn't be trusted: what it proposes is checked.
pub trait Proposer: Drop {
    /// The proposals that it may make, for a shop and a round.
    ghost may: { Self → JobShop → ℕ → Proposal → Type 0 };

    /// A proposal. Rounds are numbered from 0, so that a planner that is asked again can propose something else. Nothing
    /// is required of a proposal: one list too few, or a number that is no job's, is a proposal that isn't accepted.
    fn propose(&self, alloc: Global, shop: &Shop, round: u32) -> Proposed
        ensures allowed { IfOk result (λ proposal. may self.now shop.now round (proposal_of proposal)) };
}
