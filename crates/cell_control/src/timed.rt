ghost use Rattle.std.specs.Prelude.{◌≡◌};
ghost use Rattle.alt_graph.specs.Times.{NodeTimes};

use alt_graph::Times;
use plan_verifier::Verified;
use shop_base::{Planned, Shaped};

/// A plan for each node of whose graph a rank and a moment were found: what a controller is made of.
pub trait Timed: Planned {
    // The ranks and moments of the nodes.
    ghost times: { Self → NodeTimes };
}

/// A plan that keeps them.
pub trait Ranked: Timed {
    /// The ranks and moments of the nodes.
    fn times(&self) -> &Times
        ensures { result.now ≡ Self.times self.now };
}

impl Timed for Verified {
    ghost times = { λ v. v.times };
}

impl Ranked for Verified {
    fn times(&self) -> &Times {
        Verified::times(self)
    }
}

/// A plan without a cycle, with the ranks of its nodes, and moments for those that were ahead where a controller began
/// with it.
#[derive(Drop)]
pub struct Held {
    pub(crate) shaped: Shaped,
    pub(crate) times: Times,
}

impl Planned for Held {
    ghost planned = { λ h. h.shaped };

    fn shaped(&self) -> &Shaped {
        &self.shaped
    }
}

impl Timed for Held {
    ghost times = { λ h. h.times };
}

impl Ranked for Held {
    fn times(&self) -> &Times {
        &self.times
    }
}
