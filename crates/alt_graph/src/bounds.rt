//! Where the lengths of paths begin.

ghost use Rattle.std.specs.Prelude.{◌≡◌, ◌≤◌, ◌↔◌, IsTrue, IfSome};
ghost use Rattle.shop_base.specs.Plan.{PlannedShop};
ghost use Rattle.shop_base.specs.Graph.{IsNode};
ghost use Rattle.alt_graph.specs.Bounds.{NodeBounds, IsAheadOf, bound_of, whole, MAX_BOUND};

use shop_base::{Moment, Node, Shaped};

/// Which nodes are ahead, so that paths follow the arcs from them, and the moments before which some nodes aren't
/// reached, whatever leads to them: there paths begin. Of a whole plan that is [`Whole`].
pub trait Bounds: Sized + Drop {
    // The plan of the nodes.
    ghost planned: { Self → PlannedShop };

    // The nodes ahead and the bounds.
    ghost bounds: { Self → NodeBounds };

    /// Whether the node is ahead.
    fn is_ahead(&self, node: Node) -> bool
        requires { IsNode (planned self.now) node }
        ensures { IsTrue result ↔ IsAheadOf (bounds self.now) node };

    /// The moment before which the node isn't reached, in time units, if it has one.
    fn bound(&self, node: Node) -> Option<Moment>
        requires { IsNode (planned self.now) node }
        ensures recorded { result ≡ bound_of (bounds self.now) node }
        ensures limited { IfSome result (λ moment. moment ≤ MAX_BOUND) };
}

/// The bounds of a whole plan: the releases.
#[derive(Clone, Copy, Debug)]
pub struct Whole<'a> {
    pub shaped: &'a Shaped,
}

impl<'a> Bounds for Whole<'a> {
    ghost planned = { λ w. w.shaped.now };

    ghost bounds = { λ w. whole w.shaped.now };

    fn is_ahead(&self, _node: Node) -> bool {
        true
    }

    fn bound(&self, node: Node) -> Option<Moment> {
        if node.place == 0 {
            Some(self.shaped.release_of(node.job))
        } else {
            None
        }
    }
}
