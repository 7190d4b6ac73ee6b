//! Where a path ahead begins.

ghost use Rattle.plan_verifier.specs.PathBounds.{path_bounds};

use crate::cell_bounds::CellBounds;
use alt_graph::Bounds;
use shop_base::{Moment, Node, Planned};

/// Where a path ahead can begin, and at which moment it begins there at the latest.
#[derive(Drop)]
pub(crate) struct PathBounds<'a, P: Planned> {
    pub rest: CellBounds<'a, P>,
}

impl<'a, P: Planned> Bounds for PathBounds<'a, P> {
    ghost planned = { λ b. b.rest.cell.now.plan };

    ghost bounds = { λ b. path_bounds b.rest.cell.now.plan b.rest.cell.now.cell b.rest.present };

    fn is_ahead(&self, node: Node) -> bool {
        self.rest.is_ahead(node)
    }

    #[tactic(auto, using(crate::proofs::PathsAhead::one_begins))]
    fn bound(&self, node: Node) -> Option<Moment> {
        // Called for its clause alone: the cell is sound.
        let _plan = self.rest.cell.shaped();
        if !self.rest.is_ahead(node) {
            return None;
        }
        Some(self.rest.bound(node).unwrap_or(self.rest.present))
    }
}
