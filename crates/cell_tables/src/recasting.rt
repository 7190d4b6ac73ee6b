//! A cell that is recast to another plan.

ghost use Rattle.std.specs.Prelude.{◌≡◌, IfOk, IfErr};
ghost use Rattle.cell_tables.specs.Recasts.{IsRecast, IsRecastFault};

use crate::carrying::carry;
use crate::keeping::keeps_so_far;
use crate::recast_fault::RecastFault;
use crate::work_cell::WorkCell;
use shop_base::Planned;
use std::alloc::Global;

impl<P: Planned> WorkCell<P> {
    /// The cell as one of another plan, of the same shop or of another one, if all that was done keeps that plan. If it
    /// is refused, what leads to the other plan comes back. Linear in the jobs, the machines and the moves made.
    pub fn recast<Q: Planned>(
        &self,
        alloc: Global,
        basis: Q,
    ) -> Result<WorkCell<Q>, (RecastFault, Q)>
        ensures basis { IfOk result (λ new. new.basis ≡ basis) }
        ensures plan { IfOk result (λ new. new.plan ≡ Q.planned basis) }
        ensures recast { IfOk result (λ new. IsRecast self.now.plan self.now.cell (Q.planned basis) new.cell) }
        ensures fault { IfErr result
            (λ refused. IsRecastFault self.now.plan self.now.cell (Q.planned basis) refused.0) }
        ensures handed_back { IfErr result (λ refused. refused.1 ≡ basis) }
    {
        if !keeps_so_far(self, basis.shaped()) {
            return Err((RecastFault::IncompatiblePlan, basis));
        }
        match carry(alloc, self, basis.shaped()) {
            Ok(tables) => Ok(WorkCell::of_parts(basis, tables)),
            Err(error) => Err((RecastFault::from(error), basis)),
        }
    }
}
