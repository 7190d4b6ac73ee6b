//! The rest of a run, as a value.

ghost use Rattle.std.specs.Prelude.{◌≡◌, ◌≤◌, IfOk, IfErr};
ghost use Rattle.shop_base.specs.declared.limits.TheConstants.{MAX_MOMENT};
ghost use Rattle.shop_base.specs.{Plan.IsWellShaped, Report.IsNextMoment, Sound.IsSound};
ghost use Rattle.cell_tables.specs.{Recasts.IsRecast, Recasts.IsRecastFault};
ghost use Rattle.cell_tables.specs.Rests.{IsReached, IsRest, whole_run, present_of, IsPresentFault};

use crate::present_fault::PresentFault;
use crate::recast_fault::RecastFault;
use crate::work_cell::WorkCell;
use shop_base::limits::MAX_MOMENT;
use shop_base::{Moment, Planned, Shaped};
use std::alloc::{AllocError, Global};
use std::marker::Model;

/// The rest of a run: a cell in mid-run, with which some run of its plan ends, and the present moment, which isn't
/// before the last one of that run. A whole plan is the rest of a run that hasn't begun.
///
/// All that is asked of a plan, and of what is left of a run, is asked of this: the verdict, evidence, schedules,
/// searches, and whatever goes on with the cell.
#[derive(Debug, Drop)]
pub struct Rest<P: Planned> {
    pub(crate) cell: WorkCell<P>,
    pub(crate) present: Moment,
}

impl<P: Planned> Model for Rest<P> {
    ghost use Rattle.cell_tables.specs.Rests.{RestOfRun, IsRest};

    ghost Value = { RestOfRun P };

    ghost view = { λ r.
        record { basis = r.cell.basis; plan = r.cell.plan; cell = r.cell.cell; present = r.present } };

    ghost invariant = { λ r.
        IsRest (record { basis = r.cell.basis; plan = r.cell.plan; cell = r.cell.cell; present = r.present }) };
}

impl<P: Planned> Rest<P> {
    /// The rest of a run that hasn't begun, at moment 0. If memory is refused, what leads to the plan comes back.
    pub fn start(alloc: Global, basis: P) -> Result<Rest<P>, (AllocError, P)>
        ensures start { IfOk result (λ rest. rest ≡ whole_run basis (P.planned basis)) }
        ensures handed_back { IfErr result (λ refused. refused.1 ≡ basis) }
    {
        match WorkCell::start(alloc, basis) {
            Ok(cell) => Ok(Rest { cell, present: 0 }),
            Err(refused) => Err(refused),
        }
    }

    /// The rest of a run that has come to this cell, at the moment that is given, or else at the last one of the run.
    /// If the moment can't be the present one, the cell comes back.
    pub fn at(cell: WorkCell<P>, at: Option<Moment>) -> Result<Rest<P>, (PresentFault, WorkCell<P>)>
        requires { IsReached cell.plan cell.cell }
        ensures rest { let present = present_of at cell.cell.last in
            IfOk result (λ rest.
            rest ≡ record { basis = cell.basis; plan = cell.plan; cell = cell.cell; present = present }) }
        ensures fault { IfErr result (λ refused. IsPresentFault at cell.cell.last refused.0) }
        ensures handed_back { IfErr result (λ refused. refused.1 ≡ cell) }
    {
        match cell.present_at(at) {
            Ok(present) => Ok(Rest { cell, present }),
            Err(fault) => Err((fault, cell)),
        }
    }

    /// The rest of the run by another plan, if all that was done keeps that plan, at the same moment. If it is refused,
    /// what leads to the other plan comes back.
    pub fn recast<Q: Planned>(&self, alloc: Global, basis: Q) -> Result<Rest<Q>, (RecastFault, Q)>
        ensures basis { IfOk result (λ new. new.basis ≡ basis) }
        ensures plan { IfOk result (λ new. new.plan ≡ Q.planned basis) }
        ensures recast { IfOk result (λ new. IsRecast self.now.plan self.now.cell (Q.planned basis) new.cell) }
        ensures present { IfOk result (λ new. new.present ≡ self.now.present) }
        ensures fault { IfErr result
            (λ refused. IsRecastFault self.now.plan self.now.cell (Q.planned basis) refused.0) }
        ensures handed_back { IfErr result (λ refused. refused.1 ≡ basis) }
    {
        // Called for its clause alone, here and below: the plan is well shaped.
        let _plan = self.cell.shaped();
        match self.cell.recast(alloc, basis) {
            Ok(cell) => {
                let _other = cell.shaped();
                Ok(Rest {
                    cell,
                    present: self.present,
                })
            }
            Err(refused) => Err(refused),
        }
    }

    /// The cell.
    pub fn cell(&self) -> &WorkCell<P>
        ensures basis { result.now.basis ≡ self.now.basis }
        ensures plan { result.now.plan ≡ self.now.plan }
        ensures cell { result.now.cell ≡ self.now.cell }
        ensures rest { IsRest self.now }
    {
        &self.cell
    }

    /// The plan.
    pub fn shaped(&self) -> &Shaped
        ensures plan { result.now ≡ self.now.plan }
        ensures well_shaped { IsWellShaped self.now.plan }
        ensures sound { IsSound self.now.plan self.now.cell }
    {
        self.cell.shaped()
    }

    /// The present moment.
    pub fn present(&self) -> Moment
        ensures present { result ≡ self.now.present }
        ensures moment { IsNextMoment self.now.cell self.now.present }
    {
        self.present
    }

    /// The cell and the present moment, taken out.
    pub fn into_parts(self) -> (WorkCell<P>, Moment)
        ensures basis { result.0.basis ≡ self.basis }
        ensures plan { result.0.plan ≡ self.plan }
        ensures cell { result.0.cell ≡ self.cell }
        ensures present { result.1 ≡ self.present }
        ensures rest { IsRest self }
    {
        let Rest { cell, present } = self;
        (cell, present)
    }
}

impl<P: Planned> WorkCell<P> {
    /// The present moment: the one that is given, if it can be that after the last, or else the last one.
    pub fn present_at(&self, at: Option<Moment>) -> Result<Moment, PresentFault>
        ensures present { IfOk result (λ present. present ≡ present_of at self.now.cell.last) }
        ensures moment { IfOk result (IsNextMoment self.now.cell) }
        ensures fault { IfErr result (IsPresentFault at self.now.cell.last) }
    {
        // Called for its clause alone: the last moment is within the limit.
        let _plan = self.shaped();
        present_moment(at, self.last())
    }
}

/// The present moment, if the one that is given can be that after the last.
fn present_moment(at: Option<Moment>, last: Moment) -> Result<Moment, PresentFault>
    requires { last ≤ MAX_MOMENT }
    ensures present { IfOk result (λ present. present ≡ present_of at last) }
    ensures in_order { IfOk result (λ present. last ≤ present) }
    ensures in_range { IfOk result (λ present. present ≤ MAX_MOMENT) }
    ensures fault { IfErr result (IsPresentFault at last) }
{
    let Some(at) = at else {
        return Ok(last);
    };
    if at < last {
        return Err(PresentFault::Past { last });
    }
    if at > MAX_MOMENT {
        return Err(PresentFault::TooLarge);
    }
    Ok(at)
}

impl<P: Planned> Planned for Rest<P> {
    ghost planned = { λ r. r.plan };

    fn shaped(&self) -> &Shaped {
        Rest::shaped(self)
    }
}
