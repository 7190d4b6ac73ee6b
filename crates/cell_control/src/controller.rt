ghost use Rattle.std.specs.Prelude.{◌≡◌, IfOk, IfErr};
ghost use Rattle.plan_verifier.specs.Accepted.{IsVerified};
ghost use Rattle.cell_control.specs.Control.{control_at_start, verified_in, IsControl};

use crate::core_controller::Core;
use crate::dues::Dues;
use crate::room::take_room;
use crate::timed::Timed;
use cell_tables::WorkCell;
use plan_verifier::Verified;
use std::alloc::{AllocError, Global};

/// Runs a cell by an accepted plan, from its start: a [`Core`] with its [`Verified`].
///
/// While no report is late each job is out by its budget. Only [`Controller::new`] takes memory.
pub type Controller<D> = Core<Verified, D>;

impl<D: Dues> Core<Verified, D> {
    /// The controller of an accepted plan before the first report: all jobs outside, no machine entered.
    /// It takes all memory that later calls need, and none of them can answer that it is out of memory. If a request
    /// for memory is refused, the plan comes back with that error; when one is, no clause says.
    pub fn new(alloc: Global, verified: Verified) -> Result<Controller<D>, (AllocError, Verified)>
        ensures start { IfOk result (λ controller. controller ≡ control_at_start verified) }
        ensures handed_back { IfErr result (λ refused. refused.1 ≡ verified) }
    {
        // Called for its clause alone: the plan is an accepted one.
        let _plan = verified.shaped();
        begin_with(alloc, verified)
    }

    /// The plan.
    pub fn verified(&self) -> &Verified
        ensures plan { result.now ≡ verified_in self.now }
        ensures verified { IsVerified (verified_in self.now) }
        ensures control { IsControl self.now }
    {
        let verified = self.cell.basis();
        // Called for its clause alone: the plan is an accepted one.
        let _plan = verified.shaped();
        verified
    }

    /// The plan, taken out.
    pub fn into_verified(self) -> Verified
        ensures { result ≡ verified_in self }
    {
        let Core { cell, .. } = self;
        let (verified, _tables) = cell.into_parts();
        verified
    }
}

/// The controller of a plan before the first report, or the plan again where a request for memory is refused.
pub(crate) fn begin_with<P: Timed, D: Dues>(
    alloc: Global,
    basis: P,
) -> Result<Core<P, D>, (AllocError, P)>
    requires { IsVerified (record { planned = P.planned basis; times = P.times basis }) }
    ensures start { IfOk result
        (λ controller. controller ≡ control_at_start (record { planned = P.planned basis; times = P.times basis })) }
    ensures handed_back { IfErr result (λ refused. refused.1 ≡ basis) }
{
    let cell = WorkCell::start(alloc, basis)?;
    match take_room(alloc, &cell) {
        Ok(room) => Ok(Core::begin_at_rest(cell, room, 0)),
        Err(error) => Err((error, cell.into_basis())),
    }
}
