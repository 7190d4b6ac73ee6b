//! An accepted plan without what a running cell doesn't read, and the controller of such a plan.

ghost use Rattle.std.specs.Prelude.{◌≡◌, Some, IfOk, IfErr};
ghost use Rattle.std.specs.Rc.{weak_target};
ghost use Rattle.plan_verifier.specs.Accepted.{IsVerified};
ghost use Rattle.cell_control.specs.Control.{control_at_start};

use crate::controller::begin_with;
use crate::core_controller::Core;
use crate::dues::Dues;
use crate::timed::Timed;
use alt_graph::Times;
use plan_verifier::Verified;
use shop_base::{Planned, Shaped};
use std::alloc::{AllocError, Global};
use std::marker::Model;
use std::rc::{Rc, Weak};

/// An accepted plan whose ranks and lengths aren't kept: a controller needs them only to tell when a job leaves at the
/// latest. They are most of what a [`Verified`] holds. A contract sees the plan that was accepted.
#[derive(Drop)]
pub struct LeanPlan {
    shaped: Shaped,
    times: Weak<Times, Global>,
}

impl Model for LeanPlan {
    ghost use Rattle.plan_verifier.specs.Accepted.{VerifiedPlan, IsVerified};
    ghost use Rattle.cell_control.specs.Lean.{lean_of};

    ghost Value = { VerifiedPlan };

    ghost view = { λ l. lean_of l.shaped l.times };

    ghost invariant = { λ l. IsVerified (lean_of l.shaped l.times) };
}

/// Frees the ranks and lengths. What they were remains known to contracts.
fn freed(alloc: Global, times: Times) -> Result<Weak<Times, Global>, AllocError>
    ensures { IfOk result (λ weak. weak_target weak ≡ Some times) }
{
    let held = Rc::new(alloc, times).map_err(AllocError::from)?;
    Rc::downgrade(&held)
}

impl LeanPlan {
    /// The accepted plan, whose ranks and lengths are freed. On an error the plan is gone.
    pub fn of(alloc: Global, verified: Verified) -> Result<LeanPlan, AllocError>
        ensures { IfOk result (λ lean. lean ≡ verified) }
    {
        let (shaped, times) = verified.into_parts();
        match freed(alloc, times) {
            Ok(times) => Ok(LeanPlan { shaped, times }),
            Err(error) => {
                drop(shaped);
                Err(error)
            }
        }
    }

    /// The plan.
    pub fn shaped(&self) -> &Shaped
        ensures same { result.now ≡ self.now.planned }
        ensures verified { IsVerified self.now }
    {
        &self.shaped
    }
}

impl Planned for LeanPlan {
    ghost planned = { λ l. l.planned };

    fn shaped(&self) -> &Shaped {
        LeanPlan::shaped(self)
    }
}

impl Timed for LeanPlan {
    ghost times = { λ l. l.times };
}

/// Runs a cell by an accepted plan, as a [`crate::Controller`] does, and keeps no ranks and lengths.
pub type LeanController<D> = Core<LeanPlan, D>;

impl<D: Dues> Core<LeanPlan, D> {
    /// The controller of an accepted plan before the first report. It takes all memory that later calls need. If a
    /// request for memory is refused, the plan comes back.
    pub fn start(alloc: Global, plan: LeanPlan) -> Result<LeanController<D>, (AllocError, LeanPlan)>
        ensures start { IfOk result (λ controller. controller ≡ control_at_start plan) }
        ensures handed_back { IfErr result (λ refused. refused.1 ≡ plan) }
    {
        // Called for its clause alone: the plan is an accepted one.
        let _plan = plan.shaped();
        begin_with(alloc, plan)
    }
}
