ghost use Rattle.std.specs.Prelude.{◌≡◌};
ghost use Rattle.plan_improve.specs.declared.improve_fault.ImproveFault.TheVariants.{Memory};

use crate::improve_fault::ImproveFault;
use shop_base::Shaped;
use std::alloc::AllocError;

/// The plan that came in, given back with its own orders and the reason.
#[derive(Drop)]
pub struct NotImproved {
    pub fault: ImproveFault,
    pub start: Shaped,
}

impl NotImproved {
    /// Out of memory: the plan is given back.
    pub(crate) fn out_of_memory(error: AllocError, start: Shaped) -> NotImproved
        ensures fault { result.fault ≡ Memory }
        ensures start { result.start ≡ start }
    {
        NotImproved {
            fault: ImproveFault::from(error),
            start,
        }
    }
}
