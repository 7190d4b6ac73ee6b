ghost use Rattle.std.specs.Prelude.{◌≡◌};
ghost use Rattle.shop_base.specs.Plan.{PlannedShop};

use crate::shaped::Shaped;

/// What leads to a well-shaped plan: the plan itself, a loan of it, or an accepted plan.
pub trait Planned: Sized + Drop {
    // The plan.
    ghost planned: { Self → PlannedShop };

    /// The plan.
    fn shaped(&self) -> &Shaped
        ensures { result.now ≡ planned self.now };
}

impl Planned for Shaped {
    ghost planned = { λ s. s };

    fn shaped(&self) -> &Shaped {
        self
    }
}

impl<'a> Planned for &'a Shaped {
    ghost planned = { λ s. s.now };

    fn shaped(&self) -> &Shaped {
        *self
    }
}
