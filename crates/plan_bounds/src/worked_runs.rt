//! A tank that is visited again: its bounds, computed on the definitions.

// Nothing is done here: the contract says what holds of a plan that is written out in `specs/Examples.antt` of
// shop_base.

ghost use Rattle.std.specs.Prelude.{◌≡◌};
ghost use Rattle.shop_base.specs.Examples.{rinsing};
ghost use Rattle.plan_bounds.specs.Bounds.{times_of, job_bound, IsMachineBound};

/// A rack is rinsed for 3, dipped for 2 and rinsed for 3 again in the same tank, which has to be cleaned for 6 between. So
/// it isn't out before moment 12, by whatever plan. Another rack is rinsed in it for 3: with two cleanings between the
/// three visits all are out at 21 at the soonest.
pub fn a_tank_is_cleaned_between_its_visits()
    ensures job { job_bound (times_of rinsing) 0 ≡ 12 }
    ensures other { job_bound (times_of rinsing) 1 ≡ 3 }
    ensures machine { IsMachineBound (times_of rinsing) 0 21 }
{}
