//! A worked example of claims, computed on the definitions.

// Nothing is done here: a function's contract is the example.

ghost use Rattle.std.specs.Prelude.{ℕ};
ghost use Rattle.shop_base.specs.{Report.CanReport, Run.IsRun, Examples.finish};
ghost use Rattle.cell_control.specs.Reports.{CanCleanAfter};
ghost use Rattle.cell_control.specs.Claims.{CanFinishStep, CanCleanAfterStep};
ghost use Rattle.cell_control.specs.Examples.{rinse, rinse_log, rinse_after};

/// A rack is rinsed twice in one tank. The end of its first rinsing, and of the cleaning after it, were reported. At
/// its second one the same words, with another moment, are possible again, but not with the first step's number.
pub fn a_step_tells_two_visits_apart()
    ensures run { IsRun rinse rinse_log }
    ensures copied { CanReport rinse (rinse_after 8) (finish 12 0 0) }
    ensures step { CanFinishStep rinse (rinse_after 8) 0 2 12 }
    ensures no_other_step { (t : ℕ) → CanFinishStep rinse (rinse_after 8) 0 0 t → ⊥ }
    ensures cleaning_copied { CanCleanAfter rinse (rinse_after 10) 0 0 18 }
    ensures cleaning_step { CanCleanAfterStep rinse (rinse_after 10) 0 0 2 18 }
    ensures no_other_cleaning { (t : ℕ) → CanCleanAfterStep rinse (rinse_after 10) 0 0 0 t → ⊥ }
{}
