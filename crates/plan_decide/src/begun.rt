//! Whether a run has begun.

ghost use Rattle.std.specs.Prelude.{◌≡◌, ◌↔◌, IsTrue, false};
ghost use Rattle.plan_decide.specs.{Pasts.HasNotBegun, Settings.AreAwaited};

use cell_tables::{Rest, WorkCell};
use shop_base::{JobState, Planned};

/// Whether nothing has happened, and the present moment is 0.
pub(crate) fn has_not_begun<P: Planned>(rest: &Rest<P>) -> bool
    ensures { IsTrue result ↔ HasNotBegun rest.now.plan rest.now.cell rest.now.present }
{
    // Called for its clause alone: the plan is well shaped.
    let _plan = rest.shaped();
    let present = rest.present();
    if present > 0 {
        return false;
    }
    are_awaited(rest.cell())
}

/// Whether nothing was reported of any job.
fn are_awaited<P: Planned>(cell: &WorkCell<P>) -> bool
    ensures { IsTrue result ↔ AreAwaited cell.now.plan cell.now.cell }
{
    for job in 0..cell.job_count() {
        if !is_awaited(cell.job_state(job)) {
            return false;
        }
    }
    true
}

/// Whether nothing was reported of the job.
fn is_awaited(state: JobState) -> bool
    ensures { IsTrue result ↔ (state.made ≡ 0) × (state.ready ≡ false) }
{
    if state.ready { false } else { state.made == 0 }
}
