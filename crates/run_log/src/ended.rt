//! Whether a run has ended.

ghost use Rattle.std.specs.Prelude.{◌≡◌, ℕ, ◌<◌, ◌↔◌, true, None, IsTrue};
ghost use Rattle.shop_base.specs.Plan.{jobs, machines};
ghost use Rattle.shop_base.specs.Cell.{cleaning, IsGone};
ghost use Rattle.shop_base.specs.Ends.{HasEnded};

use cell_tables::WorkCell;
use shop_base::Planned;

/// Whether all jobs are gone and no machine is being cleaned.
pub(crate) fn has_ended<P: Planned>(cell: &WorkCell<P>) -> bool
    ensures { (result ≡ true) ↔ HasEnded cell.now.plan cell.now.cell }
{
    let _plan = cell.shaped();
    all_gone(cell) && none_cleaned(cell)
}

fn all_gone<P: Planned>(cell: &WorkCell<P>) -> bool
    ensures { IsTrue result ↔ ((j : ℕ) → j < jobs cell.now.plan → IsGone cell.now.plan cell.now.cell j) }
{
    for job in 0..cell.job_count() {
        if cell.job_state(job).made <= cell.step_count(job) {
            return false;
        }
    }
    true
}

fn none_cleaned<P: Planned>(cell: &WorkCell<P>) -> bool
    ensures { IsTrue result ↔ ((m : ℕ) → m < machines cell.now.plan → cleaning cell.now.cell m ≡ None) }
{
    for machine in 0..cell.machine_count() {
        if cell.cleaned_since(machine).is_some() {
            return false;
        }
    }
    true
}
