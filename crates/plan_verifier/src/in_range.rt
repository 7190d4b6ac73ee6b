//! Since when the cleanings of a cell go on.

ghost use Rattle.plan_verifier.specs.Held.{AreBegun};

use cell_tables::WorkCell;
use shop_base::Planned;

/// The cleanings that go on began at moments within the limit. It reads each once, and is called for its clause alone.
#[tactic(auto, using(shop_base::proofs::InShop::cleaned_in_shop))]
pub fn cleanings_in_range<P: Planned>(cell: &WorkCell<P>)
    ensures { AreBegun cell.now.cell }
{
    // Called for its clause alone: the cell is sound.
    let _plan = cell.shaped();
    for machine in 0..cell.machine_count() {
        let _since = cell.cleaned_since(machine);
    }
}
