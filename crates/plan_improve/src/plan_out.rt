ghost use Rattle.std.specs.Prelude.{◌≡◌};

use cell_tables::Rest;
use shop_base::Shaped;

/// The plan of a rest, taken out.
pub(crate) fn plan_of(rest: Rest<Shaped>) -> Shaped
    ensures { result ≡ rest.plan }
{
    let (cell, _) = rest.into_parts();
    let (shaped, _) = cell.into_parts();
    shaped
}
