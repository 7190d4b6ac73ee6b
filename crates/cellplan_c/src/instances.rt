//! An instance and its name, as C gives them.

ghost use Rattle.std.specs.Prelude.{◌≡◌};
ghost use Rattle.std.specs.Option.{option_copied};
ghost use Rattle.cellplan_c.specs.Numbers.{named};

/// The name of the instance, unless it is empty.
pub fn name_in(name: &[u8]) -> Option<&[u8]>
    ensures { option_copied result ≡ named name.now }
{
    if name.is_empty() { None } else { Some(name) }
}
