//! Lists of names, out of TOML values.

ghost use Rattle.std.specs.Prelude.{◌≡◌, ◌≤◌, ◌++◌, ℕ, List, [], ◌∷◌, length, map, string_bytes, IfOk, OnOk, Some};
ghost use Rattle.toml.specs.View.{view, items_view};
ghost use Rattle.people_names.specs.{Answers.Passes, Faults.name_faults, Faults.each_faults, Faults.list_faults};
ghost use Rattle.people_names.specs.{Lists.AreShort, Lists.HasSeen, declared.names.TheConstants.LONGEST_NAME};
ghost use Rattle.people_names.specs.Reading.{text_in, texts_in, names_at};

use crate::keys::NamesKey;
use crate::name_texts::is_name;
use crate::names_fault::NamesFault;
use std::alloc::{AllocError, Global};
use std::collections::BTreeSet;
use toml::Value;

/// The names of an array, each of which is another.
pub(crate) fn names_of(
    alloc: Global,
    key: NamesKey,
    value: &Value,
) -> Result<Vec<String>, NamesFault>
    ensures faults { Passes (list_faults key (Some (view value.now))) result }
    ensures value { IfOk result (λ names. map string_bytes names.items ≡ names_at (Some (view value.now))) }
    ensures short { IfOk result (λ names. AreShort (map string_bytes names.items)) }
{
    match value.as_array() {
        Some(items) => names_of_items(alloc, key, items),
        None => Err(NamesFault::NotArray { key }),
    }
}

fn names_of_items(alloc: Global, key: NamesKey, items: &[Value]) -> Result<Vec<String>, NamesFault>
    ensures faults { Passes (each_faults key 0 [] (items_view items.now)) result }
    ensures value { IfOk result (λ names. map string_bytes names.items ≡ texts_in (items_view items.now)) }
    ensures short { IfOk result (λ names. AreShort (map string_bytes names.items)) }
{
    let mut names = Vec::new(alloc);
    let mut seen = BTreeSet::new(alloc);
    for (place, item) in items.iter().enumerate() {
        push_name(alloc, &mut names, &mut seen, key, place, item)?;
    }
    Ok(names)
}

/// Adds the name that an element is to those before it, which were seen.
fn push_name(
    alloc: Global,
    names: &mut Vec<String>,
    seen: &mut BTreeSet<String>,
    key: NamesKey,
    place: usize,
    value: &Value,
) -> Result<(), NamesFault>
    requires seen { HasSeen seen.old (map string_bytes names.old.items) }
    requires short { AreShort (map string_bytes names.old.items) }
    ensures faults { Passes (name_faults key place (map string_bytes names.old.items) (view value.now)) result }
    ensures value { OnOk result
        (map string_bytes names.new.items ≡ map string_bytes names.old.items ++ text_in (view value.now) ∷ []) }
    ensures seen { OnOk result (HasSeen seen.new (map string_bytes names.new.items)) }
    ensures short { OnOk result (AreShort (map string_bytes names.new.items)) }
{
    let name = name_of(alloc, key, place, seen, value)?;
    remember(alloc, seen, name.as_str())?;
    names.push(name).map_err(AllocError::from)?;
    Ok(())
}

/// Puts the name among those that were seen.
fn remember(alloc: Global, seen: &mut BTreeSet<String>, name: &str) -> Result<(), AllocError>
    ensures { OnOk result
        ((before : List (List ℕ)) → HasSeen seen.old before → HasSeen seen.new (before ++ name.now ∷ [])) }
{
    let copy = String::from_str(alloc, name)?;
    match seen.insert(copy) {
        Ok(_) => Ok(()),
        Err(refused) => Err(AllocError::from(refused)),
    }
}

/// The name that an element is, behind those that were seen.
fn name_of(
    alloc: Global,
    key: NamesKey,
    place: usize,
    seen: &BTreeSet<String>,
    value: &Value,
) -> Result<String, NamesFault>
    ensures faults { (before : List (List ℕ)) → HasSeen seen.now before
        → Passes (name_faults key place before (view value.now)) result }
    ensures value { IfOk result (λ name. string_bytes name ≡ text_in (view value.now)) }
    ensures short { IfOk result (λ name. length (string_bytes name) ≤ LONGEST_NAME) }
{
    let Some(text) = value.as_str() else {
        return Err(NamesFault::NotText { key, place });
    };
    if !is_name(text) {
        return Err(NamesFault::BadName { key, place });
    }
    if seen.contains(text) {
        return Err(NamesFault::NameTwice { key, place });
    }
    Ok(String::from_str(alloc, text)?)
}
