//! The keys of a text of names.

ghost use Rattle.std.specs.Prelude.{◌≡◌, not, string_bytes, Some};
ghost use Rattle.std.specs.BTreeMap.{keys};
ghost use Rattle.std.specs.List.{find};
ghost use Rattle.std.specs.Option.{option_copied};
ghost use Rattle.toml.specs.View.{table_view};
ghost use Rattle.people_names.specs.{Keys.is_known_key, Keys.name_of, Answers.Passes, Faults.key_faults};

use crate::names_fault::{KeyText, NamesFault};
use std::alloc::Global;
use std::fmt;
use toml::Table;

/// The key of a text of names that holds what the clock says at moment 0.
pub(crate) const BEGIN: &str = "begin";

/// The keys of a text of names that hold lists.
#[derive(Clone, Copy, Debug, PartialEq, Eq)]
pub enum NamesKey {
    /// The name of each job.
    Jobs,
    /// The name of each machine.
    Machines,
}

impl NamesKey {
    /// The key as it is in a text.
    pub fn name(self) -> &'static str
        ensures { result.now ≡ name_of self }
    {
        match self {
            NamesKey::Jobs => "jobs",
            NamesKey::Machines => "machines",
        }
    }
}

impl fmt::Display for NamesKey {
    ghost output = { λ key. Some (name_of key) };

    fn fmt<W: fmt::Write>(&self, f: &mut fmt::Formatter<W>) -> fmt::Result {
        f.write_str(self.name())
    }
}

fn is_known(key: &str) -> bool
    ensures { result ≡ is_known_key key.now }
{
    key == NamesKey::Jobs.name() || key == NamesKey::Machines.name() || key == BEGIN
}

/// The least key that isn't one of a text of names, if there is one.
fn unknown_key(table: &Table) -> Option<&String>
    ensures { option_copied result ≡ find (λ key. not (is_known_key (string_bytes key))) (keys table.now) }
{
    table.keys().find(|key| !is_known(key))
}

/// Refuses a key that isn't one of a text of names.
pub(crate) fn check_known(alloc: Global, table: &Table) -> Result<(), NamesFault>
    ensures { Passes (key_faults (table_view table.now)) result }
{
    match unknown_key(table) {
        Some(key) => Err(NamesFault::UnknownKey {
            key: KeyText::of(alloc, key)?,
        }),
        None => Ok(()),
    }
}
