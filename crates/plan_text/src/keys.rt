//! The keys of a plan text.

ghost use Rattle.std.specs.Prelude.{◌≡◌, IfOk, Some, option_map, string_bytes};
ghost use Rattle.std.specs.List.{list_all};
ghost use Rattle.std.specs.Str.{bytes_eq};
ghost use Rattle.std.specs.BTreeMap.{keys};
ghost use Rattle.toml.specs.{Data.get_member, View.view, View.table_view};
ghost use Rattle.plan_text.specs.{Keys.key_name, Keys.plan_value_at, Keys.version_in, Answers.PassesExactly};
ghost use Rattle.plan_text.specs.Listing.{version_faults, has_cleaning, is_common_key, is_known_key, key_faults};
ghost use Rattle.plan_text.specs.Listing.{missing_faults, missing_keys};

use crate::plan_fault::PlanFault;
use std::fmt;
use toml::{Table, Value};

/// The key of a plan text that holds its version.
pub(crate) const VERSION: &str = "version";

/// The keys of a plan text that hold lists.
#[derive(Clone, Copy, Debug, PartialEq, Eq)]
pub enum PlanKey {
    /// The release of each job.
    Release,
    /// The budget of each job.
    Budget,
    /// The order of each machine.
    Order,
    /// The cleaning time of each machine, in version 2.
    Clean,
}

impl PlanKey {
    /// The key as it is in a text.
    pub fn name(self) -> &'static str
        ensures { result.now ≡ key_name self }
    {
        match self {
            PlanKey::Release => "release",
            PlanKey::Budget => "budget",
            PlanKey::Order => "order",
            PlanKey::Clean => "clean",
        }
    }
}

impl fmt::Display for PlanKey {
    ghost output = { λ key. Some (key_name key) };

    fn fmt<W: fmt::Write>(&self, f: &mut fmt::Formatter<W>) -> fmt::Result {
        f.write_str(self.name())
    }
}

/// The value of a key, if the table has one.
pub(crate) fn value_of<'a>(table: &'a Table, key: &str) -> Option<&'a Value>
    ensures { option_map (λ v. view v.now) result ≡ get_member key.now (table_view table.now) }
{
    table.get(key)
}

/// Whether the table's version is 2, the version of plans with cleaning.
pub(crate) fn check_version(table: &Table) -> Result<bool, PlanFault>
    ensures faults { PassesExactly (version_faults (version_in (table_view table.now))) result }
    ensures value { IfOk result (λ cleaning. cleaning ≡ has_cleaning (version_in (table_view table.now))) }
{
    let Some(version) = value_of(table, VERSION) else {
        return Ok(false);
    };
    match version.as_integer() {
        Some(1) => Ok(false),
        Some(2) => Ok(true),
        _ => Err(PlanFault::BadVersion),
    }
}

fn is_key(key: &str, wanted: PlanKey) -> bool
    ensures { result ≡ bytes_eq key.now (key_name wanted) }
{
    key == wanted.name()
}

fn is_common(key: &str) -> bool
    ensures { result ≡ is_common_key key.now }
{
    key == VERSION
        || is_key(key, PlanKey::Release)
        || is_key(key, PlanKey::Budget)
        || is_key(key, PlanKey::Order)
}

fn is_known(key: &str, cleaning: bool) -> bool
    ensures { result ≡ is_known_key cleaning key.now }
{
    is_common(key) || (cleaning && is_key(key, PlanKey::Clean))
}

fn are_known(table: &Table, cleaning: bool) -> bool
    ensures { result ≡ list_all (λ key. is_known_key cleaning (string_bytes key)) (keys table.now) }
{
    table.keys().all(|key| is_known(key, cleaning))
}

/// Refuses a key that isn't one of the version's.
pub(crate) fn check_known(table: &Table, cleaning: bool) -> Result<(), PlanFault>
    ensures { PassesExactly (key_faults cleaning (table_view table.now)) result }
{
    if !are_known(table, cleaning) {
        return Err(PlanFault::UnknownKey);
    }
    Ok(())
}

fn check_key(table: &Table, key: PlanKey) -> Result<(), PlanFault>
    ensures { PassesExactly (missing_faults key (plan_value_at (table_view table.now) key)) result }
{
    match value_of(table, key.name()) {
        Some(_) => Ok(()),
        None => Err(PlanFault::MissingKey { key }),
    }
}

/// Refuses a table that lacks a key of its version.
pub(crate) fn check_missing(table: &Table, cleaning: bool) -> Result<(), PlanFault>
    ensures { PassesExactly (missing_keys cleaning (table_view table.now)) result }
{
    check_key(table, PlanKey::Release)?;
    check_key(table, PlanKey::Budget)?;
    check_key(table, PlanKey::Order)?;
    if cleaning {
        check_key(table, PlanKey::Clean)?;
    }
    Ok(())
}
