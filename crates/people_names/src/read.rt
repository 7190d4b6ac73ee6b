//! The reader of names.

ghost use Rattle.std.specs.Prelude.{◌≡◌, ◌≢◌, ◌≤◌, ◌++◌, nat_le, map, option_map};
ghost use Rattle.std.specs.Prelude.{string_bytes, length, is_some, IfOk, IfErr, None, Some};
ghost use Rattle.toml.specs.{Data.get_member, View.view, View.table_view};
ghost use Rattle.people_names.specs.{declared.names_fault.NamesFault.NamesFault, Keys.value_at, Keys.begin_in};
ghost use Rattle.people_names.specs.declared.keys.NamesKey.{NamesKey};
ghost use Rattle.people_names.specs.{NameBooks.NameBook, Lists.AreShort};
ghost use Rattle.people_names.specs.Documents.{IsNamesDocument, IsNoNamesDocument, IsNamesText, IsFirstNamesFault};
ghost use Rattle.people_names.specs.Answers.{IsReadNames, IsRefusedNames, Passes, PassesExactly};
ghost use Rattle.people_names.specs.Reading.{names_at, clock_in, names_in};
ghost use Rattle.people_names.specs.Faults.{list_faults, clock_faults, unless, value_faults, faults_of};

use crate::clock::{Clock, clock_of};
use crate::keys::{BEGIN, NamesKey, check_known};
use crate::lists::names_of;
use crate::names::{Names, names_for_people};
use crate::names_fault::NamesFault;
use std::alloc::Global;
use toml::{Table, Value};

/// The value of a key, if the table has one.
fn value_of<'a>(table: &'a Table, key: &str) -> Option<&'a Value>
    ensures { option_map (λ v. view v.now) result ≡ get_member key.now (table_view table.now) }
{
    table.get(key)
}

/// Whether the table has a key.
fn has_list(table: &Table, key: NamesKey) -> bool
    ensures { result ≡ is_some (value_at (table_view table.now) key) }
{
    value_of(table, key.name()).is_some()
}

/// The names of a key, where the table has it.
fn names_at(alloc: Global, table: &Table, key: NamesKey) -> Result<Vec<String>, NamesFault>
    ensures faults { Passes (list_faults key (value_at (table_view table.now) key)) result }
    ensures value { IfOk result
        (λ names. map string_bytes names.items ≡ names_at (value_at (table_view table.now) key)) }
    ensures short { IfOk result (λ names. AreShort (map string_bytes names.items)) }
{
    match value_of(table, key.name()) {
        Some(value) => names_of(alloc, key, value),
        None => Ok(Vec::new(alloc)),
    }
}

/// The clock, where the table states one.
fn clock_in(table: &Table) -> Result<Option<Clock>, NamesFault>
    ensures faults { PassesExactly (clock_faults (begin_in (table_view table.now))) result }
    ensures value { IfOk result (λ clock. clock ≡ clock_in (begin_in (table_view table.now))) }
{
    let Some(value) = value_of(table, BEGIN) else {
        return Ok(None);
    };
    let Some(text) = value.as_str() else {
        return Err(NamesFault::BadClock);
    };
    match clock_of(text.as_bytes()) {
        Some(clock) => Ok(Some(clock)),
        None => Err(NamesFault::BadClock),
    }
}

/// Refuses more names than there may be.
fn check_count(key: NamesKey, names: &[String], most: usize) -> Result<(), NamesFault>
    ensures { PassesExactly (unless (nat_le (length names.now) most) (NamesFault.TooManyNames key)) result }
{
    if most < names.len() {
        return Err(NamesFault::TooManyNames { key });
    }
    Ok(())
}

/// The clock, unless there are more names than there may be.
fn check_rest(
    table: &Table,
    of_jobs: &[String],
    of_machines: &[String],
    jobs: usize,
    machines: usize,
) -> Result<Option<Clock>, NamesFault>
    ensures faults { PassesExactly (clock_faults (begin_in (table_view table.now))
        ++ (unless (nat_le (length of_jobs.now) jobs) (NamesFault.TooManyNames NamesKey.Jobs)
        ++ unless (nat_le (length of_machines.now) machines) (NamesFault.TooManyNames NamesKey.Machines))) result }
    ensures value { IfOk result (λ clock. clock ≡ clock_in (begin_in (table_view table.now))) }
{
    let clock = clock_in(table)?;
    check_count(NamesKey::Jobs, of_jobs, jobs)?;
    check_count(NamesKey::Machines, of_machines, machines)?;
    Ok(clock)
}

/// The names and the clock of a table whose keys are known.
fn values_of(
    alloc: Global,
    table: &Table,
    jobs: usize,
    machines: usize,
) -> Result<Names, NamesFault>
    ensures faults { Passes (value_faults jobs machines (table_view table.now)) result }
    ensures value { IfOk result (λ names. names ≡ names_in (table_view table.now)) }
{
    let of_jobs = names_at(alloc, table, NamesKey::Jobs)?;
    let of_machines = names_at(alloc, table, NamesKey::Machines)?;
    match check_rest(table, &of_jobs, &of_machines, jobs, machines) {
        Ok(clock) => Ok(names_for_people(
            of_jobs,
            of_machines,
            clock,
            has_list(table, NamesKey::Jobs),
            has_list(table, NamesKey::Machines),
        )),
        Err(fault) => Err(fault),
    }
}

/// The names and the clock of a table.
fn names_in(alloc: Global, table: &Table, jobs: usize, machines: usize) -> Result<Names, NamesFault>
    ensures faults { Passes (faults_of jobs machines (table_view table.now)) result }
    ensures value { IfOk result (λ names. names ≡ names_in (table_view table.now)) }
{
    check_known(alloc, table)?;
    values_of(alloc, table, jobs, machines)
}

/// The table of a text.
fn table_of(alloc: Global, text: &[u8]) -> Result<Table, NamesFault>
    ensures document { IfOk result (λ table. IsNamesDocument text.now (table_view table)) }
    ensures refused { IfErr result (λ fault. fault ≢ NamesFault.Memory → IsNoNamesDocument text.now fault) }
{
    let Ok(text) = std::str::from_utf8(text) else {
        return Err(NamesFault::NotToml);
    };
    Ok(toml::table_from_str(alloc, text)?)
}

/// Reads names from the text of a TOML document, for a shop with so many jobs and machines.
///
/// Its keys are `jobs` and `machines`, each with an array of the first names, and `begin`, what the clock says at
/// moment 0. An empty text has names for nobody, but it is for people: lines print no promises that nobody gave.
pub fn read_names(
    alloc: Global,
    text: &[u8],
    jobs: usize,
    machines: usize,
) -> Result<Names, NamesFault>
    // What is read are the text's names, and the text's names are read.
    ensures found { IfOk result (λ names. IsNamesText jobs machines text.now names) }
    ensures only { (names : NameBook) → IsNamesText jobs machines text.now names → IsReadNames result names }

    // A fault is what is wrong first, and what is wrong first is the fault.
    ensures fault { IfErr result (λ fault. fault ≢ NamesFault.Memory → IsFirstNamesFault jobs machines text.now fault) }
    ensures first { (fault : NamesFault) → IsFirstNamesFault jobs machines text.now fault → IsRefusedNames result fault }
{
    match table_of(alloc, text) {
        Ok(table) => names_in(alloc, &table, jobs, machines),
        Err(fault) => Err(fault),
    }
}
