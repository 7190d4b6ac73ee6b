//! The reader of plan texts.

ghost use Rattle.std.specs.Prelude.{◌≡◌, ◌≢◌, IfOk, IfErr, None, Some};
ghost use Rattle.shop_base.specs.{Vectors.lists_of, Vectors.list_of, Plan.ShopPlan};
ghost use Rattle.toml.specs.View.{table_view};
ghost use Rattle.plan_text.specs.{declared.plan_fault.PlanFault.PlanFault, Keys.plan_value_at};
ghost use Rattle.plan_text.specs.Documents.{IsDocument, IsNoDocument, IsPlanText, IsFirstPlanFault};
ghost use Rattle.plan_text.specs.Answers.{IsReadPlan, IsRefusedPlan, Passes};
ghost use Rattle.plan_text.specs.Reading.{numbers_in, rows_in, list_at, clean_in, plan_with, plan_in};
ghost use Rattle.plan_text.specs.Listing.{list_faults, order_faults, faults_at, clean_faults, list_values, faults_of};

use crate::keys::{PlanKey, check_known, check_missing, check_version, value_of};
use crate::plan_fault::PlanFault;
use crate::values::{moments_in, rows_in};
use shop_base::{JobNo, Moment, Plan};
use std::alloc::Global;
use toml::Table;

/// The moments of a key, where the table has it.
fn moments_at(alloc: Global, table: &Table, key: PlanKey) -> Result<Vec<Moment>, PlanFault>
    requires { key ≢ PlanKey.Order }
    ensures faults { Passes (faults_at (list_faults key None) (plan_value_at (table_view table.now) key)) result }
    ensures value { IfOk result (λ moments. moments.items ≡ list_at numbers_in (plan_value_at (table_view table.now) key)) }
{
    match value_of(table, key.name()) {
        Some(value) => moments_in(alloc, key, value),
        None => Ok(Vec::new(alloc)),
    }
}

/// The rows of the order, where the table has one.
fn rows_at(alloc: Global, table: &Table) -> Result<Vec<Vec<JobNo>>, PlanFault>
    ensures faults { Passes (faults_at order_faults (plan_value_at (table_view table.now) PlanKey.Order)) result }
    ensures value { IfOk result
        (λ rows. lists_of rows.items ≡ list_at rows_in (plan_value_at (table_view table.now) PlanKey.Order)) }
{
    match value_of(table, PlanKey::Order.name()) {
        Some(value) => rows_in(alloc, value),
        None => Ok(Vec::new(alloc)),
    }
}

/// The cleaning times, where the table's version has some.
fn clean_at(alloc: Global, table: &Table, cleaning: bool) -> Result<Option<Vec<Moment>>, PlanFault>
    ensures faults { Passes (clean_faults cleaning (table_view table.now)) result }
    ensures value { IfOk result (λ times. list_of times ≡ clean_in cleaning (table_view table.now)) }
{
    if !cleaning {
        return Ok(None);
    }
    match moments_at(alloc, table, PlanKey::Clean) {
        Ok(times) => Ok(Some(times)),
        Err(fault) => Err(fault),
    }
}

/// The plan of a table that has the keys of its version.
fn lists_at(alloc: Global, table: &Table, cleaning: bool) -> Result<Plan, PlanFault>
    ensures faults { Passes (list_values cleaning (table_view table.now)) result }
    ensures value { IfOk result (λ plan. plan ≡ plan_with cleaning (table_view table.now)) }
{
    let release = moments_at(alloc, table, PlanKey::Release)?;
    let budget = moments_at(alloc, table, PlanKey::Budget)?;
    let order = rows_at(alloc, table)?;
    let clean = clean_at(alloc, table, cleaning)?;
    Ok(Plan {
        release,
        budget,
        order,
        clean,
    })
}

/// The plan of a table.
fn plan_of(alloc: Global, table: &Table) -> Result<Plan, PlanFault>
    ensures faults { Passes (faults_of (table_view table.now)) result }
    ensures value { IfOk result (λ plan. plan ≡ plan_in (table_view table.now)) }
{
    let cleaning = check_version(table)?;
    check_known(table, cleaning)?;
    check_missing(table, cleaning)?;
    lists_at(alloc, table, cleaning)
}

/// The table of a text.
fn table_of(alloc: Global, text: &[u8]) -> Result<Table, PlanFault>
    ensures document { IfOk result (λ table. IsDocument text.now (table_view table)) }
    ensures refused { IfErr result (λ fault. fault ≢ PlanFault.Memory → IsNoDocument text.now fault) }
{
    let Ok(text) = std::str::from_utf8(text) else {
        return Err(PlanFault::NotToml);
    };
    Ok(toml::table_from_str(alloc, text)?)
}

/// Reads a plan from the text of a TOML document.
///
/// It doesn't count: whether there is a release for each job, and the like, is for `shape` to check.
pub fn read_plan(alloc: Global, text: &[u8]) -> Result<Plan, PlanFault>
    // What is read is the text's plan, and the text's plan is read.
    ensures found { IfOk result (λ plan. IsPlanText text.now plan) }
    ensures only { (plan : ShopPlan) → IsPlanText text.now plan → IsReadPlan result plan }

    // A fault is what is wrong first, and what is wrong first is the fault.
    ensures fault { IfErr result (λ fault. fault ≢ PlanFault.Memory → IsFirstPlanFault text.now fault) }
    ensures first { (fault : PlanFault) → IsFirstPlanFault text.now fault → IsRefusedPlan result fault }
{
    match table_of(alloc, text) {
        Ok(table) => plan_of(alloc, &table),
        Err(fault) => Err(fault),
    }
}
