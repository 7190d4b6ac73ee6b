//! Numbers and lists of numbers, out of TOML values.

ghost use Rattle.std.specs.Prelude.{◌≡◌, ◌≢◌, IfOk, None, Some};
ghost use Rattle.shop_base.specs.Vectors.{lists_of};
ghost use Rattle.toml.specs.View.{view, items_view};
ghost use Rattle.plan_text.specs.Answers.{Passes, PassesExactly};
ghost use Rattle.plan_text.specs.Reading.{number_in, numbers_in, rows_in, each_item};
ghost use Rattle.plan_text.specs.Listing.{number_faults, list_faults, row_faults, order_faults, each_faults};

use crate::keys::PlanKey;
use crate::plan_fault::PlanFault;
use shop_base::{JobNo, Moment};
use std::alloc::{AllocError, Global};
use toml::Value;

fn moment_of(key: PlanKey, place: usize, value: &Value) -> Result<Moment, PlanFault>
    requires { key ≢ PlanKey.Order }
    ensures faults { PassesExactly (number_faults key None place (view value.now)) result }
    ensures value { IfOk result (λ moment. moment ≡ number_in (view value.now)) }
{
    let Some(number) = value.as_integer() else {
        return Err(PlanFault::NotWhole {
            key,
            row: None,
            place,
        });
    };
    if number < 0 {
        return Err(PlanFault::OutOfRange {
            key,
            row: None,
            place,
        });
    }
    Ok(number as u64)
}

fn job_of(row: usize, place: usize, value: &Value) -> Result<JobNo, PlanFault>
    ensures faults { PassesExactly (number_faults PlanKey.Order (Some row) place (view value.now)) result }
    ensures value { IfOk result (λ job. job ≡ number_in (view value.now)) }
{
    let Some(number) = value.as_integer() else {
        return Err(PlanFault::NotWhole {
            key: PlanKey::Order,
            row: Some(row),
            place,
        });
    };
    if number < 0 || number > 0xffff_ffff {
        return Err(PlanFault::OutOfRange {
            key: PlanKey::Order,
            row: Some(row),
            place,
        });
    }
    Ok(number as u32)
}

fn moments_of(alloc: Global, key: PlanKey, items: &[Value]) -> Result<Vec<Moment>, PlanFault>
    requires { key ≢ PlanKey.Order }
    ensures faults { Passes (each_faults (number_faults key None) 0 (items_view items.now)) result }
    ensures value { IfOk result (λ moments. moments.items ≡ each_item number_in (items_view items.now)) }
{
    let mut moments = Vec::new(alloc);
    for (place, item) in items.iter().enumerate() {
        let moment = moment_of(key, place, item)?;
        moments.push(moment).map_err(AllocError::from)?;
    }
    Ok(moments)
}

fn jobs_of(alloc: Global, row: usize, items: &[Value]) -> Result<Vec<JobNo>, PlanFault>
    ensures faults { Passes (each_faults (number_faults PlanKey.Order (Some row)) 0 (items_view items.now)) result }
    ensures value { IfOk result (λ jobs. jobs.items ≡ each_item number_in (items_view items.now)) }
{
    let mut jobs = Vec::new(alloc);
    for (place, item) in items.iter().enumerate() {
        let job = job_of(row, place, item)?;
        jobs.push(job).map_err(AllocError::from)?;
    }
    Ok(jobs)
}

/// The list of moments that a value is.
pub(crate) fn moments_in(
    alloc: Global,
    key: PlanKey,
    value: &Value,
) -> Result<Vec<Moment>, PlanFault>
    requires { key ≢ PlanKey.Order }
    ensures faults { Passes (list_faults key None (view value.now)) result }
    ensures value { IfOk result (λ moments. moments.items ≡ numbers_in (view value.now)) }
{
    match value.as_array() {
        Some(items) => moments_of(alloc, key, items),
        None => Err(PlanFault::NotArray { key, row: None }),
    }
}

fn row_in(alloc: Global, row: usize, value: &Value) -> Result<Vec<JobNo>, PlanFault>
    ensures faults { Passes (row_faults row (view value.now)) result }
    ensures value { IfOk result (λ jobs. jobs.items ≡ numbers_in (view value.now)) }
{
    match value.as_array() {
        Some(items) => jobs_of(alloc, row, items),
        None => Err(PlanFault::NotArray {
            key: PlanKey::Order,
            row: Some(row),
        }),
    }
}

fn rows_of(alloc: Global, items: &[Value]) -> Result<Vec<Vec<JobNo>>, PlanFault>
    ensures faults { Passes (each_faults row_faults 0 (items_view items.now)) result }
    ensures value { IfOk result (λ rows. lists_of rows.items ≡ each_item numbers_in (items_view items.now)) }
{
    let mut rows = Vec::new(alloc);
    for (row, item) in items.iter().enumerate() {
        let jobs = row_in(alloc, row, item)?;
        rows.push(jobs).map_err(AllocError::from)?;
    }
    Ok(rows)
}

/// The list of rows that a value is.
pub(crate) fn rows_in(alloc: Global, value: &Value) -> Result<Vec<Vec<JobNo>>, PlanFault>
    ensures faults { Passes (order_faults (view value.now)) result }
    ensures value { IfOk result (λ rows. lists_of rows.items ≡ rows_in (view value.now)) }
{
    match value.as_array() {
        Some(items) => rows_of(alloc, items),
        None => Err(PlanFault::NotArray {
            key: PlanKey::Order,
            row: None,
        }),
    }
}
