//! A shop and its plan that are being changed.

ghost use Rattle.std.specs.Prelude.{◌≡◌, IfOk};
ghost use Rattle.shop_base.specs.{Plan.IsWellShaped, Vectors.lists_of, Vectors.list_of};

use shop_base::{JobNo, Moment, Plan, Shaped, Shop, Step, shape};
use std::alloc::{AllocError, Global};
use std::marker::Model;

/// A shop and its plan that are being changed: the machines, the routes, whether a job may visit a machine again, and the
/// lists of the plan.
#[derive(Drop)]
pub(crate) struct Draft {
    pub(crate) machines: u32,
    pub(crate) recirculates: bool,
    pub(crate) routes: Vec<Vec<Step>>,
    pub(crate) release: Vec<Moment>,
    pub(crate) budget: Vec<Moment>,
    pub(crate) order: Vec<Vec<JobNo>>,
    pub(crate) clean: Option<Vec<Moment>>,
}

impl Model for Draft {
    ghost use Rattle.shop_base.specs.Plan.{PlannedShop};
    ghost use Rattle.shop_base.specs.Vectors.{lists_of, plan_of};

    ghost Value = { PlannedShop };

    ghost view = { λ d. record {
      shop = record { machines = d.machines; routes = lists_of d.routes.items; recirculates = d.recirculates };
      plan = plan_of d.release d.budget d.order d.clean;
    } };
}

impl Draft {
    /// A copy of a shop and its plan.
    pub(crate) fn of(alloc: Global, shaped: &Shaped) -> Result<Draft, AllocError>
        ensures { IfOk result (λ draft. draft ≡ shaped.now) }
    {
        let plan = shaped.plan();
        Ok(Draft {
            machines: shaped.machine_count(),
            recirculates: shaped.shop().recirculates(),
            routes: copy_routes(alloc, shaped)?,
            release: plan.release.as_slice().to_vec(alloc)?,
            budget: plan.budget.as_slice().to_vec(alloc)?,
            order: copy_orders(alloc, shaped)?,
            clean: copy_times(alloc, &plan.clean)?,
        })
    }

    /// A copy of it.
    pub(crate) fn copy(&self, alloc: Global) -> Result<Draft, AllocError>
        ensures { IfOk result (λ copy. copy ≡ self.now) }
    {
        Ok(Draft {
            machines: self.machines,
            recirculates: self.recirculates,
            routes: copy_steps(alloc, &self.routes)?,
            release: self.release.as_slice().to_vec(alloc)?,
            budget: self.budget.as_slice().to_vec(alloc)?,
            order: copy_jobs(alloc, &self.order)?,
            clean: copy_times(alloc, &self.clean)?,
        })
    }

    /// The shop and its plan, which is well shaped.
    pub(crate) fn into_shaped(self) -> Shaped
        requires { IsWellShaped self }
        ensures { result ≡ self }
    {
        let plan = Plan {
            release: self.release,
            budget: self.budget,
            order: self.order,
            clean: self.clean,
        };
        match Shop::of_kind(self.machines, self.routes, self.recirculates) {
            Ok(shop) => shaped_of(shop, plan),
            Err(_) => unreachable!(),
        }
    }
}

/// The shop and a plan that is well shaped for it.
fn shaped_of(shop: Shop, plan: Plan) -> Shaped
    requires { IsWellShaped (record { shop = shop; plan = plan }) }
    ensures { result ≡ record { shop = shop; plan = plan } }
{
    match shape(shop, plan) {
        Ok(shaped) => shaped,
        Err(_) => unreachable!(),
    }
}

fn copy_routes(alloc: Global, shaped: &Shaped) -> Result<Vec<Vec<Step>>, AllocError>
    ensures { IfOk result (λ copy. lists_of copy.items ≡ shaped.now.shop.routes) }
{
    let mut routes = Vec::new(alloc);
    for job in 0..shaped.job_count() {
        routes.push(shaped.route_of(job).to_vec(alloc)?)?;
    }
    Ok(routes)
}

fn copy_orders(alloc: Global, shaped: &Shaped) -> Result<Vec<Vec<JobNo>>, AllocError>
    ensures { IfOk result (λ copy. lists_of copy.items ≡ shaped.now.plan.order) }
{
    let mut orders = Vec::new(alloc);
    for machine in 0..shaped.machine_count() {
        orders.push(shaped.order_of(machine).to_vec(alloc)?)?;
    }
    Ok(orders)
}

fn copy_steps(alloc: Global, rows: &[Vec<Step>]) -> Result<Vec<Vec<Step>>, AllocError>
    ensures { IfOk result (λ copy. lists_of copy.items ≡ lists_of rows.now) }
{
    let mut copies = Vec::new(alloc);
    for place in 0..rows.len() {
        copies.push(rows[place].as_slice().to_vec(alloc)?)?;
    }
    Ok(copies)
}

fn copy_jobs(alloc: Global, rows: &[Vec<JobNo>]) -> Result<Vec<Vec<JobNo>>, AllocError>
    ensures { IfOk result (λ copy. lists_of copy.items ≡ lists_of rows.now) }
{
    let mut copies = Vec::new(alloc);
    for place in 0..rows.len() {
        copies.push(rows[place].as_slice().to_vec(alloc)?)?;
    }
    Ok(copies)
}

fn copy_times(alloc: Global, times: &Option<Vec<Moment>>) -> Result<Option<Vec<Moment>>, AllocError>
    ensures { IfOk result (λ copy. list_of copy ≡ list_of times.now) }
{
    match times {
        Some(times) => Ok(Some(times.as_slice().to_vec(alloc)?)),
        None => Ok(None),
    }
}
