//! The machine of the jobs that are put aside.

ghost use Rattle.std.specs.Prelude.{◌≡◌, ℕ, ◌+◌, ◌<◌, ◌↔◌, IsTrue, length};
ghost use Rattle.shop_base.specs.Plan.{machines, nominal, steps, order, job_at, jobs, IsWellShaped};
ghost use Rattle.plan_revise.specs.{Promises.HasNoPromise, Aside.IsAside, Aside.IsPlant, Aside.IsAsideJob};

use crate::ending::NO_PROMISE;
use shop_base::{JobNo, MachineNo, Shaped};

/// How many machines the plant has: all but that of the jobs that are put aside, where there is one.
pub fn plant_of(shaped: &Shaped) -> u32
    ensures plant { IsPlant shaped.now result }
    ensures well_shaped { IsWellShaped shaped.now }
{
    let last = shaped.machine_count() - 1;
    if is_aside(shaped, last) {
        last
    } else {
        last + 1
    }
}

/// Whether the last machine is that of the jobs that are put aside.
fn is_aside(shaped: &Shaped, last: MachineNo) -> bool
    requires { last + 1 ≡ machines shaped.now }
    ensures { IsTrue result ↔ IsAside shaped.now last }
{
    if shaped.order_of(last).is_empty() {
        return false;
    }
    if shaped.clean_of(last) > 0 {
        return false;
    }
    are_aside(shaped, last)
}

/// Whether each job that visits the machine is one that could be put aside there.
fn are_aside(shaped: &Shaped, machine: MachineNo) -> bool
    requires { machine < machines shaped.now }
    ensures { IsTrue result
        ↔ ((a : ℕ) → a < length (order shaped.now machine) → IsAsideJob shaped.now (job_at shaped.now machine a)) }
{
    let _plan = shaped.plan();
    for place in 0..shaped.order_of(machine).len() {
        if !is_aside_job(shaped, shaped.order_of(machine)[place]) {
            return false;
        }
    }
    true
}

/// Whether the job has one step, of no time, and no promise.
fn is_aside_job(shaped: &Shaped, job: JobNo) -> bool
    requires { job < jobs shaped.now }
    ensures { IsTrue result ↔ IsAsideJob shaped.now job }
{
    let route = shaped.route_of(job);
    route.len() == 1 && route[0].nominal == 0 && shaped.budget_of(job) == NO_PROMISE
}
