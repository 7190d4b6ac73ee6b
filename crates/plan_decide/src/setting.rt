//! What is asked about: the rest of a run, of which a whole plan is the start, and whose promises are asked for.

ghost use Rattle.std.specs.Prelude.{◌≡◌, ◌<◌, ◌≤◌, slice_set, IfOk};
ghost use Rattle.shop_base.specs.{declared.limits.TheConstants.MAX_MOMENT, Plan.jobs};
ghost use Rattle.plan_decide.specs.Cases.{is_waiting, times_in, budget_in, bound_in};
ghost use Rattle.plan_decide.specs.{Promises.asked_for, Pasts.HoldsFrom};
ghost use Rattle.plan_decide.specs.Settings.{IsSet, case_in, free_in, bound_ahead};

use crate::aim::{Aim, Objective};
use crate::begun::has_not_begun;
use crate::copying::copy_moments;
use cell_tables::{Rest, WorkCell};
use plan_bounds::{job_bound, out_alone};
use plan_verifier::later;
use shop_base::limits::MAX_MOMENT;
use shop_base::{JobNo, Moment, Planned};
use std::alloc::{AllocError, Global};
use std::marker::Model;

/// The rest of a run, and whose promises are asked for.
#[derive(Drop)]
pub(crate) struct Setting<'a, P: Planned> {
    rest: &'a Rest<P>,
    /// Whether it is a whole plan: nothing has happened, and the present moment is 0.
    is_whole: bool,
    /// A job whose promise isn't asked for.
    free: Option<JobNo>,
}

impl<'a, P: Planned> Model for Setting<'a, P> {
    ghost use Rattle.plan_decide.specs.Settings.{AskedRest, asked_rest, IsSet};

    ghost Value = { AskedRest };

    ghost view = { λ s. asked_rest s.rest.now.plan s.rest.now.cell s.rest.now.present s.is_whole s.free };

    ghost invariant = { λ s.
        IsSet (asked_rest s.rest.now.plan s.rest.now.cell s.rest.now.present s.is_whole s.free) };
}

impl<'a, P: Planned> Setting<'a, P> {
    /// That of the rest of a run.
    pub(crate) fn of(rest: &'a Rest<P>, aim: Aim) -> Setting<'a, P>
        ensures plan { result.plan ≡ rest.now.plan }
        ensures past { let r = rest.now in
            HoldsFrom r.plan r.cell r.present (λ t. case_in result ≡ asked_for t aim) }
    {
        // Called for their clauses alone: the plan is well shaped, and a run leads to the cell.
        let _plan = rest.shaped();
        let _cell = rest.cell();
        let _present = rest.present();
        Setting {
            rest,
            is_whole: has_not_begun(rest),
            free: free_by(aim),
        }
    }

    /// The rest of the run.
    pub(crate) fn rest(&self) -> &'a Rest<P>
        ensures plan { result.now.plan ≡ self.now.plan }
        ensures cell { result.now.cell ≡ self.now.cell }
        ensures present { result.now.present ≡ self.now.present }
        ensures set { IsSet self.now }
    {
        self.rest
    }

    /// Its cell.
    pub(crate) fn cell(&self) -> &'a WorkCell<P>
        ensures plan { result.now.plan ≡ self.now.plan }
        ensures cell { result.now.cell ≡ self.now.cell }
        ensures set { IsSet self.now }
    {
        self.rest.cell()
    }

    /// The present moment.
    pub(crate) fn present(&self) -> Moment
        ensures present { result ≡ self.now.present }
        ensures in_range { result ≤ MAX_MOMENT }
    {
        self.rest.present()
    }

    /// Whether it is a whole plan: nothing has happened, and the present moment is 0.
    pub(crate) fn is_whole(&self) -> bool
        ensures whole { result ≡ self.now.is_whole }
        ensures set { IsSet self.now }
    {
        self.is_whole
    }

    /// The job whose promise isn't asked for, if there is one.
    fn free(&self) -> Option<JobNo>
        ensures { result ≡ self.now.free }
    {
        self.free
    }
}

/// The job whose own promise isn't asked for, if there is one.
fn free_by(aim: Aim) -> Option<JobNo>
    ensures { result ≡ free_in aim }
{
    match aim {
        Aim::Least(Objective::Leaving(job)) => Some(job),
        _ => None,
    }
}

/// The budget of the job, as it is asked for.
pub(crate) fn budget_for<P: Planned>(setting: &Setting<'_, P>, job: JobNo) -> Moment
    requires { job < jobs setting.now.plan }
    ensures { result ≡ budget_in (case_in setting.now) job }
{
    let budget = setting.cell().shaped().budget_of(job);
    match setting.free() {
        Some(free) => { if free == job { MAX_MOMENT } else { budget } }
        None => budget,
    }
}

/// The budgets of all jobs, as they are asked for.
pub(crate) fn budgets_of<P: Planned>(
    alloc: Global,
    setting: &Setting<'_, P>,
) -> Result<Vec<Moment>, AllocError>
    ensures { IfOk result (λ budgets. budgets.items ≡ (case_in setting.now).task.budget) }
{
    let budgets = copy_moments(alloc, &setting.cell().shaped().plan().budget)?;
    match setting.free() {
        Some(free) => Ok(with_no_promise(budgets, free)),
        None => Ok(budgets),
    }
}

/// The budgets without a promise to the job.
fn with_no_promise(budgets: Vec<Moment>, job: JobNo) -> Vec<Moment>
    ensures { result.items ≡ slice_set budgets.items job MAX_MOMENT }
{
    let mut budgets = budgets;
    if (job as usize) < budgets.len() {
        budgets[job as usize] = MAX_MOMENT;
    }
    budgets
}

/// Whether the job isn't gone.
pub(crate) fn is_waiting<P: Planned>(setting: &Setting<'_, P>, job: JobNo) -> bool
    requires { job < jobs setting.now.plan }
    ensures { let t = case_in setting.now in result ≡ is_waiting (times_in t) t.past job }
{
    if setting.is_whole() {
        return true;
    }
    let cell = setting.cell();
    cell.job_state(job).made <= cell.step_count(job)
}

/// The job's bound: before this moment it isn't out.
pub(crate) fn bound_of_job<P: Planned>(setting: &Setting<'_, P>, job: JobNo) -> Moment
    requires { job < jobs setting.now.plan }
    ensures { let t = case_in setting.now in result ≡ bound_in (times_in t) t.past job }
{
    if setting.is_whole() {
        return job_bound(setting.cell().shaped(), job);
    }
    rest_bound(setting.cell(), setting.present(), job)
}

/// The bound of a job that isn't gone: the least moment at which it can leave alone, if it is ready for its next move at
/// the present moment, or at that at which what goes on with it is due.
fn rest_bound<P: Planned>(cell: &WorkCell<P>, present: Moment, job: JobNo) -> Moment
    requires job { job < jobs cell.now.plan }
    requires in_range { present ≤ MAX_MOMENT }
    ensures { result ≡ bound_ahead cell.now.plan cell.now.cell present job }
{
    let ready = match cell.job_due(job) {
        Some(due) => later(present, due),
        None => present,
    };
    out_alone(cell.shaped(), job, cell.job_state(job).made, ready)
}
