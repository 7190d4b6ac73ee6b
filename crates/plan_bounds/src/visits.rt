//! The visits of the machines.

ghost use Rattle.std.specs.Prelude.{◌≡◌, ◌+◌, ◌^◌, ◌<◌, IfSome, None};
ghost use Rattle.shop_base.specs.Plan.{jobs, IsWellShaped};
ghost use Rattle.shop_base.specs.Work.{route_work};
ghost use Rattle.plan_bounds.specs.Bounds.{times_of};
ghost use Rattle.plan_bounds.specs.Seen.{AreAllSeen, AreAllVisits, lesser_of, plus, with_visit};

use shop_base::limits::MAX_MACHINES;
use shop_base::{JobNo, Moment, Shaped, Step};

/// A job's visit of a machine: its head, its nominal time there, and its tail, in whole time units.
#[derive(Clone, Copy)]
pub(crate) struct Visit {
    pub head: Moment,
    pub nominal: Moment,
    pub tail: Moment,
}

/// What is known of a machine once some visits were looked at: how many of them it has, their nominal times, the least
/// head, the least tail, and the least that the head of one and the tail of another add up to.
#[derive(Clone, Copy)]
pub(crate) struct Visits {
    pub count: u64,
    pub work: Moment,
    pub head: Option<Moment>,
    pub tail: Option<Moment>,
    pub ends: Option<Moment>,
}

/// What is known of each machine when all visits were looked at.
pub(crate) fn all_visits(shaped: &Shaped) -> [Visits; MAX_MACHINES as usize]
    ensures known { AreAllVisits (times_of shaped.now) result }
    ensures well_shaped { IsWellShaped shaped.now }
{
    let mut all = [no_visits(); MAX_MACHINES as usize];
    for job in 0..shaped.job_count() {
        add_visits(shaped, job, &mut all);
    }
    all
}

/// What is known before any visit was looked at.
fn no_visits() -> Visits
    ensures count { result.count ≡ 0 }
    ensures work { result.work ≡ 0 }
    ensures head { result.head ≡ None }
    ensures tail { result.tail ≡ None }
    ensures ends { result.ends ≡ None }
{
    Visits {
        count: 0,
        work: 0,
        head: None,
        tail: None,
        ends: None,
    }
}

/// Looks at the visits of one more job.
fn add_visits(shaped: &Shaped, job: JobNo, all: &mut [Visits; MAX_MACHINES as usize])
    requires job { job < jobs shaped.now }
    requires known { AreAllSeen (times_of shaped.now) job 0 all.old }
    ensures { AreAllSeen (times_of shaped.now) (job + 1) 0 all.new }
{
    let route = shaped.route_of(job);
    let mut head = shaped.release_of(job);
    let mut tail = work(route);
    for place in 0..route.len() {
        let step = route[place];
        tail -= step.nominal;
        let visit = Visit {
            head,
            nominal: step.nominal,
            tail,
        };
        all[step.machine as usize] = more_visits(all[step.machine as usize], visit);
        head += step.nominal;
    }
}

/// The nominal times of these steps, together.
fn work(steps: &[Step]) -> Moment
    requires { route_work steps.now < 2 ^ 64 }
    ensures { result ≡ route_work steps.now }
{
    steps.iter().map(|step| step.nominal).sum()
}

/// What is known when one visit more was looked at.
fn more_visits(visits: Visits, visit: Visit) -> Visits
    requires count { visits.count + 1 < 2 ^ 64 }
    requires work { visits.work + visit.nominal < 2 ^ 64 }
    requires head { IfSome visits.head (λ x. x + visit.tail < 2 ^ 64) }
    requires tail { IfSome visits.tail (λ x. x + visit.head < 2 ^ 64) }
    ensures { result ≡ with_visit visits visit }
{
    Visits {
        count: visits.count + 1,
        work: visits.work + visit.nominal,
        head: lesser(visits.head, Some(visit.head)),
        tail: lesser(visits.tail, Some(visit.tail)),
        ends: lesser(
            visits.ends,
            lesser(
                added(visits.head, visit.tail),
                added(visits.tail, visit.head),
            ),
        ),
    }
}

/// The lesser of two moments. Either may be `None`.
fn lesser(one: Option<Moment>, other: Option<Moment>) -> Option<Moment>
    ensures { result ≡ lesser_of one other }
{
    match one {
        Some(x) => match other {
            Some(y) => { if x <= y { Some(x) } else { Some(y) } }
            None => Some(x),
        },
        None => other,
    }
}

/// A moment, if there is one, with some time more.
fn added(moment: Option<Moment>, more: Moment) -> Option<Moment>
    requires { IfSome moment (λ x. x + more < 2 ^ 64) }
    ensures { result ≡ plus moment more }
{
    match moment {
        Some(moment) => Some(moment + more),
        None => None,
    }
}
