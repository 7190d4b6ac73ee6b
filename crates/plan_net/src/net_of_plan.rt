//! From a plan, or what a run has left of it, to its net, and from the sources of a net's nodes to orders.

ghost use Rattle.std.specs.Prelude.{◌≡◌, map, length, IfOk};
ghost use Rattle.shop_base.specs.Vectors.{lists_of};

use crate::ahead::{JobAhead, PartAhead};
use crate::net::{NONE, Net, Span, Spot, count, link, spot_at};
use shop_base::limits::MAX_MOMENT;
use shop_base::{JobNo, MachineNo, Moment, Plan, Shaped, Step};
use std::alloc::{AllocError, Global};

/// The graph of the plan or, if a run has begun, of what is ahead of it: the first node of each job has no other before
/// it, so nothing comes before a job that is on a machine.
pub fn net_of(alloc: Global, shaped: &Shaped, rest: Option<&PartAhead>) -> Result<Net, AllocError> {
    let shop = shaped.shop();
    let mut net = Net {
        spots: Vec::new(alloc),
        spans: Vec::new(alloc),
        entered: vec![in alloc; 0; shop.machines() as usize]?,
        recurs: false,
        saved: Vec::new(alloc),
    };
    for job in 0..shop.jobs() {
        if let Some(route) = shop.route(job) {
            let from = job_rest(shaped.plan(), rest, job);
            add_job(shaped.plan(), job, route, from, &mut net)?;
        }
    }
    link_machines(shaped.plan(), rest, shop.machines(), &mut net)?;
    net.saved = vec![in alloc; NONE; net.spots.len()]?;
    Ok(net)
}

/// How the job goes on: with its first step from its release on, where no run has begun.
fn job_rest(plan: &Plan, rest: Option<&PartAhead>, job: JobNo) -> JobAhead {
    let begun = match rest {
        Some(rest) => rest.jobs.get(job as usize).copied(),
        None => None,
    };
    match begun {
        Some(begun) => begun,
        None => JobAhead {
            made: 0,
            bound: moment_at(&plan.release, job),
        },
    }
}

/// Adds a job's nodes that are ahead, and counts its entries so far. For a job that is gone it adds the leaving, which
/// is never late.
fn add_job(
    plan: &Plan,
    job: JobNo,
    route: &[Step],
    from: JobAhead,
    net: &mut Net,
) -> Result<(), AllocError> {
    let first = count(net.spots.len());
    let mut lag = from.bound;
    let mut back = NONE;
    let mut on = NONE;
    let mut made = from.made;
    for step in route {
        if made > 0 {
            made = made.wrapping_sub(1);
            on = step.machine;
            note_entry(&mut net.entered, on);
        } else {
            let number = count(net.spots.len());
            add_spot(net, lag, back, number.wrapping_add(1), job, step.machine)?;
            lag = step.nominal;
            back = number;
        }
    }
    let last = count(net.spots.len());
    add_spot(net, lag, back, NONE, job, NONE)?;
    let is_gone = made > 0;
    net.spans.push(Span {
        first,
        last,
        on: if is_gone { NONE } else { on },
        behind: first,
        budget: if is_gone {
            MAX_MOMENT
        } else {
            moment_at(&plan.budget, job)
        },
    })?;
    Ok(())
}

/// Counts an entry of the machine.
fn note_entry(entered: &mut [u32], machine: MachineNo) {
    if let Some(entries) = entered.get_mut(machine as usize) {
        *entries = entries.wrapping_add(1);
    }
}

/// Adds a node that isn't linked to other jobs yet.
fn add_spot(
    net: &mut Net,
    lag: Moment,
    back: u32,
    next: u32,
    job: JobNo,
    machine: u32,
) -> Result<(), AllocError> {
    net.spots.push(Spot {
        lag,
        clean: 0,
        rest: 0,
        back,
        next,
        source: NONE,
        target: NONE,
        job,
        machine,
    })?;
    Ok(())
}

/// The moment of this number, 0 if there is none.
fn moment_at(moments: &[Moment], number: u32) -> Moment {
    moments.get(number as usize).copied().unwrap_or(0)
}

/// Links the visits of each machine.
fn link_machines(
    plan: &Plan,
    rest: Option<&PartAhead>,
    machines: u32,
    net: &mut Net,
) -> Result<(), AllocError> {
    for machine in 0..machines {
        let cleaned = add_cleaning(rest, machine, net)?;
        link_machine(plan, machine, cleaned, net);
    }
    Ok(())
}

/// Adds a node for the moment since when the machine is being cleaned, if it is: the one at which it was left.
fn add_cleaning(
    rest: Option<&PartAhead>,
    machine: MachineNo,
    net: &mut Net,
) -> Result<u32, AllocError> {
    let Some(since) = cleaned_since(rest, machine) else {
        return Ok(NONE);
    };
    let number = count(net.spots.len());
    add_spot(net, since, NONE, NONE, NONE, NONE)?;
    net.spans.push(Span {
        first: number,
        last: number,
        on: NONE,
        behind: number,
        budget: MAX_MOMENT,
    })?;
    Ok(number)
}

/// Since when the machine is being cleaned, if a run has begun and it is.
fn cleaned_since(rest: Option<&PartAhead>, machine: MachineNo) -> Option<Moment> {
    match rest {
        Some(rest) => match rest.cleanings.get(machine as usize) {
            Some(since) => *since,
            None => None,
        },
        None => None,
    }
}

/// Links each visit in the machine's order that is ahead to the one after it, and the first of these to the job that is
/// on the machine, or to its cleaning.
fn link_machine(plan: &Plan, machine: MachineNo, cleaned: u32, net: &mut Net) {
    let Some(order) = plan.order.get(machine as usize) else {
        return;
    };
    let clean = match &plan.clean {
        Some(times) => moment_at(times, machine),
        None => 0,
    };
    let entered = count_at(&net.entered, machine);
    begin_links(&mut net.spans);
    let mut before = cleaned;
    for (place, job) in order.iter().enumerate() {
        if count(place) < entered {
            before = leave_of(net, *job, machine, before);
        } else {
            let entry = next_entry(net, *job, machine);
            if let Some(spot) = net.spots.get_mut(entry as usize) {
                spot.clean = clean;
            }
            link(&mut net.spots, before, entry);
            before = entry.wrapping_add(1);
        }
    }
}

/// The count of this number, 0 if there is none.
fn count_at(counts: &[u32], number: u32) -> u32 {
    counts.get(number as usize).copied().unwrap_or(0)
}

/// Lets no visit of a job be linked yet.
fn begin_links(spans: &mut [Span]) {
    for span in spans.iter_mut() {
        span.behind = span.first;
    }
}

/// The node at which a job that has entered the machine leaves it, if it is still on it, else the other node.
fn leave_of(net: &Net, job: JobNo, machine: MachineNo, other: u32) -> u32 {
    match net.spans.get(job as usize) {
        Some(span) if span.on == machine => span.first,
        _ => other,
    }
}

/// The job's next entry of the machine, behind those that are linked; `NONE` if there is none.
fn next_entry(net: &mut Net, job: JobNo, machine: MachineNo) -> u32 {
    let Some(span) = net.spans.get_mut(job as usize) else {
        return NONE;
    };
    for number in span.behind..span.last {
        if spot_at(&net.spots, number).machine == machine {
            net.recurs |= span.behind > span.first;
            span.behind = number.wrapping_add(1);
            return number;
        }
    }
    NONE
}

/// The orders of the machines by the sources that were saved, those of the best plan that was met. It is proved only
/// that there are as many orders as machines, each with as many places as in this plan.
pub fn orders_of(
    alloc: Global,
    net: &mut Net,
    shaped: &Shaped,
) -> Result<Vec<Vec<JobNo>>, AllocError>
    ensures { IfOk result (λ orders. map length (lists_of orders.items) ≡ map length shaped.now.plan.order) }
{
    let mut firsts = vec![in alloc; NONE; net.entered.len()]?;
    unlink(&mut net.spots);
    relink(&mut net.spots, &net.saved, &mut firsts);
    orders_from(alloc, net, shaped, &firsts)
}

/// Lets no node lead to another job.
fn unlink(spots: &mut [Spot]) {
    for spot in spots.iter_mut() {
        spot.target = NONE;
    }
}

/// Links the nodes to these sources, and notes each machine's first entry: before its source the net has no entry.
fn relink(spots: &mut [Spot], saved: &[u32], firsts: &mut [u32]) {
    for (number, source) in saved.iter().enumerate() {
        let entry = count(number);
        let machine = spot_at(spots, entry).machine;
        if spot_at(spots, *source).back != NONE {
            link(spots, *source, entry);
        } else if let Some(first) = firsts.get_mut(machine as usize) {
            *first = entry;
        }
    }
}

/// The orders of the machines that are entered at these nodes next.
fn orders_from(
    alloc: Global,
    net: &Net,
    shaped: &Shaped,
    firsts: &[u32],
) -> Result<Vec<Vec<JobNo>>, AllocError>
    ensures { IfOk result (λ orders. map length (lists_of orders.items) ≡ map length shaped.now.plan.order) }
{
    let mut orders = Vec::new(alloc);
    for machine in 0..shaped.machine_count() {
        let entered = count_at(&net.entered, machine);
        let first = firsts.get(machine as usize).copied().unwrap_or(NONE);
        orders.push(order_of(alloc, &net.spots, shaped.order_of(machine), entered, first)?)?;
    }
    Ok(orders)
}

/// The order of a machine that was entered so often: it begins as this one, and goes on with the jobs that enter the
/// machine from this node on.
fn order_of(
    alloc: Global,
    spots: &[Spot],
    old: &[JobNo],
    entered: u32,
    first: u32,
) -> Result<Vec<JobNo>, AllocError>
    ensures { IfOk result (λ order. length order.items ≡ length old.now) }
{
    let mut order = Vec::new(alloc);
    let mut entry = first;
    for (place, job) in old.iter().enumerate() {
        if count(place) < entered {
            order.push(*job)?;
        } else {
            let spot = spot_at(spots, entry);
            order.push(spot.job)?;
            entry = spot_at(spots, spot.next).target;
        }
    }
    Ok(order)
}
