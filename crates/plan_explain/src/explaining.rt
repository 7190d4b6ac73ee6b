//! Why a plan, or the rest of a run, is accepted or refused.

ghost use Rattle.std.specs.Prelude.{◌≡◌, ◌<◌, ◌++◌, ◌↔◌, IsTrue, IfOk, IfSome, OnOk};
ghost use Rattle.shop_base.specs.{Plan.jobs, Cell.IsGone};
ghost use Rattle.plan_verifier.specs.{Leavings.leaves_in, Rest.AreOrderedAhead};
ghost use Rattle.plan_explain.specs.{Added.Adds, Chains.IsChainOrNone, Known.IsKnownVerdict};
ghost use Rattle.plan_explain.specs.Explained.{IsChosen, IsChainTo, IsChainToLast, AreLinesBehind, IsExplained};
ghost use Rattle.plan_explain.specs.ChainsFound.{AreLinesOf, IsFound};

use crate::chains::push_chain_lines;
use crate::cycles::push_cycle_lines;
use crate::first_lines::first_line;
use crate::leaving_lines::push_leaving_lines;
use alt_graph::Times;
use cell_tables::{Rest, WorkCell};
use people_names::Names;
use plan_verifier::{Judged, Why, last_to_leave, leave_time, leaving_of};
use shop_base::{JobNo, Node, Planned};
use std::alloc::{AllocError, Global};

/// Most lines of a chain in numbers are no longer, in bytes.
const USUAL_LINE: usize = 48;

/// Why the rest of a run is accepted or refused. After [`crate::first_line`] come the arcs of a cycle; or each job's
/// leaving, its budget and what is left to it or by how much it is late, and when it left if it is gone; and what the
/// first node of a chain waits for, followed by the chain's arcs. The chain is the one to the leaving of the job that is
/// asked for; else the one to the late job's leaving that the first line gives, or a longest one to the leaving of the
/// least job that leaves last of those that aren't gone. To the leaving of a job that is gone there is no chain. Behind
/// the first line jobs, machines and moments are written by names and clock, and visits, in a shop with recirculation,
/// with their steps.
pub fn explain<P: Planned>(
    alloc: Global,
    names: &Names,
    job: Option<JobNo>,
    rest: &Rest<P>,
    verdict: &Judged,
) -> Result<Vec<u8>, AllocError>
    requires job { IfSome job (λ j. j < jobs rest.now.plan) }
    requires judged { IsKnownVerdict rest.now.plan rest.now.cell rest.now.present verdict.now }
    ensures { let r = rest.now in
        IfOk result (λ text. IsExplained names.now r.plan r.cell r.present job verdict.now text.items) }
{
    let mut text = first_line(alloc, rest, verdict)?;
    push_lines_behind(alloc, &mut text, names, job, rest, verdict)?;
    Ok(text)
}

fn push_lines_behind<P: Planned>(
    alloc: Global,
    text: &mut Vec<u8>,
    names: &Names,
    job: Option<JobNo>,
    rest: &Rest<P>,
    verdict: &Judged,
) -> Result<(), AllocError>
    requires job { IfSome job (λ j. j < jobs rest.now.plan) }
    requires judged { IsKnownVerdict rest.now.plan rest.now.cell rest.now.present verdict.now }
    ensures { let r = rest.now in
        OnOk result
        (Adds (AreLinesBehind names.now r.plan r.cell r.present job verdict.now) text.old.items text.new.items) }
{
    match verdict {
        Judged::Accepted(times) => {
            let chain = accepted_chain(alloc, rest, times, job)?;
            push_moment_lines(alloc, text, names, rest, times, &chain)
        }
        Judged::Refused(why) => match why {
            Why::Cycle(nodes) => push_cycle_lines(alloc, text, names, rest.shaped(), nodes),
            Why::Late {
                job: _,
                leaves,
                chain,
                times,
            } => match job {
                Some(job) => {
                    let asked = chain_to(alloc, rest, times, job)?;
                    push_moment_lines(alloc, text, names, rest, times, &asked)
                }
                None => {
                    // Read for its range alone: the chain is as long as a moment.
                    let _length = *leaves;
                    push_moment_lines(alloc, text, names, rest, times, chain)
                }
            },
        },
    }
}

/// Adds the lines of the jobs, and those of a chain, if there is one.
fn push_moment_lines<P: Planned>(
    alloc: Global,
    text: &mut Vec<u8>,
    names: &Names,
    rest: &Rest<P>,
    times: &Times,
    chain: &[Node],
) -> Result<(), AllocError>
    requires ordered { AreOrderedAhead rest.now.plan rest.now.cell rest.now.present times.now }
    requires chain { IsChainOrNone rest.now.plan rest.now.cell rest.now.present chain.now }
    ensures { let r = rest.now in
        OnOk result (Adds (AreLinesOf names.now r.plan r.cell r.present (leaves_in r.plan times.now) chain.now)
        text.old.items text.new.items) }
{
    // So that a long text isn't copied again and again as it grows.
    text.reserve(chain.len().saturating_mul(USUAL_LINE))?;
    push_leaving_lines(text, names, rest.cell(), times)?;
    push_chain_lines(alloc, text, names, rest, chain)
}

/// The chain of an accepted rest: that to the leaving of the job that is asked for, else to that of the least job that
/// leaves last of those that aren't gone, if there is one.
fn accepted_chain<P: Planned>(
    alloc: Global,
    rest: &Rest<P>,
    times: &Times,
    asked: Option<JobNo>,
) -> Result<Vec<Node>, AllocError>
    requires ordered { AreOrderedAhead rest.now.plan rest.now.cell rest.now.present times.now }
    requires asked { IfSome asked (λ j. j < jobs rest.now.plan) }
    ensures { let p = rest.now.plan in let c = rest.now.cell in let t = rest.now.present in
        IfOk result (λ nodes. IsFound p c t times.now (IsChosen p c t asked (IsChainToLast p c t)) nodes.items) }
{
    match asked {
        Some(job) => chain_to(alloc, rest, times, job),
        None => match last_to_leave(rest.cell(), times) {
            Some(job) => chain_to(alloc, rest, times, job),
            None => Ok(Vec::new(alloc)),
        },
    }
}

/// A longest chain to the job's leaving; none if the job is gone.
fn chain_to<P: Planned>(
    alloc: Global,
    rest: &Rest<P>,
    times: &Times,
    job: JobNo,
) -> Result<Vec<Node>, AllocError>
    requires ordered { AreOrderedAhead rest.now.plan rest.now.cell rest.now.present times.now }
    requires job { job < jobs rest.now.plan }
    ensures { let p = rest.now.plan in let c = rest.now.cell in let t = rest.now.present in
        IfOk result (λ nodes. IsFound p c t times.now (IsChainTo p c t job) nodes.items) }
{
    if is_gone(rest.cell(), job) {
        return Ok(Vec::new(alloc));
    }
    // Called for its clause alone: the chain's length is a moment.
    let _leaves = leave_time(rest, times, job);
    match times.chain(alloc, leaving_of(rest, job))? {
        Some(chain) => Ok(chain),
        None => unreachable!(),
    }
}

/// Whether the job is gone.
fn is_gone<P: Planned>(cell: &WorkCell<P>, job: JobNo) -> bool
    requires { job < jobs cell.now.plan }
    ensures { IsTrue result ↔ IsGone cell.now.plan cell.now.cell job }
{
    cell.step_count(job) < cell.job_state(job).made
}
