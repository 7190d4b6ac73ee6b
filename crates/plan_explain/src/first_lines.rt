//! The first line of a verdict on a plan, or on the rest of a run.

ghost use Rattle.std.specs.Prelude.{◌≡◌, ℕ, ◌++◌, IfOk, OnOk, codes, decimal};
ghost use Rattle.shop_base.specs.{NodeText.node_text, Plan.jobs, Cell.Cell};
ghost use Rattle.alt_graph.specs.Times.{AreRanks};
ghost use Rattle.plan_verifier.specs.Leavings.{leaves_in};
ghost use Rattle.plan_verifier.specs.RestVerdicts.{IsAcceptedAhead};
ghost use Rattle.plan_explain.specs.{Added.Adds, Known.HasRanks};
ghost use Rattle.plan_explain.specs.FirstLines.{node_words, moment_words, cycle_line, late_words, refused_late_line};
ghost use Rattle.plan_explain.specs.FirstLines.{reason_line, moments_below, IsAcceptedText, IsLineByTimes, IsFirstLine};

use crate::words::{Line, push_line, put_node};
use alt_graph::Times;
use plan_verifier::{Judged, Why, leave_time, makespan};
use shop_base::{JobNo, Moment, Node, Planned};
use std::alloc::{AllocError, Global};

/// The line of a verdict on a plan, or on the rest of a run: `accepted makespan M leaves L0 L1 ..` with each job's
/// earliest leaving, of one that is gone the moment at which it left; `refused cycle n0 n1 ..` with the cycle's nodes; or
/// `refused late J L n0 n1 ..` with the nodes of the chain to the late job's leaving.
pub fn first_line<P: Planned>(
    alloc: Global,
    plan: &P,
    verdict: &Judged,
) -> Result<Vec<u8>, AllocError>
    requires { HasRanks (P.planned plan.now) verdict.now }
    ensures { (c : Cell) (t : ℕ) → let p = P.planned plan.now in
        IsAcceptedAhead p c t verdict.now → IfOk result (λ line. IsFirstLine p c t verdict.now line.items) }
{
    let mut line = Vec::new(alloc);
    push_first_line(&mut line, plan, verdict)?;
    Ok(line)
}

fn push_first_line<P: Planned>(
    text: &mut Vec<u8>,
    plan: &P,
    verdict: &Judged,
) -> Result<(), AllocError>
    requires { HasRanks (P.planned plan.now) verdict.now }
    ensures { OnOk result (Adds (IsLineByTimes (P.planned plan.now) verdict.now) text.old.items text.new.items) }
{
    match verdict {
        Judged::Accepted(times) => push_accepted_line(text, plan, times),
        Judged::Refused(why) => push_refused_line(text, why),
    }
}

/// Adds `accepted makespan M leaves L0 L1 ..`, with each job's leaving, and the latest of them.
fn push_accepted_line<P: Planned>(
    text: &mut Vec<u8>,
    plan: &P,
    times: &Times,
) -> Result<(), AllocError>
    requires { AreRanks (P.planned plan.now) times.now }
    ensures { let p = P.planned plan.now in
        OnOk result (Adds (IsAcceptedText p (leaves_in p times.now)) text.old.items text.new.items) }
{
    let mut line = Line::empty();
    line.put_text(b" leaves");
    line.put_number(makespan(plan, times));
    line.put_text(b"accepted makespan ");
    push_line(text, &line)?;
    push_leavings(text, plan, times)?;
    push_line(text, &Line::ended())
}

/// Adds each job's leaving, with a blank before it.
fn push_leavings<P: Planned>(text: &mut Vec<u8>, plan: &P, times: &Times) -> Result<(), AllocError>
    requires { AreRanks (P.planned plan.now) times.now }
    ensures { let p = P.planned plan.now in
        OnOk result (text.new.items ≡ text.old.items ++ moment_words (moments_below (leaves_in p times.now) (jobs p))) }
{
    for job in 0..plan.shaped().job_count() {
        push_moment(text, leave_time(plan, times, job))?;
    }
    Ok(())
}

/// Adds a blank and the moment.
fn push_moment(text: &mut Vec<u8>, moment: Moment) -> Result<(), AllocError>
    ensures { OnOk result (text.new.items ≡ text.old.items ++ codes " " ++ decimal moment) }
{
    let mut line = Line::empty();
    line.put_number(moment);
    line.put_text(b" ");
    push_line(text, &line)
}

/// Adds the line of a refusal.
fn push_refused_line(text: &mut Vec<u8>, why: &Why) -> Result<(), AllocError>
    ensures { OnOk result (text.new.items ≡ text.old.items ++ reason_line why.now) }
{
    match why {
        Why::Cycle(nodes) => push_cycle_line(text, nodes),
        Why::Late {
            job,
            leaves,
            chain,
            times: _,
        } => push_late_line(text, *job, *leaves, chain),
    }
}

/// Adds `refused cycle n0 n1 ..`, with the cycle's nodes.
pub fn push_cycle_line(text: &mut Vec<u8>, nodes: &[Node]) -> Result<(), AllocError>
    ensures { OnOk result (text.new.items ≡ text.old.items ++ cycle_line nodes.now) }
{
    let mut line = Line::empty();
    line.put_text(b"refused cycle");
    push_line(text, &line)?;
    push_nodes(text, nodes)?;
    push_line(text, &Line::ended())
}

/// Adds `refused late J L n0 n1 ..`, with the nodes of a chain to the job's leaving.
fn push_late_line(
    text: &mut Vec<u8>,
    job: JobNo,
    leaves: Moment,
    chain: &[Node],
) -> Result<(), AllocError>
    ensures { OnOk result (text.new.items ≡ text.old.items ++ refused_late_line job leaves chain.now) }
{
    push_late_job(text, job, leaves)?;
    push_nodes(text, chain)?;
    push_line(text, &Line::ended())
}

fn push_late_job(text: &mut Vec<u8>, job: JobNo, leaves: Moment) -> Result<(), AllocError>
    ensures { OnOk result (text.new.items ≡ text.old.items ++ late_words job leaves) }
{
    let mut line = Line::empty();
    line.put_number(leaves);
    line.put_text(b" ");
    line.put_short_number(job);
    line.put_text(b"refused late ");
    push_line(text, &line)
}

fn push_nodes(text: &mut Vec<u8>, nodes: &[Node]) -> Result<(), AllocError>
    ensures { OnOk result (text.new.items ≡ text.old.items ++ node_words nodes.now) }
{
    for node in nodes {
        push_node(text, *node)?;
    }
    Ok(())
}

fn push_node(text: &mut Vec<u8>, node: Node) -> Result<(), AllocError>
    ensures { OnOk result (text.new.items ≡ text.old.items ++ codes " " ++ node_text node) }
{
    let mut line = Line::empty();
    put_node(&mut line, node);
    line.put_text(b" ");
    push_line(text, &line)
}
