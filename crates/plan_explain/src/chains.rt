//! The lines of a chain.

ghost use Rattle.std.specs.Prelude.{◌≡◌, ◌+◌, ◌^◌, ◌<◌, ◌≤◌, [], ◌∷◌, ◌++◌, length, codes, decimal, OnOk};
ghost use Rattle.shop_base.specs.NodeText.{node_text};
ghost use Rattle.plan_explain.specs.{Added.Adds, Arcs.words_and, Holds.overdue_since_words, Holds.hold_words};
ghost use Rattle.plan_explain.specs.Chains.{AreAlong, length_from, reached_lines};
ghost use Rattle.plan_explain.specs.Chains.{IsLongest, IsChainOrNone, AreChainLines};
ghost use Rattle.people_names.specs.declared.names.TheConstants.{LONGEST_MOMENT};
ghost use Rattle.people_names.specs.Words.{machine_word, moment_word};

use crate::arcs::Arcs;
use crate::labels::Label;
use crate::words::{Line, push_line, put_arc, put_job, put_node, put_visit};
use cell_tables::Rest;
use people_names::Names;
use plan_verifier::{Hold, bound_of};
use shop_base::{MachineNo, Moment, Node, Planned, Shop};
use std::alloc::{AllocError, Global};

/// Adds a line for what holds up the first node, and one for each further node, with the length of the path up to it
/// and the arc from the node before.
pub(crate) fn push_chain_lines<P: Planned>(
    alloc: Global,
    text: &mut Vec<u8>,
    names: &Names,
    rest: &Rest<P>,
    nodes: &[Node],
) -> Result<(), AllocError>
    requires { IsChainOrNone rest.now.plan rest.now.cell rest.now.present nodes.now }
    ensures { OnOk result (Adds (AreChainLines names.now rest.now.plan rest.now.cell rest.now.present nodes.now)
        text.old.items text.new.items) }
{
    match nodes.split_first() {
        Some((first, along)) => push_from(alloc, text, names, rest, *first, along),
        None => Ok(()),
    }
}

fn push_from<P: Planned>(
    alloc: Global,
    text: &mut Vec<u8>,
    names: &Names,
    rest: &Rest<P>,
    first: Node,
    along: &[Node],
) -> Result<(), AllocError>
    requires { IsLongest rest.now.plan rest.now.cell rest.now.present (first ∷ along.now) }
    ensures { let r = rest.now in
        OnOk result (Adds (AreChainLines names.now r.plan r.cell r.present (first ∷ along.now))
        text.old.items text.new.items) }
{
    let shaped = rest.shaped();
    let arcs = Arcs::new(alloc, shaped)?;
    let Some(bound) = bound_of(rest, first) else {
        unreachable!()
    };
    let mut line = Line::ended();
    put_overdue(&mut line, names, bound.overdue);
    put_hold(&mut line, names, shaped.shop(), first, bound.holds);
    push_node_at(text, names, &mut line, first, bound.moment)?;
    push_reached_lines(text, names, &arcs, bound.moment, first, along)
}

/// Writes since when that is overdue, if it is.
fn put_overdue(line: &mut Line, names: &Names, overdue: Option<Moment>)
    requires { length line.old ≤ 1 }
    ensures written { line.new ≡ overdue_since_words names.now overdue ++ line.old }
    ensures length { length line.new ≤ LONGEST_MOMENT + 15 + length line.old }
{
    match overdue {
        Some(due) => {
            names.put_moment(line, due);
            line.put_text(b" overdue since ");
        }
        None => {}
    }
}

/// Writes what holds a node up.
fn put_hold(line: &mut Line, names: &Names, shop: &Shop, node: Node, holds: Hold)
    requires { length line.old ≤ 45 }
    ensures written { line.new ≡ words_and (hold_words names.now shop.now node holds) line.old }
    ensures length { length line.new ≤ 168 + length line.old }
{
    let step = node.place.saturating_sub(1);
    match holds {
        Hold::Arrived { job } => put_job(line, names, job, b" has arrived"),
        Hold::Awaited { job } => {
            names.put_job(line, job);
            line.put_text(b"release of job ");
        }
        Hold::Done { job, machine } => {
            names.put_machine(line, machine);
            let visit = Label::of(shop, job, step);
            put_visit(line, names, visit, b" done on machine ");
        }
        Hold::Worked {
            job,
            machine,
            since,
            nominal,
        } => {
            put_since(line, names, machine, b" since ", since, nominal);
            let visit = Label::of(shop, job, step);
            put_visit(line, names, visit, b" on machine ");
        }
        Hold::Cleaned {
            machine,
            since,
            clean,
        } => {
            put_since(line, names, machine, b" cleaned since ", since, clean);
            line.put_text(b"machine ");
        }
    }
}

/// Writes `M since S for P`, with these words in place of ` since `.
fn put_since(
    line: &mut Line,
    names: &Names,
    machine: MachineNo,
    words: &[u8],
    since: Moment,
    time: Moment,
)
    requires old { length line.old ≤ 45 }
    requires words { length words.now ≤ 15 }
    ensures written { line.new ≡ words_and (machine_word names.now machine ∷ words.now
        ∷ moment_word names.now since ∷ codes " for " ∷ decimal time ∷ []) line.old }
    ensures length { length line.new ≤ 94 + length words.now + length line.old }
{
    line.put_number(time);
    line.put_text(b" for ");
    names.put_moment(line, since);
    line.put_text(words);
    names.put_machine(line, machine);
}

/// Adds the lines of the nodes along a path, after one that is reached at a moment: for each the moment at which it is
/// reached, in time units, the node, and the arc from the node before.
fn push_reached_lines(
    text: &mut Vec<u8>,
    names: &Names,
    arcs: &Arcs<'_>,
    start: Moment,
    from: Node,
    along: &[Node],
) -> Result<(), AllocError>
    requires arcs { AreAlong arcs.now from along.now }
    requires small { length_from arcs.now start from along.now < 2 ^ 64 }
    ensures { OnOk result (text.new.items ≡ text.old.items ++ reached_lines names.now arcs.now start from along.now) }
{
    let mut at = start;
    let mut last = from;
    let mut line = Line::ended();
    for node in along {
        let arc = arcs.kind(last, *node);
        at += arc.time();
        line.end_anew();
        put_arc(&mut line, names, arc);
        push_node_at(text, names, &mut line, *node, at)?;
        last = *node;
    }
    Ok(())
}

/// Adds the node, the moment and what the line has; fails only when out of memory.
fn push_node_at(
    text: &mut Vec<u8>,
    names: &Names,
    line: &mut Line,
    node: Node,
    moment: Moment,
) -> Result<(), AllocError>
    requires { length line.old ≤ 213 }
    ensures { OnOk result (text.new.items ≡ text.old.items
        ++ words_and (moment_word names.now moment ∷ codes " " ∷ node_text node ∷ codes " " ∷ []) line.old) }
{
    line.put_text(b" ");
    put_node(line, node);
    line.put_text(b" ");
    names.put_moment(line, moment);
    push_line(text, line)
}
