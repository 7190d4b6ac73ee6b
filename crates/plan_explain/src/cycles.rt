//! The lines of a cycle's arcs.

ghost use Rattle.std.specs.Prelude.{◌≡◌, ◌++◌, OnOk};
ghost use Rattle.shop_base.specs.Graph.{HasArc, ArcsLead, IsSimpleCycle};
ghost use Rattle.plan_explain.specs.Cycles.{arc_line, arc_lines, cycle_lines};

use crate::arcs::Arcs;
use crate::words::{Line, push_line, put_arc, put_node};
use people_names::Names;
use shop_base::{Node, Shaped};
use std::alloc::{AllocError, Global};

/// Adds a line for each node, of the arc from it to the next one; of the last to the first.
pub(crate) fn push_cycle_lines(
    alloc: Global,
    text: &mut Vec<u8>,
    names: &Names,
    shaped: &Shaped,
    nodes: &[Node],
) -> Result<(), AllocError>
    requires { IsSimpleCycle shaped.now nodes.now }
    ensures { OnOk result (text.new.items ≡ text.old.items ++ cycle_lines names.now shaped.now nodes.now) }
{
    match nodes.split_first() {
        Some((first, rest)) => {
            let arcs = Arcs::new(alloc, shaped)?;
            push_arc_lines(text, names, &arcs, *first, rest, *first)
        }
        None => Ok(()),
    }
}

/// Adds the lines of the arcs from a node along the others to the last one.
fn push_arc_lines(
    text: &mut Vec<u8>,
    names: &Names,
    arcs: &Arcs<'_>,
    from: Node,
    along: &[Node],
    to: Node,
) -> Result<(), AllocError>
    requires { ArcsLead arcs.now from along.now to }
    ensures { OnOk result (text.new.items ≡ text.old.items ++ arc_lines names.now arcs.now from along.now to) }
{
    let mut last = from;
    for node in along {
        push_arc_line(text, names, arcs, last, *node)?;
        last = *node;
    }
    push_arc_line(text, names, arcs, last, to)
}

/// Adds `A B WORDS`.
fn push_arc_line(
    text: &mut Vec<u8>,
    names: &Names,
    arcs: &Arcs<'_>,
    from: Node,
    to: Node,
) -> Result<(), AllocError>
    requires { HasArc arcs.now from to }
    ensures { OnOk result (text.new.items ≡ text.old.items ++ arc_line names.now arcs.now from to) }
{
    let mut line = Line::ended();
    put_arc(&mut line, names, arcs.kind(from, to));
    line.put_text(b" ");
    put_node(&mut line, to);
    line.put_text(b" ");
    put_node(&mut line, from);
    push_line(text, &line)
}
