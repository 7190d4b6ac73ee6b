//! The order of nodes: by job, then by place.

ghost use Rattle.std.specs.Prelude.{◌↔◌, IsTrue};
ghost use Rattle.alt_graph.specs.Evidence.{IsNodeBefore};

use shop_base::Node;

/// Whether a node comes before another.
pub(crate) fn is_before(one: Node, other: Node) -> bool
    ensures { IsTrue result ↔ IsNodeBefore one other }
{
    one.job < other.job || one.job == other.job && one.place < other.place
}
