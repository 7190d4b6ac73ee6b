//! The laws of explanations: of the lines that `check` and `explain` write, of every rest of a run and every
//! verdict.

// Nothing is done here: a function's contract is the law, so a check of this crate proves it.

ghost use Rattle.plan_explain.specs.LineLaws.{ArcsAreExact, EachLineIsItsPath, TheLastLineIsTheLength};
ghost use Rattle.plan_explain.specs.LineLaws.{TheLinesOfACycleClose, AVerdictHasOneFirstLine};

/// A job arc is shown by its visit, the machine and the nominal time of its step. A blocking arc is shown by its machine,
/// the visit that ends there, the one that begins and its cleaning time. Where both join the same nodes, the longer one is
/// shown, or of two of one length the job arc. The time shown is the greatest length of an arc between the nodes.
#[tactic(auto, using(crate::proofs::LineLaws::exact_arcs))]
pub fn arcs_are_exact()
    ensures { ArcsAreExact }
{}

/// The line of a node after a longest path gives the length of the path up to it: the length of the path before, plus
/// the longest arc between. So the moments never fall along a chain.
#[tactic(auto, using(crate::proofs::LineLaws::each_line))]
pub fn each_line_is_its_path()
    ensures { EachLineIsItsPath }
{}

/// The last line of a longest path is the line of the arc to its last node or, for a path of one node, of what holds that
/// up. Its moment is the path's length: for what is late the moment at which the late job leaves, for what is accepted
/// the last leaving.
#[tactic(auto, using(crate::proofs::LineLaws::last_line))]
pub fn the_last_line_is_the_length()
    ensures { TheLastLineIsTheLength }
{}

/// The last line of a cycle is of the arc from its last node back to the first.
#[tactic(auto, using(crate::proofs::LineLaws::cycle_closes))]
pub fn the_lines_of_a_cycle_close()
    ensures { TheLinesOfACycleClose }
{}

/// Two lines that are the first line of one verdict are the same: so `check` and `explain` of a verdict begin with
/// the same line.
#[tactic(auto, using(crate::proofs::LineLaws::first_line_once))]
pub fn a_verdict_has_one_first_line()
    ensures { AVerdictHasOneFirstLine }
{}
