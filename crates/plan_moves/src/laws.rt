//! The laws of the moves that [`crate::moves_from`] gives.

// Nothing is done here: a function's contract is the law, so a check of this crate proves it.

ghost use Rattle.plan_moves.specs.MovesLaw.{TheyAreTheMovesOfARun, ThoseOfAPlanAreOfAnExactRun, OneListOfMoves};

/// They are the moves of a controlled run that goes on from there, in which no report is early, and none late but that
/// what was overdue at the present moment is reported at it. So where `drive` takes a plan and is told of everything
/// when it is due, they are its orders. There is only one such list.
pub fn they_are_the_moves_of_a_run()
    ensures run { TheyAreTheMovesOfARun }
    ensures exact { ThoseOfAPlanAreOfAnExactRun }
    ensures one { OneListOfMoves }
{}
