//! The laws of hubs: of every list of calls on a hub, from its start on, refused calls included. The clause `called`
//! of each method of `Hub` says that it is such a call.

// Nothing is done here: a function's contract is the law, so a check of this crate proves it.

ghost use Rattle.cell_hub.specs.Laws.{DismissedNeverAnswers, CellsAreApart, CallsMakeTheControlledRuns};

/// After a ticket was dismissed, no call gives it again, and each call on it finds no cell. Its slot may be used
/// again; the serial distinguishes the new cell from the old.
pub fn dismissed_never_answers()
    ensures { DismissedNeverAnswers }
{}

/// Each ticket is answered as by a controller alone: made of the plan for which the ticket was given, and given the
/// reports on it. Before and after that no call on the ticket finds a cell. At the end the content of the ticket's
/// cell is that controller's.
pub fn cells_are_apart()
    ensures { CellsAreApart }
{}

/// As long as a ticket has a cell, this is the cell at the end of the controlled run of the ticket's plan by the
/// reports on the ticket. As many of them were accepted as are in that run.
pub fn calls_make_the_controlled_runs()
    ensures { CallsMakeTheControlledRuns }
{}
