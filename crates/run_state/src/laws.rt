//! Laws over the definitions of the contracts. The functions do nothing: each proves its contract.

ghost use Rattle.run_state.specs.OneForm.{LinesAreOfVersion2};

/// Without names the line of a job or of a machine has the words of version 2 of a driven cell's lines, and ` overdue`
/// behind them where it is; but of a job that waits to leave.
pub fn lines_are_of_version_2()
    ensures { LinesAreOfVersion2 }
{}
