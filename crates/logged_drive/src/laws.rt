//! What is recovered after a crash.

// Nothing is done here, but that a law of another crate is called: a function's contract is the law, so a check of this
// crate proves it.

ghost use Rattle.logged_drive.specs.CrashLaw.{ADrivenRunIsRecovered, ARecoveredRunIsRecovered};
ghost use Rattle.logged_drive.specs.CrashLaw.{ADrivenLogIsOfItsPlan, ARecoveredLogIsOfItsPlan};

use run_journal::laws::a_crash_keeps_the_plan;

/// Whatever a crash leaves of a log with which a cell is driven, after a hand-over too, names the plan of that cell
/// last, and from it the run is recovered by that plan, with every report and every order that was shown.
pub fn what_is_left_is_of_its_plan()
    ensures new_log { ADrivenLogIsOfItsPlan }
    ensures recovered { ARecoveredLogIsOfItsPlan }
{
    a_crash_keeps_the_plan();
}

/// From whatever a crash leaves of the log of a run that began with it, the run is recovered by the same plan, with
/// every report and every order that was shown.
pub fn a_driven_run_is_recovered()
    ensures { ADrivenRunIsRecovered }
{}

/// So it is with a run that was recovered from its log, and went on.
pub fn a_recovered_run_is_recovered()
    ensures { ARecoveredRunIsRecovered }
{}
