//! What a crash leaves of a log.

// Nothing is done here: a function's contract is the law, so a check of this crate proves it.

ghost use Rattle.std.specs.Prelude.{◌≡◌};
ghost use Rattle.run_journal.specs.{Laws.ACrashKeepsThePlan, Laws.ACrashKeepsWhatWasShown, LeftLogs.ACrashLeavesALog};
ghost use Rattle.run_journal.specs.declared.logged.TheConstants.{FULL, MAX_PENDING};
ghost use Rattle.run_journal.specs.{Buffering.AnAnswerIsBufferedWhole, TornEnds.UnwrittenLinesAreTorn};

/// The whole lines of what a crash leaves of a log are the lines that it held as it was opened, and after them the
/// first lines of reports, of orders and of late reports of what was given to it since: at least all that were shown.
#[tactic(auto, using(crate::proofs::CrashLines::crash_lines))]
pub fn a_crash_keeps_what_was_shown()
    ensures { ACrashKeepsWhatWasShown }
{}

/// Let the whole lines of a log name a plan last. What a crash leaves of the log, behind whatever was given to it
/// since, names the same plan last.
pub fn a_crash_keeps_the_plan()
    ensures { ACrashKeepsThePlan }
{}

/// Let a log record events, and an output be given a text that records others. What a crash leaves of the log records
/// the events that it recorded as it was opened, and then the first of the others: at least all whose lines were shown.
pub fn a_crash_leaves_a_log()
    ensures { ACrashLeavesALog }
{}

/// What a crash leaves of the line of an event or of a late report, if its line feed isn't on the disk, with zeros
/// after it or without, is a torn end: so it never counts as what isn't of a log.
#[tactic(auto, using(crate::proofs::TornEnds::left_lines))]
pub fn unwritten_lines_are_torn()
    ensures { UnwrittenLinesAreTorn }
{}

/// Of the answer to a report, if it has at most 16,384 bytes and nothing is flushed between its lines, no byte is shown
/// before all of it is gathered. So by the clauses of [`Logged`](crate::Logged) what a log gets of it is written and
/// synced first. (That a session flushes only behind an answer is tested.)
#[tactic(auto, using(crate::proofs::Buffering::buffered_whole))]
pub fn an_answer_is_buffered_whole()
    ensures { AnAnswerIsBufferedWhole }
{}

/// The fewest gathered bytes that are shown before the next report's answer, and the most that are gathered, each as a
/// number.
pub fn the_room_for_answers_in_numbers()
    ensures full { FULL ≡ 65_536 }
    ensures most { MAX_PENDING ≡ 81_920 }
{}
