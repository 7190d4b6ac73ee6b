//! The laws of answer texts, and of runs that are recovered. Two of them join the two ends of the program: they speak
//! of what `drive` and `resume` promise of their success, and of what `audit` promises.

// Nothing is done here: a function's contract is the law, so a check of this crate proves it.

ghost use Rattle.cell_drive.specs.{AuditLaw.AnAnswerTextIsALog, ProtocolCellsLaw.PlainlyAsEverForCells};
ghost use Rattle.cell_drive.specs.CutLaw.{ACutLogIsRecovered, WhatWasDrivenIsRecovered, WhatWasResumedIsRecovered};
ghost use Rattle.cell_drive.specs.CutLaw.{WhatWasResumedIsRecoverable, ACutLogHasItsOrders, WhatWasDrivenHasItsOrders};
ghost use Rattle.cell_drive.specs.CutLaw.{ItIsRecoverable, ItIsRecoveredWithItsOrders};
ghost use Rattle.cell_drive.specs.Resuming.{AResumedTextIsALog, AnAuditKeepsWhatWasResumed, OneResumedText};
ghost use Rattle.cell_drive.specs.Resuming.{WhatWasResumedIsSuchAText, WhatWasResumedGoesOn};
ghost use Rattle.cell_drive.specs.ProtocolCellsLaw.{OneCellsText, OneCellsTextForLines, EachProtocolCellIsAlone};
ghost use Rattle.cell_drive.specs.ProtocolLaw.{OneAnswerText, OneTextForLines, ASessionAnswersSo};
ghost use Rattle.cell_drive.specs.ProtocolLaw.{ALateReportFindsSomethingOverdue};
ghost use Rattle.cell_drive.specs.ProtocolLaw.{AnAuditKeepsWhatWasDriven, PlainlyAsEver, PlainReplay};
ghost use Rattle.cell_drive.specs.ProtocolLaw.{NothingIsAcceptedTwice, NothingOfARunIsClaimedAgain};
ghost use Rattle.drive_laws.specs.AnswerLaw.{ReplayAsAnswered, ReplayInProtocol};
ghost use Rattle.drive_laws.specs.OneRunLaw.{ItIsRecoveredAsOne, ItIsOneSoFar, ADrivenRunGoesOnAsOne};
ghost use Rattle.drive_laws.specs.OneRunLaw.{ItStaysAsPromised, TheFirstEventsHaveTheirOrders};
ghost use Rattle.drive_laws.specs.{OneRunLaw.WhatWasResumedHasItsOrders, CellsAlone.EachCellIsAsAlone};
ghost use Rattle.drive_laws.specs.BrokenLaw.{ABrokenDriveStaysAsPromised};
ghost use Rattle.drive_laws.specs.CopiesLaw.{ARunRefusesCopies, ADrivenCellRefusesCopies, ARunThatGoesOnRefusesCopies};
ghost use Rattle.drive_laws.specs.{CellsVersionsLaw.Version2OnlyAddsForCells, LeapLaw.NoPunctualReportLeaps};
ghost use Rattle.drive_laws.specs.FloorLaw.{NothingIsOrderedWrongly, ADrivenCellOrdersRightly};
ghost use Rattle.drive_laws.specs.FloorLaw.{ARunThatGoesOnOrdersRightly, EachCellOrdersRightly};
ghost use Rattle.drive_laws.specs.ResumedLaw.{NothingOfALogIsAcceptedAgain, ResumingOnlyAdds};
ghost use Rattle.drive_laws.specs.SameReportsLaw.{TheSameReportsAreAnsweredSo, TheSameReportsOfACell};
ghost use Rattle.drive_laws.specs.{SameReportsLaw.EachReportHasALine, VersionsLaw.Version2OnlyAdds};
ghost use Rattle.drive_laws.specs.ShortLinesLaw.{StateLinesAreShort, RefusalsAreShort, LateLinesAreShort};
ghost use Rattle.drive_laws.specs.ShortLinesLaw.{StandingsAreShort, DetailsAreShort, OverdueIsShort};
ghost use Rattle.drive_laws.specs.ShortLinesLaw.{LineNumbersAreShort, AnswersAreShort};
ghost use Rattle.drive_laws.specs.StatesLaw.{OnlyGoneJobsAreLeftOut, OnlyCleanMachinesAreLeftOut};
ghost use Rattle.drive_laws.specs.RecoveryLaw.{OneRecovery, OneTextFromALog, ALogWithoutEventsIsDriven};

pub use byte_streams::laws::the_limits_of_an_input_in_numbers;

/// For a well-shaped plan, and by each protocol by which a cell can be driven, an input has one answer text at most,
/// which leads to one cell with one list of events; and so have its first lines. So what is written depends on the
/// plan, the protocol and the bytes of the input, and not on the pieces in which these come. What a session has
/// answered is such a text.
#[tactic(auto, using(crate::proofs::LawProofs::of_one_answer_text))]
pub fn one_answer_text()
    ensures whole { OneAnswerText }
    ensures lines { OneTextForLines }
    ensures driven { ASessionAnswersSo }
{}

/// The same of an input of several cells, each of an accepted plan, by each protocol: one text at most, which leads to
/// one list of what the cells hold.
pub fn one_answer_text_of_cells()
    ensures whole { OneCellsText }
    ensures lines { OneCellsTextForLines }
{}

/// Let cells by accepted plans answer any lines. Each of them is then as with a controller alone that was made of its
/// plan and given the reports on it that the lines have. These events are their controlled run, through which all
/// stays as the plan promises, and which has ended exactly where as many reports were accepted as the stated number.
#[tactic(auto, using(crate::proofs::CellsAlone::as_alone))]
pub fn each_cell_is_as_alone()
    ensures { EachCellIsAsAlone }
{}

/// Let the cell of an accepted plan be driven, by any protocol, to the end of its input or until a read or a write
/// fails or the input is too long. Up to the last line that was answered, whose answer may have been cut off, the
/// events are the controlled run of some reports, and all stayed as the plan promises.
pub fn a_broken_drive_stays_as_promised()
    ensures { ABrokenDriveStaysAsPromised }
{}

/// For a well-shaped plan the lines of an answer text, by any protocol, record, in order, exactly the reports that were
/// accepted and the moves that were ordered. These are a run of the plan, which leads to the cell at the end.
pub fn an_answer_text_is_a_log()
    ensures { AnAnswerTextIsALog }
{}

/// Let `drive` succeed, by any protocol, into a writer whose bytes are known, and audit what it wrote against the same
/// plan. The only fault of the audit is `Memory`. The audit finds the events of the log, how many reports were accepted
/// and moves ordered, the last moment, and `complete` exactly if driving was `done`.
pub fn an_audit_keeps_what_was_driven()
    ensures { AnAuditKeepsWhatWasDriven }
{}

/// Cut the log of a run after any number of bytes. The ended lines of what is left record the first events of that run.
/// So it is with what a cell has written by any protocol, from the start of its run or from where that was recovered;
/// and what was recovered can be recovered again by the same plan, wherever the line of its first event is out, or the
/// plan is an accepted one.
#[tactic(auto, using(crate::proofs::LawProofs::of_a_cut_log_is_recovered))]
pub fn a_cut_log_is_recovered()
    ensures log { ACutLogIsRecovered }
    ensures driven { WhatWasDrivenIsRecovered }
    ensures resumed { WhatWasResumedIsRecovered }
    ensures again { WhatWasResumedIsRecoverable }
{}

/// Cut the log of a controlled run after any number of bytes, as one that `drive` writes by any protocol. The events of
/// its ended lines, with the orders that are due, are the first events of that run. By an accepted plan what is left
/// can be recovered; and if no present moment is given, it is recovered with just these orders.
#[tactic(auto, using(crate::proofs::LawProofs::of_a_cut_log_has_its_orders))]
pub fn a_cut_log_has_its_orders()
    ensures log { ACutLogHasItsOrders }
    ensures driven { WhatWasDrivenHasItsOrders }
    ensures can { ItIsRecoverable }
    ensures orders { ItIsRecoveredWithItsOrders }
{}

/// Let a log be that of a controlled run, and let the lines of an input be the reports of that run, one after another.
/// The events that are written again, and then the orders that are due, are what `drive` answers to those lines. The
/// mark between them isn't. So it is by each protocol by which those lines are accepted, where an operation may be
/// reported by its step, and a cleaning by its job or by the step before it; but `done T`, which the protocol may ask
/// for at once behind the last order of a run, isn't written again.
pub fn replay_as_answered()
    ensures plain { ReplayAsAnswered }
    ensures stated { ReplayInProtocol }
{}

/// For a well-shaped plan, and by each protocol, an input has one text that answers it after what was recovered, which
/// leads to one cell with one list of events. What `resume` writes, if it succeeds, is that text for what it read.
pub fn one_resumed_text()
    ensures one { OneResumedText }
    ensures resumed { WhatWasResumedIsSuchAText }
{}

/// A log is recovered in one way: by a plan, and at a present moment, as one cell with one list of events, of which the
/// same are printed as late. So an input has one text that answers it from there, by each protocol.
pub fn one_recovery()
    ensures one { OneRecovery }
    ensures text { OneTextFromALog }
{}

/// Let a log record no event, and be recovered without a present moment. What is written to answer an input is then an
/// empty line and, behind that, what `drive` answers, by each protocol.
pub fn a_log_without_events_is_driven()
    ensures { ALogWithoutEventsIsDriven }
{}

/// What a run that was recovered writes is by itself a log of the whole run. Let `resume` succeed, into a writer whose
/// bytes are known, and audit what it wrote against the same plan. The only fault of the audit is `Memory`. The audit
/// finds the events of the log, and is complete exactly if driving was done.
pub fn an_audit_keeps_what_was_resumed()
    ensures log { AResumedTextIsALog }
    ensures audit { AnAuditKeepsWhatWasResumed }
{}

/// After the events of its log, a run that was recovered is the controlled run that goes on from their cell, at the
/// present moment. So each law of the rest of a run holds of it: it is never stuck, ends after exactly the reports that
/// were left, and keeps to the moments kept for it.
pub fn what_was_resumed_goes_on()
    ensures { WhatWasResumedGoesOn }
{}

/// Let a run be recovered by its own plan, with no moment given, from the log of a controlled run, which may be cut
/// after any number of bytes. All its events are then one controlled run: those of the log, the orders that were due
/// and what comes behind them, after each line and at the end. So by an accepted plan all stays as that promises, with
/// its own budgets, as if the run had never been cut. Cut what is written after any number of bytes, and it has the
/// orders that are due again, as the log had. So have any lines that record the first events of the run, as those of a
/// log file do.
#[tactic(auto, using(crate::proofs::LawProofs::of_a_driven_run_goes_on_as_one))]
pub fn a_driven_run_goes_on_as_one()
    ensures run { ADrivenRunGoesOnAsOne }
    ensures promised { ItStaysAsPromised }
    ensures recovered { ItIsRecoveredAsOne }
    ensures so_far { ItIsOneSoFar }
    ensures resumed { WhatWasResumedHasItsOrders }
    ensures first { TheFirstEventsHaveTheirOrders }
{}

/// Let cells by accepted plans answer any lines by a protocol. Each of them answers what the lines ask of it as it
/// would alone, whatever they ask of the others: these events are the controlled run of some reports, through which all
/// stays as the plan promises, and which has ended exactly where as many reports were accepted as the stated number.
#[tactic(auto, using(crate::proofs::CellsAlone::protocol_alone))]
pub fn each_protocol_cell_is_alone()
    ensures { EachProtocolCellIsAlone }
{}

/// In version 1 of the lines, and with no moment that leaps, each line is answered as `drive` answers it, and by
/// several cells as `hub` answers it. In version 1 the events of a log are written again as ever.
#[tactic(auto, using(crate::proofs::LawProofs::of_plainly_as_ever))]
pub fn plainly_as_ever()
    ensures answered { PlainlyAsEver }
    ensures cells { PlainlyAsEverForCells }
    ensures replayed_part { PlainReplay }
{}

/// Lines among which there is neither `status`, nor `clean M J T`, `finish J.K T` or `clean M J.K T` lead in both
/// versions to the same cell, with the same events. The answers of version 1 are those of version 2 without what stands after a refusal's name or a late
/// report's moment, and without the `done` that comes at once. So it is with what `resume` writes, from the first event
/// that it writes again, and with what several cells answer, of whose refusals version 1 doesn't say their numbers
/// either. Whatever the lines are, by any protocol, from the start or after a log: what version 1 answers to just the
/// reports that were accepted leads to the same cell, with the same events. It is what was answered to the lines,
/// without refusals and states, what stands after a late report's moment, and the `done` that comes at once. Each of
/// several cells has the same events, too.
#[tactic(auto, using(crate::proofs::LawProofs::of_version_2_only_adds))]
pub fn version_2_only_adds()
    ensures answered { Version2OnlyAdds }
    ensures resumed { ResumingOnlyAdds }
    ensures cells { Version2OnlyAddsForCells }
    ensures reports { TheSameReportsAreAnsweredSo }
    ensures cell { TheSameReportsOfACell }
    ensures lines { EachReportHasALine }
{}

/// However often the lines of an arrival, of the finish of a step or of the cleaning after a step are sent to a driven
/// cell, and with whatever moments, it takes one of them at most; so it does of a finish on a machine and of a cleaning
/// after a job, where the job visits the machine once. Once there is such a report in a run, it takes none: so in the
/// run of each cell of a hub, and in one that was recovered from a log.
#[tactic(auto, using(crate::proofs::LawProofs::of_nothing_is_accepted_twice))]
pub fn nothing_is_accepted_twice()
    ensures driven { NothingIsAcceptedTwice }
    ensures run { NothingOfARunIsClaimedAgain }
    ensures resumed { NothingOfALogIsAcceptedAgain }
{}

/// Else a driven cell takes a copy of a line, with whatever moment, in two cases alone: of a finish on a machine or of a
/// cleaning after a job once the job has entered that machine again, to which an order of the same answer may have
/// brought it; and of a cleaning that names no job once the operation of another visit to that machine has ended since,
/// and its job has left. So it is in any run, and in one that was recovered from a log.
#[tactic(auto, using(crate::proofs::LawProofs::of_copies_are_refused))]
pub fn copies_are_refused()
    ensures driven { ADrivenCellRefusesCopies }
    ensures run { ARunRefusesCopies }
    ensures resumed { ARunThatGoesOnRefusesCopies }
{}

/// Let what has ended so far on a floor be given, in one run: each arrival, each operation, and each cleaning after a
/// step of a job, and at which moment. Let a program report to a driven cell nothing but these, each as often as it
/// likes, in any order, and with any moment from its end on: by its step, or by its machine and job where the job visits
/// the machine once. It doesn't send `clean M T`, which names no job. Then each order so far is right. What its job did
/// where it stands has ended, each job that was ordered onto the same machine before has been ordered away from it, and
/// the cleaning after each of these visits has ended, if there is one; and no later than at the moment of the order. So it is in any run whose reports say what has ended, in one that was recovered from the log of
/// such a run, and in each cell of a hub. That parts stand where they were ordered to is up to the floor.
#[tactic(auto, using(crate::proofs::LawProofs::of_nothing_is_ordered_wrongly))]
pub fn nothing_is_ordered_wrongly()
    ensures driven { ADrivenCellOrdersRightly }
    ensures run { NothingIsOrderedWrongly }
    ensures resumed { ARunThatGoesOnOrdersRightly }
    ensures cells { EachCellOrdersRightly }
{}

/// A state has a line of each job that isn't gone and of each machine that is being cleaned, and no other.
#[tactic(auto, using(crate::proofs::LawProofs::of_a_state_leaves_nothing_out))]
pub fn a_state_leaves_nothing_out()
    ensures jobs { OnlyGoneJobsAreLeftOut }
    ensures machines { OnlyCleanMachinesAreLeftOut }
{}

/// A line of version 2 has at most 128 bytes, with a number of a cell before it: that of what is under way, of a
/// refusal by the number of one of the first 99,999,999 lines, and of a late report. The numbers of jobs and machines
/// have at most three digits, those of moments thirteen. So it is with the numbers that are printed in any run of a
/// well-shaped plan: of its jobs and machines, of refusals, and of what is overdue. No input has a line of a higher
/// number.
#[tactic(auto, using(crate::proofs::LawProofs::of_lines_of_version_2_are_short))]
pub fn lines_of_version_2_are_short()
    ensures states { StateLinesAreShort }
    ensures refusals { RefusalsAreShort }
    ensures late { LateLinesAreShort }
    ensures numbers { StandingsAreShort }
    ensures details { DetailsAreShort }
    ensures overdue { OverdueIsShort }
    ensures lines { LineNumbersAreShort }
{}

/// The answer to a report that is accepted, in any run of a well-shaped plan, has at most 16,384 bytes: for so many the
/// writer of a log has room behind what it shows first.
pub fn an_answer_is_short()
    ensures { AnswersAreShort }
{}

/// A late report finds something overdue, its own activity or another: so its line always says what.
#[tactic(auto, using(crate::proofs::LateWords::late_finds_overdue))]
pub fn a_late_report_finds_something_overdue()
    ensures { ALateReportFindsSomethingOverdue }
{}

/// Let the longest time that may pass be no shorter than any release, nominal time and cleaning time of the plan. In a
/// run of that, whatever is possible and punctual is accepted: no punctual report is refused as a leap.
#[tactic(auto, using(crate::proofs::NoLeap::no_punctual_report_leaps))]
pub fn no_punctual_report_leaps()
    ensures { NoPunctualReportLeaps }
{}
