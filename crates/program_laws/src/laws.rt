//! The laws of the program. The first seven speak of files that don't change (`Shelf`), and the first three also of
//! which paths are asked for. The others speak of every run of the whole program, over any files, input, output and
//! error output, but for `a_log_has_history`, which is of what `run` asks, and `a_log_is_of_one_run`, of the log of
//! a driven run.

// Nothing is done here, but that a law of another crate is called: a function's contract is the law, so a check of this
// crate proves it.

ghost use Rattle.command_run.specs.Laws.{FactsReadsInstanceFirst, ShapeReadsInstanceFirst};
ghost use Rattle.command_run.specs.Laws.{DigestReadsInstanceFirst, MovesReadsInstanceFirst};
ghost use Rattle.command_run.specs.Laws.{BoundsReadsInstanceFirst, MarginReadsInstanceFirst};
ghost use Rattle.command_run.specs.Laws.{LogReadsInstanceFirst, RestReadsInstanceFirst, PlanReadsInstanceFirst};
ghost use Rattle.command_run.specs.Laws.{ImproveReadsInstanceFirst, StateReadsInstanceFirst};
ghost use Rattle.command_run.specs.Laws.{DriveReadsInstanceFirst, ResumeReadsInstanceFirst, HubReadsInstanceFirst};
ghost use Rattle.command_run.specs.Laws.{ScheduleDrawsInstanceFirst, LogDrawsInstanceFirst};
ghost use Rattle.command_run.specs.Laws.{ScheduleIsDrawn, LogIsDrawn};
ghost use Rattle.command_run.specs.Laws.{FactsAnswerShop, ShapeAnswersPlan, DigestAnswersPlan};
ghost use Rattle.command_run.specs.Laws.{BoundsAnswerPlan, MarginAnswersPlan};
ghost use Rattle.command_run.specs.Laws.{MovesAreAnswered, LogIsAnswered, StateIsAnswered, RestIsAnswered};
ghost use Rattle.command_run.specs.Laws.{PlanAnswersPlan, ImproveIsAnswered};
ghost use Rattle.command_run.specs.Laws.{DriveDrivesPlan, ResumeGoesOn};
ghost use Rattle.command_run.specs.Laws.{HubDrivesPlans, InputAnswersShop};
ghost use Rattle.command_run.specs.Laws.{DriveAnswersByCheck, ResumeAnswersUnshaped, ResumeAnswersByCheck};
ghost use Rattle.command_run.specs.Laws.{HubAnswersByCheck, DriveWritesTheSame};
ghost use Rattle.command_run.specs.Laws.{FaultsArePrinted, NothingIsHeldBack, WhatFailsIsNoAnswer};
ghost use Rattle.program_laws.specs.ResumeLaw.{ResumeWritesTheSame, ResumeWritesAsDrive};
ghost use Rattle.program_laws.specs.{HubLaw.HubWritesTheSame, LoggedLaw.LoggedDriveWritesTheSame};
ghost use Rattle.program_laws.specs.OneLogLaw.{ANewLogIsOfOneRun, ARecoveredLogIsOfOneRun};
ghost use Rattle.program_laws.specs.PlanLaw.{NoPlanWithOtherDigitsDrives};
ghost use Rattle.program_laws.specs.MemoryLaw.{OutOfMemoryChangesNoLog};
ghost use Rattle.program_laws.specs.NextLogLaw.{NoBeginningDrives, NoBeginningIsRevised, TheNextLogGoesOn};
ghost use Rattle.program_laws.specs.HistoryLaw.{NewLogHasHistory, OldLogHasHistory, UnrecoveredLogHasHistory};

use command_answers::Texts;
use log_chapters::laws::{chapters_are_whole_or_none, chapters_record_their_events};
use logged_drive::laws::{a_driven_run_is_recovered, a_recovered_run_is_recovered};
use run_pruning::laws::what_is_left_needs_no_spare;

/// In each command over files, `drive` without `--log`: if the text of the instance is refused, its first fault is
/// reported, unless memory runs out, and no other file is asked for. `drive`, `resume`, `hub` and a command with
/// `--svg` then read and write no byte. (For `plan` and `improve` memory may also run out before any file is asked
/// for.)
pub fn instance_first()
    ensures facts { FactsReadsInstanceFirst }
    ensures shape { ShapeReadsInstanceFirst }
    ensures digest { DigestReadsInstanceFirst }
    ensures rest { RestReadsInstanceFirst }
    ensures moves { MovesReadsInstanceFirst }
    ensures bounds { BoundsReadsInstanceFirst }
    ensures margin { MarginReadsInstanceFirst }
    ensures log { LogReadsInstanceFirst }
    ensures state { StateReadsInstanceFirst }
    ensures schedule_picture { ScheduleDrawsInstanceFirst }
    ensures log_picture { LogDrawsInstanceFirst }
    ensures plan { PlanReadsInstanceFirst }
    ensures improve { ImproveReadsInstanceFirst }
    ensures drive { DriveReadsInstanceFirst }
    ensures resume { ResumeReadsInstanceFirst }
    ensures hub { HubReadsInstanceFirst }
{}

/// Files that give a shop and a plan are answered, unless memory runs out, and exactly they are asked for. `plan` and
/// `improve` answer what their search allows. An accepted plan has its cell driven by `drive` without `--log`. By
/// `resume` a well-shaped plan has its cell driven on from its log, or the answer is why not. `hub` drives the cells of
/// its plans, if all are accepted. With `--svg` a plan without a cycle is drawn by `schedule`, also the run in a log
/// with its rest, and a log that isn't refused by `gantt`. If memory runs out before a cell is driven or a picture
/// drawn, no byte is read or written. Without words an input within the limit that gives a shop is answered by its
/// facts, unless a read fails or memory runs out.
pub fn good_files_are_answered()
    ensures facts { FactsAnswerShop }
    ensures shape { ShapeAnswersPlan }
    ensures digest { DigestAnswersPlan }
    ensures rest { RestIsAnswered }
    ensures moves { MovesAreAnswered }
    ensures bounds { BoundsAnswerPlan }
    ensures margin { MarginAnswersPlan }
    ensures log { LogIsAnswered }
    ensures state { StateIsAnswered }
    ensures schedule_picture { ScheduleIsDrawn }
    ensures log_picture { LogIsDrawn }
    ensures plan { PlanAnswersPlan }
    ensures improve { ImproveIsAnswered }
    ensures drive { DriveDrivesPlan }
    ensures resume { ResumeGoesOn }
    ensures hub { HubDrivesPlans }
    ensures input { InputAnswersShop }
{}

/// Let the files give a plan that isn't accepted. Then `drive` without `--log` answers the line of `check`, unless
/// memory runs out. It asks for no further file, and drives no cell: up to this line no byte is read or written. The
/// same holds for the first plan of `hub` that isn't accepted: its number comes before that line, and no plan after it
/// is asked for. By `resume` it holds for a plan that isn't well shaped; and once the log has been asked for and
/// records a run, for a plan with a cycle, or one that isn't accepted where that run has no event.
pub fn no_cell_of_a_refused_plan()
    ensures drive { DriveAnswersByCheck }
    ensures unshaped { ResumeAnswersUnshaped }
    ensures resume { ResumeAnswersByCheck }
    ensures hub { HubAnswersByCheck }
{}

/// Let the words ask for `drive` without `--log`, let the files give an accepted plan, and let the input be within its
/// limit. Then two runs on the same words, files and input write the same bytes and end with the same status, whatever
/// pieces the input comes in. This holds unless memory runs out or a read or write fails.
pub fn drive_writes_the_same()
    ensures { DriveWritesTheSame }
{}

/// The same holds of `resume`, where the plan is well shaped and the log can be recovered by it. If the log records no
/// event, the plan is accepted and no present moment is given, `resume` writes an empty line, and then what `drive`
/// writes with the same files, the same input and the same protocol. Only a run whose output goes to the log writes
/// nothing, and ends with 5. (Where a folder doesn't tell where the output goes, as the program's own, the law excuses
/// any run that writes nothing and ends with 5.)
pub fn resume_writes_the_same()
    ensures same { ResumeWritesTheSame }
    ensures as_drive { ResumeWritesAsDrive }
{}

/// The same holds of `hub`, where all plans are accepted.
pub fn hub_writes_the_same()
    ensures { HubWritesTheSame }
{}

/// The same holds of `drive` with a log of its own, if two runs find the same log, which is as the words ask. It has no
/// bytes, and the plan is accepted; or it can be recovered by the plan, which is well shaped, and its end can be torn.
/// Only a run whose output goes to the log writes nothing, and ends with 5. (Where a folder doesn't tell where the
/// output goes, as the program's own, the law excuses any run that writes nothing and ends with 5.) This holds unless
/// memory runs out, or the log, its folder or a read or write fails.
pub fn logged_drive_writes_the_same()
    ensures { LoggedDriveWritesTheSame }
{}

/// A run ends with 0 or 1 and writes nothing on the error output, but by a command with `--svg` the line that is
/// answered in place of a picture. (The line of progress on a terminal goes to another device.) Or it ends with 2 or
/// more, and what failed is written there: with 2 what is wrong with the words, else the line of the fault in which the
/// command ended. In place of a refused text it may be that memory ran out, and if an answer couldn't be written, that.
/// This is written whole, unless a write of the error output has failed.
pub fn faults_are_printed<T: Texts>()
    ensures { FaultsArePrinted T.gives }
{}

/// At the end of a run nothing that was written on the output is held back, unless a write of it has failed.
pub fn nothing_is_held_back<T: Texts>()
    ensures { NothingIsHeldBack T.gives }
{}

/// If a run ends with 2 or more, only what driven cells answered was written on the output (for a run that was
/// recovered, its events once more before that), or a picture, whole or up to a write that failed. They are the cells
/// of the plans, and the picture of the plan or the log, in the files that the words name. Such a plan is accepted, or
/// a run was recovered by it. After that come at most the first bytes of the command's answer, if a write of it failed.
pub fn what_fails_is_no_answer<T: Texts>()
    ensures { WhatFailsIsNoAnswer T.gives }
{}

/// Where the logs and the output are known, what `run` asks of the history of a log can be said: of a log that isn't
/// there or is empty, that it has no bytes; of any other, by files that don't change, its whole lines, and the text that
/// writes its events again, if a run is recovered from it by their plan, or else none.
pub fn a_log_has_history<T: Texts>()
    ensures new_log { NewLogHasHistory T.gives }
    ensures old_log { OldLogHasHistory }
    ensures unrecovered { UnrecoveredLogHasHistory }
{}

/// Let the whole lines of a log name a plan last. By a plan with other digits no cell is driven with this log, unless
/// the words ask for a hand-over. (By [`run_journal::laws::a_crash_keeps_the_plan`] what a crash leaves of a log that
/// is driven names the same plan.)
pub fn no_plan_with_other_digits_drives<T: Texts>()
    ensures { NoPlanWithOtherDigitsDrives T.gives }
{}

/// A run that ends with 4, since memory ran out, has changed no byte of its log: it appended none, and cut none off.
/// (What a log that is held at the end has is said by the clause of `run`, and *written* of [`run_journal::LogFile`] is
/// what says that.)
pub fn out_of_memory_changes_no_log<T: Texts>()
    ensures { OutOfMemoryChangesNoLog T.gives }
{}

/// However often a crash cuts its log and the run is recovered from there, by its own plan and with no moment given,
/// all its events are one controlled run: what a crash leaves of the log records the first of them, and the orders that
/// are due are the next. So by [`drive_laws::laws::a_driven_run_goes_on_as_one`] an accepted plan's budgets are kept as
/// if there had been no crash.
pub fn a_log_is_of_one_run()
    ensures new_log { ANewLogIsOfOneRun }
    ensures recoverable { ARecoveredLogIsOfOneRun }
{
    a_driven_run_is_recovered();
    a_recovered_run_is_recovered();
}

/// Let a log be a beginning of what `revise` prints with all texts, and not all of it, also with zeros behind it. By a plan
/// whose digits aren't zeros no cell is driven with it, where it has to have begun; once it has a line, nor is one where the
/// words don't say so, but by a hand-over. Nor is it told anew, unless the plan of the log isn't asked for.
pub fn no_beginning_of_a_log_drives<T: Texts>()
    ensures drives { NoBeginningDrives T.gives }
    ensures revised { NoBeginningIsRevised }
{
    chapters_are_whole_or_none();
}

/// What `revise` prints of a run without what is over, where nothing else is changed, is the log of the jobs that stay:
/// every reader of logs reads the events of their run, which ends in the same cell without the others. The same is ahead
/// as before, and from every present moment on each controlled run by the old texts is one by the new ones, by the new
/// numbers, and the other way round. By its last line it is the log of its plan.
pub fn the_next_log_goes_on()
    ensures { TheNextLogGoesOn }
{
    what_is_left_needs_no_spare();
    chapters_record_their_events();
    chapters_are_whole_or_none();
}
