//! The pictures of the commands `gantt` and `schedule`.

ghost use Rattle.std.specs.Prelude.{◌≡◌, ◌≤◌, Ok, IfOk, IfErr, IfSome};
ghost use Rattle.std.specs.Option.{option_copied};
ghost use Rattle.shop_base.specs.Plan.{jobs};
ghost use Rattle.shop_base.specs.declared.limits.TheConstants.{MAX_MOMENT};
ghost use Rattle.plan_verifier.specs.Rest.{AreOrderedAhead};
ghost use Rattle.run_picture.specs.Late.{late_leavings};
ghost use Rattle.run_picture.specs.PictureText.{IsPicture};
ghost use Rattle.run_gantt.specs.DrawnVisits.{drawn_visits};
ghost use Rattle.run_gantt.specs.LeavingsSoFar.{leavings_so_far};
ghost use Rattle.plan_explain.specs.Known.{IsKnownVerdict};
ghost use Rattle.command_answers.specs.declared.pictures.Drawn.TheVariants.{Line};
ghost use Rattle.command_answers.specs.Steps.{IsOrMemory};
ghost use Rattle.command_answers.specs.Commands.{WithNamesAndLog};
ghost use Rattle.command_answers.specs.Shapes.{IsRefusedLine};
ghost use Rattle.command_answers.specs.Pictures.{DrawsLog, DrawsRest, IsLineAlone, IsLogDrawn};
ghost use Rattle.command_answers.specs.Pictures.{IsRunPicture, IsVerdictDrawn};
ghost use Rattle.command_answers.specs.Pictures.{line_at, log_sheet, run_head, run_sheet};

use crate::answer::{Answer, CommandResult, GOOD, REFUSED};
use crate::inputs::{Files, RunFiles, shape_files};
use crate::known_rests::{KnownRest, rest_of_run};
use crate::logs::log_fault_answer;
use crate::naming::names_and_log;
use crate::rest_improves::cycle_answer;
use crate::shapes::not_shaped_answer;
use crate::texts::Texts;
use alt_graph::Times;
use cell_tables::{Entry, Rest};
use people_names::Names;
use plan_schedule::{DrawnRun, drawn_run};
use plan_verifier::{Judged, Why};
use run_log::{Audit, audit};
use run_picture::{DrawnVisit, Head, Picture, Sheet, last_moment, late_leavings, latest};
use shop_base::{Moment, ShapeFault, Shaped};
use std::alloc::{AllocError, Global};

/// What a command draws.
#[derive(Drop)]
pub enum Drawn {
    /// A picture.
    Picture {
        /// The drawing.
        picture: Picture,
        /// The status that the program ends with: that of the verdict.
        status: u8,
    },
    /// A line that says why there is nothing to draw, with its status.
    Line(Answer),
}

/// Draws the run that the log of one file records, of the plan of another, for the instance of a third, with the names
/// of a fourth if there is one. A plan that isn't well shaped, or a log that records no run of it, has a line instead.
pub fn log_picture<T: Texts>(
    alloc: Global,
    texts: &mut T,
    files: &Files<'_>,
    log: &str,
) -> CommandResult<Drawn>
    ensures { DrawsLog T.gives files.now.inputs (option_copied files.now.names) log.now texts.old result texts.new }
{
    match shape_files(alloc, texts, &files.inputs)? {
        Ok(shaped) => {
            let drawn = shaped_log(alloc, texts, &shaped, files.names, log);
            drop(shaped);
            drawn
        }
        Err(fault) => unshaped_drawn(alloc, fault),
    }
}

/// The line of a plan that isn't well shaped, with its first fault.
fn unshaped_drawn(alloc: Global, fault: ShapeFault) -> CommandResult<Drawn>
    ensures { IsOrMemory (IsLineAlone (IsRefusedLine fault)) result }
{
    Ok(Drawn::Line(not_shaped_answer(alloc, fault)?))
}

/// Draws the log of a file by a plan, with the names of another if there is one.
fn shaped_log<T: Texts>(
    alloc: Global,
    texts: &mut T,
    shaped: &Shaped,
    names: Option<&str>,
    log: &str,
) -> CommandResult<Drawn>
    ensures { let p = shaped.now in WithNamesAndLog T.gives (option_copied names.entry) log.now p
        (λ book. IsLogDrawn book p) texts.old result texts.new }
{
    let read = names_and_log(alloc, texts, shaped, names, log)?;
    let drawn = log_drawn(alloc, read.names, shaped, &read.log);
    drop(read.log);
    drawn
}

/// Draws a log that is audited against a plan.
fn log_drawn(alloc: Global, names: Names, shaped: &Shaped, log: &[u8]) -> CommandResult<Drawn>
    ensures { IsOrMemory (IsLogDrawn names shaped.now log.now) result }
{
    match audit(alloc, shaped, log) {
        Ok(found) => {
            let picture = audit_picture(alloc, names, shaped, &found)?;
            let status = GOOD;
            Ok(Drawn::Picture { picture, status })
        }
        Err(fault) => Ok(Drawn::Line(log_fault_answer(alloc, fault)?)),
    }
}

/// The picture of the run that an audit found.
fn audit_picture(
    alloc: Global,
    names: Names,
    shaped: &Shaped,
    found: &Audit,
) -> Result<Picture, AllocError>
    ensures { let run = found.now in let p = shaped.now in IfOk result (IsPicture names (log_sheet p run)
        (drawn_visits p run.entries.items) (late_leavings p (leavings_so_far (jobs p) run.entries.items))) }
{
    let entries = found.entries.as_slice();
    let visits = run_gantt::drawn_visits(alloc, shaped, entries)?;
    let leavings = run_gantt::leavings_so_far(alloc, shaped, entries)?;
    let late = late_leavings(alloc, shaped, &leavings)?;
    Ok(Picture::new(names, log_sheet(shaped, found), visits, late))
}

/// What the picture of a log's run is of.
fn log_sheet(shaped: &Shaped, run: &Audit) -> Sheet
    ensures { result ≡ log_sheet shaped.now run.now }
{
    let (last, complete) = (run.last, run.complete);
    Sheet {
        machines: shaped.machine_count(),
        last,
        head: Head::Log { last, complete },
        present: None,
    }
}

/// Draws a run that goes on exactly, whether it is in time or late: the one in a log with its rest, from a present moment
/// on or from the last one of that run, or that of the whole plan, if it hasn't begun. The names are those of a file, if
/// there is one. What comes after the log's last line feed isn't looked at. A plan that isn't well shaped or has a cycle,
/// a log that records no run of it, or a present moment before the last one has a line instead.
pub fn schedule_picture<T: Texts>(
    alloc: Global,
    texts: &mut T,
    run: &RunFiles<'_>,
) -> CommandResult<Drawn>
    requires { IfSome run.now.at (λ present. present ≤ MAX_MOMENT) }
    ensures { DrawsRest T.gives run.now texts.old result texts.new }
{
    let found = rest_of_run(alloc, texts, run, None)?;
    found_drawn(alloc, found)
}

/// Draws a run that goes on from where it is, or has the line that stands instead.
fn found_drawn(alloc: Global, found: Result<KnownRest, Answer>) -> CommandResult<Drawn>
    requires { IfOk found (λ s. IsKnownVerdict s.rest.plan s.rest.cell s.rest.present s.verdict) }
    ensures drawn { IfOk found (λ s. IsOrMemory (IsVerdictDrawn s.names s.rest.plan s.rest.cell s.rest.present
        (line_at s.at s.entries.items s.rest.present) (drawn_visits s.rest.plan s.entries.items) s.verdict) result) }
    ensures line { IfErr found (λ line. result ≡ Ok (Line line)) }
{
    match found {
        Ok(known) => Ok(known_drawn(alloc, known)?),
        Err(line) => Ok(Drawn::Line(line)),
    }
}

/// Draws a run that goes on from where it is, by the verdict on its rest.
fn known_drawn(alloc: Global, known: KnownRest) -> Result<Drawn, AllocError>
    requires { let s = known in IsKnownVerdict s.rest.plan s.rest.cell s.rest.present s.verdict }
    ensures { let s = known in IfOk result (IsVerdictDrawn s.names s.rest.plan s.rest.cell s.rest.present
        (line_at s.at s.entries.items s.rest.present) (drawn_visits s.rest.plan s.entries.items) s.verdict) }
{
    let KnownRest {
        names,
        rest,
        entries,
        at,
        verdict,
    } = known;
    let visits = run_gantt::drawn_visits(alloc, rest.shaped(), &entries)?;
    let line = line_at(at, &entries, rest.present());
    verdict_drawn(alloc, names, &rest, line, &visits, &verdict)
}

/// The moment that has a line: the present one, unless no moment is given and the log records nothing.
fn line_at(at: Option<Moment>, entries: &[Entry], present: Moment) -> Option<Moment>
    ensures { result ≡ line_at at entries.now present }
{
    if at.is_none() && entries.is_empty() {
        return None;
    }
    Some(present)
}

/// Draws what the verdict on the rest is about, with its status: with these names, with a line at this moment, if there
/// is one, and behind the visits that are known so far. Of a cycle there is its line.
fn verdict_drawn(
    alloc: Global,
    names: Names,
    rest: &Rest<Shaped>,
    line: Option<Moment>,
    visits: &[DrawnVisit],
    verdict: &Judged,
) -> Result<Drawn, AllocError>
    requires { IsKnownVerdict rest.now.plan rest.now.cell rest.now.present verdict.now }
    ensures { let r = rest.now in
        IfOk result (IsVerdictDrawn names r.plan r.cell r.present line visits.now verdict.now) }
{
    match verdict {
        Judged::Accepted(times) => {
            let picture = run_picture(alloc, names, rest, line, visits, times, true)?;
            let status = GOOD;
            Ok(Drawn::Picture { picture, status })
        }
        Judged::Refused(Why::Late { times, .. }) => {
            let picture = run_picture(alloc, names, rest, line, visits, times, false)?;
            let status = REFUSED;
            Ok(Drawn::Picture { picture, status })
        }
        Judged::Refused(Why::Cycle(nodes)) => {
            drop(names);
            Ok(Drawn::Line(cycle_answer(alloc, nodes)?))
        }
    }
}

/// The picture of the rest by its earliest moments.
fn run_picture(
    alloc: Global,
    names: Names,
    rest: &Rest<Shaped>,
    line: Option<Moment>,
    visits: &[DrawnVisit],
    times: &Times,
    in_time: bool,
) -> Result<Picture, AllocError>
    requires { AreOrderedAhead rest.now.plan rest.now.cell rest.now.present times.now }
    ensures { let r = rest.now in
        IfOk result (IsRunPicture names r.plan r.cell r.present line visits.now in_time) }
{
    let run = drawn_run(alloc, rest, times, visits)?;
    let shaped = rest.shaped();
    let late = late_leavings(alloc, shaped, &run.leavings)?;
    let sheet = run_sheet(shaped, rest.present(), line, in_time, &run);
    Ok(Picture::new(names, sheet, run.visits, late))
}

/// What the picture of such a run is of.
fn run_sheet(
    shaped: &Shaped,
    present: Moment,
    line: Option<Moment>,
    in_time: bool,
    run: &DrawnRun,
) -> Sheet
    ensures { result ≡ run_sheet shaped.now present line in_time run.now }
{
    Sheet {
        machines: shaped.machine_count(),
        last: last_moment(&run.visits).max(present),
        head: run_head(in_time, run),
        present: line,
    }
}

/// What stands above the rows of such a run, of whose rest this is the verdict.
fn run_head(in_time: bool, run: &DrawnRun) -> Head
    ensures { result ≡ run_head in_time run.now }
{
    if in_time {
        Head::Accepted {
            makespan: latest(&run.leavings),
        }
    } else {
        Head::Late { by: run.late_by }
    }
}
