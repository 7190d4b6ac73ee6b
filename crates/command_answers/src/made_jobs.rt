//! The jobs that changes make: what they are, and their names.

ghost use Rattle.std.specs.Prelude.{◌≡◌, ◌++◌, ◌∷◌, ◌<◌, ◌==◌, [], None, Some, IfOk, IfErr, OnOk, length, map, option_and_then};
ghost use Rattle.std.specs.Option.{option_copied};
ghost use Rattle.command_answers.specs.MadeJobs.{all_made, are_all_named, first_unnamed, made_by, made_first, makes_job};
ghost use Rattle.command_answers.specs.MadeJobs.{name_at, named_from, names_given, names_left, unnamed_from, with_given};
ghost use Rattle.people_names.specs.AddedNames.{IsWhyUnnamed, why_unnamed};
ghost use Rattle.command_answers.specs.Revising.{IsPlaced, IsReasonUnnamed, unnamed_of};

use crate::command_fault::{ChangeRefusal, CommandFault, Unrevised};
use log_chapters::Origin;
use people_names::{Names, NotNamed};
use plan_revise::Change;
use run_revising::NextRun;
use std::alloc::{AllocError, Global};

/// What the job is that a change makes, if it makes one.
fn made_by(change: Change<'_>) -> Option<Origin>
    ensures { result ≡ made_by change.entry }
{
    match change {
        Change::Add {
            route: _,
            release: _,
            budget: _,
        } => Some(Origin::New),
        Change::Hold { machine, to: _ } => Some(Origin::Holds(machine)),
        Change::Until { machine: _, to: _ }
        | Change::Route { job: _, route: _ }
        | Change::Release { job: _, release: _ }
        | Change::Budget { job: _, budget: _ }
        | Change::Scrap { job: _ }
        | Change::Down { machine: _ } => None,
    }
}

/// Adds what the jobs are that changes make.
pub(crate) fn push_made(origins: &mut Vec<Origin>, changes: &[Change<'_>]) -> Result<(), AllocError>
    ensures { OnOk result (origins.new.items ≡ origins.old.items ++ all_made changes.now) }
{
    for change in changes {
        if let Some(origin) = made_by(*change) {
            origins.push(origin)?;
        }
    }
    Ok(())
}

/// The name that is given to the job of the change at a place, if one is.
fn name_at<'a>(called: &[Option<&'a str>], place: usize) -> Option<&'a str>
    ensures { option_copied result ≡ name_at (map option_copied called.now) place }
{
    match called.get(place) {
        Some(given) => *given,
        None => None,
    }
}

/// Adds the name of one job more, if it is given one, behind jobs with these names, or all.
fn name_job(
    alloc: Global,
    names: &mut Names,
    all_named: bool,
    given: Option<&str>,
) -> Result<(), NotNamed>
    ensures named { OnOk result (names.new ≡ with_given names.old (option_copied given.entry)) }
    ensures fine { OnOk result
        (option_and_then (why_unnamed names.old.jobs all_named) (option_copied given.entry) ≡ None) }
    ensures refused { IfErr result
        (IsWhyUnnamed (option_and_then (why_unnamed names.old.jobs all_named) (option_copied given.entry))) }
{
    match given {
        Some(name) => names.add_job(alloc, name, all_named),
        None => Ok(()),
    }
}

/// Why the job that the change at a place makes doesn't get its name, as the reason of the changes.
fn unnamed_at(place: usize, why: NotNamed) -> Unrevised
    ensures { result ≡ unnamed_of place why }
{
    match why {
        NotNamed::Refused(fault) => Unrevised::Refused {
            change: place,
            why: ChangeRefusal::OfName(fault),
        },
        NotNamed::Memory => Unrevised::Ends(CommandFault::Memory),
    }
}

/// Adds the names of the jobs that changes make, behind jobs with these names, or all; or answers the first that doesn't
/// get its own.
fn name_made(
    alloc: Global,
    names: &mut Names,
    all_named: bool,
    called: &[Option<&str>],
    changes: &[Change<'_>],
) -> Result<(), Unrevised>
    ensures named { OnOk result (names.new ≡ named_from (map option_copied called.now) 0 names.old changes.now) }
    ensures fine { OnOk result
        (unnamed_from (map option_copied called.now) 0 names.old all_named changes.now ≡ None) }
    ensures refused { IfErr result
        (IsReasonUnnamed (unnamed_from (map option_copied called.now) 0 names.old all_named changes.now)) }
    ensures placed { IfErr result (IsPlaced changes.now) }
{
    let mut all = all_named;
    for (place, change) in changes.iter().enumerate() {
        if made_by(*change).is_none() {
            continue;
        }
        let given = name_at(called, place);
        if let Err(why) = name_job(alloc, names, all, given) {
            return Err(unnamed_at(place, why));
        }
        all = all && given.is_some();
    }
    Ok(())
}

/// The names of the jobs and machines that stay, with those of the jobs that changes make; or the first of these that
/// doesn't get its own.
pub(crate) fn names_given(
    alloc: Global,
    names: &Names,
    left: &NextRun,
    called: &[Option<&str>],
    changes: &[Change<'_>],
) -> Result<Names, Unrevised>
    ensures named { IfOk result
        (λ given. given ≡ names_given (map option_copied called.now) names.now left.now changes.now) }
    ensures fine { IfOk result
        (λ _. first_unnamed (map option_copied called.now) names.now left.now changes.now ≡ None) }
    ensures refused { IfErr result
        (IsReasonUnnamed (first_unnamed (map option_copied called.now) names.now left.now changes.now)) }
    ensures placed { IfErr result (IsPlaced changes.now) }
{
    let mut given = names.kept(alloc, &left.were, left.shaped.machine_count())?;
    let all_named = given.named_jobs() == left.were.len();
    match name_made(alloc, &mut given, all_named, called, changes) {
        Ok(()) => Ok(given),
        Err(why) => {
            drop(given);
            Err(why)
        }
    }
}
