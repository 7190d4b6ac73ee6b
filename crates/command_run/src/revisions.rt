//! The command `revise`.

ghost use Rattle.std.specs.Prelude.{◌≡◌, ◌≤◌, ◌++◌, ◌∷◌, [], IfOk, IfSome, OnOk, map, option_map};
ghost use Rattle.std.specs.Option.{option_copied};
ghost use Rattle.std.specs.String.{string_bytes};
ghost use Rattle.shop_base.specs.declared.limits.TheConstants.{MAX_MOMENT};
ghost use Rattle.command_run.specs.Revisions.{AreChangesOf, IsChangeOf, Revises, names_asked, printed_for};
ghost use Rattle.command_run.specs.Revisions.{values_asked};

use command_answers::{Answered, InputPaths, Revised, Revision, Texts, revise_answer};
use command_words::{AskedChange, ChangeKind, Prints};
use plan_revise::Change;
use shop_base::Moment;
use std::alloc::{AllocError, Global};

/// What is printed, the present moment, if another one than the log's last is given, and the file of names, if there is
/// one.
#[derive(Clone, Copy)]
pub(crate) struct Wanted<'a> {
    pub prints: Prints,
    pub at: Option<Moment>,
    pub names: Option<&'a str>,
}

/// The plan, the instance, or both and the run as one log, with the changes that are asked for, for the rest of the run
/// in a log.
pub(crate) fn revision_answer<T: Texts>(
    alloc: Global,
    texts: &mut T,
    inputs: &InputPaths<'_>,
    log: &str,
    asked: &[AskedChange],
    wanted: Wanted<'_>,
) -> Answered
    requires { IfSome wanted.at (λ present. present ≤ MAX_MOMENT) }
    ensures { let w = wanted.entry in
        Revises T.gives w.prints (option_copied w.names) w.at asked.now inputs.now log.now texts.old result texts.new }
{
    let (mut changes, mut values) = (Vec::new(alloc), Vec::new(alloc));
    add_changes(&mut changes, &mut values, asked)?;
    let called = names_asked(alloc, asked)?;
    let (changes, values) = (changes.as_slice(), values.as_slice());
    let wanted = Revision {
        at: wanted.at,
        changes,
        values,
        called: called.as_slice(),
        prints: printed_for(wanted.prints),
        names: wanted.names,
    };
    revise_answer(alloc, texts, inputs, log, wanted)
}

/// What is printed.
fn printed_for(prints: Prints) -> Revised
    ensures { result ≡ printed_for prints }
{
    match prints {
        Prints::Plan => Revised::PlanText,
        Prints::File => Revised::InstanceText,
        Prints::Log { pruned, hand_over } => Revised::LogText {
            leaves_out: pruned,
            hands_over: hand_over,
        },
    }
}

/// Adds the changes that are asked for, and the values that were given for them, to lists without any.
fn add_changes<'a>(
    changes: &mut Vec<Change<'a>>,
    values: &mut Vec<&'a str>,
    asked: &'a [AskedChange],
) -> Result<(), AllocError>
    requires changes { changes.old.items ≡ [] }
    requires values { values.old.items ≡ [] }
    ensures are { OnOk result (AreChangesOf asked.entry.now changes.new.items) }
    ensures values { OnOk result (map (λ value. value.now) values.new.items ≡ values_asked asked.entry.now) }
{
    for one in asked {
        changes.push(change_of(one))?;
        values.push(one.value.as_str())?;
    }
    Ok(())
}

/// The names of the jobs that the changes make, where they are given.
fn names_asked<'a>(
    alloc: Global,
    asked: &'a [AskedChange],
) -> Result<Vec<Option<&'a str>>, AllocError>
    ensures { IfOk result (λ called. map option_copied called.items ≡ names_asked asked.entry.now) }
{
    let mut called = Vec::new(alloc);
    for one in asked {
        called.push(lent(&one.name))?;
    }
    Ok(called)
}

/// The text, lent.
fn lent(text: &Option<String>) -> Option<&str>
    ensures { option_copied result ≡ option_map string_bytes text.now }
{
    match text {
        Some(text) => Some(text.as_str()),
        None => None,
    }
}

/// The change that is asked for.
fn change_of(asked: &AskedChange) -> Change<'_>
    ensures { IsChangeOf (string_bytes asked.now.value) asked.now.kind result }
{
    match asked.kind {
        ChangeKind::Until { machine, moment } => Change::Until {
            machine,
            to: moment,
        },
        ChangeKind::Add { release, budget } => Change::Add {
            route: asked.value.as_bytes(),
            release,
            budget,
        },
        ChangeKind::Route { job } => Change::Route {
            job,
            route: asked.route().as_bytes(),
        },
        ChangeKind::Release { job, moment } => Change::Release {
            job,
            release: moment,
        },
        ChangeKind::Budget { job, moment } => Change::Budget {
            job,
            budget: moment,
        },
        ChangeKind::Hold { machine, moment } => Change::Hold {
            machine,
            to: moment,
        },
        ChangeKind::Scrap { job } => Change::Scrap { job },
        ChangeKind::Down { machine } => Change::Down { machine },
    }
}
