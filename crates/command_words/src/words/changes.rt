//! The changes of a plan in mid-run that the words ask for.

ghost use Rattle.std.specs.Prelude.{◌≡◌, ◌++◌, ◌∷◌, [], true, false, IfOk, IfErr, IfSome, MatchOption, OnOk, codes, map};
ghost use Rattle.std.specs.Option.{option_copied, option_map};
ghost use Rattle.std.specs.List.{after_first};
ghost use Rattle.std.specs.String.{string_bytes};
ghost use Rattle.clap.specs.Words.{found_of, rows_of};
ghost use Rattle.command_words.specs.Given.{is_short, values_of};
ghost use Rattle.text_lines.specs.Numbers.{value_of};
ghost use Rattle.command_words.specs.Changes.{all_asked, asked_by, asked_one, attached_misfit, change_seen, changes_in};
ghost use Rattle.command_words.specs.Changes.{ends_name, form_misfit, forms_misfit, is_passed_over, is_equals, is_own};
ghost use Rattle.command_words.specs.Changes.{is_routed, is_such, is_timed, kind_in, moment_at, moment_behind, moment_for};
ghost use Rattle.command_words.specs.Changes.{moment_with, name_in, number_before, option_of, owner_of, owners_in, owners_used, revision_misfit};
ghost use Rattle.command_words.specs.Changes.{rises, uses, values_misfit};
ghost use Rattle.command_words.specs.Choice.{NamesOneOf, NamesReason};

use crate::words::called::{NameOwner, name_with, names_used};
use crate::words::{
    LATEST, MOST_DIGITS, NumberForm, WordsFault, misfit, moment_of, no_number, number_in_form,
};
use clap::ArgMatches;
use clap::error::ErrorKind;
use std::alloc::{AllocError, Global};

/// A change of a plan in mid-run, as it is asked for.
#[derive(Debug, Drop)]
pub struct AskedChange {
    /// The value that is given, as it stands in the words: of a job that is added its route.
    pub value: String,
    /// What is asked for.
    pub kind: ChangeKind,
    /// The name of the job that is added, or holds a machine, if one is given.
    pub name: Option<String>,
}

impl AskedChange {
    /// The route that is given with a job, `J=ROUTE`: what stands behind the first equals sign, if there is one.
    pub fn route(&self) -> &str
        ensures { result.now ≡ after_first is_equals (string_bytes self.now.value) }
    {
        match self.value.split_once('=') {
            Some((_, route)) => route,
            None => "",
        }
    }
}

/// What is changed in mid-run. Jobs and machines have 9 digits at most, and moments are at most 1,000,000,000,000.
#[derive(Clone, Copy, Debug)]
pub enum ChangeKind {
    /// What goes on on a machine lasts until a moment.
    Until {
        /// The machine.
        machine: u32,
        /// The moment at which it ends.
        moment: u64,
    },
    /// A job is added.
    Add {
        /// Its release, if one is given.
        release: Option<u64>,
        /// Its budget, if one is given.
        budget: Option<u64>,
    },
    /// A job goes another way from where it is.
    Route {
        /// The job.
        job: u32,
    },
    /// A job that hasn't come is due at a moment.
    Release {
        /// The job.
        job: u32,
        /// Its release.
        moment: u64,
    },
    /// What is promised of a job.
    Budget {
        /// The job.
        job: u32,
        /// Its budget.
        moment: u64,
    },
    /// Nothing enters a machine before a moment.
    Hold {
        /// The machine.
        machine: u32,
        /// The moment.
        moment: u64,
    },
    /// A job is removed from the line, or from the plan.
    Scrap {
        /// The job.
        job: u32,
    },
    /// A machine does no more.
    Down {
        /// The machine.
        machine: u32,
    },
}

/// The forms of a change that options ask for, in the order in which the changes are made. `--down` has two.
#[derive(Clone, Copy)]
enum ChangeForm {
    Until,
    Add,
    Route,
    Release,
    Budget,
    Hold,
    Scrap,
    Down,
}

/// All of them, in that order.
const FORMS: &[ChangeForm] = &[
    ChangeForm::Until,
    ChangeForm::Add,
    ChangeForm::Route,
    ChangeForm::Release,
    ChangeForm::Budget,
    ChangeForm::Hold,
    ChangeForm::Scrap,
    ChangeForm::Down,
];

/// The changes that the words ask for, in the order in which they are made. A release or a budget without an equals sign
/// belongs to the `--add` before it, a name to that or to the `--down M=T` before it, and each stands once for it.
pub(crate) fn changes_of(
    alloc: Global,
    words: &[&str],
    matches: &ArgMatches<'_>,
) -> Result<Vec<AskedChange>, WordsFault>
    ensures exact { IfOk result (λ changes. map change_seen changes.items
        ≡ changes_in (map (λ word. word.now) words.now) (rows_of (found_of matches.now))) }
    ensures fits { IfOk result
        (λ _. revision_misfit (map (λ word. word.now) words.now) (rows_of (found_of matches.now)) ≡ []) }
    ensures refused { IfErr result
        (NamesOneOf (revision_misfit (map (λ word. word.now) words.now) (rows_of (found_of matches.now)))) }
{
    let released = attached_to(alloc, words, matches, "release", "--release")?;
    let promised = attached_to(alloc, words, matches, "budget", "--budget")?;
    let called = names_used(alloc, words, matches)?;
    let (released, promised) = (released.as_slice(), promised.as_slice());
    asked(alloc, matches, released, promised, called.as_slice())
}

/// The changes that the options ask for, in the order in which they are made.
fn asked(
    alloc: Global,
    matches: &ArgMatches<'_>,
    released: &[usize],
    promised: &[usize],
    called: &[NameOwner],
) -> Result<Vec<AskedChange>, WordsFault>
    ensures exact { IfOk result (λ changes. map change_seen changes.items
        ≡ all_asked released.now promised.now called.now (rows_of (found_of matches.now))) }
    ensures fits { IfOk result (λ _. forms_misfit (rows_of (found_of matches.now)) ≡ []) }
    ensures refused { IfErr result (NamesOneOf (forms_misfit (rows_of (found_of matches.now)))) }
{
    let mut changes = Vec::new(alloc);
    let forms = FORMS;
    for form in forms {
        add_changes(
            alloc,
            &mut changes,
            matches,
            released,
            promised,
            called,
            *form,
        )?;
    }
    Ok(changes)
}

/// Of each use of an option that goes with added jobs how many are added before it, where it is used. No two uses with
/// a moment alone go with one job.
fn attached_to(
    alloc: Global,
    words: &[&str],
    matches: &ArgMatches<'_>,
    name: &str,
    flag: &str,
) -> Result<Vec<usize>, WordsFault>
    ensures exact { IfOk result (λ owners. owners.items
        ≡ owners_used name.now flag.now (map (λ word. word.now) words.now) (rows_of (found_of matches.now))) }
    ensures fits { IfOk result (λ _.
        attached_misfit name.now flag.now (map (λ word. word.now) words.now) (rows_of (found_of matches.now)) ≡ []) }
    ensures refused { IfErr result (NamesOneOf
        (attached_misfit name.now flag.now (map (λ word. word.now) words.now) (rows_of (found_of matches.now)))) }
{
    if !matches.contains_id(name) {
        return Ok(Vec::new(alloc));
    }
    let owners = owners_of(alloc, words, flag)?;
    if !rises(matches, name, &owners) {
        return Err(misplaced(alloc, flag));
    }
    Ok(owners)
}

/// Whether what is left of a word behind an option's name ends that name.
fn ends_name(rest: &[u8]) -> bool
    ensures { result ≡ ends_name rest.now }
{
    match rest.first() {
        Some(byte) => *byte == b'=',
        None => true,
    }
}

/// Whether a word uses this option.
pub(crate) fn is_use(word: &str, flag: &str) -> bool
    ensures { result ≡ uses flag.now word.now }
{
    let (word, flag) = (word.as_bytes(), flag.as_bytes());
    if !word.starts_with(flag) {
        return false;
    }
    ends_name(&word[flag.len()..])
}

/// Of each use of an option how many jobs are added before it.
fn owners_of(alloc: Global, words: &[&str], flag: &str) -> Result<Vec<usize>, AllocError>
    ensures { IfOk result (λ owners. owners.items ≡ owners_in flag.now (map (λ word. word.now) words.now)) }
{
    let mut owners = Vec::new(alloc);
    let mut added = 0;
    for word in words {
        if *word == "--" {
            return Ok(owners);
        }
        if is_use(word, "--add") {
            added += 1;
        } else if is_use(word, flag) {
            owners.push(added)?;
        }
    }
    Ok(owners)
}

/// Whether each use with a moment alone stands behind an added job, and no two behind the same one.
fn rises(matches: &ArgMatches<'_>, name: &str, owners: &[usize]) -> bool
    ensures { result ≡ rises (values_of name.now (rows_of (found_of matches.now))) owners.now }
{
    let mut last = 0;
    for (place, owner) in owners.iter().enumerate() {
        if moment_at(matches, name, place).is_none() {
            continue;
        }
        if *owner <= last {
            return false;
        }
        last = *owner;
    }
    true
}

/// Adds the changes of an option.
fn add_changes(
    alloc: Global,
    changes: &mut Vec<AskedChange>,
    matches: &ArgMatches<'_>,
    released: &[usize],
    promised: &[usize],
    called: &[NameOwner],
    form: ChangeForm,
) -> Result<(), WordsFault>
    ensures added { OnOk result (map change_seen changes.new.items ≡ map change_seen changes.old.items
        ++ asked_by released.now promised.now called.now (rows_of (found_of matches.now)) form) }
    ensures fits { OnOk result (form_misfit (rows_of (found_of matches.now)) form ≡ []) }
    ensures refused { IfErr result (NamesOneOf (form_misfit (rows_of (found_of matches.now)) form)) }
{
    let Some(given) = matches.get_raw(option_of(form)) else {
        return Ok(());
    };
    for (place, word) in given.iter().enumerate() {
        add_value(
            alloc,
            changes,
            matches,
            released,
            promised,
            called,
            form,
            place + 1,
            word,
        )?;
    }
    Ok(())
}

/// Adds the change that a value of an option asks for, if it asks for one of its own.
fn add_value(
    alloc: Global,
    changes: &mut Vec<AskedChange>,
    matches: &ArgMatches<'_>,
    released: &[usize],
    promised: &[usize],
    called: &[NameOwner],
    form: ChangeForm,
    number: usize,
    word: &str,
) -> Result<(), WordsFault>
    ensures added { OnOk result (map change_seen changes.new.items ≡ map change_seen changes.old.items
        ++ asked_one released.now promised.now called.now (rows_of (found_of matches.now)) form number word.now) }
    ensures fits { OnOk result (is_such form word.now ≡ true) }
    ensures refused { IfErr result (NamesOneOf (values_misfit (is_such form) (word.now ∷ []))) }
{
    if is_passed_over(form, word) {
        return Ok(());
    }
    match kind_of(matches, released, promised, form, number, word) {
        Some(kind) => {
            let name = name_for(matches, called, form, number);
            add_change(alloc, changes, word, kind, name)?;
            Ok(())
        }
        None => Err(no_change(alloc, form, word)),
    }
}

/// Whether a value asks for no change of this form: it goes with an added job, or `--down` is asked for in the other form.
fn is_passed_over(form: ChangeForm, word: &str) -> bool
    ensures { result ≡ is_passed_over form word.now }
{
    match form {
        ChangeForm::Release | ChangeForm::Budget => moment_of(word).is_some(),
        ChangeForm::Hold => timed(word).is_none(),
        ChangeForm::Down => timed(word).is_some(),
        ChangeForm::Until | ChangeForm::Add | ChangeForm::Route | ChangeForm::Scrap => false,
    }
}

/// Adds a change.
fn add_change(
    alloc: Global,
    changes: &mut Vec<AskedChange>,
    word: &str,
    kind: ChangeKind,
    name: Option<&str>,
) -> Result<(), AllocError>
    ensures { OnOk result (map change_seen changes.new.items
        ≡ map change_seen changes.old.items ++ (word.now, kind, option_copied name.entry) ∷ []) }
{
    let value = String::from_str(alloc, word)?;
    let name = copied(alloc, name)?;
    changes.push(AskedChange { value, kind, name })?;
    Ok(())
}

/// A copy of a text, if there is one.
fn copied(alloc: Global, text: Option<&str>) -> Result<Option<String>, AllocError>
    ensures { IfOk result (λ copy. option_map string_bytes copy ≡ option_copied text.entry) }
{
    match text {
        Some(text) => Ok(Some(String::from_str(alloc, text)?)),
        None => Ok(None),
    }
}

/// The name that goes with a change of this form, counted from 1 among the values of its option.
fn name_for<'a>(
    matches: &'a ArgMatches<'_>,
    called: &[NameOwner],
    form: ChangeForm,
    number: usize,
) -> Option<&'a str>
    ensures { option_copied result ≡ name_in called.now (rows_of (found_of matches.now)) form number }
{
    name_with(matches, called, owner_of(form, number))
}

/// What a change of this form is as the owner of a name.
fn owner_of(form: ChangeForm, number: usize) -> NameOwner
    ensures { result ≡ owner_of form number }
{
    match form {
        ChangeForm::Add => NameOwner::Added(number),
        ChangeForm::Hold => NameOwner::Held(number),
        ChangeForm::Until
        | ChangeForm::Route
        | ChangeForm::Release
        | ChangeForm::Budget
        | ChangeForm::Scrap
        | ChangeForm::Down => NameOwner::Nobody,
    }
}

/// The name of an option.
fn option_of(form: ChangeForm) -> &'static str
    ensures { result.now ≡ option_of form }
{
    match form {
        ChangeForm::Until => "until",
        ChangeForm::Add => "add",
        ChangeForm::Route => "route",
        ChangeForm::Release => "release",
        ChangeForm::Budget => "budget",
        ChangeForm::Hold => "down",
        ChangeForm::Scrap => "scrap",
        ChangeForm::Down => "down",
    }
}

/// What a value of an option asks for by itself: of `--add` the job that is added as this one, counted from 1.
fn kind_of(
    matches: &ArgMatches<'_>,
    released: &[usize],
    promised: &[usize],
    form: ChangeForm,
    number: usize,
    word: &str,
) -> Option<ChangeKind>
    ensures { MatchOption result (is_own form word.now ≡ false) (λ kind. (is_own form word.now ≡ true)
        × (kind ≡ kind_in released.now promised.now (rows_of (found_of matches.now)) form number word.now)) }
{
    match form {
        ChangeForm::Until => match timed(word) {
            Some((machine, moment)) => Some(ChangeKind::Until { machine, moment }),
            None => None,
        },
        ChangeForm::Add => {
            Some(ChangeKind::Add {
                release: moment_with(matches, "release", released, number),
                budget: moment_with(matches, "budget", promised, number),
            })
        }
        ChangeForm::Route => match routed(word) {
            Some(job) => Some(ChangeKind::Route { job }),
            None => None,
        },
        ChangeForm::Release => match timed(word) {
            Some((job, moment)) => Some(ChangeKind::Release { job, moment }),
            None => None,
        },
        ChangeForm::Budget => match timed(word) {
            Some((job, moment)) => Some(ChangeKind::Budget { job, moment }),
            None => None,
        },
        ChangeForm::Hold => match timed(word) {
            Some((machine, moment)) => Some(ChangeKind::Hold { machine, moment }),
            None => None,
        },
        ChangeForm::Scrap => match short_number(word) {
            Some(job) => Some(ChangeKind::Scrap { job }),
            None => None,
        },
        ChangeForm::Down => match short_number(word) {
            Some(machine) => Some(ChangeKind::Down { machine }),
            None => None,
        },
    }
}

/// A number and a moment, `M=T` or `J=R`.
pub(crate) fn timed(word: &str) -> Option<(u32, u64)>
    ensures { MatchOption result (is_timed word.now ≡ false)
        (λ pair. (is_timed word.now ≡ true) × (pair.0 ≡ number_before word.now) × (pair.1 ≡ moment_behind word.now)) }
{
    let Some((number, moment)) = word.split_once('=') else {
        return None;
    };
    let Some(number) = short_number(number) else {
        return None;
    };
    match moment_of(moment) {
        Some(moment) => Some((number, moment)),
        None => None,
    }
}

/// The job that gets a route, `J=ROUTE`.
fn routed(word: &str) -> Option<u32>
    ensures { MatchOption result (is_routed word.now ≡ false)
        (λ job. (is_routed word.now ≡ true) × (job ≡ number_before word.now)) }
{
    let Some((job, _)) = word.split_once('=') else {
        return None;
    };
    short_number(job)
}

/// The number of 1 to 9 digits that the word is.
fn short_number(word: &str) -> Option<u32>
    ensures { MatchOption result (is_short word.now ≡ false)
        (λ n. (is_short word.now ≡ true) × (n ≡ value_of word.now)) }
{
    let form = NumberForm {
        digits: 9,
        least: 0,
        most: 999_999_999,
    };
    match number_in_form(word, form) {
        Some(number) => Some(number as u32),
        None => None,
    }
}

/// The moment that is given with an added job, counted from 1, if one is.
fn moment_with(matches: &ArgMatches<'_>, name: &str, owners: &[usize], number: usize) -> Option<u64>
    ensures { result ≡ moment_with owners.now (values_of name.now (rows_of (found_of matches.now))) number }
{
    for (place, owner) in owners.iter().enumerate() {
        if let Some(moment) = moment_for(matches, name, place, *owner, number) {
            return Some(moment);
        }
    }
    None
}

/// The moment that a use of an option has for an added job, if it goes with that job and its value is a moment.
fn moment_for(
    matches: &ArgMatches<'_>,
    name: &str,
    place: usize,
    owner: usize,
    number: usize,
) -> Option<u64>
    ensures { result ≡ moment_for (values_of name.now (rows_of (found_of matches.now))) number place owner }
{
    if owner == number {
        moment_at(matches, name, place)
    } else {
        None
    }
}

/// The moment that is the value of an option at a place, if there is one.
fn moment_at(matches: &ArgMatches<'_>, name: &str, place: usize) -> Option<u64>
    ensures { result ≡ moment_at (values_of name.now (rows_of (found_of matches.now))) place }
{
    let Some(given) = matches.get_raw(name) else {
        return None;
    };
    if place >= given.len() {
        return None;
    }
    moment_of(given[place])
}

/// The fault of a value that asks for no change.
fn no_change(alloc: Global, form: ChangeForm, word: &str) -> WordsFault
    ensures { NamesReason ErrorKind.ValueValidation result }
{
    let wanted = match form {
        ChangeForm::Until => {
            "' for '--until <M=T>': a machine of 1 to 9 digits, and a moment, at most 1000000000000"
        }
        ChangeForm::Add => "' for '--add <ROUTE>'",
        ChangeForm::Route => "' for '--route <J=ROUTE>': a job of 1 to 9 digits, and a route",
        ChangeForm::Release => {
            "' for '--release <R>': a moment, at most 1000000000000, or J= and a moment for job J"
        }
        ChangeForm::Budget => {
            "' for '--budget <B>': a moment, at most 1000000000000, or J= and a moment for job J"
        }
        ChangeForm::Scrap => "' for '--scrap <J>': a job has 1 to 9 digits",
        ChangeForm::Hold | ChangeForm::Down => {
            "' for '--down <M>': a machine of 1 to 9 digits, or M=T with a moment, at most 1000000000000"
        }
    };
    no_number(alloc, word, wanted)
}

/// The fault of an option that goes with no added job, or with one that has it already.
fn misplaced(alloc: Global, flag: &str) -> WordsFault
    ensures { NamesReason ErrorKind.ArgumentConflict result }
{
    let parts = [
        "the argument '",
        flag,
        "' needs an '--add <ROUTE>' before it, and can stand once for each",
    ];
    misfit(alloc, ErrorKind::ArgumentConflict, parts.as_slice())
}
