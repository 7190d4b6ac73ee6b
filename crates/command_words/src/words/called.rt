//! With which change each use of `--name` goes.

ghost use Rattle.std.specs.Prelude.{◌≡◌, [], IfOk, IfErr, codes, map, slice_get};
ghost use Rattle.std.specs.Option.{option_copied};
ghost use Rattle.clap.specs.Words.{found_of, rows_of};
ghost use Rattle.command_words.specs.Given.{values_of};
ghost use Rattle.command_words.specs.Changes.{goes_on, holds_at, is_same_owner, name_from, named_in, names_misfit};
ghost use Rattle.command_words.specs.Changes.{names_used, owner_behind};
ghost use Rattle.command_words.specs.Choice.{NamesOneOf, NamesReason};
ghost use Rattle.command_words.specs.declared.words.called.NameOwner.TheVariants.{Nobody};

use crate::words::changes::{is_use, timed};
use crate::words::{WordsFault, misfit};
use clap::ArgMatches;
use clap::error::ErrorKind;
use std::alloc::{AllocError, Global};

/// What a use of `--name` goes with.
#[derive(Clone, Copy)]
pub(crate) enum NameOwner {
    /// No change.
    Nobody,
    /// The use of `--add` with this number, from 1.
    Added(usize),
    /// The use of `--down` with this number, from 1, which holds a machine.
    Held(usize),
}

/// What each use of `--name` goes with, where it is used: with a change, and no two with one.
pub(crate) fn names_used(
    alloc: Global,
    words: &[&str],
    matches: &ArgMatches<'_>,
) -> Result<Vec<NameOwner>, WordsFault>
    ensures exact { IfOk result (λ owners. owners.items
        ≡ names_used (map (λ word. word.now) words.now) (rows_of (found_of matches.now))) }
    ensures fits { IfOk result
        (λ _. names_misfit (map (λ word. word.now) words.now) (rows_of (found_of matches.now)) ≡ []) }
    ensures refused { IfErr result
        (NamesOneOf (names_misfit (map (λ word. word.now) words.now) (rows_of (found_of matches.now)))) }
{
    if !matches.contains_id("name") {
        return Ok(Vec::new(alloc));
    }
    let owners = named_in(alloc, words, matches)?;
    if !goes_on(NameOwner::Nobody, &owners) {
        return Err(unnamed(alloc));
    }
    Ok(owners)
}

/// What each use of `--name` goes with.
fn named_in(
    alloc: Global,
    words: &[&str],
    matches: &ArgMatches<'_>,
) -> Result<Vec<NameOwner>, AllocError>
    ensures { IfOk result (λ owners. owners.items
        ≡ named_in (values_of (codes "down") (rows_of (found_of matches.now))) (map (λ word. word.now) words.now)) }
{
    let mut owners = Vec::new(alloc);
    let (mut added, mut stopped) = (0, 0);
    let mut last = NameOwner::Nobody;
    for word in words {
        if *word == "--" {
            return Ok(owners);
        }
        if is_use(word, "--name") {
            owners.push(last)?;
        } else if is_use(word, "--add") {
            added += 1;
            last = NameOwner::Added(added);
        } else if is_use(word, "--down") {
            last = owner_behind(matches, stopped, stopped + 1, last);
            stopped += 1;
        }
    }
    Ok(owners)
}

/// What a name goes with behind the use of `--down` at a place, which has this number.
fn owner_behind(matches: &ArgMatches<'_>, place: usize, number: usize, last: NameOwner) -> NameOwner
    ensures { result ≡ owner_behind (values_of (codes "down") (rows_of (found_of matches.now))) place number last }
{
    if holds_at(matches, place) {
        NameOwner::Held(number)
    } else {
        last
    }
}

/// Whether the use of `--down` at a place holds a machine.
fn holds_at(matches: &ArgMatches<'_>, place: usize) -> bool
    ensures { result ≡ holds_at (values_of (codes "down") (rows_of (found_of matches.now))) place }
{
    match value_at(matches, "down", place) {
        Some(word) => timed(word).is_some(),
        None => false,
    }
}

/// The value of an option at a place, if there is one.
fn value_at<'a>(matches: &'a ArgMatches<'_>, name: &str, place: usize) -> Option<&'a str>
    ensures { option_copied result ≡ slice_get (values_of name.now (rows_of (found_of matches.now))) place }
{
    let Some(given) = matches.get_raw(name) else {
        return None;
    };
    if place >= given.len() {
        return None;
    }
    Some(given[place])
}

/// Whether both are the same.
fn is_same(one: NameOwner, other: NameOwner) -> bool
    ensures { result ≡ is_same_owner one other }
{
    match (one, other) {
        (NameOwner::Nobody, NameOwner::Nobody) => true,
        (NameOwner::Added(one), NameOwner::Added(other)) => one == other,
        (NameOwner::Held(one), NameOwner::Held(other)) => one == other,
        _ => false,
    }
}

/// Whether each goes with another one than that before it, and the first with another than this one.
fn goes_on(first: NameOwner, owners: &[NameOwner]) -> bool
    ensures { result ≡ goes_on first owners.now }
{
    let mut last = first;
    for owner in owners {
        if is_same(*owner, last) {
            return false;
        }
        last = *owner;
    }
    true
}

/// The name that goes with one of them, if one does.
pub(crate) fn name_with<'a>(
    matches: &'a ArgMatches<'_>,
    owners: &[NameOwner],
    wanted: NameOwner,
) -> Option<&'a str>
    ensures { option_copied result
        ≡ name_from (values_of (codes "name") (rows_of (found_of matches.now))) wanted 0 owners.now }
{
    for (place, owner) in owners.iter().enumerate() {
        if is_same(*owner, wanted) {
            return value_at(matches, "name", place);
        }
    }
    None
}

/// The fault of a name that goes with no change, or with one that has it already.
fn unnamed(alloc: Global) -> WordsFault
    ensures { NamesReason ErrorKind.ArgumentConflict result }
{
    let parts = [
        "the argument '--name <NAME>' needs an '--add <ROUTE>' or '--down <M=T>' before it, ",
        "and can stand once for each",
    ];
    misfit(alloc, ErrorKind::ArgumentConflict, parts.as_slice())
}
