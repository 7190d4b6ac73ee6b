//! What is printed of a plan that is changed in mid-run.

ghost use Rattle.std.specs.Prelude.{◌≡◌, [], IfOk, IfErr, Some, codes, is_some, map};
ghost use Rattle.std.specs.List.{list_any};
ghost use Rattle.clap.specs.Words.{first_of, found_of, rows_of};
ghost use Rattle.clap.specs.declared.error.kind.ErrorKind.TheVariants.{MissingRequiredArgument};
ghost use Rattle.command_words.specs.Choice.{NamesOneOf, NamesReason, goes_with_all, lacks_all, lacks_names, prints_chosen};
ghost use Rattle.command_words.specs.{Changes.is_timed, Given.values_of};
ghost use Rattle.command_words.specs.Choice.{prints_misfit};

use crate::words::changes::timed;
use crate::words::{WordsFault, are_both_set, is_set, misfit, no_both};
use clap::ArgMatches;
use clap::error::ErrorKind;
use std::alloc::Global;

/// What is printed of a plan that is changed in mid-run.
#[derive(Clone, Copy, Debug, PartialEq, Eq)]
pub enum Prints {
    /// The plan.
    Plan,
    /// The instance.
    File,
    /// The log, with the instance, the plan and names in it.
    Log {
        /// Whether jobs that are over are left out.
        pruned: bool,
        /// Whether the log may be one of any plan.
        hand_over: bool,
    },
}

/// What is printed, by a command of this word.
pub(crate) fn prints_of(
    alloc: Global,
    word: &str,
    matches: &ArgMatches<'_>,
) -> Result<Prints, WordsFault>
    ensures exact { IfOk result (λ prints. prints ≡ prints_chosen (rows_of (found_of matches.now))) }
    ensures fits { IfOk result (λ _. prints_misfit (Some word.now) (rows_of (found_of matches.now)) ≡ []) }
    ensures refused { IfErr result (NamesOneOf (prints_misfit (Some word.now) (rows_of (found_of matches.now)))) }
{
    if are_both_set(matches, "all", "file") {
        return Err(no_both(alloc, "--all", "--file"));
    }
    if lacks_all(word, matches) {
        return Err(no_argument(alloc, "--all"));
    }
    if lacks_names(matches) {
        return Err(no_argument(alloc, "--names <NAMES>"));
    }
    Ok(prints_read(matches))
}

/// What is printed, by the switches that are set.
fn prints_read(matches: &ArgMatches<'_>) -> Prints
    ensures { result ≡ prints_chosen (rows_of (found_of matches.now)) }
{
    if is_set(matches, "all") {
        Prints::Log {
            pruned: is_set(matches, "forget"),
            hand_over: is_set(matches, "hand-over"),
        }
    } else if is_set(matches, "file") {
        Prints::File
    } else {
        Prints::Plan
    }
}

/// Whether an option is given.
fn is_given(matches: &ArgMatches<'_>, name: &str) -> bool
    ensures { result ≡ is_some (first_of name.now (rows_of (found_of matches.now))) }
{
    matches.get_str(name).is_some()
}

/// Whether something is given that goes only with all texts.
fn goes_with_all(matches: &ArgMatches<'_>) -> bool
    ensures { result ≡ goes_with_all (rows_of (found_of matches.now)) }
{
    is_set(matches, "forget")
        || is_set(matches, "hand-over")
        || is_given(matches, "names")
        || holds(matches)
}

/// Whether a machine is to be held.
fn holds(matches: &ArgMatches<'_>) -> bool
    ensures { result ≡ list_any is_timed (values_of (codes "down") (rows_of (found_of matches.now))) }
{
    match matches.get_raw("down") {
        Some(given) => is_any_timed(given),
        None => false,
    }
}

/// Whether one of these is a number and a moment.
fn is_any_timed(words: &[&str]) -> bool
    ensures { result ≡ list_any is_timed (map (λ word. word.now) words.now) }
{
    for word in words {
        if timed(word).is_some() {
            return true;
        }
    }
    false
}

/// Whether a job gets a name, and no file of names is given.
fn lacks_names(matches: &ArgMatches<'_>) -> bool
    ensures { result ≡ lacks_names (rows_of (found_of matches.now)) }
{
    let has_names = is_given(matches, "names");
    is_given(matches, "name") && !has_names
}

/// Whether something is given that goes with all texts, and they aren't asked for.
fn lacks_all(word: &str, matches: &ArgMatches<'_>) -> bool
    ensures { result ≡ lacks_all (Some word.now) (rows_of (found_of matches.now)) }
{
    if word != "revise" {
        return false;
    }
    if is_set(matches, "all") {
        return false;
    }
    goes_with_all(matches)
}

/// The fault of what goes only with another argument, where that isn't given.
fn no_argument(alloc: Global, argument: &str) -> WordsFault
    ensures { NamesReason MissingRequiredArgument result }
{
    let parts = [
        "the following required arguments were not provided:\n  ",
        argument,
    ];
    misfit(alloc, ErrorKind::MissingRequiredArgument, parts.as_slice())
}
