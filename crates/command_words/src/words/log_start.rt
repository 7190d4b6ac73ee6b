//! How the log that a driven cell keeps has to begin.

ghost use Rattle.std.specs.Prelude.{◌≡◌, [], IfOk, IfErr};
ghost use Rattle.clap.specs.Words.{found_of, rows_of};
ghost use Rattle.command_words.specs.Choice.{NamesOneOf, continues_log, is_asked, is_twofold};
ghost use Rattle.command_words.specs.Choice.{lacks_log, start_chosen, start_misfit};

use crate::words::{WordsFault, has_log, is_set, no_both, no_log};
use clap::ArgMatches;
use std::alloc::Global;

/// How the log that a driven cell keeps has to begin.
#[derive(Clone, Copy, Debug, PartialEq, Eq)]
pub enum LogStart {
    /// It may have begun, or not.
    Any,
    /// It hasn't begun.
    New,
    /// It has begun, by this plan.
    Continue,
    /// It has begun, by any plan.
    HandOver,
}

/// How the log has to begin, which goes with a log to keep.
pub(crate) fn start_of(alloc: Global, matches: &ArgMatches<'_>) -> Result<LogStart, WordsFault>
    ensures exact { IfOk result (λ start. start ≡ start_chosen (rows_of (found_of matches.now))) }
    ensures fits { IfOk result (λ _. start_misfit (rows_of (found_of matches.now)) ≡ []) }
    ensures refused { IfErr result (NamesOneOf (start_misfit (rows_of (found_of matches.now)))) }
{
    let start = start_read(matches);
    if is_twofold(matches, start) {
        return Err(no_both(alloc, "--new", option_of(start)));
    }
    if lacks_log(matches, start) {
        return Err(no_log(alloc, "drive"));
    }
    Ok(start)
}

/// How the log has to begin, by the last of the switches that is set.
fn start_read(matches: &ArgMatches<'_>) -> LogStart
    ensures { result ≡ start_chosen (rows_of (found_of matches.now)) }
{
    if is_set(matches, "hand-over") {
        LogStart::HandOver
    } else if is_set(matches, "continue") {
        LogStart::Continue
    } else if is_set(matches, "new") {
        LogStart::New
    } else {
        LogStart::Any
    }
}

/// Whether the log has to have begun.
fn goes_on(start: LogStart) -> bool
    ensures { result ≡ continues_log start }
{
    match start {
        LogStart::Any | LogStart::New => false,
        LogStart::Continue | LogStart::HandOver => true,
    }
}

/// Whether the log is to be new and to have begun.
fn is_twofold(matches: &ArgMatches<'_>, start: LogStart) -> bool
    ensures { result ≡ is_twofold start (rows_of (found_of matches.now)) }
{
    is_set(matches, "new") && goes_on(start)
}

/// Whether a beginning is asked for.
fn is_asked(start: LogStart) -> bool
    ensures { result ≡ is_asked start }
{
    match start {
        LogStart::Any => false,
        LogStart::New | LogStart::Continue | LogStart::HandOver => true,
    }
}

/// Whether a beginning is asked for, and there is no log.
fn lacks_log(matches: &ArgMatches<'_>, start: LogStart) -> bool
    ensures { result ≡ lacks_log start (rows_of (found_of matches.now)) }
{
    is_asked(start) && !has_log(matches)
}

/// The option that asks for this beginning, where one does.
fn option_of(start: LogStart) -> &'static str {
    match start {
        LogStart::HandOver => "--hand-over",
        LogStart::Any | LogStart::New | LogStart::Continue => "--continue",
    }
}
