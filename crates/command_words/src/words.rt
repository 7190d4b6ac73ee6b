//! The words of the command line, and what they ask for.

ghost use Rattle.std.specs.Prelude.{◌≡◌, ◌≤◌, ◌++◌, [], true, false, IfOk, IfErr, IfSome, MatchOption};
ghost use Rattle.std.specs.Prelude.{OnOk, Some, codes, map, option_map, is_some};
ghost use Rattle.std.specs.String.{string_bytes};
ghost use Rattle.text_lines.specs.Numbers.{value_of};
ghost use Rattle.clap.specs.Words.{Kinds, first_of, found_of, kind_of, one_of, rows_of, subcommand_rows_of};
ghost use Rattle.command_words.specs.declared.words.CommandName.{CommandName};
ghost use Rattle.command_words.specs.CommandLine.{most_rounds, greatest_seed, most_choices, latest_moment};
ghost use Rattle.command_words.specs.Given.{is_moment, is_number, values_of};
ghost use Rattle.command_words.specs.Choice.{AreMarksOf, AreTextsOf, FitsBetween, IsChoiceOf, IsFit, IsChoiceWithin, NamesOneOf};
ghost use Rattle.command_words.specs.Choice.{NamesReason, marks_misfit};
ghost use Rattle.command_words.specs.Choice.{are_both, at_in, choices_in, decision_misfit, are_both_set, files_in};
ghost use Rattle.command_words.specs.Choice.{first_given, found_in, is_set, job_chosen, job_misfit, kept_in, leap_in};
ghost use Rattle.command_words.specs.Choice.{leap_misfit, lines_in, lines_misfit, log_given, misfit_in, misfit_of};
ghost use Rattle.command_words.specs.Choice.{misfits_of, moves_chosen, moves_misfit, number_misfit, reasons_in, rounds_in};
ghost use Rattle.command_words.specs.Choice.{seed_in, texts_of, version_of, command_word_of};

mod called;
mod changes;
mod command_line;
mod log_start;
mod printed;

use changes::changes_of;
pub use changes::{AskedChange, ChangeKind};
use clap::ArgMatches;
use clap::error::ErrorKind;
pub use log_start::LogStart;
use log_start::start_of;
pub use printed::Prints;
use printed::prints_of;
use std::alloc::{AllocError, Global};
use text_lines::number_of;
use thiserror::Error;

/// The latest moment.
const LATEST: u64 = 1_000_000_000_000;

/// The most digits of a moment.
const MOST_DIGITS: usize = 13;

/// Which numbers an option takes: of at most `digits` digits, from the least to the most.
#[derive(Clone, Copy)]
struct NumberForm {
    digits: usize,
    least: u64,
    most: u64,
}

/// The commands of the program.
#[derive(Clone, Copy, Debug, PartialEq, Eq)]
pub enum CommandName {
    /// No words: the facts of an instance on the standard input.
    Input,
    /// The size of an instance.
    Facts,
    /// Whether a plan has the shape of its instance.
    Shape,
    /// Whether a plan is accepted.
    Check,
    /// Why a plan is accepted or refused.
    Explain,
    /// When what begins and ends, and how late each may end.
    Schedule,
    /// What no plan can do, whatever its orders.
    Bounds,
    /// How much longer everything may take.
    Margin,
    /// The search of an accepted plan.
    Plan,
    /// The search of a better plan.
    Improve,
    /// Whether any plan keeps the budgets.
    Decide,
    /// A plan, or its instance, with changes in mid-run.
    Revise,
    /// One cell, driven by reports on the standard input.
    Drive,
    /// One cell, driven on from the log of a run that was cut off.
    Resume,
    /// Several cells, one for each plan.
    Hub,
    /// By which digits a log names a plan and its shop.
    Digest,
    /// Whether a log is the log of a run.
    Audit,
    /// Where each job of a run is, and what is overdue.
    State,
    /// A log as a chart.
    Gantt,
}

/// The versions of the lines that a driven cell reads and writes.
#[derive(Clone, Copy, Debug, PartialEq, Eq)]
pub enum Lines {
    /// The lines without which no cell is driven.
    One,
    /// More can be asked for, and the answers say more.
    Two,
}

/// What a command line asks for.
#[derive(Debug, Drop)]
pub struct Chosen {
    /// The command.
    pub name: CommandName,
    /// The files in the order given: the instance, the plan or plans, the log.
    pub files: Vec<String>,
    /// The name of the instance in its collection.
    pub instance: Option<String>,
    /// The rounds of a search, 20 if none are given.
    pub rounds: u32,
    /// The seed of a search's random numbers, 0 if none is given.
    pub seed: u32,
    /// The choices of a complete search, 200,000 if none are given.
    pub choices: u32,
    /// The job of whose leaving is asked or printed, if one is given.
    pub job: Option<u32>,
    /// Whether the least makespan is asked for.
    pub least: bool,
    /// The log of a run, of whose rest is asked.
    pub after: Option<String>,
    /// The log that a driven cell keeps, if it is to keep one.
    pub log: Option<String>,
    /// The present moment of the run in a log, if another one than the log's last is given.
    pub at: Option<u64>,
    /// The version of the lines of a driven cell, if one is given.
    pub lines: Option<Lines>,
    /// The longest time from one report to the next, at least 1, if one is given.
    pub leap: Option<u64>,
    /// Whether a picture is drawn in place of the text.
    pub svg: bool,
    /// Whether the moves are printed in place of the moments.
    pub moves: bool,
    /// The file of the names of jobs and machines, and of the clock.
    pub names: Option<String>,
    /// How the log that a driven cell keeps has to begin.
    pub start: LogStart,
    /// The changes of a plan in mid-run, in the order in which they are made.
    pub changes: Vec<AskedChange>,
    /// What is printed of a plan that is changed in mid-run.
    pub prints: Prints,
}

/// What has to fit together of a choice, but for its changes.
#[derive(Clone, Copy)]
struct Marks {
    at: Option<u64>,
    lines: Option<Lines>,
    leap: Option<u64>,
    job: Option<u32>,
    moves: bool,
    start: LogStart,
}

/// The texts of a choice.
#[derive(Drop)]
struct GivenTexts {
    instance: Option<String>,
    after: Option<String>,
    log: Option<String>,
    names: Option<String>,
    files: Vec<String>,
}

/// Why the words choose nothing.
#[derive(Debug, Drop, Error)]
pub enum WordsFault {
    /// The words are no command line of the program, or ask for help or for the version.
    #[error("{text}")]
    Usage {
        /// Help or the version was asked for, so the text goes to the standard output and is no mistake.
        help: bool,
        /// The help, the version, or what is wrong with the words.
        text: String,
    },
    /// Memory ran out.
    #[error("Memory")]
    Memory,
}

impl From<AllocError> for WordsFault {
    ghost use Rattle.std.specs.Prelude.{◌≡◌};
    ghost use Rattle.command_words.specs.declared.words.WordsFault.TheVariants.{Memory};

    ghost from_gives = { λ _ fault. fault ≡ Memory };

    fn from(_error: AllocError) -> WordsFault {
        WordsFault::Memory
    }
}

/// Why `clap` refuses the words, and what it says then.
#[derive(Drop)]
struct Refusal {
    kind: ErrorKind,
    text: String,
}

impl From<Refusal> for WordsFault {
    ghost use Rattle.command_words.specs.Choice.{IsFaultOf};

    ghost from_gives = { λ refusal fault. IsFaultOf refusal.kind fault };

    fn from(refusal: Refusal) -> WordsFault {
        let Refusal { kind, text } = refusal;
        match kind {
            ErrorKind::OutOfMemory => WordsFault::Memory,
            ErrorKind::DisplayHelp | ErrorKind::DisplayVersion => {
                WordsFault::Usage { help: true, text }
            }
            _ => WordsFault::Usage { help: false, text },
        }
    }
}

/// Reads the command line, whose first word is the program's name. `WordsFault::Memory` may come in place of any other
/// answer. The number of files is one that the command takes, the rounds are at most 1000, the seed at most 1,000,000,
/// the choices from 1 to 1,000,000,000, and the moment, a number of 1 to 13 digits, at most 1,000,000,000,000. Exactly
/// these are refused: what `clap` refuses, a moment that isn't one, or that comes without a log, a version of the lines
/// or a longest time that isn't one, a job that isn't a number of 1 to 9 digits, or that comes with the least makespan,
/// moves that come with a picture, a beginning that comes without a log to keep, or of a log that is to be new and to
/// have begun, of a changed plan all texts with the instance alone, what goes with all texts without them, or a name
/// without a file of names, a change that isn't one, and a release, a budget or a name that goes with no job that is
/// added, a name that goes with none that holds a machine either, or any that goes with one that has it.
pub fn read_words(alloc: Global, words: &[&str]) -> Result<Chosen, WordsFault>
    ensures chosen { let given = map (λ word. word.now) words.now in IfOk result (IsChoiceOf given (found_in given)) }
    ensures within { IfOk result IsChoiceWithin }
    ensures accepted { IfOk result (λ _. reasons_in (map (λ word. word.now) words.now) ≡ []) }
    ensures refused { IfErr result (NamesOneOf (reasons_in (map (λ word. word.now) words.now))) }
{
    let program = command_line::whole(alloc)?;
    match program.try_get_matches_from(words) {
        Ok(matches) => {
            let chosen = chosen_by(alloc, words, &matches);
            drop(matches);
            chosen
        }
        Err(error) => {
            let fault = fault_of(alloc, &error);
            drop(error);
            Err(fault)
        }
    }
}

/// What `clap` refuses, as a fault.
fn fault_of(alloc: Global, error: &clap::Error) -> WordsFault
    ensures { NamesReason (kind_of error.now) result }
{
    let kind = error.kind();
    match error.to_string(alloc) {
        Ok(text) => WordsFault::from(Refusal { kind, text }),
        Err(error) => WordsFault::from(error),
    }
}

/// The choice that the matches of the whole command line make.
fn chosen_by(alloc: Global, words: &[&str], matches: &ArgMatches<'_>) -> Result<Chosen, WordsFault>
    requires { IsFit (subcommand_rows_of matches.now) }
    ensures holds { IfOk result (IsChoiceOf (map (λ word. word.now) words.now) (subcommand_rows_of matches.now)) }
    ensures within { IfOk result IsChoiceWithin }
    ensures fits { IfOk result
        (λ _. misfit_in (map (λ word. word.now) words.now) (subcommand_rows_of matches.now) ≡ []) }
    ensures refused { IfErr result
        (NamesOneOf (misfit_in (map (λ word. word.now) words.now) (subcommand_rows_of matches.now))) }
{
    match matches.subcommand() {
        Some((word, matches)) => chosen_of(alloc, words, word, matches),
        None => Ok(Chosen {
            name: CommandName::Input,
            files: Vec::new(alloc),
            instance: None,
            rounds: 20,
            seed: 0,
            choices: 200_000,
            job: None,
            least: false,
            after: None,
            log: None,
            at: None,
            lines: None,
            leap: None,
            svg: false,
            moves: false,
            names: None,
            start: LogStart::Any,
            changes: Vec::new(alloc),
            prints: Prints::Plan,
        }),
    }
}

/// The choice that the matches of one command make.
fn chosen_of(
    alloc: Global,
    words: &[&str],
    word: &str,
    matches: &ArgMatches<'_>,
) -> Result<Chosen, WordsFault>
    requires { IsFit (Some (word.now, rows_of (found_of matches.now))) }
    ensures holds { IfOk result
        (IsChoiceOf (map (λ given. given.now) words.now) (Some (word.now, rows_of (found_of matches.now)))) }
    ensures within { IfOk result IsChoiceWithin }
    ensures fits { IfOk result
        (λ _. misfit_in (map (λ given. given.now) words.now) (Some (word.now, rows_of (found_of matches.now))) ≡ []) }
    ensures refused { IfErr result (NamesOneOf
        (misfit_in (map (λ given. given.now) words.now) (Some (word.now, rows_of (found_of matches.now))))) }
{
    let marks = marks_of(alloc, word, matches)?;
    let prints = prints_of(alloc, word, matches)?;
    let changes = changes_of(alloc, words, matches)?;
    let given = given_of(alloc, matches)?;
    Ok(Chosen {
        name: name_of(word),
        files: given.files,
        instance: given.instance,
        rounds: rounds_of(matches),
        seed: seed_of(matches),
        after: given.after,
        log: given.log,
        at: marks.at,
        lines: marks.lines,
        leap: marks.leap,
        choices: choices_of(matches),
        job: marks.job,
        least: is_set(matches, "least"),
        svg: is_set(matches, "svg"),
        moves: marks.moves,
        names: given.names,
        start: marks.start,
        changes,
        prints,
    })
}

/// What has to fit together, but for the changes.
fn marks_of(alloc: Global, word: &str, matches: &ArgMatches<'_>) -> Result<Marks, WordsFault>
    ensures exact { IfOk result (AreMarksOf (rows_of (found_of matches.now))) }
    ensures fits { IfOk result
        (λ _. (others : Kinds) → marks_misfit (rows_of (found_of matches.now)) others ≡ others) }
    ensures refused { IfErr result
        (λ fault. (others : Kinds) → NamesOneOf (marks_misfit (rows_of (found_of matches.now)) others) fault) }
{
    Ok(Marks {
        at: rest_at(alloc, word, matches)?,
        lines: lines_of(alloc, matches)?,
        leap: leap_of(alloc, matches)?,
        job: job_of(alloc, matches)?,
        moves: moves_of(alloc, matches)?,
        start: start_of(alloc, matches)?,
    })
}

/// The files and the other texts.
fn given_of(alloc: Global, matches: &ArgMatches<'_>) -> Result<GivenTexts, AllocError>
    ensures { IfOk result (AreTextsOf (rows_of (found_of matches.now))) }
{
    Ok(GivenTexts {
        instance: text_of(alloc, matches, "instance")?,
        after: text_of(alloc, matches, "after")?,
        log: text_of(alloc, matches, "log")?,
        names: text_of(alloc, matches, "names")?,
        files: files_of(alloc, matches)?,
    })
}

/// The command of a word.
fn name_of(word: &str) -> CommandName
    requires { (name : CommandName) × (command_word_of name ≡ Some word.now) }
    ensures { command_word_of result ≡ Some word.now }
{
    match word {
        "facts" => CommandName::Facts,
        "shape" => CommandName::Shape,
        "check" => CommandName::Check,
        "explain" => CommandName::Explain,
        "schedule" => CommandName::Schedule,
        "bounds" => CommandName::Bounds,
        "margin" => CommandName::Margin,
        "plan" => CommandName::Plan,
        "improve" => CommandName::Improve,
        "decide" => CommandName::Decide,
        "revise" => CommandName::Revise,
        "drive" => CommandName::Drive,
        "resume" => CommandName::Resume,
        "hub" => CommandName::Hub,
        "digest" => CommandName::Digest,
        "audit" => CommandName::Audit,
        "state" => CommandName::State,
        _ => CommandName::Gantt,
    }
}

/// The files, in the order given.
fn files_of(alloc: Global, matches: &ArgMatches<'_>) -> Result<Vec<String>, AllocError>
    ensures { IfOk result (λ files. texts_of files.items ≡ files_in (rows_of (found_of matches.now))) }
{
    let mut files = Vec::new(alloc);
    add_values(alloc, &mut files, matches, "FILE")?;
    add_values(alloc, &mut files, matches, "PLAN")?;
    add_values(alloc, &mut files, matches, "LOG")?;
    Ok(files)
}

/// Adds the values of an argument.
fn add_values(
    alloc: Global,
    files: &mut Vec<String>,
    matches: &ArgMatches<'_>,
    name: &str,
) -> Result<(), AllocError>
    ensures { OnOk result
        (texts_of files.new.items ≡ texts_of files.old.items ++ values_of name.now (rows_of (found_of matches.now))) }
{
    let Some(values) = matches.get_raw(name) else {
        return Ok(());
    };
    for value in values {
        files.push(String::from_str(alloc, value)?)?;
    }
    Ok(())
}

/// The text that is given with an option.
fn text_of(
    alloc: Global,
    matches: &ArgMatches<'_>,
    name: &str,
) -> Result<Option<String>, AllocError>
    ensures { IfOk result (λ text. option_map string_bytes text ≡ first_of name.now (rows_of (found_of matches.now))) }
{
    match matches.get_str(name) {
        Some(text) => Ok(Some(String::from_str(alloc, text)?)),
        None => Ok(None),
    }
}

/// The number of rounds.
fn rounds_of(matches: &ArgMatches<'_>) -> u32
    requires { FitsBetween 0 most_rounds (one_of (codes "rounds") (rows_of (found_of matches.now))) }
    ensures exact { result ≡ rounds_in (rows_of (found_of matches.now)) }
    ensures few { result ≤ most_rounds }
{
    matches.get_one::<u32>("rounds").unwrap_or(20)
}

/// The seed of a search's random numbers.
fn seed_of(matches: &ArgMatches<'_>) -> u32
    requires { FitsBetween 0 greatest_seed (one_of (codes "seed") (rows_of (found_of matches.now))) }
    ensures exact { result ≡ seed_in (rows_of (found_of matches.now)) }
    ensures small { result ≤ greatest_seed }
{
    matches.get_one::<u32>("seed").unwrap_or(0)
}

/// The choices of a complete search.
fn choices_of(matches: &ArgMatches<'_>) -> u32
    requires { FitsBetween 1 most_choices (one_of (codes "choices") (rows_of (found_of matches.now))) }
    ensures exact { result ≡ choices_in (rows_of (found_of matches.now)) }
    ensures some { 1 ≤ result }
    ensures few { result ≤ most_choices }
{
    matches.get_one::<u32>("choices").unwrap_or(200_000)
}

/// Whether a switch is set.
fn is_set(matches: &ArgMatches<'_>, name: &str) -> bool
    ensures { result ≡ is_set name.now (rows_of (found_of matches.now)) }
{
    match matches.get_str(name) {
        Some(value) => value == "true",
        None => false,
    }
}

/// Whether an option is given, and a switch set.
fn are_both(matches: &ArgMatches<'_>, option: &str, switch: &str) -> bool
    ensures { result ≡ are_both option.now switch.now (rows_of (found_of matches.now)) }
{
    match matches.get_str(option) {
        Some(_) => is_set(matches, switch),
        None => false,
    }
}

/// Whether two switches are set.
fn are_both_set(matches: &ArgMatches<'_>, one: &str, other: &str) -> bool
    ensures { result ≡ are_both_set one.now other.now (rows_of (found_of matches.now)) }
{
    is_set(matches, one) && is_set(matches, other)
}

/// Whether there is a log: that of whose rest is asked, the file of one, or that which a driven cell keeps.
fn has_log(matches: &ArgMatches<'_>) -> bool
    ensures { result ≡ is_some (log_given (rows_of (found_of matches.now))) }
{
    match matches.get_str("after") {
        Some(_) => true,
        None => has_log_file(matches),
    }
}

/// Whether there is the file of a log, or a log which a driven cell keeps.
fn has_log_file(matches: &ArgMatches<'_>) -> bool
    ensures { let rows = rows_of (found_of matches.now) in
        result ≡ is_some (first_given (first_of (codes "LOG") rows) (kept_in rows)) }
{
    match matches.get_str("LOG") {
        Some(_) => true,
        None => matches.get_str("log").is_some(),
    }
}

/// The present moment, if it is given, which goes with a log.
fn rest_at(
    alloc: Global,
    command: &str,
    matches: &ArgMatches<'_>,
) -> Result<Option<u64>, WordsFault>
    ensures exact { IfOk result (λ at. at ≡ at_in (rows_of (found_of matches.now))) }
    ensures early { IfOk result (λ at. IfSome at (λ n. n ≤ latest_moment)) }
    ensures fits { IfOk result (λ _. misfits_of (rows_of (found_of matches.now)) ≡ []) }
    ensures refused { IfErr result (NamesOneOf (misfits_of (rows_of (found_of matches.now)))) }
{
    let Some(word) = matches.get_str("at") else {
        return Ok(None);
    };
    if !has_log(matches) {
        return Err(no_log(alloc, command));
    }
    match moment_of(word) {
        Some(moment) => Ok(Some(moment)),
        None => Err(no_moment(alloc, word)),
    }
}

/// The moment that the word is.
fn moment_of(word: &str) -> Option<u64>
    ensures { MatchOption result (is_moment word.now ≡ false)
        (λ n. (is_moment word.now ≡ true) × (n ≡ value_of word.now) × (n ≤ latest_moment)) }
{
    let Some(number) = number_of(word.as_bytes(), MOST_DIGITS) else {
        return None;
    };
    if number > LATEST {
        return None;
    }
    Some(number)
}

/// The fault of a moment without a log.
fn no_log(alloc: Global, command: &str) -> WordsFault
    ensures { NamesReason ErrorKind.MissingRequiredArgument result }
{
    let option = if command == "drive" {
        "--log"
    } else {
        "--after"
    };
    let parts = [
        "the following required arguments were not provided:\n  ",
        option,
        " <LOG>",
    ];
    misfit(alloc, ErrorKind::MissingRequiredArgument, parts.as_slice())
}

/// The fault of a word that isn't a moment.
fn no_moment(alloc: Global, word: &str) -> WordsFault
    ensures { NamesReason ErrorKind.ValueValidation result }
{
    let parts = [
        "invalid value '",
        word,
        "' for '--at <N>': a moment has 1 to 13 digits, and is at most 1000000000000",
    ];
    misfit(alloc, ErrorKind::ValueValidation, parts.as_slice())
}

/// The version of this number, 1 or 2.
fn version_of(number: u64) -> Lines
    ensures { result ≡ version_of number }
{
    if number == 2 { Lines::Two } else { Lines::One }
}

/// The version of the lines, if it is given.
fn lines_of(alloc: Global, matches: &ArgMatches<'_>) -> Result<Option<Lines>, WordsFault>
    ensures exact { IfOk result (λ version. version ≡ lines_in (rows_of (found_of matches.now))) }
    ensures fits { IfOk result (λ _. lines_misfit (rows_of (found_of matches.now)) ≡ []) }
    ensures refused { IfErr result (NamesOneOf (lines_misfit (rows_of (found_of matches.now)))) }
{
    let form = NumberForm {
        digits: 1,
        least: 1,
        most: 2,
    };
    let wanted = "' for '--lines <V>': the versions are 1 and 2";
    match number_given(alloc, matches, "lines", form, wanted) {
        Ok(Some(number)) => Ok(Some(version_of(number))),
        Ok(None) => Ok(None),
        Err(fault) => Err(fault),
    }
}

/// The longest time from one report to the next, if it is given.
fn leap_of(alloc: Global, matches: &ArgMatches<'_>) -> Result<Option<u64>, WordsFault>
    ensures exact { IfOk result (λ longest. longest ≡ leap_in (rows_of (found_of matches.now))) }
    ensures early { IfOk result (λ longest. IfSome longest (λ n. n ≤ latest_moment)) }
    ensures fits { IfOk result (λ _. leap_misfit (rows_of (found_of matches.now)) ≡ []) }
    ensures refused { IfErr result (NamesOneOf (leap_misfit (rows_of (found_of matches.now)))) }
{
    let form = NumberForm {
        digits: MOST_DIGITS,
        least: 1,
        most: LATEST,
    };
    let wanted = "' for '--leap <S>': it has 1 to 13 digits, and is from 1 to 1000000000000";
    number_given(alloc, matches, "leap", form, wanted)
}

/// The job of whose leaving is asked, if one is given. It doesn't go with the least makespan.
fn job_of(alloc: Global, matches: &ArgMatches<'_>) -> Result<Option<u32>, WordsFault>
    ensures exact { IfOk result (λ job. job ≡ job_chosen (rows_of (found_of matches.now))) }
    ensures fits { IfOk result (λ _. decision_misfit (rows_of (found_of matches.now)) ≡ []) }
    ensures refused { IfErr result (NamesOneOf (decision_misfit (rows_of (found_of matches.now)))) }
{
    if are_both(matches, "job", "least") {
        return Err(no_both(alloc, "--least", "--job <J>"));
    }
    job_given(alloc, matches)
}

/// The job that is given, if it is.
fn job_given(alloc: Global, matches: &ArgMatches<'_>) -> Result<Option<u32>, WordsFault>
    ensures exact { IfOk result (λ job. job ≡ job_chosen (rows_of (found_of matches.now))) }
    ensures fits { IfOk result (λ _. job_misfit (rows_of (found_of matches.now)) ≡ []) }
    ensures refused { IfErr result (NamesOneOf (job_misfit (rows_of (found_of matches.now)))) }
{
    let form = NumberForm {
        digits: 9,
        least: 0,
        most: 999_999_999,
    };
    let wanted = "' for '--job <J>': a job has 1 to 9 digits";
    match number_given(alloc, matches, "job", form, wanted) {
        Ok(Some(number)) => Ok(Some(number as u32)),
        Ok(None) => Ok(None),
        Err(fault) => Err(fault),
    }
}

/// Whether the moves are printed in place of the moments. They aren't drawn.
fn moves_of(alloc: Global, matches: &ArgMatches<'_>) -> Result<bool, WordsFault>
    ensures exact { IfOk result (λ moves. moves ≡ moves_chosen (rows_of (found_of matches.now))) }
    ensures fits { IfOk result (λ _. moves_misfit (rows_of (found_of matches.now)) ≡ []) }
    ensures refused { IfErr result (NamesOneOf (moves_misfit (rows_of (found_of matches.now)))) }
{
    if are_both_set(matches, "svg", "moves") {
        return Err(no_both(alloc, "--svg", "--moves"));
    }
    Ok(is_set(matches, "moves"))
}

/// The fault of two arguments that don't go together.
fn no_both(alloc: Global, one: &str, other: &str) -> WordsFault
    ensures { NamesReason ErrorKind.ArgumentConflict result }
{
    let parts = ["the argument '", one, "' cannot be used with '", other, "'"];
    misfit(alloc, ErrorKind::ArgumentConflict, parts.as_slice())
}

/// The number that is given with an option, if it is. It has to be one of this form.
fn number_given(
    alloc: Global,
    matches: &ArgMatches<'_>,
    name: &str,
    form: NumberForm,
    wanted: &str,
) -> Result<Option<u64>, WordsFault>
    requires { form.digits ≤ 18 }
    ensures exact { IfOk result
        (λ number. number ≡ option_map value_of (first_of name.now (rows_of (found_of matches.now)))) }
    ensures small { IfOk result (λ number. IfSome number (λ n. n ≤ form.most)) }
    ensures fits { IfOk result (λ _.
        number_misfit form.digits form.least form.most (first_of name.now (rows_of (found_of matches.now))) ≡ []) }
    ensures refused { IfErr result (NamesOneOf
        (number_misfit form.digits form.least form.most (first_of name.now (rows_of (found_of matches.now))))) }
{
    match matches.get_str(name) {
        Some(word) => number_read(alloc, word, form, wanted),
        None => Ok(None),
    }
}

/// The number that the word is. It has to be one of this form.
fn number_read(
    alloc: Global,
    word: &str,
    form: NumberForm,
    wanted: &str,
) -> Result<Option<u64>, WordsFault>
    requires { form.digits ≤ 18 }
    ensures exact { IfOk result (λ number. number ≡ Some (value_of word.now)) }
    ensures small { IfOk result (λ number. IfSome number (λ n. n ≤ form.most)) }
    ensures fits { IfOk result (λ _. number_misfit form.digits form.least form.most (Some word.now) ≡ []) }
    ensures refused { IfErr result (NamesOneOf (number_misfit form.digits form.least form.most (Some word.now))) }
{
    match number_in_form(word, form) {
        Some(number) => Ok(Some(number)),
        None => Err(no_number(alloc, word, wanted)),
    }
}

/// The number of this form that the word is.
fn number_in_form(word: &str, form: NumberForm) -> Option<u64>
    requires { form.digits ≤ 18 }
    ensures { MatchOption result (is_number form.digits form.least form.most word.now ≡ false) (λ n.
        (is_number form.digits form.least form.most word.now ≡ true) × (n ≡ value_of word.now) × (n ≤ form.most)) }
{
    let Some(number) = number_of(word.as_bytes(), form.digits) else {
        return None;
    };
    if number < form.least {
        return None;
    }
    if number > form.most {
        return None;
    }
    Some(number)
}

/// The fault of a word that isn't such a number.
fn no_number(alloc: Global, word: &str, wanted: &str) -> WordsFault
    ensures { NamesReason ErrorKind.ValueValidation result }
{
    misfit(
        alloc,
        ErrorKind::ValueValidation,
        ["invalid value '", word, wanted].as_slice(),
    )
}

/// The fault of a moment that doesn't fit, with what is said of it.
fn misfit(alloc: Global, kind: ErrorKind, parts: &[&str]) -> WordsFault
    ensures { NamesReason kind result }
{
    match error_text(alloc, parts) {
        Ok(text) => WordsFault::from(Refusal { kind, text }),
        Err(error) => WordsFault::from(error),
    }
}

/// The text of an error, as `clap` writes it.
fn error_text(alloc: Global, parts: &[&str]) -> Result<String, AllocError> {
    let mut text = String::from_str(alloc, "error: ")?;
    for part in parts {
        text.push_str(*part)?;
    }
    text.push_str("\n\nFor more information, try '--help'.\n")?;
    Ok(text)
}
