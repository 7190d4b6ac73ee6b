//! The command line as `clap` gets it, one command in each function.

ghost use Rattle.std.specs.Prelude.{◌≡◌, IfOk, [], ◌∷◌, false, codes};
ghost use Rattle.clap.specs.Words.{App, Rule, Shape, rule_of, with_rule, with_subcommand};
ghost use Rattle.command_words.specs.CommandLine.{Describes, adding_rules, bare_program, changing_rules, choices_rule, command};
ghost use Rattle.command_words.specs.CommandLine.{command_line, described, file_rule, leaf, lengthening_rules};
ghost use Rattle.command_words.specs.CommandLine.{log_command, log_rules, names_rule, option_rule, plan_command};
ghost use Rattle.command_words.specs.CommandLine.{plans_rule, program_with, repeated_rule, rest_command, rounds_rule};
ghost use Rattle.command_words.specs.CommandLine.{seed_rule, switch_rule};

use crate::words::CommandName;
use clap::builder::ValueParser;
use clap::{Arg, ArgAction, Command};
use std::alloc::{AllocError, Global};

/// The version of the program, the same as in the file `VERSION`.
const VERSION: &str = "3.2.0";

/// A file that has to be named.
fn file<'a>(alloc: Global, name: &'a str, help: &'a str) -> Arg<'a>
    ensures rule { rule_of result ≡ file_rule name.entry.now }
    ensures local { result.global ≡ false }
{
    Arg::new(alloc, name).required(true).help(help)
}

/// An option with one value.
fn option<'a>(alloc: Global, name: &'a str, value: &'a str, help: &'a str) -> Arg<'a>
    ensures rule { rule_of result ≡ option_rule name.entry.now }
    ensures local { result.global ≡ false }
{
    Arg::new(alloc, name)
        .long(name)
        .value_name(value)
        .help(help)
}

/// An option with one value that may be used more than once.
fn repeated<'a>(alloc: Global, name: &'a str, value: &'a str, help: &'a str) -> Arg<'a>
    ensures rule { rule_of result ≡ repeated_rule name.entry.now }
    ensures local { result.global ≡ false }
{
    option(alloc, name, value, help).action(ArgAction::Append)
}

/// The plan files of a hub, one or more.
fn plans<'a>(alloc: Global) -> Arg<'a>
    ensures rule { rule_of result ≡ plans_rule }
    ensures local { result.global ≡ false }
{
    file(alloc, "PLAN", "A plan for each cell, in TOML").num_args(1..)
}

/// The number of rounds of a search.
fn rounds<'a>(alloc: Global) -> Arg<'a>
    ensures rule { rule_of result ≡ rounds_rule }
    ensures local { result.global ≡ false }
{
    let help = "The rounds of the search, 0 to 1000";
    option(alloc, "rounds", "R", help)
        .value_parser(ValueParser::Signed(0, 1000))
        .default_value("20")
}

/// The seed of a search's random numbers.
fn seed<'a>(alloc: Global) -> Arg<'a>
    ensures rule { rule_of result ≡ seed_rule }
    ensures local { result.global ≡ false }
{
    let help = "The seed of the search, 0 to 1000000";
    option(alloc, "seed", "S", help)
        .value_parser(ValueParser::Signed(0, 1_000_000))
        .default_value("0")
}

/// The choices of a complete search.
fn choices<'a>(alloc: Global) -> Arg<'a>
    ensures rule { rule_of result ≡ choices_rule }
    ensures local { result.global ≡ false }
{
    let help = "The choices of each search, 1 to 1000000000";
    option(alloc, "choices", "K", help)
        .value_parser(ValueParser::Signed(1, 1_000_000_000))
        .default_value("200000")
}

/// An option without a value.
fn switch<'a>(alloc: Global, name: &'a str, help: &'a str) -> Arg<'a>
    ensures rule { rule_of result ≡ switch_rule name.entry.now }
    ensures local { result.global ≡ false }
{
    Arg::new(alloc, name)
        .long(name)
        .action(ArgAction::SetTrue)
        .help(help)
}

/// Whether a picture is drawn.
fn svg<'a>(alloc: Global) -> Arg<'a>
    ensures rule { rule_of result ≡ switch_rule (codes "svg") }
    ensures local { result.global ≡ false }
{
    let help = "Draw a picture, an SVG document, in place of the text";
    switch(alloc, "svg", help)
}

/// Whether the least makespan is asked for.
fn least<'a>(alloc: Global) -> Arg<'a>
    ensures rule { rule_of result ≡ switch_rule (codes "least") }
    ensures local { result.global ≡ false }
{
    let help = "Find the least makespan with which the budgets can be kept";
    switch(alloc, "least", help)
}

/// The job of whose leaving is asked or printed.
fn job<'a>(alloc: Global, help: &'a str) -> Arg<'a>
    ensures rule { rule_of result ≡ option_rule (codes "job") }
    ensures local { result.global ≡ false }
{
    option(alloc, "job", "J", help)
}

/// The names of jobs and machines, and the clock.
fn names<'a>(alloc: Global) -> Arg<'a>
    ensures rule { rule_of result ≡ names_rule }
    ensures local { result.global ≡ false }
{
    let help = "Use the names and the clock of this file, in TOML";
    option(alloc, "names", "NAMES", help)
}

/// The name of an instance in a collection.
fn instance<'a>(alloc: Global) -> Arg<'a>
    ensures rule { rule_of result ≡ option_rule (codes "instance") }
    ensures local { result.global ≡ false }
{
    let help = "The name of the instance in a collection";
    option(alloc, "instance", "NAME", help)
}

/// The log of a run, of whose rest is asked.
fn after<'a>(alloc: Global) -> Arg<'a>
    ensures rule { rule_of result ≡ option_rule (codes "after") }
    ensures local { result.global ≡ false }
{
    let help = "Ask about the rest of the run in this log";
    option(alloc, "after", "LOG", help)
}

/// The log that a driven cell keeps.
fn log<'a>(alloc: Global) -> Arg<'a>
    ensures rule { rule_of result ≡ option_rule (codes "log") }
    ensures local { result.global ≡ false }
{
    let help = "Keep this log, and continue the run in it";
    option(alloc, "log", "LOG", help)
}

/// The present moment of the run in a log.
fn at<'a>(alloc: Global) -> Arg<'a>
    ensures rule { rule_of result ≡ option_rule (codes "at") }
    ensures local { result.global ≡ false }
{
    let help = "The present moment, by default the log's last one";
    option(alloc, "at", "N", help)
}

/// The version of the lines of a driven cell.
fn lines<'a>(alloc: Global) -> Arg<'a>
    ensures rule { rule_of result ≡ option_rule (codes "lines") }
    ensures local { result.global ≡ false }
{
    let help = "The version of the lines, 1 or 2";
    option(alloc, "lines", "V", help)
}

/// The longest time from one report to the next.
fn leap<'a>(alloc: Global) -> Arg<'a>
    ensures rule { rule_of result ≡ option_rule (codes "leap") }
    ensures local { result.global ≡ false }
{
    let help = "Refuse a report more than S after the last one";
    option(alloc, "leap", "S", help)
}

/// The command with one more argument.
fn with_arg<'a>(
    command: Result<Command<'a>, AllocError>,
    arg: Arg<'a>,
) -> Result<Command<'a>, AllocError>
    ensures { (a : App) (r : Rule) → IfOk command.entry (Describes a) → rule_of arg.entry ≡ r → arg.entry.global ≡ false
        → IfOk result (Describes (with_rule a r)) }
{
    match command {
        Ok(command) => command.arg(arg),
        Err(error) => {
            drop(arg);
            Err(error)
        }
    }
}

/// A command on an instance.
fn on_instance<'a>(alloc: Global, name: &'a str, about: &'a str) -> Result<Command<'a>, AllocError>
    ensures { IfOk result (Describes (leaf (command name.entry.now []))) }
{
    let help = "The instance of the job shop, in OR-Library's form";
    let command = with_arg(Ok(Command::new(alloc, name).about(about)), instance(alloc));
    with_arg(command, file(alloc, "FILE", help))
}

/// A command on an instance and a plan.
fn on_plan<'a>(alloc: Global, name: &'a str, about: &'a str) -> Result<Command<'a>, AllocError>
    ensures { IfOk result (Describes (leaf (plan_command name.entry.now []))) }
{
    let help = "The plan, in TOML";
    with_arg(on_instance(alloc, name, about), file(alloc, "PLAN", help))
}

/// A command on an instance and a plan, or on the rest of a run of it.
fn on_rest<'a>(alloc: Global, name: &'a str, about: &'a str) -> Result<Command<'a>, AllocError>
    ensures { IfOk result (Describes (leaf (rest_command name.entry.now []))) }
{
    let plan = with_arg(on_plan(alloc, name, about), after(alloc));
    with_arg(plan, at(alloc))
}

/// A command on an instance, a plan and a log.
fn on_log<'a>(alloc: Global, name: &'a str, about: &'a str) -> Result<Command<'a>, AllocError>
    ensures { IfOk result (Describes (leaf (log_command name.entry.now []))) }
{
    let help = "The log of a run, as drive writes it";
    with_arg(on_plan(alloc, name, about), file(alloc, "LOG", help))
}

/// A command on an instance and a plan, whose lines may have names.
fn on_named_plan<'a>(
    alloc: Global,
    name: &'a str,
    about: &'a str,
) -> Result<Command<'a>, AllocError>
    ensures { IfOk result (Describes (leaf (plan_command name.entry.now (names_rule ∷ [])))) }
{
    with_arg(on_plan(alloc, name, about), names(alloc))
}

/// Why a plan is accepted or refused.
fn reasons<'a>(alloc: Global) -> Result<Command<'a>, AllocError>
    ensures { IfOk result (Describes (leaf (described CommandName.Explain))) }
{
    let about = "Says why a plan is accepted or refused";
    let help = "Print the chain to job J's leaving";
    let so_far = with_arg(on_rest(alloc, "explain", about), job(alloc, help));
    with_arg(so_far, names(alloc))
}

/// The schedule of a plan.
fn timetable<'a>(alloc: Global) -> Result<Command<'a>, AllocError>
    ensures { IfOk result (Describes (leaf (described CommandName.Schedule))) }
{
    let about = "Prints when each activity begins and ends, and how late it may end";
    let help = "Print the moves in their order in place of the moments";
    let drawn = with_arg(on_rest(alloc, "schedule", about), svg(alloc));
    let moved = with_arg(drawn, switch(alloc, "moves", help));
    with_arg(moved, names(alloc))
}

/// The state of a run.
fn whereabouts<'a>(alloc: Global) -> Result<Command<'a>, AllocError>
    ensures { IfOk result (Describes (leaf (described CommandName.State))) }
{
    let about = "Says where each job of a run is, and what is overdue";
    let present = with_arg(on_log(alloc, "state", about), at(alloc));
    with_arg(present, names(alloc))
}

/// The drawing of a log.
fn drawing<'a>(alloc: Global) -> Result<Command<'a>, AllocError>
    ensures { IfOk result (Describes (leaf (described CommandName.Gantt))) }
{
    let about = "Draws a log as a Gantt chart, in text or as a picture";
    let drawn = with_arg(on_log(alloc, "gantt", about), svg(alloc));
    with_arg(drawn, names(alloc))
}

/// A run that is recovered.
fn resumed<'a>(alloc: Global) -> Result<Command<'a>, AllocError>
    ensures { IfOk result (Describes (leaf (described CommandName.Resume))) }
{
    let about = "Continues a driven run from its log";
    let log = with_arg(on_log(alloc, "resume", about), at(alloc));
    let so_far = with_arg(log, lines(alloc));
    with_arg(so_far, leap(alloc))
}

/// The search of a plan.
fn search<'a>(alloc: Global) -> Result<Command<'a>, AllocError>
    ensures { IfOk result (Describes (leaf (described CommandName.Plan))) }
{
    let about = "Looks for an accepted plan with the releases and budgets of PLAN";
    with_arg(on_plan(alloc, "plan", about), rounds(alloc))
}

/// The search of a better plan.
fn improvement<'a>(alloc: Global) -> Result<Command<'a>, AllocError>
    ensures { IfOk result (Describes (leaf (described CommandName.Improve))) }
{
    let about = "Looks for better orders than those of PLAN";
    let search = with_arg(on_rest(alloc, "improve", about), rounds(alloc));
    with_arg(search, seed(alloc))
}

/// The question whether any plan keeps the budgets.
fn decision<'a>(alloc: Global) -> Result<Command<'a>, AllocError>
    ensures { IfOk result (Describes (leaf (described CommandName.Decide))) }
{
    let about = "Says whether any plan can keep the budgets of PLAN";
    let help = "Find how soon job J can be out, if all others keep theirs";
    let asked = with_arg(on_rest(alloc, "decide", about), least(alloc));
    let aimed = with_arg(asked, job(alloc, help));
    let bounded = with_arg(aimed, choices(alloc));
    with_arg(bounded, names(alloc))
}

/// Until when what goes on lasts, and the jobs that are added.
fn lengthened<'a>(alloc: Global) -> Result<Command<'a>, AllocError>
    ensures { IfOk result (Describes (leaf (log_command (codes "revise") lengthening_rules))) }
{
    let about = "Changes a plan in mid-run: a part is scrapped, a job added, a machine down";
    let until = "Say that what is on machine M lasts until T";
    let add = "Add a job, ROUTE as a line of the instance";
    let log = with_arg(on_log(alloc, "revise", about), at(alloc));
    let lasting = with_arg(log, repeated(alloc, "until", "M=T", until));
    with_arg(lasting, repeated(alloc, "add", "ROUTE", add))
}

/// The numbers and names of the jobs that are added, behind those, and the jobs that go another way.
fn added<'a>(alloc: Global) -> Result<Command<'a>, AllocError>
    ensures { IfOk result (Describes (leaf (log_command (codes "revise") adding_rules))) }
{
    let release = "The release of the job added before, or J=R of job J";
    let budget = "The budget of the job added before, or J=B of job J";
    let name = "The name of the job added, or holding a machine, before";
    let route = "Send job J another way from where it is";
    let released = with_arg(lengthened(alloc), repeated(alloc, "release", "R", release));
    let promised = with_arg(released, repeated(alloc, "budget", "B", budget));
    let named = with_arg(promised, repeated(alloc, "name", "NAME", name));
    with_arg(named, repeated(alloc, "route", "J=ROUTE", route))
}

/// A plan that is changed in mid-run, of which the plan or the instance is printed.
fn changed<'a>(alloc: Global) -> Result<Command<'a>, AllocError>
    ensures { IfOk result (Describes (leaf (log_command (codes "revise") changing_rules))) }
{
    let scrap = "Take job J out of the line by hand, or out of the plan";
    let down = "Let machine M do no more, or hold it until T with M=T";
    let file = "Print the instance in place of the plan";
    let fewer = with_arg(added(alloc), repeated(alloc, "scrap", "J", scrap));
    let changed = with_arg(fewer, repeated(alloc, "down", "M", down));
    with_arg(changed, switch(alloc, "file", file))
}

/// A plan that is changed in mid-run.
fn revised<'a>(alloc: Global) -> Result<Command<'a>, AllocError>
    ensures { IfOk result (Describes (leaf (described CommandName.Revise))) }
{
    let all = "Print FILE, PLAN and the run as one log";
    let over = "Leave out the jobs that are over";
    let hand_over = "Accept a log of any plan";
    let whole = with_arg(changed(alloc), switch(alloc, "all", all));
    let shorter = with_arg(whole, switch(alloc, "forget", over));
    let named = with_arg(shorter, names(alloc));
    with_arg(named, switch(alloc, "hand-over", hand_over))
}

/// A command on an instance and several plans.
fn on_plans<'a>(alloc: Global, name: &'a str, about: &'a str) -> Result<Command<'a>, AllocError>
    ensures { IfOk result (Describes (leaf (command name.entry.now (plans_rule ∷ [])))) }
{
    with_arg(on_instance(alloc, name, about), plans(alloc))
}

/// The cells of several plans.
fn hub<'a>(alloc: Global) -> Result<Command<'a>, AllocError>
    ensures { IfOk result (Describes (leaf (described CommandName.Hub))) }
{
    let about = "Drives several cells at once, one for each plan";
    let several = with_arg(on_plans(alloc, "hub", about), lines(alloc));
    with_arg(several, leap(alloc))
}

/// One driven cell, the log that it keeps, and how that has to begin.
fn logged<'a>(alloc: Global) -> Result<Command<'a>, AllocError>
    ensures { IfOk result (Describes (leaf (plan_command (codes "drive") log_rules))) }
{
    let about = "Drives a cell by a plan: reports come in, move orders go out";
    let new = "Begin a run: the log must not have begun";
    let goes_on = "Continue a run: the log must have begun, by this plan";
    let hand_over = "Continue a run by this plan, whichever it had";
    let plan = with_arg(on_plan(alloc, "drive", about), log(alloc));
    let begun = with_arg(plan, switch(alloc, "new", new));
    let so_far = with_arg(begun, switch(alloc, "continue", goes_on));
    with_arg(so_far, switch(alloc, "hand-over", hand_over))
}

/// One driven cell.
fn driven<'a>(alloc: Global) -> Result<Command<'a>, AllocError>
    ensures { IfOk result (Describes (leaf (described CommandName.Drive))) }
{
    let rest = with_arg(logged(alloc), at(alloc));
    let so_far = with_arg(rest, lines(alloc));
    with_arg(so_far, leap(alloc))
}

/// The program before it has a command.
fn bare<'a>(alloc: Global) -> Command<'a>
    ensures { Describes (leaf bare_program) result }
{
    Command::new(alloc, "cellplan")
        .version(VERSION)
        .about("Checks plans of a blocking job shop, and drives robot cells by them")
        .after_help(
            "Without a command, it reads an instance from the standard input and answers like facts.",
        )
        .disable_help_subcommand(true)
}

/// One command.
fn command_of<'a>(alloc: Global, name: CommandName) -> Result<Command<'a>, AllocError>
    ensures { IfOk result (Describes (leaf (described name))) }
{
    match name {
        CommandName::Input => Ok(bare(alloc)),
        CommandName::Facts => on_instance(alloc, "facts", "Prints the size of an instance"),
        CommandName::Shape => on_plan(alloc, "shape", "Says whether a plan fits its instance"),
        CommandName::Check => on_rest(
            alloc,
            "check",
            "Says whether a plan can lock, and when each job is out",
        ),
        CommandName::Explain => reasons(alloc),
        CommandName::Schedule => timetable(alloc),
        CommandName::Bounds => on_named_plan(
            alloc,
            "bounds",
            "Prints moments before which no plan has the jobs out",
        ),
        CommandName::Margin => on_named_plan(
            alloc,
            "margin",
            "Says how much longer everything may take with each job in time",
        ),
        CommandName::Plan => search(alloc),
        CommandName::Improve => improvement(alloc),
        CommandName::Decide => decision(alloc),
        CommandName::Revise => revised(alloc),
        CommandName::Drive => driven(alloc),
        CommandName::Resume => resumed(alloc),
        CommandName::Hub => hub(alloc),
        CommandName::Digest => on_plan(
            alloc,
            "digest",
            "Prints the digits by which a log names a plan and its shop",
        ),
        CommandName::Audit => on_log(alloc, "audit", "Says whether a log is a run of the plan"),
        CommandName::State => whereabouts(alloc),
        CommandName::Gantt => drawing(alloc),
    }
}

/// The program with these commands.
fn program_with<'a>(alloc: Global, names: &[CommandName]) -> Result<Command<'a>, AllocError>
    ensures { IfOk result (Describes (program_with names.now)) }
{
    let mut program = bare(alloc);
    for name in names {
        program = with_command(program, command_of(alloc, *name))?;
    }
    Ok(program)
}

/// The program with one more command.
fn with_command<'a>(
    program: Command<'a>,
    command: Result<Command<'a>, AllocError>,
) -> Result<Command<'a>, AllocError>
    ensures { (a : App) (s : Shape) → Describes a program.entry → IfOk command.entry (Describes (leaf s))
        → IfOk result (Describes (with_subcommand a s)) }
{
    match command {
        Ok(command) => program.subcommand(command),
        Err(error) => {
            drop(program);
            Err(error)
        }
    }
}

/// The whole command line of the program.
pub fn whole<'a>(alloc: Global) -> Result<Command<'a>, AllocError>
    ensures { IfOk result (Describes command_line) }
{
    let names = [
        CommandName::Facts,
        CommandName::Shape,
        CommandName::Check,
        CommandName::Explain,
        CommandName::Schedule,
        CommandName::Bounds,
        CommandName::Margin,
        CommandName::Plan,
        CommandName::Improve,
        CommandName::Decide,
        CommandName::Revise,
        CommandName::Drive,
        CommandName::Resume,
        CommandName::Hub,
        CommandName::Digest,
        CommandName::Audit,
        CommandName::State,
        CommandName::Gantt,
    ];
    program_with(alloc, names.as_slice())
}
