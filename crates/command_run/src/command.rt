//! The command that was chosen.

ghost use Rattle.std.specs.Prelude.{◌≡◌, ◌<◌, ◌≤◌, [], length, option_map, IfSome};
ghost use Rattle.std.specs.Option.{option_copied};
ghost use Rattle.std.specs.String.{string_bytes};
ghost use Rattle.shop_base.specs.declared.limits.TheConstants.{MAX_MOMENT};
ghost use Rattle.command_words.specs.Choice.{IsChoiceWithin};
ghost use Rattle.command_answers.specs.Commands.{RunsRest};
ghost use Rattle.command_run.specs.Program.{RunsCommand, aim_in, file_at, is_second, kept_log_in, form_in, log_in};
ghost use Rattle.command_run.specs.Program.{names_file, protocol_in, name_in, overall_aim, inputs_in, run_in};

use crate::choosers::decided_answer;
use crate::devices::{Screen, Streams};
use crate::drives::drive_answer;
use crate::hubs::hub_answer;
use crate::improvers::better_answer;
use crate::input::input_answer;
use crate::pictures::{Timetable, drawing_answer, timetable_answer};
use crate::planners::seek_answer;
use crate::resumes::resume_answer;
use crate::revisions::{Wanted, revision_answer};
use cell_drive::{BufferedSink, Protocol, Source};
use command_answers::{
    Answered, Files, InputPaths, LogAnswer, PlanAnswer, RunFiles, Texts, bounds_answer,
    digest_answer, facts_answer, log_answer, margin_answer, rest_answer, shape_answer,
    state_answer,
};
use command_words::{Chosen, CommandName, Lines};
use plan_decide::{Aim, Objective};
use std::alloc::Global;

/// The file at a place of the command line.
pub(crate) fn file(chosen: &Chosen, place: usize) -> &str
    requires { place < length chosen.now.files.items }
    ensures { result.now ≡ file_at chosen.now place }
{
    chosen.files[place].as_str()
}

/// The name of the instance.
fn name(chosen: &Chosen) -> Option<&[u8]>
    ensures { option_copied result ≡ name_in chosen.now }
{
    match &chosen.instance {
        Some(name) => Some(name.as_bytes()),
        None => None,
    }
}

/// The path that is given.
fn path_of(path: &Option<String>) -> Option<&str>
    ensures { option_copied result ≡ option_map string_bytes path.now }
{
    match path {
        Some(path) => Some(path.as_str()),
        None => None,
    }
}

/// The log of whose rest is asked.
pub(crate) fn rest_log(chosen: &Chosen) -> Option<&str>
    ensures { option_copied result ≡ log_in chosen.now }
{
    path_of(&chosen.after)
}

/// The file of names.
fn names(chosen: &Chosen) -> Option<&str>
    ensures { option_copied result ≡ names_file chosen.now }
{
    path_of(&chosen.names)
}

/// The files of the instance and of the first plan.
pub(crate) fn inputs(chosen: &Chosen) -> InputPaths<'_>
    requires { 1 < length chosen.now.files.items }
    ensures { result ≡ inputs_in chosen.now }
{
    InputPaths {
        instance: file(chosen, 0),
        name: name(chosen),
        plan: file(chosen, 1),
    }
}

/// The files of the plan and of names.
pub(crate) fn files(chosen: &Chosen) -> Files<'_>
    requires { 1 < length chosen.now.files.items }
    ensures inputs { result.inputs ≡ inputs_in chosen.now }
    ensures names { option_copied result.names ≡ names_file chosen.now }
{
    Files {
        inputs: inputs(chosen),
        names: names(chosen),
    }
}

/// The run of whose rest is asked.
pub(crate) fn run_files(chosen: &Chosen) -> RunFiles<'_>
    requires { 1 < length chosen.now.files.items }
    ensures { result ≡ run_in chosen.now }
{
    let (log, at) = (rest_log(chosen), chosen.at);
    RunFiles {
        files: files(chosen),
        log,
        at,
    }
}

/// What is answered of the rest of the run.
pub(crate) fn answered<T: Texts>(
    alloc: Global,
    chosen: &Chosen,
    texts: &mut T,
    wanted: PlanAnswer,
) -> Answered
    requires files { 1 < length chosen.now.files.items }
    requires at { IfSome chosen.now.at (λ present. present ≤ MAX_MOMENT) }
    ensures { RunsRest T.gives wanted (run_in chosen.now) texts.old result texts.new }
{
    rest_answer(alloc, texts, &run_files(chosen), wanted)
}

/// Whether this is version 2.
fn is_second(version: Option<Lines>) -> bool
    ensures { result ≡ is_second version }
{
    match version {
        Some(Lines::Two) => true,
        Some(Lines::One) | None => false,
    }
}

/// The protocol by which cells are driven. A leap counts from the present moment at the earliest, if one is given.
pub(crate) fn protocol(chosen: &Chosen) -> Protocol
    ensures { result ≡ protocol_in chosen.now }
{
    let from = match chosen.at {
        Some(at) => at,
        None => 0,
    };
    Protocol {
        version_2: is_second(chosen.lines),
        max_gap: chosen.leap,
        from,
    }
}

/// What is to be decided besides the budgets.
fn aim(chosen: &Chosen) -> Aim
    ensures { result ≡ aim_in chosen.now }
{
    match chosen.job {
        Some(job) => Aim::Least(Objective::Leaving(job)),
        None => overall_aim(chosen.least),
    }
}

/// What is to be decided where no job is named.
fn overall_aim(least: bool) -> Aim
    ensures { result ≡ overall_aim least }
{
    if least {
        Aim::Least(Objective::Makespan)
    } else {
        Aim::Promises
    }
}

/// In which form a schedule is printed.
fn form(chosen: &Chosen) -> Timetable
    ensures { result ≡ form_in chosen.now }
{
    match (chosen.svg, chosen.moves) {
        (true, _) => Timetable::Picture,
        (false, true) => Timetable::Moves,
        (false, false) => Timetable::Moments,
    }
}

/// The log that a driven cell keeps.
pub(crate) fn kept_log(chosen: &Chosen) -> Option<&str>
    ensures { option_copied result ≡ kept_log_in chosen.now }
{
    match chosen.name {
        CommandName::Drive => path_of(&chosen.log),
        _ => None,
    }
}

/// Runs the command that was chosen, without a log of its own.
pub(crate) fn command<T: Texts, R: Source, W: BufferedSink, S: Screen>(
    alloc: Global,
    chosen: &Chosen,
    texts: &mut T,
    streams: &mut Streams<R, W>,
    screen: &mut S,
) -> Answered
    requires within { IsChoiceWithin chosen.now }
    requires shown { streams.old.output.pending ≡ [] }
    ensures { RunsCommand T.gives chosen.now.name chosen.now texts.old streams.old result texts.new streams.new }
{
    match chosen.name {
        CommandName::Input => input_answer(alloc, streams),
        CommandName::Facts => facts_answer(alloc, texts, file(chosen, 0), name(chosen)),
        CommandName::Shape => shape_answer(alloc, texts, &inputs(chosen)),
        CommandName::Check => answered(alloc, chosen, texts, PlanAnswer::Verdict),
        CommandName::Explain => answered(alloc, chosen, texts, PlanAnswer::Reasons(chosen.job)),
        CommandName::Schedule => timetable_answer(alloc, chosen, form(chosen), texts, streams),
        CommandName::Bounds => bounds_answer(alloc, texts, &files(chosen)),
        CommandName::Margin => margin_answer(alloc, texts, &files(chosen)),
        CommandName::Plan => seek_answer(alloc, texts, &inputs(chosen), chosen.rounds),
        CommandName::Improve => {
            let (run, rounds, seed) = (run_files(chosen), chosen.rounds, chosen.seed);
            better_answer(alloc, texts, &run, rounds, seed, screen)
        }
        CommandName::Decide => {
            let choices = u64::from(chosen.choices);
            decided_answer(
                alloc,
                texts,
                &run_files(chosen),
                aim(chosen),
                choices,
                screen,
            )
        }
        CommandName::Revise => {
            let (inputs, log) = (inputs(chosen), file(chosen, 2));
            let wanted = Wanted {
                prints: chosen.prints,
                at: chosen.at,
                names: names(chosen),
            };
            revision_answer(alloc, texts, &inputs, log, &chosen.changes, wanted)
        }
        CommandName::Drive => {
            drive_answer(alloc, texts, &inputs(chosen), protocol(chosen), streams)
        }
        CommandName::Resume => {
            let log = file(chosen, 2);
            let protocol = protocol(chosen);
            resume_answer(
                alloc,
                texts,
                &inputs(chosen),
                log,
                chosen.at,
                protocol,
                streams,
            )
        }
        CommandName::Hub => {
            let plans = &chosen.files.as_slice()[1..];
            hub_answer(
                alloc,
                texts,
                file(chosen, 0),
                name(chosen),
                plans,
                protocol(chosen),
                streams,
            )
        }
        CommandName::Digest => digest_answer(alloc, texts, &inputs(chosen)),
        CommandName::Audit => {
            let log = file(chosen, 2);
            let files = Files {
                inputs: inputs(chosen),
                names: None,
            };
            log_answer(alloc, texts, &files, log, LogAnswer::Numbers)
        }
        CommandName::State => {
            let log = file(chosen, 2);
            state_answer(alloc, texts, &files(chosen), log, chosen.at)
        }
        CommandName::Gantt => {
            let log = file(chosen, 2);
            drawing_answer(alloc, texts, &files(chosen), log, chosen.svg, streams)
        }
    }
}
