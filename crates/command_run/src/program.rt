//! The whole program.

ghost use Rattle.std.specs.Prelude.{◌≡◌, ◌≤◌, ◌==◌, ◌&&◌, if◌then◌else◌, [], map, None, Some, Err, IfSome, true, false};
ghost use Rattle.command_words.specs.Choice.{IsChoiceWithin};
ghost use Rattle.command_run.specs.Logs.{WithLog};
ghost use Rattle.command_run.specs.Streams.{errors_of};
ghost use Rattle.command_run.specs.Ending.{EndsBy};
ghost use Rattle.command_run.specs.Program.{Commands, Follows, IsHistoryOfChosen, IsHistoryOfWords};
ghost use Rattle.command_run.specs.Program.{IsOutputLog, RunsProgram, draws_in, given_log_in, kept_log_in, starts_again};

use crate::apart::is_shown;
use crate::command::{command, inputs, kept_log, protocol};
use crate::devices::{Devices, Screen, Streams};
use crate::ending::{end, end_aside, print_line};
use crate::logs::{LoggedOutcome, logged_answer};
use crate::readiness::LogAsked;
use crate::unchosen::Unchosen;
use cell_drive::{BufferedSink, Source};
use command_answers::{Answered, CommandFault, Texts};
use command_words::{Chosen, CommandName, WordsFault, read_words};
use run_journal::{InitialState, Logs};
use run_log::Sink;
use std::alloc::Global;

/// Runs the program on the words of a command line, the program's name first. It gives the status that it ends with,
/// the devices, and the log that it opened or made, if it did. What is known of that log stands for a type.
pub fn run<
    T: Texts,
    R: Source,
    W: BufferedSink + Drop,
    E: Sink,
    S: Screen,
    L: Logs,
    B: InitialState,
>(
    alloc: Global,
    words: &[&str],
    devices: Devices<T, R, W, E, S, L>,
    before: B,
) -> (u8, Devices<T, R, W, E, S, L>, Option<L::Log>)
    requires shown { devices.streams.output.pending ≡ [] }
    requires known { IfSome B.before (IsHistoryOfWords T.gives (map (λ word. word.now) words.now) devices) }

    // What a crash leaves of the log has all that was shown. Where the status is 0 or 1, the log has it on the disk.
    ensures runs { WithLog L.Log.seen L.Log.crash_states L.Log.fault L.Log.written
        B.before result.1.streams.output.written (result.0 ≤ 1) result.2
        (RunsProgram T.gives (map (λ word. word.now) words.now) devices result.0 result.1) }
{
    let mut devices = devices;
    match read_words(alloc, words) {
        Ok(chosen) => follow(alloc, &chosen, devices, before),
        Err(fault) => {
            let status = unchosen(alloc, fault, &mut devices);
            (status, devices, None)
        }
    }
}

/// Runs the command that was chosen, and prints its answer, or says why there is none. Before anything else it asks
/// whether the output goes to the log that the command is given: no byte of an answer gets into that.
fn follow<
    T: Texts,
    R: Source,
    W: BufferedSink + Drop,
    E: Sink,
    S: Screen,
    L: Logs,
    B: InitialState,
>(
    alloc: Global,
    chosen: &Chosen,
    devices: Devices<T, R, W, E, S, L>,
    before: B,
) -> (u8, Devices<T, R, W, E, S, L>, Option<L::Log>)
    requires within { IsChoiceWithin chosen.now }
    requires shown { devices.streams.output.pending ≡ [] }
    requires known { IfSome B.before (IsHistoryOfChosen T.gives chosen.now devices) }
    ensures runs { WithLog L.Log.seen L.Log.crash_states L.Log.fault L.Log.written
        B.before result.1.streams.output.written (result.0 ≤ 1) result.2
        (Commands T.gives chosen.now devices result.0 result.1) }
{
    if is_shown(chosen, &devices.logs) {
        let (status, devices) = end_shown(alloc, chosen, devices);
        return (status, devices, None);
    }
    follow_apart(alloc, chosen, devices, before)
}

/// Says that the output goes to the log that the command is given.
fn end_shown<T: Texts, R: Source, W: BufferedSink, E: Sink, S, L: Logs>(
    alloc: Global,
    chosen: &Chosen,
    devices: Devices<T, R, W, E, S, L>,
) -> (u8, Devices<T, R, W, E, S, L>)
    requires shown { IsOutputLog (given_log_in chosen.now) devices.folder true }
    ensures { Commands T.gives chosen.now devices result.0 result.1 None }
{
    let Devices {
        texts,
        mut streams,
        mut errors,
        screen,
        logs,
    } = devices;
    let fault = Err(CommandFault::Log);
    let status = end_chosen(alloc, chosen, fault, &mut streams, &mut errors);
    let devices = Devices {
        texts,
        streams,
        errors,
        screen,
        logs,
    };
    (status, devices)
}

/// Runs the command that was chosen, where the output doesn't go to its log, and prints its answer, or says why there
/// is none.
fn follow_apart<
    T: Texts,
    R: Source,
    W: BufferedSink + Drop,
    E: Sink,
    S: Screen,
    L: Logs,
    B: InitialState,
>(
    alloc: Global,
    chosen: &Chosen,
    devices: Devices<T, R, W, E, S, L>,
    before: B,
) -> (u8, Devices<T, R, W, E, S, L>, Option<L::Log>)
    requires within { IsChoiceWithin chosen.now }
    requires apart { IsOutputLog (given_log_in chosen.now) devices.folder false }
    requires shown { devices.streams.output.pending ≡ [] }
    requires known { IfSome B.before (IsHistoryOfChosen T.gives chosen.now devices) }
    ensures runs { WithLog L.Log.seen L.Log.crash_states L.Log.fault L.Log.written
        B.before result.1.streams.output.written (result.0 ≤ 1) result.2
        (Commands T.gives chosen.now devices result.0 result.1) }
{
    match kept_log(chosen) {
        Some(path) => drive_logged(alloc, chosen, path, devices, before),
        None => {
            let Devices {
                mut texts,
                mut streams,
                mut errors,
                mut screen,
                logs,
            } = devices;
            let outcome = command(alloc, chosen, &mut texts, &mut streams, &mut screen);
            let status = end_chosen(alloc, chosen, outcome, &mut streams, &mut errors);
            let devices = Devices {
                texts,
                streams,
                errors,
                screen,
                logs,
            };
            (status, devices, None)
        }
    }
}

/// Drives a cell with the log of this path, and ends as any command does.
fn drive_logged<T: Texts, R: Source, W: BufferedSink + Drop, E: Sink, S, L: Logs, B: InitialState>(
    alloc: Global,
    chosen: &Chosen,
    path: &str,
    devices: Devices<T, R, W, E, S, L>,
    before: B,
) -> (u8, Devices<T, R, W, E, S, L>, Option<L::Log>)
    requires within { IsChoiceWithin chosen.now }
    requires kept { kept_log_in chosen.now ≡ Some path.now }
    requires apart { IsOutputLog (given_log_in chosen.now) devices.folder false }
    requires shown { devices.streams.output.pending ≡ [] }
    requires known { IfSome B.before (IsHistoryOfChosen T.gives chosen.now devices) }
    ensures runs { WithLog L.Log.seen L.Log.crash_states L.Log.fault L.Log.written
        B.before result.1.streams.output.written (result.0 ≤ 1) result.2
        (Commands T.gives chosen.now devices result.0 result.1) }
{
    let Devices {
        mut texts,
        streams,
        mut errors,
        screen,
        mut logs,
    } = devices;
    let (inputs, protocol) = (inputs(chosen), protocol(chosen));
    let asked = LogAsked {
        path,
        start: chosen.start,
        protocol,
        at: chosen.at,
    };
    let LoggedOutcome {
        outcome,
        mut streams,
        driven,
        log,
    } = logged_answer(
        alloc, &mut texts, &inputs, asked, streams, &mut logs, before,
    );
    let again = starts_again(&outcome, driven);
    let own = end(alloc, outcome, &mut streams, &mut errors);
    let status = status_with_log(own, again);
    let devices = Devices {
        texts,
        streams,
        errors,
        screen,
        logs,
    };
    (status, devices, log)
}

/// Whether it is right to start a driven cell with a log again, where it ends with a fault: if the output couldn't be
/// written, another process has the log, or the input couldn't be read to its end.
fn starts_again(outcome: &Answered, driven: bool) -> bool
    ensures { result ≡ starts_again driven outcome.now }
{
    match outcome {
        Ok(_) | Err(CommandFault::Write) | Err(CommandFault::LogInUse) => true,
        Err(CommandFault::Read) | Err(CommandFault::InputTooLong) => driven,
        Err(_) => false,
    }
}

/// The status that a driven cell with a log ends with, in place of that of a fault: whatever runs it as a service tells
/// by it whether to start it again.
fn status_with_log(own: u8, again: bool) -> u8
    ensures { result ≡ (if own == 5 && again then 6 else own) }
{
    if own == 5 && again { 6 } else { own }
}

/// Prints the answer of the command that was chosen, or says it on the standard error where it stands in place of a
/// picture.
fn end_chosen<R: Source, W: BufferedSink, E: Sink>(
    alloc: Global,
    chosen: &Chosen,
    outcome: Answered,
    streams: &mut Streams<R, W>,
    errors: &mut E,
) -> u8
    ensures ends { EndsBy (draws_in chosen.now) outcome streams.old.output streams.new.output
        (errors_of E.Sink errors.old) (errors_of E.Sink errors.new) result }
    ensures input { streams.new.input ≡ streams.old.input }
{
    if draws(chosen) {
        return end_aside(alloc, outcome, errors);
    }
    end(alloc, outcome, streams, errors)
}

/// Whether the command draws a picture.
fn draws(chosen: &Chosen) -> bool
    ensures { result ≡ draws_in chosen.now }
{
    match chosen.name {
        CommandName::Schedule | CommandName::Gantt => chosen.svg,
        _ => false,
    }
}

/// What follows words that choose no command.
fn unchosen<T: Texts, R: Source, W: BufferedSink, E: Sink, S, L: Logs>(
    alloc: Global,
    fault: WordsFault,
    devices: &mut Devices<T, R, W, E, S, L>,
) -> u8
    ensures { Follows T.gives (Err fault) devices.old result devices.new None }
{
    let Devices {
        texts: _,
        streams,
        errors,
        screen: _,
        logs: _,
    } = devices;
    match Unchosen::from(fault) {
        Unchosen::Ends(outcome) => end(alloc, outcome, streams, errors),
        Unchosen::Usage(text) => print_line(errors, text.as_bytes(), 2),
    }
}
