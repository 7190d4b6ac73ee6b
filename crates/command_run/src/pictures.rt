//! The commands `schedule` and `gantt`, whose answers are texts or pictures.

ghost use Rattle.std.specs.Prelude.{◌<◌, ◌≤◌, length, IfSome};
ghost use Rattle.std.specs.Option.{option_copied};
ghost use Rattle.shop_base.specs.declared.limits.TheConstants.{MAX_MOMENT};
ghost use Rattle.command_run.specs.Streams.{output_of};
ghost use Rattle.command_run.specs.Pictures.{Draws, IsPictureOut, RunsDrawing, RunsTimetable};
ghost use Rattle.command_run.specs.Program.{run_in};

use crate::command::{answered, run_files};
use crate::devices::Streams;
use cell_drive::{BufferedSink, Source};
use command_answers::{
    Answer, Answered, CommandFault, CommandResult, Drawn, Files, LogAnswer, PlanAnswer, Texts,
    log_answer, log_picture, moves_answer, schedule_picture,
};
use command_words::Chosen;
use run_picture::Picture;
use std::alloc::Global;

/// In which form a schedule is printed.
#[derive(Clone, Copy)]
pub(crate) enum Timetable {
    /// When what begins and ends.
    Moments,
    /// The moves in their order.
    Moves,
    /// A picture.
    Picture,
}

/// The schedule of the rest of the run, in this form.
pub(crate) fn timetable_answer<T: Texts, R: Source, W: BufferedSink>(
    alloc: Global,
    chosen: &Chosen,
    form: Timetable,
    texts: &mut T,
    streams: &mut Streams<R, W>,
) -> Answered
    requires files { 1 < length chosen.now.files.items }
    requires at { IfSome chosen.now.at (λ present. present ≤ MAX_MOMENT) }
    ensures { RunsTimetable T.gives form (run_in chosen.now) texts.old streams.old result texts.new streams.new }
{
    match form {
        Timetable::Moments => answered(alloc, chosen, texts, PlanAnswer::Moments),
        Timetable::Moves => moves_answer(alloc, texts, &run_files(chosen)),
        Timetable::Picture => {
            let drawn = schedule_picture(alloc, texts, &run_files(chosen));
            drawn_answer(alloc, drawn, streams)
        }
    }
}

/// The drawing of a log: in text, or as a picture.
pub(crate) fn drawing_answer<T: Texts, R: Source, W: BufferedSink>(
    alloc: Global,
    texts: &mut T,
    files: &Files<'_>,
    log: &str,
    svg: bool,
    streams: &mut Streams<R, W>,
) -> Answered
    ensures { RunsDrawing T.gives svg files.now.inputs
        (option_copied files.now.names) log.now texts.old streams.old result texts.new streams.new }
{
    if svg {
        let drawn = log_picture(alloc, texts, files, log);
        drawn_answer(alloc, drawn, streams)
    } else {
        log_answer(alloc, texts, files, log, LogAnswer::Drawing)
    }
}

/// Draws a picture. A line in its place is what is answered.
fn drawn_answer<R: Source, W: BufferedSink>(
    alloc: Global,
    drawn: CommandResult<Drawn>,
    streams: &mut Streams<R, W>,
) -> Answered
    ensures { Draws drawn streams.old streams.new result }
{
    match drawn {
        Ok(Drawn::Picture { picture, status }) => {
            put_picture(alloc, &picture, status, &mut streams.output)
        }
        Ok(Drawn::Line(answer)) => Ok(answer),
        Err(fault) => Err(fault),
    }
}

/// Writes a picture, and shows it. The command ends with this status.
fn put_picture<W: BufferedSink>(
    alloc: Global,
    picture: &Picture,
    status: u8,
    output: &mut W,
) -> Answered
    ensures { IsPictureOut picture.now status (output_of W.Sink W.pending output.old)
        (output_of W.Sink W.pending output.new) result }
{
    match picture.put(output) {
        Ok(()) => match output.flush() {
            Ok(()) => {
                let text = Vec::new(alloc);
                Ok(Answer { text, status })
            }
            Err(_) => Err(CommandFault::Write),
        },
        Err(_) => Err(CommandFault::Write),
    }
}
