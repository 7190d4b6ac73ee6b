//! The command `hub`.

ghost use Rattle.std.specs.Prelude.{map};
ghost use Rattle.std.specs.Option.{option_copied};
ghost use Rattle.std.specs.String.{string_bytes};
ghost use Rattle.command_run.specs.Hubs.{DrivesCells};
ghost use Rattle.command_run.specs.Program.{RunsHub};

use crate::devices::Streams;
use crate::drives::{CommandFaultOf, ended};
use cell_control::LeanPlan;
use cell_drive::{BufferedSink, Protocol, Source, drive_hub_in};
use command_answers::{Answered, Cells, Texts, load_cells};
use std::alloc::Global;

/// Loads several plans, and drives their cells by this protocol if all are accepted; else the line of the first that
/// isn't is answered.
pub(crate) fn hub_answer<T: Texts, R: Source, W: BufferedSink>(
    alloc: Global,
    texts: &mut T,
    path: &str,
    name: Option<&[u8]>,
    plans: &[String],
    protocol: Protocol,
    streams: &mut Streams<R, W>,
) -> Answered
    ensures { RunsHub T.gives protocol path.now (option_copied name.entry) (map string_bytes plans.now)
        texts.old streams.old result texts.new streams.new }
{
    match load_cells(alloc, texts, path, name, plans) {
        Ok(Cells::Accepted(cells)) => drive_cells(alloc, cells, protocol, streams),
        Ok(Cells::Line(answer)) => Ok(answer),
        Err(fault) => Err(fault),
    }
}

/// Drives the cells of accepted plans to the end of the input.
fn drive_cells<R: Source, W: BufferedSink>(
    alloc: Global,
    cells: Vec<LeanPlan>,
    protocol: Protocol,
    streams: &mut Streams<R, W>,
) -> Answered
    ensures { DrivesCells protocol cells.items streams.old streams.new result }
{
    match drive_hub_in(
        alloc,
        cells,
        protocol,
        &mut streams.input,
        &mut streams.output,
    ) {
        Ok(end) => Ok(ended(alloc, end.all_done)),
        Err(fault) => Err(CommandFaultOf::from(fault).0),
    }
}
