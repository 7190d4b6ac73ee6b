//! What is answered of the rest of a cell's run, called from C.

ghost use Rattle.std.specs.Prelude.{◌≡◌, ◌≢◌, ◌≤◌, None};
ghost use Rattle.command_answers.specs.declared.rests.PlanAnswer.TheVariants.{Verdict, Moments};
ghost use Rattle.command_answers.specs.Rests.{job_asked};
ghost use Rattle.cellplan_c.specs.RestsAsked.{IsRestAsked, AsksRest};

use crate::cell::Cell;
use crate::hand_overs::hand_over_status;
use crate::rooms::put_text;
use crate::statuses::{NO_CELL, status_of_refused};
use cell_control::{RestController, TourneyDues};
use command_answers::{PlanAnswer, answer_rest};
use people_names::Names;
use std::alloc::Global;

/// The verdict on the rest of the cell's run by its plan, from a moment on, as the command `check` answers it of a log.
#[unsafe(no_mangle)]
pub extern "C" fn cellplan_cell_check(
    alloc: Global,
    cell: &mut Cell,
    at: u64,
    line: &mut [u8],
    length: &mut usize,
) -> u32
    ensures { AsksRest cell.old cell.new Verdict at result line.old line.new length.new }
{
    ask_rest(alloc, cell, at, PlanAnswer::Verdict, line, length)
}

/// When what is left of the cell's run begins and ends by its plan, from a moment on, as the command `schedule` answers
/// it of a log.
#[unsafe(no_mangle)]
pub extern "C" fn cellplan_cell_schedule(
    alloc: Global,
    cell: &mut Cell,
    at: u64,
    text: &mut [u8],
    length: &mut usize,
) -> u32
    ensures { AsksRest cell.old cell.new Moments at result text.old text.new length.new }
{
    ask_rest(alloc, cell, at, PlanAnswer::Moments, text, length)
}

/// Answers what is asked of the rest of the cell's run.
fn ask_rest(
    alloc: Global,
    cell: &mut Cell,
    at: u64,
    wanted: PlanAnswer,
    room: &mut [u8],
    needed: &mut usize,
) -> u32
    requires { job_asked wanted ≡ None }
    ensures { AsksRest cell.old cell.new wanted at result room.old room.new needed.new }
{
    *needed = 0;
    let Some(inner) = cell.take(alloc) else {
        return NO_CELL;
    };
    let status = put_rest(alloc, &inner.controller, at, wanted, room, needed);
    cell.put(inner);
    status
}

/// Answers what is asked of the rest of a run, if the moment can be the next.
fn put_rest(
    alloc: Global,
    controller: &RestController<TourneyDues>,
    at: u64,
    wanted: PlanAnswer,
    room: &mut [u8],
    needed: &mut usize,
) -> u32
    requires { job_asked wanted ≡ None }
    ensures asked { IsRestAsked wanted at result room.old room.new needed.new controller.now }
    ensures unwritten { 8 ≤ result → (needed.new ≡ 0) × (room.new ≡ room.old) }
    ensures statuses { result ≢ 8 }
{
    *needed = 0;
    // Called for its clause alone: the last moment is within the limit.
    let _plan = controller.shaped();
    let rest = match controller.rest_at(alloc, at) {
        Ok(rest) => rest,
        Err(fault) => return hand_over_status(fault),
    };
    // Called for its clause alone: the moment can be the next one.
    let _present = rest.present();
    let names = Names::none(alloc);
    let answer = answer_rest(alloc, &names, &rest, wanted);
    drop(rest);
    match answer {
        Ok(answer) => put_text(&answer.text, u32::from(answer.status), room, needed),
        Err(error) => status_of_refused(error),
    }
}
