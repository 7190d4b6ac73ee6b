//! The lines of moves.

ghost use Rattle.std.specs.Prelude.{◌≡◌, ◌+◌, ◌≤◌, ◌++◌, length, OnOk};
ghost use Rattle.plan_moves.specs.MoveLines.{spot_words, move_line, move_lines};

use people_names::Names;
use shop_base::{MoveOrder, Spot};
use std::alloc::AllocError;
use text_lines::LineText;

/// The bytes of the longest line: a moment of 29 bytes, three names of 40, and the words.
const ROOM: usize = 200;

type Line = LineText<ROOM>;

/// Adds a line for each move: `T job J from FROM to TO`, where FROM is `outside` or `machine M`, and TO `machine M` or
/// `out`, by names and clock.
pub fn push_move_lines(
    text: &mut Vec<u8>,
    names: &Names,
    moves: &[MoveOrder],
) -> Result<(), AllocError>
    ensures { OnOk result (text.new.items ≡ text.old.items ++ move_lines names.now moves.now) }
{
    for order in moves {
        push_move_line(text, names, *order)?;
    }
    Ok(())
}

fn push_move_line(text: &mut Vec<u8>, names: &Names, order: MoveOrder) -> Result<(), AllocError>
    ensures { OnOk result (text.new.items ≡ text.old.items ++ move_line names.now order) }
{
    let mut line = Line::ended();
    put_spot(&mut line, names, b"out", order.target);
    line.put_text(b" to ");
    put_spot(&mut line, names, b"outside", order.source);
    line.put_text(b" from ");
    names.put_job(&mut line, order.job);
    line.put_text(b" job ");
    names.put_moment(&mut line, order.at);
    text.extend_from_slice(line.bytes())?;
    Ok(())
}

/// Writes the machine, or the words for what isn't in the cell.
fn put_spot(line: &mut Line, names: &Names, out: &[u8], spot: Spot)
    requires room { 48 + length line.old ≤ ROOM }
    requires out { length out.now ≤ 48 }
    ensures written { line.new ≡ spot_words names.now out.now spot ++ line.old }
    ensures length { length line.new ≤ 48 + length line.old }
{
    match spot {
        Spot::Out => line.put_text(out),
        Spot::At(machine) => {
            names.put_machine(line, machine);
            line.put_text(b"machine ");
        }
    }
}
