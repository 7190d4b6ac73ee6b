//! The places of the rows and of the frame, in tenths of a pixel.

ghost use Rattle.std.specs.Prelude.{◌≡◌, ◌≤◌};
ghost use Rattle.run_picture.specs.Frame.{top_of, bottom_of, foot_of, rows_end, height_for, broadest_word, left_margin};

use crate::words::{machine_name, width_of};
use people_names::Names;
use shop_base::MachineNo;

/// Where the axis of time begins.
pub(crate) const LEFT: u64 = 700;

/// How long the axis of time is.
pub(crate) const WIDTH: u64 = 10_800;

/// Where the rows begin.
const ROWS: u64 = 400;

/// How high a row is.
const ROW: u64 = 240;

/// The upper edge of the boxes of a machine.
pub(crate) fn top_of(machine: MachineNo) -> u64
    ensures { result ≡ top_of machine }
{
    ROWS + ROW * u64::from(machine) + 20
}

/// Their lower edge.
pub(crate) fn bottom_of(machine: MachineNo) -> u64
    ensures { result ≡ bottom_of machine }
{
    ROWS + ROW * u64::from(machine) + 220
}

/// Where the words in the boxes of a machine are.
pub(crate) fn foot_of(machine: MachineNo) -> u64
    ensures { result ≡ foot_of machine }
{
    ROWS + ROW * u64::from(machine) + 160
}

/// Where the rows of this number of machines end.
pub(crate) fn rows_end(machines: u32) -> u64
    ensures { result ≡ rows_end machines }
{
    ROWS + ROW * u64::from(machines)
}

/// How high the picture is.
pub(crate) fn height_for(machines: u32) -> u64
    ensures { result ≡ height_for machines }
{
    rows_end(machines) + 100
}

/// How far the picture goes to the left of 0, so that the machines' words fit before their rows.
pub(crate) fn left_margin(names: &Names, machines: u32) -> u64
    ensures margin { result ≡ left_margin names.now machines }
    ensures narrow { result ≤ 4_240 }
{
    (40 + broadest_word(names, machines)).saturating_sub(600)
}

/// How broad the broadest word for a machine is.
fn broadest_word(names: &Names, machines: u32) -> u64
    ensures broadest { result ≡ broadest_word names.now machines }
    ensures narrow { result ≤ 4_800 }
{
    let mut most = 0;
    for machine in 0..machines {
        most = most.max(width_of(80, machine_name(names, machine).bytes()));
    }
    most
}
