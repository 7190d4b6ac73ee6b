ghost use Rattle.std.specs.Prelude.{◌≡◌, ℕ, ◌<◌, ◌≤◌, [], List, length, Option, Bool, true, OnErr, IfOk, OnOk};
ghost use Rattle.std.specs.Io.KnownBytes.{ReadConsumes};

use crate::buffered_sink::BufferedSink;
use thiserror::Error;

/// A read failed.
#[derive(Clone, Copy, Debug, PartialEq, Eq, Error)]
#[error("Read")]
pub struct ReadFault;

/// What gives bytes one after another, as a file, a pipe or a buffer does.
pub trait Source {
    // The bytes that it still has to give, where these are known.
    ghost left: { Self → Option (List ℕ) };

    // Whether a call has failed.
    ghost failed: { Self → Bool };

    /// Puts the next bytes into the front of the room, and returns how many: 0 only at the end. At a fault there are
    /// none. It may wait for them, so it is called only once all answers are shown.
    fn get<W: BufferedSink>(&mut self, room: &mut [u8], output: &W) -> Result<usize, ReadFault>
        requires room { 0 < length room.old }
        requires shown { W.pending output.now ≡ [] }
        ensures count { IfOk result (λ count. count ≤ length room.new) }
        ensures given { ReadConsumes (left self.old) (left self.new) result room.new }
        ensures unfailed { OnOk result (failed self.new ≡ failed self.old) }
        ensures failed { OnErr result (failed self.new ≡ true) };
}
