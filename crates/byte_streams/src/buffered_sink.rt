ghost use Rattle.std.specs.Prelude.{◌≡◌, ℕ, [], List, true, OnErr, OnOk};
ghost use Rattle.std.specs.Io.KnownBytes.{Keeps};

use crate::sink::{Sink, WriteFault};

/// What takes bytes, and may hold the last of them back until they are to be shown.
pub trait BufferedSink: Sink {
    // The bytes that it has accepted and not shown yet.
    ghost pending: { Self → List ℕ };

    /// Shows all that it has accepted. At a fault some of it may have been shown.
    fn flush(&mut self) -> Result<(), WriteFault>
        ensures written { Keeps (Self.written self.old) (Self.written self.new) }
        ensures shown { OnOk result (pending self.new ≡ []) }
        ensures unfailed { OnOk result (Self.failed self.new ≡ Self.failed self.old) }
        ensures failed { OnErr result (Self.failed self.new ≡ true) };
}
