ghost use Rattle.std.specs.Prelude.{◌≡◌, false};

use crate::sink::{Sink, WriteFault};
use std::io::Write;

/// Any of std's writers as a sink. A write that takes no byte is a fault.
#[derive(Debug, Drop)]
pub struct IntoSink<W> {
    device: W,
    failed: bool,
}

impl<W: Write> IntoSink<W> {
    ghost use Rattle.byte_streams.specs.Devices.{device_behind};

    /// The sink for a device. No write to it has failed yet.
    pub fn new(device: W) -> IntoSink<W>
        ensures device { device_behind result ≡ device }
        ensures written { ⟦<IntoSink<W> as Sink>⟧.written result ≡ W.contents device }
        ensures unfailed { ⟦<IntoSink<W> as Sink>⟧.failed result ≡ false }
    {
        IntoSink {
            device,
            failed: false,
        }
    }

    /// The device.
    pub fn into_inner(self) -> W
        ensures { result ≡ device_behind self }
    {
        let IntoSink { device, failed: _ } = self;
        device
    }
}

impl<W: Write> Sink for IntoSink<W> {
    ghost written = { λ s. W.contents s.device };

    ghost failed = { λ s. s.failed };

    fn put(&mut self, bytes: &[u8]) -> Result<usize, WriteFault> {
        match self.device.write(bytes) {
            Ok(count) if count > 0 => Ok(count),
            _ => {
                self.failed = true;
                Err(WriteFault)
            }
        }
    }
}
