ghost use Rattle.std.specs.Prelude.{◌≡◌, false};

use crate::buffered_sink::BufferedSink;
use crate::source::{ReadFault, Source};
use std::io::Read;

/// Any of std's readers as a source.
#[derive(Debug, Drop)]
pub struct FromRead<R> {
    device: R,
    failed: bool,
}

impl<R: Read> FromRead<R> {
    ghost use Rattle.byte_streams.specs.Devices.{device_of};

    /// The source for a device. No read of it has failed yet.
    pub fn new(device: R) -> FromRead<R>
        ensures device { device_of result ≡ device }
        ensures left { ⟦<FromRead<R> as Source>⟧.left result ≡ R.remaining device }
        ensures unfailed { ⟦<FromRead<R> as Source>⟧.failed result ≡ false }
    {
        FromRead {
            device,
            failed: false,
        }
    }

    /// The device.
    pub fn into_inner(self) -> R
        ensures { result ≡ device_of self }
    {
        let FromRead { device, failed: _ } = self;
        device
    }
}

impl<R: Read> Source for FromRead<R> {
    ghost left = { λ s. R.remaining s.device };

    ghost failed = { λ s. s.failed };

    fn get<W: BufferedSink>(&mut self, room: &mut [u8], _output: &W) -> Result<usize, ReadFault> {
        match self.device.read(room) {
            Ok(count) => Ok(count),
            Err(_) => {
                self.failed = true;
                Err(ReadFault)
            }
        }
    }
}
