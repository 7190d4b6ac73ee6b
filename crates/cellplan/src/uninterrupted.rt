//! Devices whose calls are tried again where a signal has interrupted them.

ghost use Rattle.std.specs.Prelude.{◌≡◌, length};

use std::io::{self, ErrorKind, Read, Write};

/// A device of which a call is tried again where a signal has interrupted it.
#[derive(Debug, Drop)]
pub struct Uninterrupted<D> {
    device: D,
}

impl<D> Uninterrupted<D> {
    /// The same device.
    pub fn new(device: D) -> Uninterrupted<D> {
        Uninterrupted { device }
    }
}

/// Whether a signal has interrupted a call.
fn is_interrupted(error: &io::Error) -> bool {
    match error.kind() {
        ErrorKind::Interrupted => true,
        _ => false,
    }
}

impl<R: Read> Read for Uninterrupted<R> {
    ghost remaining = { λ u. R.remaining u.device };

    fn read(&mut self, room: &mut [u8]) -> io::Result<usize> {
        for _ in 1..u64::MAX {
            match self.device.read(room) {
                Ok(count) => return Ok(count),
                Err(error) => {
                    if !is_interrupted(&error) {
                        return Err(error);
                    }
                }
            }
        }
        self.device.read(room)
    }
}

impl<W: Write> Write for Uninterrupted<W> {
    ghost contents = { λ u. W.contents u.device };

    fn write(&mut self, bytes: &[u8]) -> io::Result<usize> {
        for _ in 1..u64::MAX {
            match self.device.write(bytes) {
                Ok(count) => return Ok(count),
                Err(error) => {
                    if !is_interrupted(&error) {
                        return Err(error);
                    }
                }
            }
        }
        self.device.write(bytes)
    }

    fn flush(&mut self) -> io::Result<()> {
        self.device.flush()
    }
}
