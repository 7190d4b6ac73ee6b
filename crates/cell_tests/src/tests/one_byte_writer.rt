//! A writer that fails once.

use std::cell::Cell;
use std::io::{self, ErrorKind, Write};

/// Takes one byte a call, but fails at the call that comes after so many: with an error, or by taking nothing. So does
/// a flush. The calls after that one succeed again, so that a byte which is written nevertheless is seen. It counts
/// whether all that it took is the beginning of a text.
#[derive(Drop)]
pub(super) struct OneByteWriter<'a> {
    text: &'a [u8],
    pub(super) alike: bool,
    written: &'a Cell<usize>,
    calls_left: usize,
    shows_left: usize,
    takes_nothing: bool,
}

impl<'a> OneByteWriter<'a> {
    /// Compares what it takes with the text, and counts it in `written`.
    pub(super) fn new(
        text: &'a [u8],
        written: &'a Cell<usize>,
        calls: usize,
        shows: usize,
        takes_nothing: bool,
    ) -> Self {
        OneByteWriter {
            text,
            alike: true,
            written,
            calls_left: calls,
            shows_left: shows,
            takes_nothing,
        }
    }
}

impl Write for OneByteWriter<'_> {
    fn write(&mut self, buf: &[u8]) -> io::Result<usize> {
        if self.calls_left == 0 || buf.is_empty() {
            self.calls_left = usize::MAX;
            if self.takes_nothing {
                return Ok(0);
            }
            return Err(io::Error::from(ErrorKind::Other));
        }
        self.calls_left -= 1;
        let count = self.written.get();
        self.alike = self.alike && self.text.get(count) == Some(&buf[0]);
        self.written.set(count.saturating_add(1));
        Ok(1)
    }

    fn flush(&mut self) -> io::Result<()> {
        if self.shows_left == 0 {
            self.shows_left = usize::MAX;
            return Err(io::Error::from(ErrorKind::Other));
        }
        self.shows_left -= 1;
        Ok(())
    }
}
