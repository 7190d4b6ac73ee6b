//! A reader that gives its bytes in pieces, and fails once.

use std::cell::Cell;
use std::io::{self, ErrorKind, Read};

/// Gives some bytes in pieces of a size at most, but fails at the call that comes after so many. The calls after that
/// one succeed again, so that it is seen if more is read nevertheless. It counts how many calls were made, and how many
/// bytes were written when the last one was.
#[derive(Drop)]
pub(super) struct PieceReader<'a> {
    bytes: &'a [u8],
    most: usize,
    calls_left: usize,
    pub(super) calls: usize,
    written: &'a Cell<usize>,
    pub(super) written_at_last: usize,
}

impl<'a> PieceReader<'a> {
    /// Takes from `written` how many bytes were written.
    pub(super) fn new(
        bytes: &'a [u8],
        written: &'a Cell<usize>,
        most: usize,
        calls: usize,
    ) -> Self {
        PieceReader {
            bytes,
            most,
            calls_left: calls,
            calls: 0,
            written,
            written_at_last: 0,
        }
    }
}

impl Read for PieceReader<'_> {
    fn read(&mut self, buf: &mut [u8]) -> io::Result<usize> {
        self.written_at_last = self.written.get();
        self.calls = self.calls.saturating_add(1);
        if self.calls_left == 0 {
            self.calls_left = usize::MAX;
            return Err(io::Error::from(ErrorKind::Other));
        }
        self.calls_left -= 1;
        let count = self.bytes.len().min(buf.len()).min(self.most);
        buf[..count].copy_from_slice(&self.bytes[..count]);
        self.bytes = &self.bytes[count..];
        Ok(count)
    }
}
