//! The line of progress.

use command_run::Screen;
use std::io::{self, IsTerminal, Write};

/// A device on which a line is written over the last one, if it is a terminal.
#[derive(Drop)]
pub struct Terminal<E> {
    device: E,
    /// How many bytes the line has that is shown.
    shown: usize,
}

impl<E: Write + IsTerminal> Terminal<E> {
    /// The device, on which no line is shown yet.
    pub fn new(device: E) -> Terminal<E> {
        Terminal { device, shown: 0 }
    }

    /// Goes back to where the last line begins, writes the new one, and blanks what is left over of the last one.
    fn write_over(&mut self, line: &[u8]) -> io::Result<()> {
        self.device.write_all(b"\r")?;
        self.device.write_all(line)?;
        for _ in line.len()..self.shown {
            self.device.write_all(b" ")?;
        }
        if line.is_empty() {
            self.device.write_all(b"\r")?;
        }
        self.shown = line.len();
        Ok(())
    }
}

impl<E: Write + IsTerminal> Screen for Terminal<E> {
    fn show(&mut self, line: &[u8]) {
        if self.device.is_terminal() {
            let _ = self.write_over(line);
        }
    }
}
