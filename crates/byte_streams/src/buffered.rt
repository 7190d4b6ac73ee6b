ghost use Rattle.std.specs.Prelude.{◌≡◌, [], false, IfOk, IfErr};
ghost use Rattle.std.specs.IoError.{error_kind};
ghost use Rattle.byte_streams.specs.Devices.{buffered_device, buffered_most};

use crate::buffered_sink::BufferedSink;
use crate::sink::{Sink, WriteFault};
use std::alloc::Global;
use std::io::{self, BufWriter, ErrorKind, Write};

/// Any of std's writers as an output, which gathers bytes until they are to be shown or there is no more room. When it
/// is dropped, even after a failed write, it tries once more to write what is still gathered, and reports no fault. To
/// show bytes is to write them to the writer: if that passes them on, whoever waits for an answer has it.
#[derive(Drop)]
pub struct Buffered<W: Write + Drop> {
    writer: BufWriter<W>,
    failed: bool,
}

impl<W: Write + Drop> Buffered<W> {
    /// The output for a device. No write to it has failed yet. At most `most` bytes are gathered.
    pub fn new(alloc: Global, most: usize, device: W) -> io::Result<Buffered<W>>
        ensures device { IfOk result (λ buffered. buffered_device buffered ≡ device) }
        ensures shown { IfOk result (λ buffered. ⟦<Buffered<W> as BufferedSink>⟧.pending buffered ≡ []) }
        ensures unfailed { IfOk result (λ buffered. ⟦<Buffered<W> as Sink>⟧.failed buffered ≡ false) }
        ensures most { IfOk result (λ buffered. buffered_most buffered ≡ most) }
        ensures fault { IfErr result (λ error. error_kind error ≡ ErrorKind.OutOfMemory) }
    {
        let writer = BufWriter::with_capacity(alloc, most, device)?;
        Ok(Buffered {
            writer,
            failed: false,
        })
    }

    /// The device. What is gathered isn't written out.
    pub fn into_inner(self) -> W
        ensures { result ≡ buffered_device self }
    {
        let Buffered { writer, failed: _ } = self;
        let (device, _gathered) = writer.into_parts();
        device
    }
}

impl<W: Write + Drop> Sink for Buffered<W> {
    ghost use Rattle.std.specs.Io.Buffered.{writer_contents};

    ghost written = { λ s. writer_contents W.contents s.writer };

    ghost failed = { λ s. s.failed };

    fn put(&mut self, bytes: &[u8]) -> Result<usize, WriteFault> {
        match self.writer.write(bytes) {
            Ok(count) if count > 0 => Ok(count),
            _ => {
                self.failed = true;
                Err(WriteFault)
            }
        }
    }
}

impl<W: Write + Drop> BufferedSink for Buffered<W> {
    ghost use Rattle.std.specs.Io.Buffered.{writer_buffer};

    ghost pending = { λ s. writer_buffer s.writer };

    fn flush(&mut self) -> Result<(), WriteFault> {
        match self.writer.flush() {
            Ok(()) => Ok(()),
            Err(_) => {
                self.failed = true;
                Err(WriteFault)
            }
        }
    }
}
