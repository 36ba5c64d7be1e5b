//! Readers and writers of `std` as sources and sinks.

use crate::device::{DeviceFailed, Sink, Source};
use std::io::{Read, Write};

/// A reader of `std` as a source. Every error of the reader is a failure; an interrupted read is not
/// tried again.
#[derive(Drop)]
pub struct StdSource<R> {
    reader: R,
    failed: bool,
}

impl<R: Read> StdSource<R> {
    ghost use Rattle.std.specs.Prelude.{◌≡◌, false};
    ghost use Rattle.program_io.specs.StdDevice.{reader_of, source_failed};

    /// Returns a source over this reader. Nothing is read.
    pub fn new(reader: R) -> StdSource<R>
        ensures reader { reader_of result ≡ reader }
        ensures works { source_failed result ≡ false }
    {
        StdSource {
            reader,
            failed: false,
        }
    }
}

impl<R: Read> Source for StdSource<R> {
    ghost use Rattle.std.specs.Prelude.{◌≡◌, ◌<◌, ◌≤◌, true, IfOk, OnOk, OnErr, length, take};
    ghost use Rattle.std.specs.Io.KnownBytes.{Consumes, IsAtEnd, Keeps};
    ghost use Rattle.program_io.specs.StdDevice.{reader_of, source_failed};

    ghost left = { λ s. R.remaining (reader_of s) };

    ghost failed = { source_failed };

    fn has_failed(&self) -> bool {
        self.failed
    }

    /// Reads by one read of the reader.
    fn read(&mut self, buffer: &mut [u8]) -> Result<usize, DeviceFailed>
        requires { 0 < length buffer.old }
        ensures count { IfOk result (λ n. n ≤ length buffer.new) }
        ensures bytes { IfOk result (λ n. Consumes (R.remaining (reader_of self.old))
            (R.remaining (reader_of self.new)) (take n buffer.new)) }
        ensures end { IfOk result (λ n. n ≡ 0 → IsAtEnd (R.remaining (reader_of self.new))) }
        ensures kept { OnErr result (Keeps (R.remaining (reader_of self.old))
            (R.remaining (reader_of self.new))) }
        ensures ok { OnOk result (source_failed self.new ≡ source_failed self.old) }
        ensures err { OnErr result (source_failed self.new ≡ true) }
    {
        match self.reader.read(buffer) {
            Ok(n) => Ok(n),
            Err(_) => {
                self.failed = true;
                Err(DeviceFailed)
            }
        }
    }
}

/// A writer of `std` as a sink. Every error of the writer is a failure, and so is a write of no byte;
/// an interrupted write is not tried again.
#[derive(Drop)]
pub struct StdSink<W> {
    writer: W,
    failed: bool,
    flushed: bool,
}

impl<W: Write> StdSink<W> {
    ghost use Rattle.std.specs.Prelude.{◌≡◌, false};
    ghost use Rattle.program_io.specs.StdDevice.{sink_failed, sink_flushed, writer_of};

    /// Returns a sink over this writer. Nothing is written.
    pub fn new(writer: W) -> StdSink<W>
        ensures writer { writer_of result ≡ writer }
        ensures held { sink_flushed result ≡ false }
        ensures works { sink_failed result ≡ false }
    {
        StdSink {
            writer,
            failed: false,
            flushed: false,
        }
    }
}

impl<W: Write> Sink for StdSink<W> {
    ghost use Rattle.program_io.specs.StdDevice.{sink_failed, sink_flushed, writer_of};

    ghost written = { λ s. W.contents (writer_of s) };

    ghost failed = { sink_failed };

    ghost flushed = { sink_flushed };

    fn has_failed(&self) -> bool {
        self.failed
    }

    /// Writes by one write of the writer.
    fn write(&mut self, buffer: &[u8]) -> Result<usize, DeviceFailed> {
        self.flushed = false;
        match self.writer.write(buffer) {
            Ok(n) if n > 0 => Ok(n),
            _ => {
                self.failed = true;
                Err(DeviceFailed)
            }
        }
    }

    /// Flushes the writer.
    fn flush(&mut self) -> Result<(), DeviceFailed> {
        match self.writer.flush() {
            Ok(()) => {
                self.flushed = true;
                Ok(())
            }
            Err(_) => {
                self.failed = true;
                self.flushed = false;
                Err(DeviceFailed)
            }
        }
    }
}
