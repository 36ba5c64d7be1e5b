//! A source and a sink over byte slices, which fail at a chosen call. They are for tests.

ghost use Rattle.std.specs.Prelude.{◌≡◌, ◌≤◌, length};
ghost use Rattle.program_io.specs.MemoryCalls.{after_call};

use crate::device::{DeviceFailed, Sink, Source};

/// Returns the number of calls before the one that fails, after one more call.
fn one_fewer(calls: Option<usize>) -> Option<usize>
    ensures { result ≡ after_call calls }
{
    match calls {
        None | Some(0) => None,
        Some(n) => Some(n - 1),
    }
}

/// A byte slice as a source.
#[derive(Clone, Copy)]
pub struct MemorySource<'a> {
    bytes: &'a [u8],
    calls_left: Option<usize>,
    failed: bool,
}

impl<'a> MemorySource<'a> {
    ghost use Rattle.std.specs.Prelude.{◌≡◌, false};
    ghost use Rattle.program_io.specs.MemoryDevice.{left_of, reads_left, source_failed};

    /// Returns a source of these bytes. The read number `fail_at`, counted from 0, will fail. With
    /// `None` no read will.
    pub fn new(bytes: &'a [u8], fail_at: Option<usize>) -> Self
        ensures left { left_of result ≡ bytes.now }
        ensures reads { reads_left result ≡ fail_at }
        ensures works { source_failed result ≡ false }
    {
        MemorySource {
            bytes,
            calls_left: fail_at,
            failed: false,
        }
    }
}

impl Source for MemorySource<'_> {
    ghost use Rattle.std.specs.Prelude.{◌≡◌, ◌<◌, ◌≤◌, ◌↔◌, Some, true, IsErr, IfOk, OnOk, OnErr, length, min, take};
    ghost use Rattle.std.specs.Io.KnownBytes.{Consumes, IsAtEnd};
    ghost use Rattle.program_io.specs.MemoryCalls.{after_call};
    ghost use Rattle.program_io.specs.MemoryDevice.{left_of, reads_left, source_failed};

    ghost left = { λ s. Some (left_of s) };

    ghost failed = { source_failed };

    fn has_failed(&self) -> bool {
        self.failed
    }

    /// Reads as many bytes as are left and fit `buffer`. After a failure the same bytes are left.
    fn read(&mut self, buffer: &mut [u8]) -> Result<usize, DeviceFailed>
        requires { 0 < length buffer.old }
        ensures count { IfOk result (λ n. n ≤ length buffer.new) }
        ensures all { IfOk result (λ n. n ≡ min (length (left_of self.old)) (length buffer.new)) }
        ensures bytes { IfOk result (λ n. Consumes (Some (left_of self.old))
            (Some (left_of self.new)) (take n buffer.new)) }
        ensures end { IfOk result (λ n. n ≡ 0 → IsAtEnd (Some (left_of self.new))) }
        ensures kept { OnErr result (left_of self.new ≡ left_of self.old) }
        ensures ok { OnOk result (source_failed self.new ≡ source_failed self.old) }
        ensures err { OnErr result (source_failed self.new ≡ true) }
        ensures fails { IsErr result ↔ (reads_left self.old ≡ Some 0) }
        ensures reads { reads_left self.new ≡ after_call (reads_left self.old) }
    {
        let fails = self.calls_left == Some(0);
        self.calls_left = one_fewer(self.calls_left);
        if fails {
            self.failed = true;
            return Err(DeviceFailed);
        }
        let n = self.bytes.len().min(buffer.len());
        let (taken, rest) = self.bytes.split_at(n);
        buffer[..n].copy_from_slice(taken);
        self.bytes = rest;
        Ok(n)
    }
}

/// A byte slice as a sink.
#[derive(Drop)]
pub struct MemorySink<'a> {
    buffer: &'a mut [u8],
    len: usize,
    calls_left: Option<usize>,
    failed: bool,
    flushed: bool,
    ghost fits: { len ≤ length buffer.now },
}

impl<'a> MemorySink<'a> {
    ghost use Rattle.std.specs.Prelude.{◌≡◌, ◌↔◌, ◌||◌, false, [], length, IsTrue, Some};
    ghost use Rattle.program_io.specs.MemoryCalls.{after_call};
    ghost use Rattle.program_io.specs.MemoryDevice.{calls_left, room_of, sink_failed, sink_flushed, written_of};

    /// Returns a sink that writes into `buffer`. The write or flush number `fail_at`, counted from 0,
    /// will fail. With `None` a write fails only if `buffer` is full.
    pub fn new(buffer: &'a mut [u8], fail_at: Option<usize>) -> Self
        ensures written { written_of result ≡ [] }
        ensures room { room_of result ≡ length buffer.old }
        ensures calls { calls_left result ≡ fail_at }
        ensures held { sink_flushed result ≡ false }
        ensures works { sink_failed result ≡ false }
    {
        MemorySink {
            buffer,
            len: 0,
            calls_left: fail_at,
            failed: false,
            flushed: false,
        }
    }

    /// Returns the bytes that were written.
    pub fn written(&self) -> &[u8]
        ensures { result.now ≡ written_of self.now }
    {
        &self.buffer[..self.len]
    }

    /// Counts a call, and returns true if it fails.
    fn call_fails(&mut self) -> bool
        ensures fails { IsTrue result ↔ (calls_left self.old ≡ Some 0) }
        ensures calls { calls_left self.new ≡ after_call (calls_left self.old) }
        ensures failed { sink_failed self.new ≡ (sink_failed self.old || result) }
        ensures flushed { sink_flushed self.new ≡ false }
        ensures written { written_of self.new ≡ written_of self.old }
        ensures room { room_of self.new ≡ room_of self.old }
    {
        let fails = self.calls_left == Some(0);
        self.calls_left = one_fewer(self.calls_left);
        self.failed |= fails;
        self.flushed = false;
        fails
    }
}

impl Sink for MemorySink<'_> {
    ghost use Rattle.std.specs.Prelude.{◌≡◌, ◌<◌, ◌≤◌, ◌-◌, ◌↔◌, ◌⊎◌, Some, true, false, IsErr, IfOk, OnOk, OnErr, MatchResult, length, min, take};
    ghost use Rattle.std.specs.Io.KnownBytes.{Appends, Keeps};
    ghost use Rattle.program_io.specs.MemoryCalls.{after_call};
    ghost use Rattle.program_io.specs.MemoryDevice.{calls_left, room_of, sink_failed, sink_flushed, written_of};

    ghost written = { λ s. Some (written_of s) };

    ghost failed = { sink_failed };

    ghost flushed = { sink_flushed };

    fn has_failed(&self) -> bool {
        self.failed
    }

    /// Writes as many bytes of `buffer` as there is room for. It also fails if there is no room.
    fn write(&mut self, buffer: &[u8]) -> Result<usize, DeviceFailed>
        requires { 0 < length buffer.now }
        ensures some { IfOk result (λ n. 0 < n) }
        ensures count { IfOk result (λ n. n ≤ length buffer.now) }
        ensures all { IfOk result (λ n. n ≡ min (room_of self.old) (length buffer.now)) }
        ensures bytes { IfOk result (λ n. Appends (Some (written_of self.old))
            (Some (written_of self.new)) (take n buffer.now)) }
        ensures kept { OnErr result (Keeps (Some (written_of self.old))
            (Some (written_of self.new))) }
        ensures room { MatchResult result (λ n. room_of self.new ≡ room_of self.old - n)
            (λ _. room_of self.new ≡ room_of self.old) }
        ensures held { sink_flushed self.new ≡ false }
        ensures ok { OnOk result (sink_failed self.new ≡ sink_failed self.old) }
        ensures err { OnErr result (sink_failed self.new ≡ true) }
        ensures fails { IsErr result ↔ ((calls_left self.old ≡ Some 0) ⊎ (room_of self.old ≡ 0)) }
        ensures calls { calls_left self.new ≡ after_call (calls_left self.old) }
    {
        let free = self.buffer.len() - self.len;
        if self.call_fails() || free == 0 {
            self.failed = true;
            return Err(DeviceFailed);
        }
        let n = free.min(buffer.len());
        self.buffer[self.len..self.len + n].copy_from_slice(&buffer[..n]);
        self.len += n;
        Ok(n)
    }

    /// As [`Sink::flush`]. It fails if and only if this call is the one that was chosen to fail.
    fn flush(&mut self) -> Result<(), DeviceFailed>
        ensures kept { Keeps (Some (written_of self.old)) (Some (written_of self.new)) }
        ensures room { room_of self.new ≡ room_of self.old }
        ensures sent { OnOk result (sink_flushed self.new ≡ true) }
        ensures unsent { OnErr result (sink_flushed self.new ≡ false) }
        ensures ok { OnOk result (sink_failed self.new ≡ sink_failed self.old) }
        ensures err { OnErr result (sink_failed self.new ≡ true) }
        ensures fails { IsErr result ↔ (calls_left self.old ≡ Some 0) }
        ensures calls { calls_left self.new ≡ after_call (calls_left self.old) }
    {
        if self.call_fails() {
            return Err(DeviceFailed);
        }
        self.flushed = true;
        Ok(())
    }
}
