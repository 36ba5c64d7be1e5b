//! Sources, from which bytes are read, and sinks, to which bytes are written.

ghost use Rattle.std.specs.Prelude.{◌≡◌, ◌<◌, ◌≤◌, ℕ, Bool, true, false, List, Option, IfOk, OnOk, OnErr, length, take};
ghost use Rattle.std.specs.Io.KnownBytes.{Appends, Consumes, IsAtEnd, Keeps};

/// A read, a write or a flush failed.
#[derive(Clone, Copy, Debug, PartialEq, Eq)]
pub struct DeviceFailed;

/// Bytes that can be read.
pub trait Source {
    // The bytes that are left, if the source knows them.
    ghost left: { Self → Option (List ℕ) };

    // Whether a read has failed.
    ghost failed: { Self → Bool };

    /// Returns true if a read has failed.
    fn has_failed(&self) -> bool
        ensures { result ≡ failed self.now };

    /// Reads some bytes into the front of `buffer`, and returns their number, which is 0 only at
    /// the end of the source.
    ///
    /// `buffer` must not be empty. After [`DeviceFailed`] the source has failed, and it is not known
    /// which bytes are left.
    fn read(&mut self, buffer: &mut [u8]) -> Result<usize, DeviceFailed>
        requires { 0 < length buffer.old }
        ensures count { IfOk result (λ n. n ≤ length buffer.new) }
        ensures bytes { IfOk result (λ n. Consumes (left self.old) (left self.new)
            (take n buffer.new)) }
        ensures end { IfOk result (λ n. n ≡ 0 → IsAtEnd (left self.new)) }
        ensures ok { OnOk result (failed self.new ≡ failed self.old) }
        ensures err { OnErr result (failed self.new ≡ true) };
}

/// Somewhere to write bytes.
pub trait Sink {
    // The bytes that were written, if the sink knows them.
    ghost written: { Self → Option (List ℕ) };

    // Whether a write or a flush has failed.
    ghost failed: { Self → Bool };

    // Whether all bytes that were written have been passed on: the last write or flush was a flush
    // that succeeded.
    ghost flushed: { Self → Bool };

    /// Returns true if a write or a flush has failed.
    fn has_failed(&self) -> bool
        ensures { result ≡ failed self.now };

    /// Writes the first bytes of `buffer`, at least one, and returns how many.
    ///
    /// `buffer` must not be empty. After [`DeviceFailed`] the sink has failed, and no byte was
    /// written.
    fn write(&mut self, buffer: &[u8]) -> Result<usize, DeviceFailed>
        requires { 0 < length buffer.now }
        ensures some { IfOk result (λ n. 0 < n) }
        ensures count { IfOk result (λ n. n ≤ length buffer.now) }
        ensures bytes { IfOk result (λ n. Appends (written self.old) (written self.new)
            (take n buffer.now)) }
        ensures kept { OnErr result (Keeps (written self.old) (written self.new)) }
        ensures held { flushed self.new ≡ false }
        ensures ok { OnOk result (failed self.new ≡ failed self.old) }
        ensures err { OnErr result (failed self.new ≡ true) };

    /// Passes on all bytes that were written and are still in a buffer of the sink.
    ///
    /// After [`DeviceFailed`] the sink has failed, and is not flushed.
    fn flush(&mut self) -> Result<(), DeviceFailed>
        ensures kept { Keeps (written self.old) (written self.new) }
        ensures sent { OnOk result (flushed self.new ≡ true) }
        ensures unsent { OnErr result (flushed self.new ≡ false) }
        ensures ok { OnOk result (failed self.new ≡ failed self.old) }
        ensures err { OnErr result (failed self.new ≡ true) };
}
