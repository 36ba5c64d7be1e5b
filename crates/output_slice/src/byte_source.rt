//! Bytes that are read one at a time, with a count of the reads.

ghost use Rattle.std.specs.Prelude.{◌≡◌, ◌+◌, ◌<◌, ◌^◌, ℕ, List, length, slice_index};

use std::marker::Model;

/// Bytes that are read one at a time, with a count of the reads.
///
/// `last_panic_head` reads its input only through this trait, so its reads can be counted.
pub trait ByteSource {
    // The bytes.
    ghost bytes: { Self → List ℕ };

    // The number of reads so far.
    ghost count: { Self → ℕ };

    /// Returns the number of bytes. This does not count as a read.
    fn len(&self) -> usize
        ensures { result ≡ length (bytes self.now) };

    /// Returns the number of reads so far.
    fn reads(&self) -> u128
        ensures { result ≡ count self.now };

    /// Reads the byte at offset `at`, and raises the count by one.
    ///
    /// `at` must be less than [`ByteSource::len`], and the count less than `u128::MAX`.
    fn byte(&mut self, at: usize) -> u8
        requires within { at < length (bytes self.old) }
        requires room { count self.old + 1 < 2 ^ 128 }
        ensures value { result ≡ slice_index (bytes self.old) at }
        ensures counted { count self.new ≡ count self.old + 1 }
        ensures same { bytes self.new ≡ bytes self.old };
}

/// A slice whose reads are counted.
#[derive(Drop)]
pub struct CountedBytes<'a> {
    bytes: &'a [u8],
    count: u128,
}

impl<'a> Model for CountedBytes<'a> {
    // Contracts see it as its bytes and the count.
    ghost Value = { List ℕ × ℕ };

    ghost view = { λ s. (s.bytes.now, s.count) };
}

impl<'a> CountedBytes<'a> {
    /// Returns a source of these bytes, with a count of 0.
    pub fn new(bytes: &'a [u8]) -> Self
        ensures { result ≡ (bytes.now, 0) }
    {
        CountedBytes { bytes, count: 0 }
    }
}

impl<'a> ByteSource for CountedBytes<'a> {
    ghost bytes = { λ s. s.0 };

    ghost count = { λ s. s.1 };

    fn len(&self) -> usize {
        self.bytes.len()
    }

    fn reads(&self) -> u128 {
        self.count
    }

    fn byte(&mut self, at: usize) -> u8 {
        self.count += 1;
        self.bytes[at]
    }
}
