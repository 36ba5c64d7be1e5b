//! The longest end of some lines that has at most a number of bytes.

ghost use Rattle.std.specs.Prelude.{◌≡◌, ◌≤◌, ◌+◌, ◌++◌, ◌∷◌, [], ℕ, List, IfOk, OnOk, drop, length, map, string_bytes};
ghost use Rattle.test_report_run.specs.LongestEnd.{joined, longest_end, most_bytes, size_of, with_kept};

use crate::cuts::start_of;
use std::alloc::{AllocError, Global};
use std::collections::VecDeque;

/// The most bytes that are kept of lines, with a line feed between two of them.
pub(crate) const MOST_BYTES: usize = 16_384;

/// The longest end of the lines that were added, so that all its lines together, with a line feed between two
/// of them, have at most [`MOST_BYTES`] bytes. Of a longer line its first bytes are kept.
#[derive(Drop)]
pub(crate) struct LongestEnd {
    lines: VecDeque<String>,

    /// The number of bytes of the lines, with a line feed after each.
    bytes: usize,

    ghost counted: { bytes ≡ size_of (map string_bytes lines.items) },
    ghost few: { bytes ≤ most_bytes + 1 },
}

impl LongestEnd {
    /// Returns no lines.
    pub(crate) fn new(alloc: Global) -> LongestEnd
        ensures { map string_bytes result.lines.items ≡ [] }
    {
        LongestEnd {
            lines: VecDeque::new(alloc),
            bytes: 0,
        }
    }

    /// Adds a line after the others, and drops as many of the first ones as must go.
    pub(crate) fn take_line(&mut self, alloc: Global, line: &str) -> Result<(), AllocError>
        ensures { OnOk result (map string_bytes self.new.lines.items ≡ with_kept (map string_bytes self.old.lines.items) line.now) }
    {
        let line = start_of(line, MOST_BYTES);
        let kept = String::from_str(alloc, line)?;
        self.make_room(line.len());
        self.lines.push_back(kept)?;
        self.bytes += line.len() + 1;
        Ok(())
    }

    /// Drops as many of the first lines as must go so that a line of `size` bytes fits after them.
    fn make_room(&mut self, size: usize)
        requires { size ≤ most_bytes }
        ensures room { self.new.bytes + size ≤ most_bytes }
        ensures longest { (line : List ℕ) → length line ≡ size
            → map string_bytes self.new.lines.items ++ line ∷ [] ≡ longest_end most_bytes (map string_bytes self.old.lines.items ++ line ∷ []) }
    {
        while self.bytes + size > MOST_BYTES {
            self.drop_first();
        }
    }

    /// Drops the first line.
    fn drop_first(&mut self)
        ensures { map string_bytes self.new.lines.items ≡ drop 1 (map string_bytes self.old.lines.items) }
    {
        if let Some(line) = self.lines.pop_front() {
            self.bytes -= line.len() + 1;
        }
    }

    /// Returns the number of lines.
    pub(crate) fn len(&self) -> usize
        ensures { result ≡ length (map string_bytes self.now.lines.items) }
    {
        self.lines.len()
    }

    /// Returns the lines without the first `skipped`, with a line feed between two of them.
    pub(crate) fn text(&self, alloc: Global, skipped: usize) -> Result<String, AllocError>
        ensures { IfOk result (λ text. string_bytes text ≡ joined (drop skipped (map string_bytes self.now.lines.items))) }
    {
        let mut text = String::new(alloc);
        let mut is_first = true;
        for line in self.lines.iter().skip(skipped) {
            if !is_first {
                text.push('\n')?;
            }
            is_first = false;
            text.push_str(line.as_str())?;
        }
        Ok(text)
    }
}
