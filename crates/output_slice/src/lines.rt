//! Where lines begin and end.

ghost use Rattle.std.specs.Prelude.{◌≡◌, ◌≤◌, ◌↔◌, ◌-◌, length, slice_index, IsTrue};
ghost use Rattle.bstr.specs.Find.{IsFirst, IsLast};
ghost use Rattle.output_slice.specs.Head.{IsLineStart};
ghost use Rattle.output_slice.specs.Steps.{IsLineEnd, NoFeedBetween};

use bstr::ByteSlice;

/// Returns the offset of the first `byte` at or after `from`.
pub(crate) fn next_byte(bytes: &[u8], byte: u8, from: usize) -> Option<usize>
    requires { from ≤ length bytes.now }
    ensures { IsFirst (λ k. slice_index bytes.now k ≡ byte) from (length bytes.now) result }
{
    let gap = (&bytes[from..]).find_byte(byte)?;
    Some(from + gap)
}

/// Returns the offset of the last `byte` before `end`.
pub(crate) fn last_byte(bytes: &[u8], byte: u8, end: usize) -> Option<usize>
    requires { end ≤ length bytes.now }
    ensures { IsLast (λ k. slice_index bytes.now k ≡ byte) 0 end result }
{
    (&bytes[..end]).rfind_byte(byte)
}

/// Returns true if `at` is the start of a line.
pub(crate) fn is_line_start(bytes: &[u8], at: usize) -> bool
    requires { at ≤ length bytes.now }
    ensures { IsTrue result ↔ IsLineStart bytes.now at }
{
    at == 0 || bytes[at - 1] == b'\n'
}

/// Returns the start of the line that contains `at`.
pub(crate) fn line_start(bytes: &[u8], at: usize) -> usize
    requires { at ≤ length bytes.now }
    ensures within { result ≤ at }
    ensures first { IsLineStart bytes.now result }
    ensures one_line { NoFeedBetween bytes.now result at }
{
    match last_byte(bytes, b'\n', at) {
        Some(feed) => feed + 1,
        None => 0,
    }
}

/// Returns the end of the line that contains `at`, after its line feed.
pub(crate) fn line_end(bytes: &[u8], at: usize) -> usize
    requires { at ≤ length bytes.now }
    ensures low { at ≤ result }
    ensures high { result ≤ length bytes.now }
    ensures last { IsLineEnd bytes.now at result }
    ensures one_line { NoFeedBetween bytes.now at (result - 1) }
{
    match next_byte(bytes, b'\n', at) {
        Some(feed) => feed + 1,
        None => bytes.len(),
    }
}
