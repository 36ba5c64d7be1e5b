//! The characters of names and of numbers.

ghost use Rattle.std.specs.Prelude.{◌≡◌, ◌≤◌, ◌↔◌, ◌+◌, ◌-◌, ◌*◌, ◌<◌, ◌^◌, length, slice_index, IsTrue};
ghost use Rattle.std.specs.Str.{IsUtf8};
ghost use Rattle.bstr.specs.Text.{part};
ghost use Rattle.output_slice.specs.Head.{IsDigit};
ghost use Rattle.output_slice.specs.Steps.{CharReads, IsDigitRun, IsSizedChar, ReadsAsciiEnd};

use crate::byte_source::ByteSource;
use unicode::properties::GeneralCategory;

/// Returns the UTF-8 character at `at` and its size in bytes, or `None` if none ends by `stop`.
#[inline]
fn char_at<S: ByteSource>(source: &mut S, at: usize, stop: usize) -> Option<(char, usize)>
    requires low { at < stop }
    requires high { stop ≤ length (S.bytes source.old) }
    requires room { S.count source.old + stop < 2 ^ 128 + at }
    ensures value { IsSizedChar (S.bytes source.old) at stop result }
    ensures reads { CharReads at stop (S.count source.old) (S.count source.new) result }
    ensures few { S.count source.new ≤ S.count source.old + 4 }
    ensures ascii { slice_index (S.bytes source.old) at < 128
        → S.count source.new ≤ S.count source.old + 1 }
    ensures same { S.bytes source.new ≡ S.bytes source.old }
{
    let first = source.byte(at);
    let size = (stop - at).min(4);
    if first < 0x80 {
        return Some((first as char, 1));
    }
    let mut buffer = [first, 0, 0, 0];
    for i in 1..size {
        buffer[i] = source.byte(at + i);
        let (found, width) = bstr::decode_utf8(&buffer[..i + 1]);
        if let Some(c) = found {
            return Some((c, width));
        }
    }
    None
}

/// Returns true if the bytes from `from` to `to` are UTF-8.
pub(crate) fn is_utf8_between<S: ByteSource>(source: &mut S, from: usize, to: usize) -> bool
    requires low { from ≤ to }
    requires high { to ≤ length (S.bytes source.old) }
    requires room { S.count source.old + 2 * to < 2 ^ 128 + 2 * from }
    ensures value { IsTrue result ↔ IsUtf8 (part from to (S.bytes source.old)) }
    ensures reads { S.count source.new ≤ S.count source.old + (to - from) }
    ensures grows { S.count source.old ≤ S.count source.new }
    ensures same { S.bytes source.new ≡ S.bytes source.old }
{
    let mut at = from;
    while at < to {
        match char_at(source, at, to) {
            Some((_, size)) => at += size,
            None => return false,
        }
    }
    true
}

/// Returns true if `c` is one of `0` to `9`, or a decimal digit outside ASCII.
fn is_digit(c: char) -> bool
    ensures { IsTrue result ↔ IsDigit c }
{
    c.is_ascii_digit()
        || (c >= '\u{80}' && GeneralCategory::for_char(c) == GeneralCategory::DecimalNumber)
}

/// Returns the end of the digits that begin at `from`.
pub(crate) fn digits_end<S: ByteSource>(source: &mut S, from: usize) -> usize
    requires within { from ≤ length (S.bytes source.old) }
    requires room { S.count source.old + 2 * length (S.bytes source.old) < 2 ^ 128 + 2 * from }
    ensures run { IsDigitRun (S.bytes source.old) from result }
    ensures reads { S.count source.new + from ≤ S.count source.old + result + 4 }
    ensures all { S.count source.old + result ≤ S.count source.new + from }
    ensures ascii { ReadsAsciiEnd (S.bytes source.old) from result (S.count source.old)
        (S.count source.new) }
    ensures within { result ≤ length (S.bytes source.old) }
    ensures same { S.bytes source.new ≡ S.bytes source.old }
{
    let end = source.len();
    let mut at = from;
    while at < end {
        match char_at(source, at, end) {
            Some((c, size)) => {
                if !is_digit(c) {
                    return at;
                }
                at += size;
            }
            None => return at,
        }
    }
    at
}
