//! The ends of texts, tails and heads.

ghost use Rattle.std.specs.Prelude.{◌≡◌, ◌≤◌, ◌+◌, ◌-◌, ◌*◌, ◌<◌, ◌^◌, length, slice_index, IfSome};
ghost use Rattle.output_slice.specs.Head.{IsLineStart};
ghost use Rattle.output_slice.specs.Steps.{IsNextQuote, IsTextEnd, TextReads, ReadsAll, IsTailEnd, ReadsUpTo, NoQuoteBetween, IsNamedHeadEnd, IsOpenedHeadEnd, HeadReadsTo, HeadReads};

use crate::byte_source::ByteSource;
use crate::panic_head::characters::{digits_end, is_utf8_between};
use crate::panic_head::quotes::opens;

/// Returns the end of `text` if it begins at `at`.
fn after_text<S: ByteSource>(source: &mut S, at: usize, text: &[u8]) -> Option<usize>
    requires room { S.count source.old + length (S.bytes source.old) < 2 ^ 128 + at }
    requires within { at ≤ length (S.bytes source.old) }
    ensures value { IsTextEnd (S.bytes source.old) text.now at result }
    ensures reads { TextReads (S.bytes source.old) text.now at (S.count source.old)
        (S.count source.new) result }
    ensures all { ReadsAll at (S.count source.old) (S.count source.new) result }
    ensures same { S.bytes source.new ≡ S.bytes source.old }
{
    let end = source.len();
    if end - at < text.len() {
        return None;
    }
    for (i, byte) in text.iter().enumerate() {
        if source.byte(at + i) != *byte {
            return None;
        }
    }
    Some(at + text.len())
}

/// Returns the end of the tail that begins at `at`: the text of a head after its name.
fn tail_end<S: ByteSource>(source: &mut S, at: usize) -> Option<usize>
    requires within { at ≤ length (S.bytes source.old) }
    requires room { S.count source.old + 2 * length (S.bytes source.old) + 6 < 2 ^ 128 + 2 * at }
    ensures value { IsTailEnd (S.bytes source.old) at result }
    ensures reads { ReadsUpTo (S.bytes source.old) at (S.count source.old)
        (S.count source.new) result }
    ensures all { ReadsAll at (S.count source.old) (S.count source.new) result }
    ensures same { S.bytes source.new ≡ S.bytes source.old }
{
    let Some(space) = after_text(source, at, b" ") else {
        return None;
    };
    let Some(number) = after_text(source, space, b"(") else {
        return after_text(source, space, b"panicked at ");
    };
    let close = digits_end(source, number);
    if close == number {
        return None;
    }
    after_text(source, close, b") panicked at ")
}

/// Returns the end of the head whose name is between the quotes at `quote` and `close`.
fn named_head_end<S: ByteSource>(source: &mut S, quote: usize, close: usize) -> Option<usize>
    requires low { quote < close }
    requires high { close < length (S.bytes source.old) }
    requires fits { close + 1 < 2 ^ 64 }
    requires quiet { NoQuoteBetween (S.bytes source.old) (quote + 1) close }
    requires room { S.count source.old + 2 * length (S.bytes source.old) + 6 < 2 ^ 128 + 2 * quote }
    ensures value { IsNamedHeadEnd (S.bytes source.old) quote close result }
    ensures reads { HeadReadsTo (S.bytes source.old) quote (S.count source.old)
        (S.count source.new) close result }
    ensures all { ReadsAll (close + 1) (S.count source.old) (S.count source.new) result }
    ensures same { S.bytes source.new ≡ S.bytes source.old }
{
    if quote + 1 == close {
        return None;
    }
    // The tail comes first, so a name is read only if a tail follows it.
    let stop = tail_end(source, close + 1)?;
    if !is_utf8_between(source, quote + 1, close) {
        return None;
    }
    Some(stop)
}

/// Returns the end of the head whose name begins after `quote`, if there is one and it starts at or
/// after `place`. The next quote is at `close`.
pub(crate) fn opened_head_end<S: ByteSource>(
    source: &mut S,
    place: usize,
    quote: usize,
    close: Option<usize>,
) -> Option<usize>
    requires low { place ≤ quote }
    requires high { quote < length (S.bytes source.old) }
    requires is_quote { slice_index (S.bytes source.old) quote ≡ 39 }
    requires next { IsNextQuote (S.bytes source.old) (quote + 1) close }
    requires fits { IfSome close (λ c. c + 1 < 2 ^ 64) }
    requires room { S.count source.old + 2 * length (S.bytes source.old) < 2 ^ 128 + 2 * place }
    ensures value { IsOpenedHeadEnd (S.bytes source.old) place quote result }
    ensures opened { S.count source.old < S.count source.new → place + 7 ≤ quote }
    ensures line { S.count source.old + 1 < S.count source.new
        → IsLineStart (S.bytes source.old) (quote - 7) }
    ensures reads { HeadReads (S.bytes source.old) quote (S.count source.old)
        (S.count source.new) close result }
    ensures all { IfSome close (λ c. ReadsAll (c + 1) (S.count source.old) (S.count source.new)
        result) }
    ensures same { S.bytes source.new ≡ S.bytes source.old }
{
    let close = close?;
    if !opens(source, place, quote) {
        return None;
    }
    named_head_end(source, quote, close)
}
