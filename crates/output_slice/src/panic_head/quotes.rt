//! Quotes, and the prefix before them.

ghost use Rattle.std.specs.Prelude.{◌≡◌, ◌≤◌, ◌↔◌, ◌+◌, ◌-◌, ◌<◌, ◌^◌, length, IsTrue, IfSome};
ghost use Rattle.output_slice.specs.Head.{IsLineStart};
ghost use Rattle.output_slice.specs.Steps.{IsNextQuote, IsOpened, QuoteReads};

use crate::byte_source::ByteSource;

/// The size of `thread `, which is before the opening quote of a head.
pub(crate) const WORD_SIZE: usize = 7;

/// The size of `thread '`.
pub(crate) const OPENING_SIZE: usize = WORD_SIZE + 1;

/// Returns the offset of the first quote at or after `from`.
pub(crate) fn next_quote<S: ByteSource>(source: &mut S, from: usize) -> Option<usize>
    requires within { from ≤ length (S.bytes source.old) }
    requires room { S.count source.old + length (S.bytes source.old) < 2 ^ 128 + from }
    ensures found { IsNextQuote (S.bytes source.old) from result }
    ensures fits { IfSome result (λ q. q + 1 < 2 ^ 64) }
    ensures reads { QuoteReads (S.bytes source.old) from (S.count source.old)
        (S.count source.new) result }
    ensures same { S.bytes source.new ≡ S.bytes source.old }
{
    let end = source.len();
    for at in from..end {
        if source.byte(at) == b'\'' {
            return Some(at);
        }
    }
    None
}

/// Returns true if `thread ` is before `quote`, at the start of a line and not before `place`.
#[inline]
pub(crate) fn opens<S: ByteSource>(source: &mut S, place: usize, quote: usize) -> bool
    requires within { quote < length (S.bytes source.old) }
    requires room { place + 7 ≤ quote → S.count source.old + 8 < 2 ^ 128 }
    ensures value { IsTrue result ↔ IsOpened (S.bytes source.old) place quote }
    ensures few { S.count source.new ≤ S.count source.old + 8 }
    ensures grows { S.count source.old ≤ S.count source.new }
    ensures line { S.count source.old + 1 < S.count source.new
        → IsLineStart (S.bytes source.old) (quote - 7) }
    ensures none { quote < place + 7 → S.count source.new ≡ S.count source.old }
    ensures same { S.bytes source.new ≡ S.bytes source.old }
{
    if quote < WORD_SIZE || quote - WORD_SIZE < place {
        return false;
    }
    let start = quote - WORD_SIZE;
    // The line start comes first, so the prefix is read only at the start of a line.
    if start > 0 && source.byte(start - 1) != b'\n' {
        return false;
    }
    for (i, byte) in b"thread ".iter().enumerate() {
        if source.byte(start + i) != *byte {
            return false;
        }
    }
    true
}
