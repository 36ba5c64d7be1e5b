//! The search for panic heads, which reads each byte through a counter.

ghost use Rattle.std.specs.Prelude.{◌≡◌, ◌≤◌, ◌↔◌, ◌+◌, ◌*◌, ◌<◌, ◌^◌, ℕ, List, length, IsSome};
ghost use Rattle.output_slice.specs.declared.panic_head.HeadSpan.{HeadSpan};
ghost use Rattle.output_slice.specs.Head.{IsHead};
ghost use Rattle.output_slice.specs.Taken.{IsLastTaken, IsTaken, last_of};

mod characters;
pub(crate) mod ends;
pub(crate) mod quotes;

use crate::byte_source::ByteSource;
use crate::panic_head::ends::opened_head_end;
use crate::panic_head::quotes::{WORD_SIZE, next_quote};

/// The span of a head, which is the front of a panic message, for example `thread 'main' panicked at `.
#[derive(Clone, Copy, Debug, PartialEq, Eq)]
pub struct HeadSpan {
    /// The offset of `thread '`.
    pub start: usize,

    /// The offset after the last space of ` panicked at `.
    pub stop: usize,
}

/// Returns the last panic head in the bytes of `source`, or `None`.
///
/// A head begins at the start of a line: `thread '`, a name, `'`, and then ` panicked at ` or
/// ` (N) panicked at ` with one or more decimal digits N. The name is one or more UTF-8 characters
/// except quotes; line feeds are allowed. Rust's default panic hook begins a message in this form,
/// and nextest-runner recognizes it by this form. Heads are matched from left to right and do not
/// overlap.
///
/// The search reads each of n bytes, and makes at most 3n + 8 reads. The count of `source` plus 8n + 8
/// must be below 2^128.
pub fn last_panic_head<S: ByteSource>(source: &mut S) -> Option<HeadSpan>
    requires room { S.count source.old + 8 * length (S.bytes source.old) + 8 < 2 ^ 128 }
    ensures last { IsLastTaken (S.bytes source.old) result }
    ensures only { (taken : List HeadSpan) → IsTaken (S.bytes source.old) taken
        → result ≡ last_of taken }
    ensures found { IsSome result ↔ ((s : ℕ) × (e : ℕ) × IsHead (S.bytes source.old) s e) }

    // The reads for a source of n bytes: at most 8n + 8, and more tightly from n to 3n + 8.
    ensures reads { S.count source.new
        ≤ S.count source.old + (8 * length (S.bytes source.old) + 8) }
    ensures few { S.count source.new ≤ S.count source.old + (3 * length (S.bytes source.old) + 8) }
    ensures all { S.count source.old + length (S.bytes source.old) ≤ S.count source.new }
    ensures same { S.bytes source.new ≡ S.bytes source.old }
{
    let mut place = 0;
    let mut last = None;
    let mut next = next_quote(source, 0);
    while let Some(quote) = next {
        let close = next_quote(source, quote + 1);
        match opened_head_end(source, place, quote, close) {
            Some(stop) => {
                last = Some(HeadSpan {
                    start: quote - WORD_SIZE,
                    stop,
                });
                place = stop;
                next = next_quote(source, stop);
            }
            None => {
                place = quote + 1;
                next = close;
            }
        }
    }
    last
}
