//! The search for the first panic head.

ghost use Rattle.output_slice.specs.First.{IsFirstTaken};

use crate::byte_source::CountedBytes;
use crate::panic_head::HeadSpan;
use crate::panic_head::ends::opened_head_end;
use crate::panic_head::quotes::{WORD_SIZE, next_quote};

/// Returns the first panic head in `bytes`, or `None` if there is none. What counts as a head is the same as for
/// [`last_head`].
///
/// [`last_head`]: crate::last_head::last_head
pub fn first_head(bytes: &[u8]) -> Option<HeadSpan>
    ensures { IsFirstTaken bytes.now result }
{
    let mut source = CountedBytes::new(bytes);
    let mut place = 0;
    let mut next = next_quote(&mut source, 0);
    while let Some(quote) = next {
        let close = next_quote(&mut source, quote + 1);
        if let Some(stop) = opened_head_end(&mut source, place, quote, close) {
            return Some(HeadSpan {
                start: quote - WORD_SIZE,
                stop,
            });
        }
        place = quote + 1;
        next = close;
    }
    None
}
