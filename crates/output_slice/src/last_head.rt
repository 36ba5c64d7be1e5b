//! The search for the last panic head, from the end of the output.

ghost use Rattle.std.specs.Prelude.{◌+◌, ◌^◌, ◌≡◌, ◌≤◌, ◌<◌, ◌↔◌, ℕ, List, length, MatchOption, IsSome, IsTrue, Some};
ghost use Rattle.output_slice.specs.declared.panic_head.HeadSpan.{HeadSpan};
ghost use Rattle.output_slice.specs.Head.{IsLineStart, IsHead};
ghost use Rattle.output_slice.specs.Taken.{IsLastTaken, IsTaken, last_of};
ghost use Rattle.output_slice.specs.Cut.{IsCut, head_behind};
ghost use Rattle.output_slice.specs.Search.{AllHeadsEndBy, IsLastFrom, IsLastOpening, IsOpening, MayAllBeCrossed, MayCross};

use crate::byte_source::CountedBytes;
use crate::lines::{is_line_start, last_byte, line_end, line_start, next_byte};
use crate::panic_head::quotes::{OPENING_SIZE, WORD_SIZE};
use crate::panic_head::{HeadSpan, last_panic_head};
use crate::signs::{Sign, heads_end, last_sign};
use bstr::ByteSlice;

/// A line feed and the prefix of a head. The rare byte is the quote. It is searched for in each part
/// before a marker, and a part can be short: so a search may have more misses.
const OPENING: Sign = Sign {
    text: b"\nthread '",
    rare: 8,
    free_misses: 64,
};

/// Returns the offset of the last line that begins with `thread '`.
///
/// The last line is tested first: if every line begins with the prefix, no search is needed.
fn last_opening(bytes: &[u8]) -> Option<usize>
    ensures { IsLastOpening bytes.now result }
{
    let last = line_start(bytes, bytes.len().saturating_sub(1));
    if is_opening(bytes, last) {
        return Some(last);
    }
    if let Some(feed) = last_sign(bytes, OPENING) {
        return Some(feed + 1);
    }
    if bytes.starts_with_str(&OPENING.text[1..]) {
        return Some(0);
    }
    None
}

/// Returns an offset that no head extends past, given that the last `thread '` prefix is at `at`.
fn window_end(bytes: &[u8], at: usize) -> usize
    requires { IsLastOpening bytes.now (Some at) }
    ensures low { at < result }
    ensures high { result ≤ length bytes.now }
    ensures ends { AllHeadsEndBy bytes.now result }
{
    let name = at + OPENING_SIZE;
    line_end(bytes, next_byte(bytes, b'\'', name).unwrap_or(name))
}

/// Returns the start of a possible head that contains the line start `at`, or `None` if no head can.
fn crossing(bytes: &[u8], at: usize) -> Option<usize>
    requires within { at ≤ length bytes.now }
    requires line_start { IsLineStart bytes.now at }
    ensures { MatchOption result (IsCut bytes.now at) (λ s. MayCross bytes.now s at) }
{
    let quote = last_byte(bytes, b'\'', at)?;
    if quote < WORD_SIZE {
        return None;
    }
    let start = quote - WORD_SIZE;
    if is_opening(bytes, start) {
        Some(start)
    } else {
        None
    }
}

/// Returns true if `at` is a line start and `thread '` begins there.
fn is_opening(bytes: &[u8], at: usize) -> bool
    requires { at ≤ length bytes.now }
    ensures { IsTrue result ↔ IsOpening bytes.now at }
{
    is_line_start(bytes, at) && (&bytes[at..]).starts_with_str(&OPENING.text[1..])
}

/// Returns the last line start at or before `at` that no head can contain.
fn cut_before(bytes: &[u8], at: usize) -> usize
    requires within { at ≤ length bytes.now }
    requires line_start { IsLineStart bytes.now at }
    ensures cut { IsCut bytes.now result }
    ensures within { result ≤ at }
    ensures last { MayAllBeCrossed bytes.now result at }
{
    let mut cut = at;
    while let Some(start) = crossing(bytes, cut) {
        cut = start;
    }
    cut
}

/// Returns the last head that begins at or after `cut`, if there is one.
fn last_from(bytes: &[u8], cut: usize) -> Option<HeadSpan>
    requires { IsCut bytes.now cut }
    ensures { IsLastFrom bytes.now cut result }
{
    let mut source = CountedBytes::new(&bytes[cut..]);
    let head = last_panic_head(&mut source)?;
    Some(head_behind(cut, head))
}

/// Converts a head of the bytes from `place` on to a head of all bytes.
fn head_behind(place: usize, head: HeadSpan) -> HeadSpan
    requires { (place + head.start < 2 ^ 64) × (place + head.stop < 2 ^ 64) }
    ensures { result ≡ head_behind place head }
{
    HeadSpan {
        start: place + head.start,
        stop: place + head.stop,
    }
}

/// Returns the last panic head in `bytes`, or `None`: the same head as [`last_panic_head`].
///
/// The search goes from the end to the start, so a panic near the end of long output is usually
/// found without reading the bytes before it. It goes window by window: a window begins at a line
/// start that no head contains, and ends with the last ` panicked at ` before the window after it. So the
/// first window from the end that has a head has the last one.
pub fn last_head(bytes: &[u8]) -> Option<HeadSpan>
    ensures last { IsLastTaken bytes.now result }
    ensures only { (taken : List HeadSpan) → IsTaken bytes.now taken → result ≡ last_of taken }
    ensures found { IsSome result ↔ ((s : ℕ) × (e : ℕ) × IsHead bytes.now s e) }
{
    last_head_before(bytes, heads_end(bytes))
}

/// Returns the last panic head, given that no head extends past `end`.
fn last_head_before(bytes: &[u8], end: usize) -> Option<HeadSpan>
    requires within { end ≤ length bytes.now }
    requires ends { AllHeadsEndBy bytes.now end }
    ensures { IsLastTaken bytes.now result }
{
    let mut rest = &bytes[..end];
    while let Some(at) = last_opening(rest) {
        let window = &rest[..window_end(rest, at)];
        // The rest ends with ` panicked at `. If no head can reach that far, an earlier one is next.
        if window.len() < rest.len() {
            rest = &window[..heads_end(window)];
        } else {
            let cut = cut_before(rest, at);
            if let Some(head) = last_from(rest, cut) {
                return Some(head);
            }
            let before = &rest[..cut];
            rest = &before[..heads_end(before)];
        }
    }
    None
}
