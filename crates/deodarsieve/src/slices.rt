//! The part of a test's output that explains its failure, and the last head of a panic message.

ghost use Rattle.std.specs.Prelude.{◌≡◌, ◌≢◌, ◌≤◌, ◌<◌, ◌+◌, ◌*◌, ◌↔◌, ℕ, List, length, Option, IsFalse, IsTrue, is_some};
ghost use Rattle.c_values.specs.Layout.{LiesWithin, captured, head_in, reads_out, slice_out};
ghost use Rattle.output_slice.specs.Extraction.{Extract, IsCappedExtract, IsExtract};
ghost use Rattle.output_slice.specs.Head.{IsHead};
ghost use Rattle.output_slice.specs.Taken.{IsLastTaken, IsTaken, last_of};
ghost use Rattle.output_slice.specs.declared.panic_head.HeadSpan.{HeadSpan};

use c_values::layout::{FfiHead, FfiSlice};
use c_values::slices::{stream, written_slice};
use c_values::status::{BAD_CODE, OK};
use output_slice::{ByteSource, CountedBytes, HeadSpan, TestOutputErrorSlice, last_panic_head};
use std::num::NonZero;

/// Writes the part of a test's output that explains its failure: the last panic message in standard
/// error, or else its first error message, or else the line of standard output that notes that a
/// test did not panic. The bytes of a stream that was not captured are not read.
#[unsafe(no_mangle)]
pub extern "C" fn deodarsieve_slice_extract(
    is_out_captured: bool,
    out: &[u8],
    is_err_captured: bool,
    err: &[u8],
    answer: &mut FfiSlice,
) -> u32
    ensures status { result ≡ OK }
    ensures value { (found : Option Extract) × IsExtract (captured is_out_captured out.now)
        (captured is_err_captured err.now) found × (answer.new ≡ slice_out found) }
    ensures only { (found : Option Extract) → IsExtract (captured is_out_captured out.now)
        (captured is_err_captured err.now) found → answer.new ≡ slice_out found }
    ensures part { LiesWithin (captured is_out_captured out.now) (captured is_err_captured err.now)
        answer.new }
{
    let found = TestOutputErrorSlice::heuristic_extract(
        stream(is_out_captured, out),
        stream(is_err_captured, err),
    );
    *answer = written_slice(found);
    OK
}

/// Writes the first bytes of that part, at most `limit`. For a limit of 0 it returns `BAD_CODE`.
#[unsafe(no_mangle)]
pub extern "C" fn deodarsieve_slice_extract_capped(
    is_out_captured: bool,
    out: &[u8],
    is_err_captured: bool,
    err: &[u8],
    limit: usize,
    answer: &mut FfiSlice,
) -> u32
    ensures ok { result ≡ OK ↔ (0 < limit) }
    ensures bad_code { result ≡ BAD_CODE ↔ (limit ≡ 0) }
    ensures value { result ≡ OK → (found : Option Extract) × IsCappedExtract limit
        (captured is_out_captured out.now) (captured is_err_captured err.now) found
        × (answer.new ≡ slice_out found) }
    ensures only { result ≡ OK → (found : Option Extract) → IsCappedExtract limit
        (captured is_out_captured out.now) (captured is_err_captured err.now) found
        → answer.new ≡ slice_out found }
    ensures part { result ≡ OK → LiesWithin (captured is_out_captured out.now)
        (captured is_err_captured err.now) answer.new }
    ensures capped { result ≡ OK → answer.new.length ≤ limit }
    ensures untouched { result ≢ OK → answer.new ≡ answer.old }
{
    let Some(limit) = NonZero::<usize>::new(limit) else {
        return BAD_CODE;
    };
    let capped = TestOutputErrorSlice::heuristic_extract_capped(
        stream(is_out_captured, out),
        stream(is_err_captured, err),
        limit,
    );
    *answer = written_slice(capped);
    OK
}

/// Writes the last head of a panic message, and the number of reads of a byte that the search made.
#[unsafe(no_mangle)]
pub extern "C" fn deodarsieve_head_find_last(bytes: &[u8], answer: &mut FfiHead) -> u32
    ensures status { result ≡ OK }
    ensures last { IsLastTaken bytes.now (head_in answer.new) }
    ensures only { (taken : List HeadSpan) → IsTaken bytes.now taken
        → head_in answer.new ≡ last_of taken }
    ensures found { IsTrue answer.new.is_found ↔ ((s : ℕ) × (e : ℕ) × IsHead bytes.now s e) }
    ensures nothing { IsFalse answer.new.is_found
        → (answer.new.start ≡ 0) × (answer.new.stop ≡ 0) }
    ensures few { answer.new.reads ≤ 3 * length bytes.now + 8 }
    ensures all { length bytes.now ≤ answer.new.reads }
{
    let mut source = CountedBytes::new(bytes);
    let head = last_panic_head(&mut source);
    *answer = written_head(head, source.reads());
    OK
}

/// Returns the struct of C for a head or for none, and the number of reads.
fn written_head(head: Option<HeadSpan>, reads: u128) -> FfiHead
    ensures head { head_in result ≡ head }
    ensures found { result.is_found ≡ is_some head }
    ensures nothing { IsFalse result.is_found → (result.start ≡ 0) × (result.stop ≡ 0) }
    ensures reads { result.reads ≡ reads_out reads }
{
    let reads = u64::try_from(reads).unwrap_or(u64::MAX);
    match head {
        Some(head) => FfiHead {
            is_found: true,
            start: head.start,
            stop: head.stop,
            reads,
        },
        None => FfiHead {
            is_found: false,
            start: 0,
            stop: 0,
            reads,
        },
    }
}
