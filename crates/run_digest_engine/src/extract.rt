//! Finding the part of a test's output that explains its failure.

ghost use Rattle.std.specs.Prelude.{◌≡◌, ◌↔◌, ◌⊎◌, true, false, IfErr, IfOk, IfSome, OnOk, IsErrOf, Option, is_some, option_map, string_bytes};
ghost use Rattle.program_io.specs.Engine.{Answers, KeepsSink, ReadsToEnd};
ghost use Rattle.output_slice.specs.Extraction.{Extract};
ghost use Rattle.output_slice.specs.Shown.{extract_of, slice_of};
ghost use Rattle.run_digest_engine.specs.ExtractAnswer.{IsExtractAnswer, IsExtracted, TellsEachExtract, extract_text, heading, slice_text};
ghost use Rattle.run_digest_engine.specs.Fault.{stage_of};
ghost use Rattle.run_digest_engine.specs.declared.fault.Fault.TheVariants as faults;

use crate::fault::Fault;
use output_slice::subslice::{ByteSubslice, TestOutputErrorSlice};
use program_io::device::{Sink, Source};
use program_io::transfer::{read_all, write_all};
use std::alloc::{AllocError, Global};
use std::num::NonZero;

/// The greatest number of bytes of a part that are written.
const MAX_SLICE: usize = 4_096;

/// Returns the line before a part of output.
#[tactic(auto, unfolding(crate::specs::ExtractAnswer::heading))]
fn heading_of(alloc: Global, kind: &str, start: usize, len: usize) -> Result<String, AllocError>
    ensures { IfOk result (λ s. string_bytes s ≡ heading kind.now start len) }
{
    format!(in alloc; "{kind} {start} {len}\n")
}

/// Finds the part of combined output that explains the failure of a test, at most [`MAX_SLICE`] bytes
/// of it.
fn extracted(output: &[u8]) -> Option<TestOutputErrorSlice<'_>>
    ensures value { IsExtracted output.now (option_map extract_of result) }
    ensures only { (found : Option Extract) → IsExtracted output.now found
        → found ≡ option_map extract_of result }
{
    let limit = NonZero::<usize>::new(MAX_SLICE).unwrap();
    TestOutputErrorSlice::heuristic_extract_capped(Some(output), Some(output), limit)
}

/// Returns the text for a part of output.
fn text_of(alloc: Global, found: Option<TestOutputErrorSlice<'_>>) -> Result<Vec<u8>, AllocError>
    ensures { IfOk result (λ text. text.items ≡ extract_text (option_map extract_of found.entry)) }
{
    match found {
        None => b"none\n".to_vec(alloc),
        Some(TestOutputErrorSlice::PanicMessage { stderr_subslice }) => {
            part_text(alloc, "panic-message", stderr_subslice)
        }
        Some(TestOutputErrorSlice::ErrorStr { stderr_subslice }) => {
            part_text(alloc, "error-str", stderr_subslice)
        }
        Some(TestOutputErrorSlice::ShouldPanic { stdout_subslice }) => {
            part_text(alloc, "should-panic", stdout_subslice)
        }
    }
}

/// Returns the text for a part of output of this kind.
fn part_text(alloc: Global, kind: &str, part: ByteSubslice<'_>) -> Result<Vec<u8>, AllocError>
    ensures { IfOk result (λ text. text.items ≡ slice_text kind.now (slice_of part.entry)) }
{
    let mut text = heading_of(alloc, kind, part.start, part.slice.len())?.into_bytes();
    text.extend_from_slice(part.slice)?;
    text.push(b'\n')?;
    Ok(text)
}

/// Returns the text for the combined output of a test, and whether a part of it explains the failure.
fn digest(alloc: Global, output: &[u8]) -> Result<(Vec<u8>, bool), AllocError>
    ensures answer { IfOk result (λ d. IsExtractAnswer output.now d.0.items d.1) }
    ensures only { IfOk result (λ d. (found : Option Extract) → IsExtracted output.now found
        → (d.0.items ≡ extract_text found) × (d.1 ≡ is_some found)) }
{
    let found = extracted(output);
    let text = text_of(alloc, found)?;
    Ok((text, found.is_some()))
}

/// Reads a test's combined output from `source`, and writes the part of it that explains its failure
/// to `sink`, at most 4,096 bytes of it. Returns true if there is such a part.
///
/// The first line is `panic-message START LEN`, `error-str START LEN` or `should-panic START LEN`,
/// with the offset of the part and its length in bytes. Then come the part and a line feed. If there
/// is no such part, the text is the line `none`.
///
/// Neither device may have failed before. All input is read first, then the whole text is written,
/// then the sink is flushed. After a fault nothing was written, except that after [`Fault::Write`]
/// some first bytes of the text may have been written.
///
/// - [`Fault::Read`] if and only if the source fails, and [`Fault::Write`] if and only if the sink
///   fails.
/// - [`Fault::OutOfMemory`] if there is not enough memory.
pub fn extract<R: Source, W: Sink>(
    alloc: Global,
    source: &mut R,
    sink: &mut W,
) -> Result<bool, Fault>
    requires source_works { R.failed source.old ≡ false }
    requires sink_works { W.failed sink.old ≡ false }
    ensures faults { IfErr result
        (λ e. (e ≡ faults.Read) ⊎ (e ≡ faults.Write) ⊎ (e ≡ faults.OutOfMemory)) }
    ensures read { IsErrOf result faults.Read ↔ (R.failed source.new ≡ true) }
    ensures write { IsErrOf result faults.Write ↔ (W.failed sink.new ≡ true) }
    ensures end { ReadsToEnd stage_of result (R.left source.new) }
    ensures kept { KeepsSink stage_of result (W.written sink.old) (W.written sink.new) }
    ensures flushed { OnOk result (W.flushed sink.new ≡ true) }
    ensures answer { IfSome (R.left source.old)
        (λ input. Answers stage_of (IsExtractAnswer input) result
        (W.written sink.old) (W.written sink.new)) }

    // There is only one extraction of an input. If the result is `false`, there is none.
    ensures only { IfOk result (λ success. IfSome (R.left source.old)
        (λ input. TellsEachExtract success (W.written sink.old) (W.written sink.new) input)) }
{
    let bytes = read_all(alloc, source)?;
    let (text, success) = digest(alloc, bytes.as_slice())?;
    write_all(sink, text.as_slice())?;
    Ok(success)
}
