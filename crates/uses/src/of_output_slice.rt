//! The callers that the page on calling `output_slice` shows.

ghost use Rattle.std.specs.Prelude.{◌↔◌, ℕ, IsTrue, Some, option_map};
ghost use Rattle.output_slice.specs.Extraction.{IsExtract};
ghost use Rattle.output_slice.specs.Head.{IsHead};
ghost use Rattle.output_slice.specs.Shown.{extract_of};

use output_slice::last_head::last_head;
use output_slice::subslice::TestOutputErrorSlice;

/// Returns true if a panic message begins in the standard error of a test.
pub fn has_panicked(stderr: &[u8]) -> bool
    ensures { IsTrue result ↔ ((s : ℕ) × (e : ℕ) × IsHead stderr.now s e) }
{
    last_head(stderr).is_some()
}

/// Returns the part of a test's combined output that explains its failure.
pub fn failure_in(output: &[u8]) -> Option<TestOutputErrorSlice<'_>>
    ensures { IsExtract (Some output.now) (Some output.now) (option_map extract_of result) }
{
    TestOutputErrorSlice::heuristic_extract(Some(output), Some(output))
}
