//! Streams of output, and parts of them.

ghost use Rattle.std.specs.Prelude.{◌≡◌, option_map};
ghost use Rattle.std.specs.Option.{option_copied};
ghost use Rattle.c_values.specs.Layout.{captured, slice_out};
ghost use Rattle.output_slice.specs.Shown.{extract_of};

use crate::layout::FfiSlice;
use output_slice::TestOutputErrorSlice;

/// Returns a stream, or `None` if it was not captured.
pub fn stream(is_captured: bool, bytes: &[u8]) -> Option<&[u8]>
    ensures { option_copied result ≡ captured is_captured bytes.now }
{
    is_captured.then_some(bytes)
}

/// Returns the struct of C for a part that was found, or for none.
pub fn written_slice(found: Option<TestOutputErrorSlice<'_>>) -> FfiSlice
    ensures { result ≡ slice_out (option_map extract_of found.entry) }
{
    let (kind, part) = match found {
        None => {
            return FfiSlice {
                kind: 0,
                start: 0,
                length: 0,
            };
        }
        Some(TestOutputErrorSlice::PanicMessage { stderr_subslice }) => (1, stderr_subslice),
        Some(TestOutputErrorSlice::ErrorStr { stderr_subslice }) => (2, stderr_subslice),
        Some(TestOutputErrorSlice::ShouldPanic { stdout_subslice }) => (3, stdout_subslice),
    };
    FfiSlice {
        kind,
        start: part.start,
        length: part.slice.len(),
    }
}
