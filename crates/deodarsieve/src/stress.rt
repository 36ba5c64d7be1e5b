//! What remains of a repeated run.

ghost use Rattle.std.specs.Prelude.{◌≡◌, ◌≢◌};
ghost use Rattle.c_values.specs.Layout.{HasOnlyItsKind, left_after, left_in};
ghost use Rattle.c_values.specs.Status.{status_of};

use c_values::layout::{FfiStressProgress, FfiStressRemaining};
use c_values::status::{BAD_CODE, OK};
use c_values::stress::{progress_of, written_left};

/// Writes what remains of a repeated run. Returns `BAD_CODE` for a count of 0, and for a duration
/// with 1,000,000,000 nanoseconds or more.
#[unsafe(no_mangle)]
pub extern "C" fn deodarsieve_stress_progress_remaining(
    progress: &FfiStressProgress,
    answer: &mut FfiStressRemaining,
) -> u32
    ensures status { result ≡ status_of (left_after progress.now) }
    ensures value { result ≡ OK → left_in answer.new ≡ left_after progress.now }
    ensures no_more { result ≡ OK → HasOnlyItsKind answer.new }
    ensures untouched { result ≢ OK → answer.new ≡ answer.old }
{
    let Some(progress) = progress_of(progress) else {
        return BAD_CODE;
    };
    *answer = written_left(progress.remaining());
    OK
}
