//! The levels of finished tests, and what a reporter shows of them.

ghost use Rattle.std.specs.Prelude.{◌≡◌, ◌≢◌, Some, option_and_then, option_map, slice_get};
ghost use Rattle.c_values.specs.Codes.{final_levels, levels};
ghost use Rattle.c_values.specs.Layout.{output_in, result_in, view_in, visibility_in};
ghost use Rattle.c_values.specs.Status.{status_of};
ghost use Rattle.run_events_results.specs.Level.{final_level_of, level_of};
ghost use Rattle.run_events_results.specs.Results.{is_termination_failure, succeeds};

use c_values::layout::{FfiFinishedTest, FfiOutput, FfiResult, FfiTestView};
use c_values::levels::{output_of, written_output};
use c_values::status::{BAD_CODE, OK};
use c_values::{codes, values};

/// Writes the code of a finished test's status level.
#[unsafe(no_mangle)]
pub extern "C" fn deodarsieve_test_view_status_level(test: &FfiTestView, answer: &mut u32) -> u32
    ensures status { result ≡ status_of (view_in test.now) }
    ensures value { result ≡ OK
        → slice_get levels answer.new ≡ option_and_then level_of (view_in test.now) }
    ensures untouched { result ≢ OK → answer.new ≡ answer.old }
{
    let Some((level, _)) = values::levels_of(test) else {
        return BAD_CODE;
    };
    *answer = codes::level_code(level);
    OK
}

/// Writes the code of a finished test's final status level.
#[unsafe(no_mangle)]
pub extern "C" fn deodarsieve_test_view_final_status_level(
    test: &FfiTestView,
    answer: &mut u32,
) -> u32
    ensures status { result ≡ status_of (view_in test.now) }
    ensures value { result ≡ OK
        → slice_get final_levels answer.new ≡ option_and_then final_level_of (view_in test.now) }
    ensures untouched { result ≢ OK → answer.new ≡ answer.old }
{
    let Some((_, level)) = values::levels_of(test) else {
        return BAD_CODE;
    };
    *answer = codes::final_level_code(level);
    OK
}

/// Writes what a reporter displays of a test that has just finished, and what it stores.
#[unsafe(no_mangle)]
pub extern "C" fn deodarsieve_finished_test_compute_output(
    test: &FfiFinishedTest,
    answer: &mut FfiOutput,
) -> u32
    ensures status { result ≡ status_of (visibility_in test.now) }
    ensures value { result ≡ OK → output_in answer.new ≡ visibility_in test.now }
    ensures untouched { result ≢ OK → answer.new ≡ answer.old }
{
    let Some(output) = output_of(test) else {
        return BAD_CODE;
    };
    *answer = written_output(output);
    OK
}

/// Writes whether an attempt succeeded.
#[unsafe(no_mangle)]
pub extern "C" fn deodarsieve_result_is_success(ended: &FfiResult, answer: &mut bool) -> u32
    ensures status { result ≡ status_of (result_in ended.now) }
    ensures value { result ≡ OK → Some answer.new ≡ option_map succeeds (result_in ended.now) }
    ensures untouched { result ≢ OK → answer.new ≡ answer.old }
{
    let Some(described) = codes::described(*ended) else {
        return BAD_CODE;
    };
    *answer = described.is_success();
    OK
}

/// Writes whether an attempt failed by `SIGTERM` or by the end of its job object.
#[unsafe(no_mangle)]
pub extern "C" fn deodarsieve_result_is_termination_failure(
    ended: &FfiResult,
    answer: &mut bool,
) -> u32
    ensures status { result ≡ status_of (result_in ended.now) }
    ensures value { result ≡ OK
        → Some answer.new ≡ option_map is_termination_failure (result_in ended.now) }
    ensures untouched { result ≢ OK → answer.new ≡ answer.old }
{
    let Some(described) = codes::described(*ended) else {
        return BAD_CODE;
    };
    *answer = described.is_termination_failure();
    OK
}
