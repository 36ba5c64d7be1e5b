//! The counters of a run.

ghost use Rattle.std.specs.Prelude.{◌≡◌, ◌≢◌, ◌↔◌, ◌||◌, IsNone, IsSomeAnd, Some, option_map};
ghost use Rattle.c_values.specs.Layout.{failures_of, script_counted, stats_in, test_counted};
ghost use Rattle.c_values.specs.Status.{status_of};
ghost use Rattle.run_events_stats.specs.Counters.{ScriptCountersFit, TestCountersFit};
ghost use Rattle.run_events_stats.specs.Summary.{FailuresFit, any_script_failed, any_test_failed};

use c_values::layout::{FfiFailedCounts, FfiResult, FfiRunStats, FfiTestView};
use c_values::status::{BAD_CODE, COUNTER_FULL, OK};
use c_values::{codes, values};

/// Counts a finished test: raises `finished_count` and each other counter whose rule holds for it
/// by 1.
#[unsafe(no_mangle)]
pub extern "C" fn deodarsieve_run_stats_count_test(
    stats: &mut FfiRunStats,
    test: &FfiTestView,
) -> u32
    ensures ok { result ≡ OK ↔ IsSomeAnd (test_counted stats.old test.now) TestCountersFit }
    ensures bad_code { result ≡ BAD_CODE ↔ IsNone (test_counted stats.old test.now) }
    ensures counter_full { result ≡ COUNTER_FULL ↔ IsSomeAnd (test_counted stats.old test.now)
        (λ counted. ¬ TestCountersFit counted) }
    ensures value { result ≡ OK → stats_in stats.new ≡ test_counted stats.old test.now }
    ensures untouched { result ≢ OK → stats.new ≡ stats.old }
{
    let Some(mut counters) = values::run_stats(stats) else {
        return BAD_CODE;
    };
    let Some(finished) = values::finished_test(test) else {
        return BAD_CODE;
    };
    if counters.try_on_test_view(&finished.view()).is_err() {
        return COUNTER_FULL;
    }
    *stats = values::written_stats(counters);
    OK
}

/// Counts a finished setup script by its result: raises `setup_scripts_finished_count` and each
/// other counter whose rule holds for it by 1.
#[unsafe(no_mangle)]
pub extern "C" fn deodarsieve_run_stats_count_script(
    stats: &mut FfiRunStats,
    script: &FfiResult,
) -> u32
    ensures ok { result ≡ OK ↔ IsSomeAnd (script_counted stats.old script.now) ScriptCountersFit }
    ensures bad_code { result ≡ BAD_CODE ↔ IsNone (script_counted stats.old script.now) }
    ensures counter_full { result ≡ COUNTER_FULL ↔ IsSomeAnd (script_counted stats.old script.now)
        (λ counted. ¬ ScriptCountersFit counted) }
    ensures value { result ≡ OK → stats_in stats.new ≡ script_counted stats.old script.now }
    ensures untouched { result ≢ OK → stats.new ≡ stats.old }
{
    let Some(mut counters) = values::run_stats(stats) else {
        return BAD_CODE;
    };
    let Some(ended) = codes::described(*script) else {
        return BAD_CODE;
    };
    if counters.try_on_script_result(&ended).is_err() {
        return COUNTER_FULL;
    }
    *stats = values::written_stats(counters);
    OK
}

/// Writes the number of tests and the number of setup scripts that did not pass.
#[unsafe(no_mangle)]
pub extern "C" fn deodarsieve_run_stats_failed_counts(
    stats: &FfiRunStats,
    answer: &mut FfiFailedCounts,
) -> u32
    ensures ok { result ≡ OK ↔ IsSomeAnd (stats_in stats.now) FailuresFit }
    ensures bad_code { result ≡ BAD_CODE ↔ IsNone (stats_in stats.now) }
    ensures counter_full { result ≡ COUNTER_FULL ↔ IsSomeAnd (stats_in stats.now)
        (λ counters. ¬ FailuresFit counters) }
    ensures value { result ≡ OK → Some answer.new ≡ option_map failures_of (stats_in stats.now) }
    ensures untouched { result ≢ OK → answer.new ≡ answer.old }
{
    let Some(counters) = values::run_stats(stats) else {
        return BAD_CODE;
    };
    if !counters.failed_counts_fit() {
        return COUNTER_FULL;
    }
    *answer = FfiFailedCounts {
        tests: counters.failed_count(),
        setup_scripts: counters.failed_setup_script_count(),
    };
    OK
}

/// Writes whether any test or setup script did not pass, for any values of the counters.
#[unsafe(no_mangle)]
pub extern "C" fn deodarsieve_run_stats_has_failures(stats: &FfiRunStats, answer: &mut bool) -> u32
    ensures status { result ≡ status_of (stats_in stats.now) }
    ensures value { result ≡ OK → Some answer.new
        ≡ option_map (λ s. any_script_failed s || any_test_failed s) (stats_in stats.now) }
    ensures untouched { result ≢ OK → answer.new ≡ answer.old }
{
    let Some(counters) = values::run_stats(stats) else {
        return BAD_CODE;
    };
    *answer = counters.has_failures();
    OK
}
