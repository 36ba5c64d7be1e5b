//! Summaries of runs, and their outcomes.

ghost use Rattle.std.specs.Prelude.{◌≡◌, ◌≢◌, ◌↔◌, All, IsSome, IsSomeAnd, map, option_map, slice_get};
ghost use Rattle.c_values.specs.Codes.{outcomes, stress_finals};
ghost use Rattle.c_values.specs.Layout.{HasNoMore, combined_in, final_in, outcome_in, stats_in, stress_summary_in};
ghost use Rattle.c_values.specs.Status.{status_of};
ghost use Rattle.run_events_stats.specs.Outcome.{IsHighest};
ghost use Rattle.run_events_stats.specs.Summary.{summary_of};

use c_values::layout::{FfiFinalStats, FfiRunStats};
use c_values::outcomes::outcome_of;
use c_values::status::{BAD_CODE, OK};
use c_values::{codes, values};
use run_events_results::stress::StressIndex;
use run_events_stats::outcome::StressRunStats;

/// Writes the summary of a finished run's counters, for any values of them.
#[unsafe(no_mangle)]
pub extern "C" fn deodarsieve_run_stats_summarize(
    stats: &FfiRunStats,
    answer: &mut FfiFinalStats,
) -> u32
    ensures status { result ≡ status_of (stats_in stats.now) }
    ensures value { result ≡ OK → final_in answer.new ≡ option_map summary_of (stats_in stats.now) }
    ensures no_more { result ≡ OK → HasNoMore answer.new }
    ensures untouched { result ≢ OK → answer.new ≡ answer.old }
{
    let Some(counters) = values::run_stats(stats) else {
        return BAD_CODE;
    };
    *answer = values::written_final(counters.summarize_final());
    OK
}

/// Writes the code of a run's outcome, from the summaries of all its sub-runs: the highest of their
/// outcomes, or `NoTestsRun` if there is no sub-run.
#[unsafe(no_mangle)]
pub extern "C" fn deodarsieve_outcome_of_sub_runs(
    sub_runs: &[FfiFinalStats],
    answer: &mut u32,
) -> u32
    ensures ok { result ≡ OK ↔ All (λ s. IsSome (final_in s)) sub_runs.now }
    ensures bad_code { result ≢ OK → result ≡ BAD_CODE }
    ensures highest { result ≡ OK → IsSomeAnd (slice_get outcomes answer.new)
        (IsHighest (map outcome_in sub_runs.now)) }
    ensures untouched { result ≢ OK → answer.new ≡ answer.old }
{
    let Some(outcome) = outcome_of(sub_runs) else {
        return BAD_CODE;
    };
    *answer = codes::outcome_code(outcome);
    OK
}

/// Writes the code of the higher of two outcomes.
#[unsafe(no_mangle)]
pub extern "C" fn deodarsieve_outcome_combine(outcome: u32, other: u32, answer: &mut u32) -> u32
    ensures status { result ≡ status_of (combined_in outcome other) }
    ensures value { result ≡ OK → slice_get outcomes answer.new ≡ combined_in outcome other }
    ensures untouched { result ≢ OK → answer.new ≡ answer.old }
{
    let (Some(outcome), Some(other)) = (codes::outcome(outcome), codes::outcome(other)) else {
        return BAD_CODE;
    };
    *answer = codes::outcome_code(outcome.combine(other));
    OK
}

/// Writes the code of a repeated run's summary, from the number of its sub-runs that failed and the
/// summary of the last one.
#[unsafe(no_mangle)]
pub extern "C" fn deodarsieve_final_stats_summarize_stress(
    last: &FfiFinalStats,
    failed_count: u32,
    answer: &mut u32,
) -> u32
    ensures status { result ≡ status_of (final_in last.now) }
    ensures value { result ≡ OK → slice_get stress_finals answer.new
        ≡ option_map (stress_summary_in failed_count) (final_in last.now) }
    ensures untouched { result ≢ OK → answer.new ≡ answer.old }
{
    let Some(last_final_stats) = values::final_stats(last) else {
        return BAD_CODE;
    };
    let stats = StressRunStats {
        completed: StressIndex {
            current: 0,
            total: None,
        },
        success_count: 0,
        failed_count,
        last_final_stats,
    };
    *answer = codes::stress_final_code(stats.summarize_final());
    OK
}
