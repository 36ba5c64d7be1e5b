//! The exit status of a test runner for a run.
//!
//! The numbers are those of nextest. A cancelled run has the status of a failed run with the same
//! step: not all of it ran, so neither 0 nor the status of an empty run is right, and nextest has
//! no number for it.

ghost use Rattle.std.specs.Prelude.{◌≡◌, ◌↔◌, map};
ghost use Rattle.run_events.specs.Counters.{stats_of, unit_view};
ghost use Rattle.run_events.specs.Outcome.{combined, outcome_of, run_summary};
ghost use Rattle.run_events.specs.RunLaws.{RunSucceeds};
ghost use Rattle.run_events.specs.Summary.{summary_of};
ghost use Rattle.uses.specs.ExitStatus.{EndsBy, RanNoTests, Succeeds, status_of};

use run_events::outcome::{FinalRunStats, RunFailureStep, RunOutcome};
use run_events::stats::{FinishedRun, FinishedUnit, RunStart, RunStats};

/// Nothing failed, and at least one test ran.
pub const SUCCESS: u8 = 0;

/// Nothing failed, but no test ran.
pub const NO_TESTS_RUN: u8 = 4;

/// A test failed, or the run was cancelled at its tests.
pub const TEST_RUN_FAILED: u8 = 100;

/// A setup script failed, or the run was cancelled at its setup scripts.
pub const SETUP_SCRIPT_FAILED: u8 = 105;

/// Returns the exit status of an outcome.
fn of_outcome(outcome: RunOutcome) -> u8
    ensures { result ≡ status_of outcome }
{
    match outcome {
        RunOutcome::Success => SUCCESS,
        RunOutcome::NoTestsRun => NO_TESTS_RUN,
        RunOutcome::Cancelled { step } | RunOutcome::Failed { step } => match step {
            RunFailureStep::Test => TEST_RUN_FAILED,
            RunFailureStep::SetupScript => SETUP_SCRIPT_FAILED,
        },
    }
}

/// Returns the exit status of a run with these finished units.
pub fn of_run(units: &[FinishedUnit<'_>], start: RunStart) -> u8
    ensures success { (result ≡ SUCCESS) ↔ RunSucceeds (map unit_view units.now) start }
    ensures summary { result ≡ status_of (outcome_of
        (summary_of (stats_of (map unit_view units.now) start))) }
{
    let stats = RunStats::of_run(units, start);
    of_outcome(RunOutcome::from_final_stats(stats.summarize_final()))
}

/// Returns the exit status of a repeated run, from the summaries of its sub-runs.
pub fn of_sub_runs(sub_runs: &[FinalRunStats]) -> u8
    ensures success { (result ≡ SUCCESS) ↔ Succeeds (map outcome_of sub_runs.now) }
    ensures no_tests { (result ≡ NO_TESTS_RUN) ↔ RanNoTests (map outcome_of sub_runs.now) }
    ensures highest { EndsBy (map outcome_of sub_runs.now) result }
{
    of_outcome(RunOutcome::of_sub_runs(sub_runs))
}

/// Returns the exit status of a repeated run, from the finished units and the start of each of its
/// sub-runs.
pub fn of_runs(runs: &[FinishedRun<'_>]) -> u8
    ensures success { (result ≡ SUCCESS) ↔ Succeeds (map
        (λ run. outcome_of (run_summary run)) runs.now) }
    ensures no_tests { (result ≡ NO_TESTS_RUN)
        ↔ RanNoTests (map (λ run. outcome_of (run_summary run)) runs.now) }
    ensures highest { EndsBy (map (λ run. outcome_of (run_summary run)) runs.now) result }
{
    of_outcome(RunOutcome::of_runs(runs))
}

/// Returns the exit status of a run that three machines ran in parts. The order in which their
/// outcomes are combined does not matter.
pub fn of_partitions(first: RunOutcome, second: RunOutcome, third: RunOutcome) -> u8
    ensures first_two_first { result ≡ status_of (combined (combined first second) third) }
    ensures last_two_first { result ≡ status_of (combined first (combined second third)) }
    ensures backwards { result ≡ status_of (combined third (combined second first)) }
{
    of_outcome(third.combine(first.combine(second)))
}
