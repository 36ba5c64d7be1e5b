//! Laws that callers rely on, each carried by the contract of a function.

ghost use Rattle.std.specs.Prelude.{◌≡◌, ◌↔◌, ◌≤◌, IsTrue, []};
ghost use Rattle.std.specs.Ordering.{nat_cmp};
ghost use Rattle.run_events_stats.specs.Counters.{all_zero, counters_of, nothing_known};
ghost use Rattle.run_events_stats.specs.Outcome.{outcome_rank, step_rank};

use crate::outcome::{FinalRunStats, RunFailureStep, RunOutcome};
use crate::stats::RunStats;
use std::cmp::Ordering;

/// By default all counters are zero, and there is no reason to cancel: the statistics of a run
/// of which nothing is known.
pub fn run_stats_default() -> RunStats
    ensures of_no_units { result ≡ counters_of [] [] nothing_known }
    ensures zeros { result ≡ all_zero }
{
    RunStats::default()
}

/// Statistics are equal if and only if all their counters and their reasons to cancel are equal.
pub fn run_stats_are_equal(stats: RunStats, other: RunStats) -> bool
    ensures { IsTrue result ↔ (stats ≡ other) }
{
    stats == other
}

/// Summaries are equal if and only if their kinds, their reasons, their steps and their numbers are
/// equal.
pub fn final_stats_are_equal(summary: FinalRunStats, other: FinalRunStats) -> bool
    ensures { IsTrue result ↔ (summary ≡ other) }
{
    summary == other
}

/// Steps of a run are ordered as they are declared, from `Test`, the least.
pub fn failure_step_order(a: RunFailureStep, b: RunFailureStep) -> Ordering
    ensures order { result ≡ nat_cmp (step_rank a) (step_rank b) }
    ensures equality { (result ≡ Ordering.Equal) ↔ (a ≡ b) }
{
    a.cmp(&b)
}

/// `<=` of steps is that order.
pub fn failure_step_at_most(a: RunFailureStep, b: RunFailureStep) -> bool
    ensures { IsTrue result ↔ (step_rank a ≤ step_rank b) }
{
    a <= b
}

/// Different outcomes have different ranks, so a list of outcomes has only one highest outcome.
pub fn outcomes_are_equal(a: RunOutcome, b: RunOutcome) -> bool
    ensures rank { IsTrue result ↔ (outcome_rank a ≡ outcome_rank b) }
    ensures equality { IsTrue result ↔ (a ≡ b) }
{
    a == b
}
