//! The outcome of sub-runs.

ghost use Rattle.std.specs.Prelude.{◌↔◌, All, IfSome, IsSome, map};
ghost use Rattle.c_values.specs.Layout.{final_in, outcome_in};
ghost use Rattle.run_events_stats.specs.Outcome.{IsHighest};

use crate::layout::FfiFinalStats;
use crate::values;
use run_events_stats::outcome::RunOutcome;

/// Returns the highest outcome of all sub-runs, or `None` if a code is not in its table.
pub fn outcome_of(sub_runs: &[FfiFinalStats]) -> Option<RunOutcome>
    ensures named { IsSome result ↔ All (λ s. IsSome (final_in s)) sub_runs.now }
    ensures highest { IfSome result (IsHighest (map outcome_in sub_runs.now)) }
{
    let mut highest = RunOutcome::NoTestsRun;
    for sub_run in sub_runs {
        let summary = values::final_stats(sub_run)?;
        highest = highest.combine(RunOutcome::from_final_stats(summary));
    }
    Some(highest)
}
