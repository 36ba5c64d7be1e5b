//! The outcome of a run, or of all sub-runs of a repeated run.

ghost use Rattle.std.specs.Prelude.{◌≡◌, ◌⊎◌, map, max};
ghost use Rattle.run_events_stats.specs.Outcome.{IsHighest, combined, outcome_of, outcome_rank, run_summary};

use crate::outcome::{FinalRunStats, RunFailureStep};
use crate::stats::{FinishedRun, RunStats};

/// The outcome of a run: its summary without the reason and the numbers. The outcome of a repeated run
/// is the highest of those of its sub-runs.
///
/// From the lowest to the highest, the outcomes are `NoTestsRun`, `Success`, `Cancelled` and `Failed`.
/// Of two that are cancelled, or of two that failed, the one at a setup script is higher.
#[derive(Clone, Copy, Debug, PartialEq, Eq)]
pub enum RunOutcome {
    /// The run was successful. For a repeated run: at least one sub-run was successful, and every
    /// other one was successful or ran no tests.
    Success,

    /// Nothing failed and all that was to run did run, but there was no test. For a repeated run:
    /// this holds for every sub-run.
    NoTestsRun,

    /// The run was cancelled. For a repeated run: a sub-run was cancelled, and none failed.
    Cancelled {
        /// The step at which it was cancelled. For a repeated run: the greatest step of a cancelled
        /// sub-run.
        step: RunFailureStep,
    },

    /// The run failed. For a repeated run: a sub-run failed.
    Failed {
        /// The step at which it failed. For a repeated run: the greatest step of a failed sub-run.
        step: RunFailureStep,
    },
}

impl RunOutcome {
    /// Returns the outcome of a run or of a sub-run.
    pub fn from_final_stats(stats: FinalRunStats) -> Self
        ensures { result ≡ outcome_of stats }
    {
        match stats {
            FinalRunStats::Success => RunOutcome::Success,
            FinalRunStats::NoTestsRun => RunOutcome::NoTestsRun,
            FinalRunStats::Cancelled { kind, .. } => RunOutcome::Cancelled { step: kind.step() },
            FinalRunStats::Failed { kind } => RunOutcome::Failed { step: kind.step() },
        }
    }

    /// Returns the higher of two outcomes. The result for several outcomes does not depend on the
    /// order in which they are combined, and `NoTestsRun` does not change it.
    pub fn combine(self, other: Self) -> Self
        ensures rank { outcome_rank result ≡ max (outcome_rank self) (outcome_rank other) }
        ensures one_of_both { (result ≡ self) ⊎ (result ≡ other) }

        // The laws of combining, over the definition of the outcome of the greater rank.
        ensures exact { result ≡ combined self other }
        ensures commutative { result ≡ combined other self }
        ensures associative { (third : RunOutcome)
            → combined result third ≡ combined self (combined other third) }
        ensures idempotent { self ≡ other → result ≡ self }
        ensures identity_left { self ≡ RunOutcome.NoTestsRun → result ≡ other }
        ensures identity_right { other ≡ RunOutcome.NoTestsRun → result ≡ self }
    {
        self.higher(other)
    }

    /// Returns the outcome of a repeated run, given the summaries of its sub-runs: the highest of
    /// their outcomes, or `NoTestsRun` if there are none.
    ///
    /// It can differ from `StressRunStats::summarize_final`, which knows only the last sub-run and how
    /// many failed.
    pub fn of_sub_runs(sub_runs: &[FinalRunStats]) -> Self
        ensures { IsHighest (map outcome_of sub_runs.now) result }
    {
        let mut highest = RunOutcome::NoTestsRun;
        for summary in sub_runs {
            highest = highest.combine(RunOutcome::from_final_stats(*summary));
        }
        highest
    }

    /// Returns the outcome of a repeated run, given the finished units and the start of each of its
    /// sub-runs: the highest of their outcomes, or `NoTestsRun` if there are none.
    pub fn of_runs(runs: &[FinishedRun<'_>]) -> Self
        ensures { IsHighest (map (λ run. outcome_of (run_summary run)) runs.now) result }
    {
        let mut highest = RunOutcome::NoTestsRun;
        for run in runs {
            let stats = RunStats::of_run(run.units, run.start);
            highest = highest.combine(RunOutcome::from_final_stats(stats.summarize_final()));
        }
        highest
    }

    /// Returns the higher of two outcomes, by their cases.
    fn higher(self, other: Self) -> Self
        // The laws of `combine` are proved from this clause.
        ensures { result ≡ combined self other }
    {
        match (self, other) {
            (RunOutcome::Failed { step: a }, RunOutcome::Failed { step: b }) => {
                RunOutcome::Failed { step: a.max(b) }
            }
            (RunOutcome::Failed { .. }, _) => self,
            (_, RunOutcome::Failed { .. }) => other,
            (RunOutcome::Cancelled { step: a }, RunOutcome::Cancelled { step: b }) => {
                RunOutcome::Cancelled { step: a.max(b) }
            }
            (RunOutcome::Cancelled { .. }, _) => self,
            (_, RunOutcome::Cancelled { .. }) => other,
            (RunOutcome::Success, _) => self,
            (RunOutcome::NoTestsRun, _) => other,
        }
    }
}
