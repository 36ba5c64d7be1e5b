//! The counters of a whole run.

ghost use Rattle.std.specs.Prelude.{◌≡◌, ◌↔◌, ◌+◌, ◌++◌, List, map};
ghost use Rattle.run_events_stats.specs.Counters.{UnitView, count_of, stats_of, tests_of, unit_view};
ghost use Rattle.run_events_results.specs.Level.{has_level_fail, has_level_retry};
ghost use Rattle.run_events_stats.specs.RunLaws.{IsSum, RunSucceeds, has_no_failure};
ghost use Rattle.run_events_stats.specs.Summary.{FailuresFit, failed_scripts, failed_tests, summary_of};
ghost use Rattle.run_events_stats.specs.declared.outcome.FinalRunStats.TheVariants.{Success};

use crate::stats::{FinishedUnit, RunStart, RunStats};

impl RunStats {
    /// Counts finished units, which can be in any order. The fields of `start` are copied.
    pub fn of_run(units: &[FinishedUnit<'_>], start: RunStart) -> RunStats
        ensures counts { result ≡ stats_of (map unit_view units.now) start }

        // Swapping two neighbouring parts of the list changes nothing: its order does not matter.
        ensures exchange { (a p q b : List UnitView) → map unit_view units.now ≡ a ++ p ++ q ++ b
            → stats_of (a ++ q ++ p ++ b) start ≡ result }
        // Wherever the list is split, a counter of the whole list is the sum of those of both
        // parts.
        ensures cut { (a b : List UnitView) → map unit_view units.now ≡ a ++ b
            → IsSum (stats_of a start) (stats_of b start) result }

        // Each finished test, and each finished script, is counted in one way.
        ensures tests { result.passed + failed_tests result ≡ result.finished_count }
        ensures scripts { result.setup_scripts_passed + failed_scripts result
            ≡ result.setup_scripts_finished_count }

        // The counters of tests by their levels.
        ensures failed_level { failed_tests result
            ≡ count_of has_level_fail (tests_of (map unit_view units.now)) }
        ensures flaky_level { result.flaky ≡ count_of has_level_retry
            (tests_of (map unit_view units.now)) }
        ensures passed_level { result.passed ≡ count_of has_no_failure
            (tests_of (map unit_view units.now)) }

        ensures failures_fit { FailuresFit result }
        ensures success { (summary_of result ≡ Success)
            ↔ RunSucceeds (map unit_view units.now) start }
    {
        RunStats::count_units(units, start)
    }

    /// Counts finished units.
    fn count_units(units: &[FinishedUnit<'_>], start: RunStart) -> RunStats
        // The laws of `of_run` are proved from this clause.
        ensures { result ≡ stats_of (map unit_view units.now) start }
    {
        let mut stats = RunStats {
            initial_run_count: start.initial_run_count,
            setup_scripts_initial_count: start.setup_scripts_initial_count,
            skipped: start.skipped,
            cancel_reason: start.cancel_reason,
            ..RunStats::default()
        };
        for unit in units {
            match unit {
                FinishedUnit::Script(script) => stats.raise_for_script(&script.result),
                FinishedUnit::Test(test) => stats.raise_for_test(&test.view()),
            }
        }
        stats
    }
}
