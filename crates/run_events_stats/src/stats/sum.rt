//! The sum of the statistics of two parts of a run.

ghost use Rattle.std.specs.Prelude.{◌≡◌, ◌↔◌, ◌+◌, ◌<◌, ◌^◌, ◌++◌, IsOk, IsTrue, List, OnErr, OnOk};
ghost use Rattle.run_events_stats.specs.Counters.{CountersFit, ScriptCountersFit, TestCountersFit, UnitView, greater_of, start_of_both, stats_of, sum_of};
ghost use Rattle.run_events_stats.specs.declared.stats.RunStart.{RunStart};

use crate::stats::{CounterFull, RunStats};
use run_events_results::results::CancelReason;

impl RunStats {
    /// Adds the statistics of another part of the run, such as another suite. Each number becomes the
    /// sum of both, also the numbers of what was to run and of skipped tests. The reason to cancel
    /// becomes the greater one, if there is one.
    ///
    /// The error is [`CounterFull`] if a sum does not fit `usize`. The statistics are then unchanged.
    pub fn try_add(&mut self, part: &RunStats) -> Result<(), CounterFull>
        ensures added { OnOk result (self.new ≡ sum_of self.old part.now) }
        ensures room { IsOk result ↔ CountersFit (sum_of self.old part.now) }
        ensures kept { OnErr result (self.new ≡ self.old) }

        // The sum is of the units of both parts.
        ensures both { OnOk result ((a b : List UnitView) (start other : RunStart)
            → self.old ≡ stats_of a start → part.now ≡ stats_of b other
            → self.new ≡ stats_of (a ++ b) (start_of_both start other)) }
    {
        if !self.has_room_for(part) {
            return Err(CounterFull);
        }
        self.add(part);
        Ok(())
    }

    /// Adds the statistics of another part of the run. Each sum must fit `usize`.
    fn add(&mut self, part: &RunStats)
        requires { CountersFit (sum_of self.old part.now) }
        ensures { self.new ≡ sum_of self.old part.now }
    {
        self.initial_run_count += part.initial_run_count;
        self.finished_count += part.finished_count;
        self.setup_scripts_initial_count += part.setup_scripts_initial_count;
        self.setup_scripts_finished_count += part.setup_scripts_finished_count;
        self.setup_scripts_passed += part.setup_scripts_passed;
        self.setup_scripts_failed += part.setup_scripts_failed;
        self.setup_scripts_exec_failed += part.setup_scripts_exec_failed;
        self.setup_scripts_timed_out += part.setup_scripts_timed_out;
        self.passed += part.passed;
        self.passed_slow += part.passed_slow;
        self.passed_timed_out += part.passed_timed_out;
        self.flaky += part.flaky;
        self.failed += part.failed;
        self.failed_slow += part.failed_slow;
        self.failed_timed_out += part.failed_timed_out;
        self.leaky += part.leaky;
        self.leaky_failed += part.leaky_failed;
        self.exec_failed += part.exec_failed;
        self.skipped += part.skipped;
        self.cancel_reason = greater_reason(self.cancel_reason, part.cancel_reason);
    }

    /// Returns true if each sum with the counters of another part fits `usize`.
    fn has_room_for(&self, part: &RunStats) -> bool
        ensures { IsTrue result ↔ CountersFit (sum_of self.now part.now) }
    {
        fits(self.initial_run_count, part.initial_run_count)
            && fits(
                self.setup_scripts_initial_count,
                part.setup_scripts_initial_count,
            )
            && fits(self.skipped, part.skipped)
            && self.has_room_for_tests(part)
            && self.has_room_for_scripts(part)
    }

    /// Returns true if each sum with the counters of finished tests of another part fits `usize`.
    pub(super) fn has_room_for_tests(&self, part: &RunStats) -> bool
        ensures { IsTrue result ↔ TestCountersFit (sum_of self.now part.now) }
    {
        fits(self.finished_count, part.finished_count)
            && fits(self.passed, part.passed)
            && fits(self.passed_slow, part.passed_slow)
            && fits(self.passed_timed_out, part.passed_timed_out)
            && fits(self.flaky, part.flaky)
            && fits(self.failed, part.failed)
            && fits(self.failed_slow, part.failed_slow)
            && fits(self.failed_timed_out, part.failed_timed_out)
            && fits(self.leaky, part.leaky)
            && fits(self.leaky_failed, part.leaky_failed)
            && fits(self.exec_failed, part.exec_failed)
    }

    /// Returns true if each sum with the counters of finished scripts of another part fits `usize`.
    pub(super) fn has_room_for_scripts(&self, part: &RunStats) -> bool
        ensures { IsTrue result ↔ ScriptCountersFit (sum_of self.now part.now) }
    {
        fits(
            self.setup_scripts_finished_count,
            part.setup_scripts_finished_count,
        ) && fits(self.setup_scripts_passed, part.setup_scripts_passed)
            && fits(self.setup_scripts_failed, part.setup_scripts_failed)
            && fits(
                self.setup_scripts_exec_failed,
                part.setup_scripts_exec_failed,
            )
            && fits(self.setup_scripts_timed_out, part.setup_scripts_timed_out)
    }
}

/// Returns the greater of two reasons to cancel a run. No reason is less than any.
fn greater_reason(reason: Option<CancelReason>, other: Option<CancelReason>) -> Option<CancelReason>
    ensures { result ≡ greater_of reason other }
{
    match (reason, other) {
        (Some(one), Some(two)) if one < two => other,
        (Some(_), _) => reason,
        (None, _) => other,
    }
}

/// Returns true if the sum of two counters fits `usize`.
fn fits(counter: usize, more: usize) -> bool
    ensures { IsTrue result ↔ (counter + more < 2 ^ 64) }
{
    counter.checked_add(more).is_some()
}
