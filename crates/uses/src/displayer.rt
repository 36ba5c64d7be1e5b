//! A reporter on a terminal: the texts that it prints for a finished test, and for a run.

ghost use Rattle.std.specs.Prelude.{◌≡◌, ◌≢◌, ◌↔◌, ◌<◌, ◌≤◌, [], false, map, IfOk, IfSome, IsTrue, None, Some, string_bytes, true};
ghost use Rattle.run_events.specs.Config.{is_immediate_display};
ghost use Rattle.run_events.specs.Counters.{unit_view};
ghost use Rattle.run_events.specs.Level.{final_level_of, level_of};
ghost use Rattle.run_events.specs.Results.{is_termination_failure, succeeds};
ghost use Rattle.run_events.specs.Attempts.{view_of};
ghost use Rattle.run_events.specs.Visibility.{IsNoMoreVisible, severity};
ghost use Rattle.uses.specs.Displayer.{IsAbove, display_of, listing, numbers_line, status_line, summary_line, test_word, without_output};

use run_events::attempts::ExecutionStatuses;
use run_events::child::LiveSpec;
use run_events::config::TestOutputDisplay;
use run_events::levels::{OutputOnTestFinished, OutputStoreFinal, StatusLevels};
use run_events::results::CancelReason;
use run_events::stats::{FinishedUnit, RunStart, RunStats};
use std::alloc::{AllocError, Global};

/// The settings of a displayer.
#[derive(Clone, Copy)]
pub struct Displayer {
    /// The levels of the tests that are printed when they finish, and of those that are listed at
    /// the end.
    pub levels: StatusLevels,

    /// When the output of a test that succeeded is displayed.
    pub success_output: TestOutputDisplay,

    /// When the output of a test that failed is displayed.
    pub failure_output: TestOutputDisplay,
}

/// What is displayed of a finished test before and after the run is cancelled for a greater reason.
#[derive(Clone, Copy)]
pub struct OnCancel {
    /// With the reason before, if there was one.
    pub before: OutputOnTestFinished,

    /// With the greater reason.
    pub after: OutputOnTestFinished,
}

impl Displayer {
    /// Returns what is shown and stored of a test that has just finished. `reason` is the reason to
    /// cancel the run, if there is one.
    pub fn on_test_finished(
        &self,
        test: &ExecutionStatuses<LiveSpec>,
        reason: Option<CancelReason>,
    ) -> OutputOnTestFinished
        // The line is written unless the level of the test is greater than that of the displayer.
        ensures line { (result.write_status_line ≡ false)
            ↔ IsAbove (level_of (view_of test.now)) self.now.levels.status_level }

        // Of a test that the runner ended because the run stops at once, nothing is displayed.
        ensures stopped { reason ≡ Some CancelReason.TestFailureImmediate
            → is_termination_failure (view_of test.now).result ≡ true
            → (result.show_immediate ≡ false) × (result.store_final ≡ OutputStoreFinal.No) }

        // For any other test: up to a signal, the setting decides whether its output is displayed
        // at once. Below a signal, the setting and its final level decide what is listed at the
        // end. With a signal, a test whose output is displayed at once is listed without it.
        ensures at_once { (reason ≡ Some CancelReason.TestFailureImmediate
            → is_termination_failure (view_of test.now).result ≡ false)
            → severity reason ≤ severity (Some CancelReason.Signal) → result.show_immediate
            ≡ is_immediate_display (display_of self.now (succeeds (view_of test.now).result)) }
        ensures listed { (reason ≡ Some CancelReason.TestFailureImmediate
            → is_termination_failure (view_of test.now).result ≡ false)
            → severity reason < severity (Some CancelReason.Signal)
            → IfSome (final_level_of (view_of test.now)) (λ level. result.store_final
            ≡ listing self.now (succeeds (view_of test.now).result) level) }
        ensures under_signal { reason ≡ Some CancelReason.Signal
            → IfSome (final_level_of (view_of test.now)) (λ level. result.store_final
            ≡ without_output result.show_immediate
            (listing self.now (succeeds (view_of test.now).result) level)) }

        // With a signal or a greater reason no output is displayed twice. With an interrupt or a
        // greater reason none is displayed.
        ensures never_twice { severity (Some CancelReason.Signal) ≤ severity reason
            → IsTrue result.show_immediate → result.store_final ≢ OutputStoreFinal.Yes true }
        ensures interrupted { severity (Some CancelReason.Interrupt) ≤ severity reason
            → (result.show_immediate ≡ false) × (result.store_final ≡ OutputStoreFinal.No) }
    {
        let view = test.view();
        let display = self.display_for(view.result.is_success());
        let (level, final_level) = (view.status_level(), view.final_status_level());
        self.levels
            .compute_output_on_test_finished(display, reason, level, final_level, view.result)
    }

    /// Returns what is shown and stored of a finished test with a reason, and with a greater one.
    /// Output that was not displayed before the run is cancelled may be hidden then.
    pub fn on_cancel(
        &self,
        test: &ExecutionStatuses<LiveSpec>,
        reason: Option<CancelReason>,
        greater: Option<CancelReason>,
    ) -> OnCancel
        // It is never more, except for a test that the runner seems to have ended.
        ensures no_more { severity reason ≤ severity greater
            → is_termination_failure (view_of test.now).result ≡ false
            → IsNoMoreVisible result.after result.before }
    {
        let view = test.view();
        let display = self.display_for(view.result.is_success());
        let (level, final_level) = (view.status_level(), view.final_status_level());
        OnCancel {
            before: self
                .levels
                .compute_output_on_test_finished(display, reason, level, final_level, view.result),
            after: self
                .levels
                .compute_output_on_test_finished(display, greater, level, final_level, view.result),
        }
    }

    /// Returns when the output of a test that succeeded, or that failed, is displayed.
    fn display_for(&self, succeeded: bool) -> TestOutputDisplay
        ensures { result ≡ display_of self.now succeeded }
    {
        if succeeded {
            self.success_output
        } else {
            self.failure_output
        }
    }

    /// Returns the text that is printed when a test finishes: a line with the word for the test and
    /// its name, or nothing. It does not depend on whether the run is cancelled.
    pub fn finished_text(
        &self,
        alloc: Global,
        name: &str,
        test: &ExecutionStatuses<LiveSpec>,
    ) -> Result<String, AllocError>
        // The text is empty if and only if the level of the test is greater than that of the
        // displayer.
        ensures hidden { IfOk result (λ text. (string_bytes text ≡ [])
            ↔ IsAbove (level_of (view_of test.now)) self.now.levels.status_level) }
        ensures shown { IfOk result (λ text. string_bytes text ≢ []
            → string_bytes text ≡ status_line (view_of test.now) name.now) }
    {
        let shown = self.on_test_finished(test, None);
        if shown.write_status_line {
            let word = word_of(test);
            format!(in alloc; "{word} {name}\n")
        } else {
            Ok(String::new(alloc))
        }
    }
}

/// Returns the word for a finished test.
fn word_of(test: &ExecutionStatuses<LiveSpec>) -> &'static str
    ensures { result.now ≡ test_word (view_of test.now) }
{
    let last = test.last_status();
    if test.len() > 1 && last.result.is_success() {
        "flaky"
    } else {
        last.result.as_static_str()
    }
}

/// Returns the summary line of a run: how many tests finished, passed and failed, by their levels,
/// how many of those that passed were flaky, and how many were skipped.
pub fn summary_text(
    alloc: Global,
    units: &[FinishedUnit<'_>],
    start: RunStart,
) -> Result<String, AllocError>
    ensures { IfOk result (λ text. string_bytes text
        ≡ summary_line (map unit_view units.now) start.skipped) }
{
    let stats = RunStats::of_run(units, start);
    let failed = stats.failed_count();
    numbers_text(
        alloc,
        stats.finished_count,
        stats.passed,
        stats.flaky,
        failed,
        stats.skipped,
    )
}

/// Returns the summary line of a run, from its numbers.
#[tactic(auto, unfolding(crate::specs::Displayer::numbers_line))]
fn numbers_text(
    alloc: Global,
    finished: usize,
    passed: usize,
    flaky: usize,
    failed: usize,
    skipped: usize,
) -> Result<String, AllocError>
    ensures { IfOk result (λ text. string_bytes text
        ≡ numbers_line finished passed flaky failed skipped) }
{
    format!(in alloc;
        "{finished} tests run: {passed} passed ({flaky} flaky), {failed} failed, {skipped} skipped\n"
    )
}
