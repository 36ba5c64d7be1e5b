//! The changes of the counters by a finished unit.

ghost use Rattle.std.specs.Prelude.{◌≡◌, ◌↔◌, IsOk, IsTrue, OnErr, OnOk, true};
ghost use Rattle.run_events_attempts.specs.Attempts.{view_of};
ghost use Rattle.run_events_results.specs.ViewedTest.{said_of};
ghost use Rattle.run_events_results.specs.Results.{succeeds};
ghost use Rattle.run_events_stats.specs.Counters.{ScriptCountersFit, TestCountersFit, with_failed, with_script, with_result, with_test};

use crate::stats::{CounterFull, RunStats};
use run_events_attempts::attempts::{ExecutionStatuses, SetupScriptExecuteStatus};
use run_events_attempts::child::LiveSpec;
use run_events_results::config::{FlakyResult, LeakTimeoutResult, SlowTimeoutResult};
use run_events_results::results::ExecutionResultDescription;
use run_events_results::view::TestView;

impl RunStats {
    /// Counts a finished test, given the view of it.
    ///
    /// Every counter that the test raises must be less than `usize::MAX`;
    /// [`RunStats::can_count_view`] tests it.
    #[inline]
    pub fn on_test_view(&mut self, test: &TestView<'_>)
        requires { TestCountersFit (with_test self.old (said_of test.now)) }
        ensures { self.new ≡ with_test self.old (said_of test.now) }
    {
        self.raise_for_test(test);
    }

    /// Counts a finished test, given the view of it.
    ///
    /// The error is [`CounterFull`] if a counter that the test raises is `usize::MAX`. The counters
    /// are then unchanged.
    pub fn try_on_test_view(&mut self, test: &TestView<'_>) -> Result<(), CounterFull>
        ensures counted { OnOk result (self.new ≡ with_test self.old (said_of test.now)) }
        ensures room { IsOk result ↔ TestCountersFit (with_test self.old (said_of test.now)) }
        ensures kept { OnErr result (self.new ≡ self.old) }
    {
        if !self.can_count_view(test) {
            return Err(CounterFull);
        }
        self.raise_for_test(test);
        Ok(())
    }

    /// Raises the counters for a finished test, each of which must be less than `usize::MAX`.
    #[inline]
    pub(super) fn raise_for_test(&mut self, test: &TestView<'_>)
        requires { TestCountersFit (with_test self.old (said_of test.now)) }
        ensures { self.new ≡ with_test self.old (said_of test.now) }
    {
        self.finished_count += 1;
        match test.result {
            ExecutionResultDescription::Pass
            | ExecutionResultDescription::Leak {
                result: LeakTimeoutResult::Pass,
            }
            | ExecutionResultDescription::Timeout {
                result: SlowTimeoutResult::Pass,
            } => self.count_success(test),
            ExecutionResultDescription::Leak {
                result: LeakTimeoutResult::Fail,
            } => {
                self.leaky_failed += 1;
                self.raise_failed(test.is_slow);
            }
            ExecutionResultDescription::Fail { .. } => self.raise_failed(test.is_slow),
            ExecutionResultDescription::ExecFail => self.exec_failed += 1,
            ExecutionResultDescription::Timeout {
                result: SlowTimeoutResult::Fail,
            } => self.failed_timed_out += 1,
        }
    }

    /// Raises the counters for a test whose last attempt succeeded, except the number of finished
    /// tests. The test failed if it was retried and its setting fails flaky tests.
    #[inline]
    fn count_success(&mut self, test: &TestView<'_>)
        requires success { succeeds (said_of test.now).result ≡ true }
        requires room { TestCountersFit (with_result self.old (said_of test.now)) }
        ensures { self.new ≡ with_result self.old (said_of test.now) }
    {
        if matches!(test.result, ExecutionResultDescription::Leak { .. }) {
            self.leaky += 1;
        }
        let is_retried = test.attempts > 1;
        if is_retried && test.flaky_result == FlakyResult::Fail {
            self.raise_failed(test.is_slow);
            return;
        }
        self.passed += 1;
        if is_retried {
            self.flaky += 1;
        }
        if matches!(test.result, ExecutionResultDescription::Timeout { .. }) {
            self.passed_timed_out += 1;
        } else if test.is_slow {
            self.passed_slow += 1;
        }
    }

    /// Raises `failed`, and `failed_slow` if the test is slow.
    #[inline]
    fn raise_failed(&mut self, is_slow: bool)
        requires { TestCountersFit (with_failed self.old is_slow) }
        ensures { self.new ≡ with_failed self.old is_slow }
    {
        self.failed += 1;
        if is_slow {
            self.failed_slow += 1;
        }
    }

    /// Returns true if the test can be counted, because every counter that it raises is less than
    /// `usize::MAX`.
    pub fn can_count_view(&self, test: &TestView<'_>) -> bool
        ensures { IsTrue result ↔ TestCountersFit (with_test self.now (said_of test.now)) }
    {
        let mut one = RunStats::default();
        one.raise_for_test(test);
        self.has_room_for_tests(&one)
    }

    /// Counts a finished test.
    ///
    /// Every counter that the test raises must be less than `usize::MAX`;
    /// [`RunStats::can_count_test`] tests it.
    pub fn on_test_finished(&mut self, test: &ExecutionStatuses<LiveSpec>)
        requires { TestCountersFit (with_test self.old (view_of test.now)) }
        ensures { self.new ≡ with_test self.old (view_of test.now) }
    {
        self.on_test_view(&test.view());
    }

    /// Counts a finished test.
    ///
    /// The error is [`CounterFull`] if a counter that the test raises is `usize::MAX`. The counters
    /// are then unchanged.
    pub fn try_on_test_finished(
        &mut self,
        test: &ExecutionStatuses<LiveSpec>,
    ) -> Result<(), CounterFull>
        ensures counted { OnOk result (self.new ≡ with_test self.old (view_of test.now)) }
        ensures room { IsOk result ↔ TestCountersFit (with_test self.old (view_of test.now)) }
        ensures kept { OnErr result (self.new ≡ self.old) }
    {
        self.try_on_test_view(&test.view())
    }

    /// Returns true if the test can be counted, because every counter that it raises is less than
    /// `usize::MAX`.
    pub fn can_count_test(&self, test: &ExecutionStatuses<LiveSpec>) -> bool
        ensures { IsTrue result ↔ TestCountersFit (with_test self.now (view_of test.now)) }
    {
        self.can_count_view(&test.view())
    }

    /// Counts a finished setup script, given its result.
    ///
    /// Every counter that the script raises must be less than `usize::MAX`;
    /// [`RunStats::can_count_script_result`] tests it.
    pub fn on_script_result(&mut self, script: &ExecutionResultDescription)
        requires { ScriptCountersFit (with_script self.old script.now) }
        ensures { self.new ≡ with_script self.old script.now }
    {
        self.raise_for_script(script);
    }

    /// Counts a finished setup script, given its result.
    ///
    /// The error is [`CounterFull`] if a counter that the script raises is `usize::MAX`. The
    /// counters are then unchanged.
    pub fn try_on_script_result(
        &mut self,
        script: &ExecutionResultDescription,
    ) -> Result<(), CounterFull>
        ensures counted { OnOk result (self.new ≡ with_script self.old script.now) }
        ensures room { IsOk result ↔ ScriptCountersFit (with_script self.old script.now) }
        ensures kept { OnErr result (self.new ≡ self.old) }
    {
        if !self.can_count_script_result(script) {
            return Err(CounterFull);
        }
        self.raise_for_script(script);
        Ok(())
    }

    /// Raises the counters for a finished setup script, each of which must be less than `usize::MAX`.
    pub(super) fn raise_for_script(&mut self, script: &ExecutionResultDescription)
        requires { ScriptCountersFit (with_script self.old script.now) }
        ensures { self.new ≡ with_script self.old script.now }
    {
        self.setup_scripts_finished_count += 1;
        match script {
            ExecutionResultDescription::Pass
            | ExecutionResultDescription::Leak {
                result: LeakTimeoutResult::Pass,
            } => self.setup_scripts_passed += 1,
            ExecutionResultDescription::Fail { .. }
            | ExecutionResultDescription::Leak {
                result: LeakTimeoutResult::Fail,
            } => self.setup_scripts_failed += 1,
            ExecutionResultDescription::ExecFail => self.setup_scripts_exec_failed += 1,
            ExecutionResultDescription::Timeout { .. } => self.setup_scripts_timed_out += 1,
        }
    }

    /// Returns true if the setup script can be counted, because every counter that its result raises
    /// is less than `usize::MAX`.
    pub fn can_count_script_result(&self, script: &ExecutionResultDescription) -> bool
        ensures { IsTrue result ↔ ScriptCountersFit (with_script self.now script.now) }
    {
        let mut one = RunStats::default();
        one.raise_for_script(script);
        self.has_room_for_scripts(&one)
    }

    /// Counts a finished setup script.
    ///
    /// Every counter that the script raises must be less than `usize::MAX`;
    /// [`RunStats::can_count_script`] tests it.
    pub fn on_setup_script_finished(&mut self, script: &SetupScriptExecuteStatus<LiveSpec>)
        requires { ScriptCountersFit (with_script self.old script.now.result) }
        ensures { self.new ≡ with_script self.old script.now.result }
    {
        self.on_script_result(&script.result);
    }

    /// Counts a finished setup script.
    ///
    /// The error is [`CounterFull`] if a counter that the script raises is `usize::MAX`. The
    /// counters are then unchanged.
    pub fn try_on_setup_script_finished(
        &mut self,
        script: &SetupScriptExecuteStatus<LiveSpec>,
    ) -> Result<(), CounterFull>
        ensures counted { OnOk result (self.new ≡ with_script self.old script.now.result) }
        ensures room { IsOk result ↔ ScriptCountersFit (with_script self.old script.now.result) }
        ensures kept { OnErr result (self.new ≡ self.old) }
    {
        self.try_on_script_result(&script.result)
    }

    /// Returns true if the setup script can be counted, because every counter that it raises is less
    /// than `usize::MAX`.
    pub fn can_count_script(&self, script: &SetupScriptExecuteStatus<LiveSpec>) -> bool
        ensures { IsTrue result ↔ ScriptCountersFit (with_script self.now script.now.result) }
    {
        self.can_count_script_result(&script.result)
    }
}
