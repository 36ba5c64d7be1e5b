//! The levels of results.

ghost use Rattle.std.specs.Prelude.{◌≡◌};
ghost use Rattle.run_events_results.specs.Level.{final_flaky_level, final_success_level, flaky_level, success_level};

use crate::config::{FlakyResult, LeakTimeoutResult, SlowTimeoutResult};
use crate::levels::{FinalStatusLevel, StatusLevel};
use crate::results::ExecutionResultDescription;

impl StatusLevel {
    /// Returns the level of a test that succeeded at its first attempt: `Pass`, `Leak` for a leak that
    /// counts as passed, or `Slow` for a timeout that counts as passed. Returns `None` if the result is
    /// not a success.
    pub fn of_success(attempt: &ExecutionResultDescription) -> Option<StatusLevel>
        ensures { result ≡ success_level attempt.now }
    {
        match attempt {
            ExecutionResultDescription::Pass => Some(StatusLevel::Pass),
            ExecutionResultDescription::Leak {
                result: LeakTimeoutResult::Pass,
            } => Some(StatusLevel::Leak),
            ExecutionResultDescription::Timeout {
                result: SlowTimeoutResult::Pass,
            } => Some(StatusLevel::Slow),
            ExecutionResultDescription::Leak {
                result: LeakTimeoutResult::Fail,
            }
            | ExecutionResultDescription::Timeout {
                result: SlowTimeoutResult::Fail,
            }
            | ExecutionResultDescription::Fail { .. }
            | ExecutionResultDescription::ExecFail => None,
        }
    }

    /// Returns the level of a flaky test.
    pub fn of_flaky(flaky_result: FlakyResult) -> StatusLevel
        ensures { result ≡ flaky_level flaky_result }
    {
        match flaky_result {
            FlakyResult::Pass => StatusLevel::Retry,
            FlakyResult::Fail => StatusLevel::Fail,
        }
    }
}

impl FinalStatusLevel {
    /// Returns the level at the end of the run of a test that succeeded at its first attempt: `Slow` if
    /// the attempt was slow, whatever its result. Returns `None` if it was not slow and the result is
    /// not a success.
    pub fn of_success(
        attempt: &ExecutionResultDescription,
        is_slow: bool,
    ) -> Option<FinalStatusLevel>
        ensures { result ≡ final_success_level attempt.now is_slow }
    {
        if is_slow {
            return Some(FinalStatusLevel::Slow);
        }
        match attempt {
            ExecutionResultDescription::Pass => Some(FinalStatusLevel::Pass),
            ExecutionResultDescription::Leak {
                result: LeakTimeoutResult::Pass,
            } => Some(FinalStatusLevel::Leak),
            ExecutionResultDescription::Timeout {
                result: SlowTimeoutResult::Pass,
            } => Some(FinalStatusLevel::Slow),
            ExecutionResultDescription::Leak {
                result: LeakTimeoutResult::Fail,
            }
            | ExecutionResultDescription::Timeout {
                result: SlowTimeoutResult::Fail,
            }
            | ExecutionResultDescription::Fail { .. }
            | ExecutionResultDescription::ExecFail => None,
        }
    }

    /// Returns the level of a flaky test at the end of the run.
    pub fn of_flaky(flaky_result: FlakyResult) -> FinalStatusLevel
        ensures { result ≡ final_flaky_level flaky_result }
    {
        match flaky_result {
            FlakyResult::Pass => FinalStatusLevel::Flaky,
            FlakyResult::Fail => FinalStatusLevel::Fail,
        }
    }
}
