//! A JUnit writer: the entry of a finished test in its report.

ghost use Rattle.std.specs.Prelude.{◌≡◌, ◌&&◌, nat_lt, IfSome, option_map};
ghost use Rattle.output_slice.specs.Shown.{extract_of};
ghost use Rattle.run_events.specs.Level.{has_level_fail, has_level_retry};
ghost use Rattle.run_events.specs.Results.{succeeds};
ghost use Rattle.run_events.specs.Attempts.{attempts_of, last_of, view_of};
ghost use Rattle.uses.specs.Junit.{HasMessage, IsMessage, is_failure, is_flaky, is_late_success};

use output_slice::subslice::TestOutputErrorSlice;
use run_events::attempts::{ExecutionDescription, ExecutionStatuses};
use run_events::child::{ChildExecutionOutputDescription, LiveSpec};
use run_events::config::FlakyResult;
use run_events::results::UnitKind;
use run_events::unit_error::UnitErrorDescription;

/// The entry of a test in a report.
#[derive(Clone, Copy)]
pub enum TestCase<'a> {
    /// The test succeeded at its first attempt.
    Success,

    /// The test succeeded after a retry.
    Flaky,

    /// The test succeeded after a retry, and that counts as failed.
    FlakyFailure,

    /// The test failed.
    Failure {
        /// The part of the last attempt's output that explains the failure, if there is one.
        message: Option<TestOutputErrorSlice<'a>>,
    },
}

/// Returns the entry of a test in a report.
pub fn test_case(test: &ExecutionStatuses<LiveSpec>) -> TestCase<'_>
    // The entry is a failure if and only if the test is counted as failed, and it is flaky if and
    // only if the test is counted as flaky. A flaky test that counts as failed is different from
    // other failures.
    ensures failure { is_failure result ≡ has_level_fail (view_of test.now) }
    ensures flaky { is_flaky result ≡ has_level_retry (view_of test.now) }
    ensures late { is_late_success result ≡ (nat_lt 1 (view_of test.now).attempts
        && succeeds (view_of test.now).result) }
    ensures message { IfSome (last_of (attempts_of test.now))
        (λ last. HasMessage last.output result) }
{
    match test.describe() {
        ExecutionDescription::Success { .. } => TestCase::Success,
        ExecutionDescription::Flaky { result, .. } => match result {
            FlakyResult::Pass => TestCase::Flaky,
            FlakyResult::Fail => TestCase::FlakyFailure,
        },
        ExecutionDescription::Failure { last_status, .. } => TestCase::Failure {
            message: message_of(&last_status.output),
        },
    }
}

/// Returns the part of a test's output that explains its failure. Output that is not loaded has
/// none.
fn message_of(
    output: &ChildExecutionOutputDescription<LiveSpec>,
) -> Option<TestOutputErrorSlice<'_>>
    ensures { IsMessage output.now (option_map extract_of result) }
{
    if UnitErrorDescription::can_describe(UnitKind::Test, output) {
        UnitErrorDescription::new(UnitKind::Test, output).output_slice()
    } else {
        None
    }
}
