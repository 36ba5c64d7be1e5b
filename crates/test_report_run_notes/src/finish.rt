//! How a test finished, as the statistics and levels of the layer take it.

ghost use Rattle.std.specs.Prelude.{◌≡◌};
ghost use Rattle.run_events_results.specs.ViewedTest.{finished_view};
ghost use Rattle.test_report_run_notes.specs.Finish.{finish_for, result_of, view_of_finish};
ghost use Rattle.test_report_run_notes.specs.Note.{kind_view};

use crate::note::FailureKind;
use run_events_results::config::{FlakyResult, SlowTimeoutResult};
use run_events_results::results::{ExecutionResultDescription, FailureDescription};
use run_events_results::view::FinishedTest;

/// The exit code of Rust's test harness if a test failed.
const HARNESS_FAILED: i32 = 101;

/// How a test finished.
#[derive(Clone, Copy)]
pub enum Finish {
    /// It passed, or is flaky and counts as passed.
    Passed,

    /// It is flaky, and counts as failed.
    FlakyFailed,

    /// It failed.
    Failed,

    /// It ran out of time.
    TimedOut,
}

impl Finish {
    /// Returns how a test finished that failed in this way.
    pub fn of_failure(kind: &FailureKind) -> Finish
        ensures { result ≡ finish_for (kind_view kind.now) }
    {
        match kind {
            FailureKind::TimedOut => Finish::TimedOut,
            FailureKind::Flaky => Finish::FlakyFailed,
            FailureKind::Failed | FailureKind::WithoutEnd | FailureKind::Crashed(_) => {
                Finish::Failed
            }
        }
    }
}

/// Returns the result of a test, as the statistics take it. Lines do not have the exit code of a failed
/// test, so it is the one of Rust's test harness.
fn described(finish: Finish) -> ExecutionResultDescription
    ensures { result ≡ result_of finish }
{
    match finish {
        Finish::Passed | Finish::FlakyFailed => ExecutionResultDescription::Pass,
        Finish::Failed => ExecutionResultDescription::Fail {
            failure: FailureDescription::ExitCode {
                code: HARNESS_FAILED,
            },
            leaked: false,
        },
        Finish::TimedOut => ExecutionResultDescription::Timeout {
            result: SlowTimeoutResult::Fail,
        },
    }
}

/// Returns a test that finished in this way, after this number of attempts.
pub fn finished_test(finish: Finish, attempts: usize, is_slow: bool) -> FinishedTest
    ensures { finished_view result ≡ view_of_finish finish attempts is_slow }
{
    FinishedTest {
        result: described(finish),
        attempts,
        is_slow,
        flaky_result: match finish {
            Finish::FlakyFailed => FlakyResult::Fail,
            Finish::Passed | Finish::Failed | Finish::TimedOut => FlakyResult::Pass,
        },
    }
}
