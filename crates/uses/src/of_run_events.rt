//! The callers that the page on calling `run_events` shows.

ghost use Rattle.std.specs.Prelude.{◌≡◌, ◌↔◌, ◌∷◌, [], IfOk, IsTrue, None, OnOk, map};
ghost use Rattle.run_events.specs.Attempts.{view_of};
ghost use Rattle.run_events.specs.Counters.{ScriptUnit, TestUnit, stats_of, unit_view};
ghost use Rattle.run_events.specs.Described.{described_result};
ghost use Rattle.run_events.specs.RunLaws.{RunSucceeds};
ghost use Rattle.uses.specs.Runner.{AddsStatus, left_by, start_of_both, view_of_attempts};

use bytes::Bytes;
use jiff::Timestamp;
use jiff::tz::Offset;
use run_events::attempts::{ExecuteStatus, ExecutionStatuses, RetryData, SetupScriptExecuteStatus};
use run_events::child::{
    ChildExecutionOutput, ChildExecutionOutputDescription, ChildOutput, ChildOutputDescription,
    ChildSingleOutput, ChildSplitOutput, LiveSpec,
};
use run_events::config::{FlakyResult, Moment};
use run_events::outcome::FinalRunStats;
use run_events::results::{ExecutionResult, ExecutionResultDescription};
use run_events::stats::{FinishedUnit, RunStart, RunStats};
use std::alloc::{AllocError, Global};
use std::time::Duration;

/// A finished attempt to run a test, as the runner saw it.
#[derive(Clone, Copy)]
pub struct EndedAttempt<'a> {
    /// The result of the attempt.
    pub outcome: ExecutionResult,

    /// Its standard error.
    pub stderr: &'a [u8],

    /// True if it took longer than the slow timeout.
    pub is_slow: bool,
}

/// Adds the status of an attempt, from the attempt and its number.
pub fn push_status(
    alloc: Global,
    statuses: &mut Vec<ExecuteStatus<LiveSpec>>,
    attempt: EndedAttempt<'_>,
    retry_data: RetryData,
) -> Result<(), AllocError>
    ensures { OnOk result (AddsStatus attempt.entry retry_data
        statuses.old.items statuses.new.items) }
{
    let output = output_of(alloc, attempt)?;
    statuses.push(ExecuteStatus {
        retry_data,
        output,
        result: ExecutionResultDescription::from_status(attempt.outcome, None),
        start_time: epoch(),
        time_taken: Duration::ZERO,
        is_slow: attempt.is_slow,
        delay_before_start: Duration::ZERO,
        error_summary: None,
        output_error_slice: None,
    })?;
    Ok(())
}

/// Describes the output of an attempt. Only its standard error was captured.
fn output_of(
    alloc: Global,
    attempt: EndedAttempt<'_>,
) -> Result<ChildExecutionOutputDescription<LiveSpec>, AllocError>
    ensures { IfOk result (λ output. output ≡ left_by attempt.entry) }
{
    let stderr = Bytes::copy_from_slice(alloc, attempt.stderr)?;
    let left = ChildExecutionOutput::Output {
        result: Some(attempt.outcome),
        output: ChildOutput::Split(ChildSplitOutput {
            stdout: None,
            stderr: Some(ChildSingleOutput::from(stderr)),
        }),
        errors: None,
    };
    ChildExecutionOutputDescription::from_output(alloc, left, None)
        .ok()
        .ok_or(AllocError)
}

/// Returns the time of every event here, since no clock is read.
pub fn epoch() -> Moment {
    Moment {
        timestamp: Timestamp::UNIX_EPOCH,
        offset: Offset::UTC,
    }
}

/// Returns a test that finished with its first attempt.
pub fn finished_at_first(
    alloc: Global,
    attempt: EndedAttempt<'_>,
) -> Result<ExecutionStatuses<LiveSpec>, AllocError>
    ensures { IfOk result (λ test. view_of test
        ≡ view_of_attempts 1 attempt.entry.outcome attempt.entry.is_slow FlakyResult.Pass) }
{
    let first = RetryData {
        attempt: 1,
        total_attempts: 1,
    };
    let mut statuses = Vec::new(alloc);
    push_status(alloc, &mut statuses, attempt, first)?;
    Ok(ExecutionStatuses::new(statuses, FlakyResult::Pass))
}

/// Returns a setup script that finished. Nothing was captured of its output.
pub fn finished_script(outcome: ExecutionResult) -> SetupScriptExecuteStatus<LiveSpec>
    ensures { result.result ≡ described_result outcome None }
{
    SetupScriptExecuteStatus {
        output: ChildExecutionOutputDescription::Output {
            result: Some(ExecutionResultDescription::from_status(outcome, None)),
            output: ChildOutputDescription::Split {
                stdout: None,
                stderr: None,
            },
            errors: None,
        },
        result: ExecutionResultDescription::from_status(outcome, None),
        start_time: epoch(),
        time_taken: Duration::ZERO,
        is_slow: false,
        env_map: None,
        error_summary: None,
    }
}

/// Returns the counters of a run of one setup script and one test. No other was to run, none was skipped,
/// and the run was not cancelled.
pub fn stats_of_both(
    script: &SetupScriptExecuteStatus<LiveSpec>,
    test: &ExecutionStatuses<LiveSpec>,
) -> RunStats
    ensures { result ≡ stats_of
        (ScriptUnit script.now.result ∷ (TestUnit (view_of test.now) ∷ [])) start_of_both }
{
    let start = RunStart {
        initial_run_count: 1,
        setup_scripts_initial_count: 1,
        skipped: 0,
        cancel_reason: None,
    };
    RunStats::of_run(
        &[FinishedUnit::Script(script), FinishedUnit::Test(test)],
        start,
    )
}

/// Returns true if a run succeeded: every script passed, no test failed, everything that was to run
/// ran, and at least one test did.
pub fn ends_well(units: &[FinishedUnit<'_>], start: RunStart) -> bool
    ensures { IsTrue result ↔ RunSucceeds (map unit_view units.now) start }
{
    RunStats::of_run(units, start).summarize_final() == FinalRunStats::Success
}
