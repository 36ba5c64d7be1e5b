//! The side of a runner: makes the statuses of attempts, and passes the finished units in events to
//! the counters.

ghost use Rattle.std.specs.Prelude.{◌≡◌, ◌<◌, ◌+◌, ◌^◌, ◌++◌, ◌∷◌, [], IfOk, None, Some, length, map, option_map};
ghost use Rattle.std.specs.List.{filter_map, range_with_len};
ghost use Rattle.run_events.specs.Counters.{stats_of, unit_view};
ghost use Rattle.run_events.specs.Described.{described_result};
ghost use Rattle.run_events.specs.Attempts.{attempts_of, view_of};
ghost use Rattle.uses.specs.Runner.{HasStatuses, last_stderr, left_by, numbered_of, told_unit, view_of_attempts};

use crate::of_run_events::{EndedAttempt, push_status};
use run_events::attempts::{ExecuteStatus, ExecutionStatuses, RetryData};
use run_events::child::LiveSpec;
use run_events::config::FlakyResult;
use run_events::events::{ReporterEvent, TestEventKind};
use run_events::stats::{FinishedUnit, RunStart, RunStats};
use std::alloc::{AllocError, Global};

/// Returns a test that finished with the attempt `last` after the earlier ones. The attempts are
/// numbered from 1, and the total of each is their number. Both stop at `u32::MAX`.
pub fn finished_test(
    alloc: Global,
    earlier: &[EndedAttempt<'_>],
    last: EndedAttempt<'_>,
    setting: FlakyResult,
) -> Result<ExecutionStatuses<LiveSpec>, AllocError>
    ensures view { IfOk result (λ test. view_of test
        ≡ view_of_attempts (length earlier.now + 1) last.entry.outcome last.entry.is_slow setting) }
    ensures stderr { IfOk result (λ test. last_stderr test ≡ Some last.entry.stderr.now) }
    ensures outputs { IfOk result (λ test. map (λ s. s.output) (attempts_of test)
        ≡ map left_by (earlier.now ++ last.entry ∷ [])) }
    ensures results { IfOk result (λ test. map (λ s. s.result) (attempts_of test)
        ≡ map (λ a. described_result a.outcome None) (earlier.now ++ last.entry ∷ [])) }
    ensures slow { IfOk result (λ test. map (λ s. s.is_slow) (attempts_of test)
        ≡ map (λ a. a.is_slow) (earlier.now ++ last.entry ∷ [])) }
    ensures numbers { length earlier.now + 1 < 2 ^ 32
        → IfOk result (λ test. map (λ s. s.retry_data) (attempts_of test)
        ≡ map (numbered_of (length earlier.now + 1)) (range_with_len 1 (length earlier.now + 1))) }
{
    let mut statuses = Vec::new(alloc);
    let retry_data = push_statuses(alloc, &mut statuses, earlier, total_after(earlier))?;
    push_status(alloc, &mut statuses, last, retry_data)?;
    Ok(ExecutionStatuses::new(statuses, setting))
}

/// Returns the number of attempts: the earlier ones and the last one.
fn total_after(earlier: &[EndedAttempt<'_>]) -> u32
    ensures { length earlier.now + 1 < 2 ^ 32 → result ≡ length earlier.now + 1 }
{
    u32::try_from(earlier.len())
        .unwrap_or(u32::MAX)
        .saturating_add(1)
}

/// Adds the statuses of the first attempts of a test. Returns the number of the next attempt.
fn push_statuses(
    alloc: Global,
    statuses: &mut Vec<ExecuteStatus<LiveSpec>>,
    attempts: &[EndedAttempt<'_>],
    total_attempts: u32,
) -> Result<RetryData, AllocError>
    requires { statuses.old.items ≡ [] }
    ensures statuses { IfOk result (λ _. HasStatuses attempts.now total_attempts
        statuses.new.items) }
    ensures next { IfOk result (λ next. length attempts.now + 1 < 2 ^ 32
        → next ≡ numbered_of total_attempts (length attempts.now + 1)) }
{
    let mut retry_data = RetryData {
        attempt: 1,
        total_attempts,
    };
    for attempt in attempts {
        push_status(alloc, statuses, *attempt, retry_data)?;
        retry_data.attempt = retry_data.attempt.saturating_add(1);
    }
    Ok(retry_data)
}

/// Returns the finished unit of an event, borrowed.
fn finished_unit<'e>(event: &'e ReporterEvent<'_>) -> Option<FinishedUnit<'e>>
    ensures { option_map unit_view result ≡ told_unit event.now }
{
    let ReporterEvent::Test(event) = event else {
        return None;
    };
    match &event.kind {
        TestEventKind::SetupScriptFinished { run_status, .. } => {
            Some(FinishedUnit::Script(run_status))
        }
        TestEventKind::TestFinished { run_statuses, .. } => Some(FinishedUnit::Test(run_statuses)),
        _ => None,
    }
}

/// Returns the finished units of events, borrowed and in order.
pub fn finished_units<'e>(
    alloc: Global,
    events: &'e [ReporterEvent<'_>],
) -> Result<Vec<FinishedUnit<'e>>, AllocError>
    ensures { IfOk result (λ units. map unit_view units.items ≡ filter_map told_unit events.now) }
{
    let mut units = Vec::new(alloc);
    for event in events {
        if let Some(unit) = finished_unit(event) {
            units.push(unit)?;
        }
    }
    Ok(units)
}

/// Returns the counters of a run, from its events.
pub fn stats_of_events(
    alloc: Global,
    events: &[ReporterEvent<'_>],
    start: RunStart,
) -> Result<RunStats, AllocError>
    ensures { IfOk result (λ stats. stats ≡ stats_of (filter_map told_unit events.now) start) }
{
    let units = finished_units(alloc, events)?;
    Ok(RunStats::of_run(units.as_slice(), start))
}
