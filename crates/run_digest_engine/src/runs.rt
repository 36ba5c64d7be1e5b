//! The report of finished runs.

ghost use Rattle.std.specs.Prelude.{◌≡◌, IfOk, map, string_bytes};
ghost use Rattle.run_events_stats.specs.Summary.{FailuresFit};
ghost use Rattle.run_digest_engine.specs.Counted.{AreStats};
ghost use Rattle.run_digest_engine.specs.Report.{run_stats};
ghost use Rattle.run_digest_engine.specs.RunReports.{AgreesWithCount, ReportsRuns, run_view};

use crate::report::{push_outcome, report_texts};
use run_events_stats::outcome::RunOutcome;
use run_events_stats::stats::{FinishedRun, RunStats};
use std::alloc::{AllocError, Global};

/// Returns the statistics of a finished run.
fn stats_of_run(run: &FinishedRun<'_>) -> RunStats
    ensures is { result ≡ run_stats (run_view run.now) }
    ensures fit { FailuresFit result }
{
    RunStats::of_run(run.units, run.start)
}

/// Returns the statistics of finished runs.
fn stats_of_runs(alloc: Global, runs: &[FinishedRun<'_>]) -> Result<Vec<RunStats>, AllocError>
    ensures { IfOk result (λ v. AreStats v.items (map run_view runs.now)) }
{
    let mut all = Vec::with_capacity(alloc, runs.len())?;
    for run in runs {
        all.push(stats_of_run(run))?;
    }
    Ok(all)
}

/// Returns the text that [`count`](crate::count::count) writes for lines that say these runs: the
/// report of each run, in order, and unless there is exactly one run, a line with their outcome.
///
/// The numbers are those of [`RunStats::of_run`], and the outcome is that of [`RunOutcome::of_runs`].
/// A run that no lines can say, such as one with skipped tests, has its report too.
pub fn report_of_runs(alloc: Global, runs: &[FinishedRun<'_>]) -> Result<String, AllocError>
    ensures text { IfOk result (λ s. ReportsRuns (map run_view runs.now) (string_bytes s)) }
    ensures count { IfOk result (λ s. AgreesWithCount (map run_view runs.now) (string_bytes s)) }
{
    let all = stats_of_runs(alloc, runs)?;
    let (mut text, _) = report_texts(alloc, all.as_slice())?;
    push_outcome(&mut text, all.as_slice(), RunOutcome::of_runs(runs))?;
    Ok(text)
}
