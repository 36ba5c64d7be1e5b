//! The text of reports of runs.

ghost use Rattle.std.specs.Prelude.{◌≡◌, ◌++◌, All, IfOk, OnOk, map, string_bytes};
ghost use Rattle.std.specs.List.{concat};
ghost use Rattle.run_events_stats.specs.Outcome.{IsHighest, outcome_of};
ghost use Rattle.run_events_stats.specs.Summary.{FailuresFit, summary_of};
ghost use Rattle.run_digest_engine.specs.Counted.{stats_reports};
ghost use Rattle.run_digest_engine.specs.Report.{outcome_words, report_of};

use crate::words::reason_text;
use run_events_stats::outcome::{FinalRunStats, RunFailureStep, RunOutcome, RunStatsFailureKind};
use run_events_stats::stats::RunStats;
use std::alloc::{AllocError, Global};
use std::fmt::{self, Write};

/// The step of a run, displayed in words.
#[derive(Clone, Copy)]
struct StepText(RunStatsFailureKind);

impl fmt::Display for StepText {
    ghost use Rattle.std.specs.Prelude.{Some};
    ghost use Rattle.run_digest_engine.specs.Report.{step_words};

    ghost output = { λ s. Some (step_words s.0) };

    #[tactic(auto, unfolding(crate::specs::Report::step_words))]
    fn fmt<W: fmt::Write>(&self, f: &mut fmt::Formatter<W>) -> fmt::Result {
        match self.0 {
            RunStatsFailureKind::SetupScript => f.write_str("setup-script"),
            RunStatsFailureKind::Test {
                initial_run_count,
                not_run,
            } => write!(f, "test {initial_run_count} {not_run}"),
        }
    }
}

/// A summary, displayed in words.
#[derive(Clone, Copy)]
struct SummaryText(FinalRunStats);

impl fmt::Display for SummaryText {
    ghost use Rattle.std.specs.Prelude.{Some};
    ghost use Rattle.run_digest_engine.specs.Report.{summary_words};

    ghost output = { λ s. Some (summary_words s.0) };

    #[tactic(auto, unfolding(crate::specs::Report::summary_words))]
    fn fmt<W: fmt::Write>(&self, f: &mut fmt::Formatter<W>) -> fmt::Result {
        match self.0 {
            FinalRunStats::Success => f.write_str("success"),
            FinalRunStats::NoTestsRun => f.write_str("no-tests-run"),
            FinalRunStats::Cancelled { reason, kind } => {
                let word = reason_text(reason);
                let step = StepText(kind);
                write!(f, "cancelled {word} {step}")
            }
            FinalRunStats::Failed { kind } => {
                let step = StepText(kind);
                write!(f, "failed {step}")
            }
        }
    }
}

/// Returns the words for an outcome.
#[tactic(auto, unfolding(crate::specs::Report::outcome_words))]
fn outcome_text(outcome: RunOutcome) -> &'static str
    ensures { result.now ≡ outcome_words outcome }
{
    match outcome {
        RunOutcome::Success => "success",
        RunOutcome::NoTestsRun => "no-tests-run",
        RunOutcome::Cancelled {
            step: RunFailureStep::SetupScript,
        } => "cancelled setup-script",
        RunOutcome::Cancelled {
            step: RunFailureStep::Test,
        } => "cancelled test",
        RunOutcome::Failed {
            step: RunFailureStep::SetupScript,
        } => "failed setup-script",
        RunOutcome::Failed {
            step: RunFailureStep::Test,
        } => "failed test",
    }
}

/// Appends the three lines of a report. Both sums of failures must fit `usize`, and `summary` must be
/// the summary of the statistics.
#[tactic(auto, unfolding(crate::specs::Report::report_of, crate::specs::Report::tests_line, crate::specs::Report::scripts_line))]
fn push_report(
    text: &mut String,
    stats: &RunStats,
    summary: FinalRunStats,
) -> Result<(), AllocError>
    requires fit { FailuresFit stats.now }
    requires summary { summary ≡ summary_of stats.now }
    ensures { OnOk result (string_bytes text.new ≡ string_bytes text.old ++ report_of stats.now) }
{
    let (finished, passed, flaky) = (stats.finished_count, stats.passed, stats.flaky);
    let failed = stats.failed_count();
    writeln!(
        text,
        "tests {finished} passed {passed} failed {failed} flaky {flaky}"
    )?;
    let finished = stats.setup_scripts_finished_count;
    let failed = stats.failed_setup_script_count();
    writeln!(text, "scripts {finished} failed {failed}")?;
    let summary = SummaryText(summary);
    writeln!(text, "summary {summary}")
}

/// Returns the reports of runs, and their summaries.
pub(crate) fn report_texts(
    alloc: Global,
    runs: &[RunStats],
) -> Result<(String, Vec<FinalRunStats>), AllocError>
    requires { All FailuresFit runs.now }
    ensures text { IfOk result (λ r. string_bytes r.0 ≡ concat (map report_of runs.now)) }
    ensures summaries { IfOk result (λ r. r.1.items ≡ map summary_of runs.now) }
{
    let mut text = String::new(alloc);
    let mut summaries = Vec::with_capacity(alloc, runs.len())?;
    for stats in runs {
        let summary = stats.summarize_final();
        push_report(&mut text, stats, summary)?;
        summaries.push(summary)?;
    }
    Ok((text, summaries))
}

/// Appends the line of the outcome of runs to their reports, unless there is exactly one run.
pub(crate) fn push_outcome(
    text: &mut String,
    runs: &[RunStats],
    outcome: RunOutcome,
) -> Result<(), AllocError>
    requires { string_bytes text.old ≡ concat (map report_of runs.now) }
    ensures { OnOk result (string_bytes text.new ≡ stats_reports runs.now outcome) }
{
    if runs.len() != 1 {
        let words = outcome_text(outcome);
        writeln!(text, "outcome {words}")?;
    }
    Ok(())
}

/// Returns the reports of runs with the line of their outcome, unless there is exactly one run, and
/// their outcome. Both sums of failures of each run must fit `usize`.
pub(crate) fn reports(alloc: Global, runs: &[RunStats]) -> Result<(String, RunOutcome), AllocError>
    requires { All FailuresFit runs.now }
    ensures highest { IfOk result
        (λ r. IsHighest (map outcome_of (map summary_of runs.now)) r.1) }
    ensures text { IfOk result (λ r. string_bytes r.0 ≡ stats_reports runs.now r.1) }
{
    let (mut text, summaries) = report_texts(alloc, runs)?;
    let outcome = RunOutcome::of_sub_runs(summaries.as_slice());
    push_outcome(&mut text, runs, outcome)?;
    Ok((text, outcome))
}
