//! The exit status of a run.

ghost use Rattle.std.specs.Prelude.{◌≡◌, ◌↔◌, ◌⊎◌, IsTrue};
ghost use Rattle.run_events_stats.specs.declared.outcome.run_outcome.RunOutcome.TheVariants as outcomes;

use run_events_stats::outcome::RunOutcome;

/// Returns the exit status of a run with this outcome. It is 0 if the run succeeded, or if it had no tests
/// and `no_tests_pass` is true, and 1 otherwise.
pub fn exit_status(outcome: RunOutcome, no_tests_pass: bool) -> u8
    ensures zero { (result ≡ 0) ↔ ((outcome ≡ outcomes.Success)
        ⊎ ((outcome ≡ outcomes.NoTestsRun) × IsTrue no_tests_pass)) }
    ensures one { (result ≡ 0) ⊎ (result ≡ 1) }
{
    let passes = match outcome {
        RunOutcome::Success => true,
        RunOutcome::NoTestsRun => no_tests_pass,
        RunOutcome::Cancelled { .. } | RunOutcome::Failed { .. } => false,
    };
    u8::from(!passes)
}
