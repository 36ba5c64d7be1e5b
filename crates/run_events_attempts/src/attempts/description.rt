//! The description of a finished test by its attempts.

ghost use Rattle.std.specs.Prelude.{◌≡◌, ◌↔◌, ◌<◌, IsTrue, Some, length};
ghost use Rattle.run_events_attempts.specs.Description.{ComesTo, HasFinalLevel, IsConsistent, described_final_level, described_level, is_success_description, last_described};

use crate::attempts::ExecuteStatus;
use crate::child::OutputSpec;
use run_events_results::config::FlakyResult;
use run_events_results::levels::{FinalStatusLevel, StatusLevel};
use std::alloc::AllocError;

/// The description of a finished test, for reporters. It depends only on the number of attempts and
/// the result of the last one.
pub enum ExecutionDescription<'a, S: OutputSpec> {
    /// There was one attempt, and it succeeded.
    Success {
        /// The only attempt.
        single_status: &'a ExecuteStatus<S>,
    },

    /// There were several attempts, and the last one succeeded.
    Flaky {
        /// The last attempt.
        last_status: &'a ExecuteStatus<S>,

        /// The attempts before the last, in order. There is at least one.
        prior_statuses: &'a [ExecuteStatus<S>],

        /// How the test counts.
        result: FlakyResult,
    },

    /// The last attempt did not succeed.
    Failure {
        /// The first attempt.
        first_status: &'a ExecuteStatus<S>,

        /// The last attempt, which is also the first if there was only one.
        last_status: &'a ExecuteStatus<S>,

        /// The attempts after the first, in order.
        retries: &'a [ExecuteStatus<S>],
    },
}

impl<S: OutputSpec> Clone for ExecutionDescription<'_, S> {
    ghost use Rattle.std.specs.Prelude.{◌≡◌, ⊤};

    ghost is_clone = { λ old new. new ≡ old };

    // It takes no memory, so it always succeeds.
    ghost is_infallible = { λ _. ⊤ };

    fn clone(&self) -> Result<Self, AllocError> {
        Ok(*self)
    }
}

impl<S: OutputSpec> Copy for ExecutionDescription<'_, S> {}

impl<'a, S: OutputSpec> ExecutionDescription<'a, S> {
    /// Describes attempts. There must be at least one.
    pub(crate) fn of_attempts(
        statuses: &'a [ExecuteStatus<S>],
        setting: FlakyResult,
    ) -> ExecutionDescription<'a, S>
        requires { 0 < length statuses.now }
        ensures { ComesTo statuses.now setting result }
    {
        match statuses {
            [single_status] if single_status.result.is_success() => {
                ExecutionDescription::Success { single_status }
            }
            [prior_statuses @ .., last_status] if last_status.result.is_success() => {
                ExecutionDescription::Flaky {
                    last_status,
                    prior_statuses,
                    result: setting,
                }
            }
            [first_status, retries @ ..] => ExecutionDescription::Failure {
                first_status,
                last_status: &statuses[statuses.len() - 1],
                retries,
            },
            [] => unreachable!(),
        }
    }

    /// Returns true unless this is a `Success` of an attempt that did not succeed. Every description
    /// that [`ExecutionStatuses::describe`] makes is consistent, and has both levels.
    ///
    /// [`ExecutionStatuses::describe`]: crate::attempts::ExecutionStatuses::describe
    pub fn is_consistent(&self) -> bool
        ensures exact { IsTrue result ↔ IsConsistent self.now }
        ensures final_level { IsTrue result → HasFinalLevel self.now }
    {
        match self {
            ExecutionDescription::Success { single_status } => single_status.result.is_success(),
            ExecutionDescription::Flaky { .. } | ExecutionDescription::Failure { .. } => true,
        }
    }

    /// Returns the level of the test when it finishes: `Retry` or `Fail` for a flaky test, `Fail` for
    /// a failed one, and for a success the level that [`StatusLevel::of_success`] returns.
    ///
    /// A `Success` must be of an attempt that succeeded; [`Self::is_consistent`] tests it.
    pub fn status_level(&self) -> StatusLevel
        requires { IsConsistent self.now }
        ensures { described_level self.now ≡ Some result }
    {
        match self {
            ExecutionDescription::Success { single_status } => {
                StatusLevel::of_success(&single_status.result).unwrap()
            }
            ExecutionDescription::Flaky { result, .. } => StatusLevel::of_flaky(*result),
            ExecutionDescription::Failure { .. } => StatusLevel::Fail,
        }
    }

    /// Returns the level of the test at the end of the run. It is like the status level, except that
    /// a flaky test which counts as passed is `Flaky`, and that a slow success is `Slow` whatever its
    /// result.
    ///
    /// A `Success` must be of an attempt that was slow or succeeded; [`Self::is_consistent`] tests
    /// that it succeeded.
    pub fn final_status_level(&self) -> FinalStatusLevel
        requires { HasFinalLevel self.now }
        ensures { described_final_level self.now ≡ Some result }
    {
        match self {
            ExecutionDescription::Success { single_status } => {
                FinalStatusLevel::of_success(&single_status.result, single_status.is_slow).unwrap()
            }
            ExecutionDescription::Flaky { result, .. } => FinalStatusLevel::of_flaky(*result),
            ExecutionDescription::Failure { .. } => FinalStatusLevel::Fail,
        }
    }

    /// Returns true if the setting for the output of successful tests applies. It also applies to a
    /// flaky test, even if that counts as failed.
    pub fn is_success_for_output(&self) -> bool
        ensures { result ≡ is_success_description self.now }
    {
        match self {
            ExecutionDescription::Success { .. } | ExecutionDescription::Flaky { .. } => true,
            ExecutionDescription::Failure { .. } => false,
        }
    }

    /// Returns the last attempt.
    pub fn last_status(&self) -> &'a ExecuteStatus<S>
        ensures { result.now ≡ last_described self.now }
    {
        match self {
            ExecutionDescription::Success {
                single_status: last_status,
            }
            | ExecutionDescription::Flaky { last_status, .. }
            | ExecutionDescription::Failure { last_status, .. } => last_status,
        }
    }
}
