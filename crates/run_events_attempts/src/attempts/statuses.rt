//! The attempts of a finished test.

ghost use Rattle.std.specs.Prelude.{◌<◌, vec_len};

use crate::attempts::ExecuteStatus;
use crate::attempts::description::ExecutionDescription;
use crate::child::OutputSpec;
use run_events_results::config::FlakyResult;
use run_events_results::view::TestView;
use std::fmt;

/// All attempts of a finished test, in order, and how the test counts if it is flaky. There is always
/// at least one attempt.
#[derive(Drop)]
pub struct ExecutionStatuses<S: OutputSpec> {
    statuses: Vec<ExecuteStatus<S>>,
    flaky_result: FlakyResult,
    ghost not_empty: { 0 < vec_len statuses },
}

/// The error if a list of attempts is empty. A finished test has at least one attempt.
#[derive(Clone, Copy, Debug, PartialEq, Eq)]
pub struct EmptyStatuses;

impl fmt::Display for EmptyStatuses {
    ghost use Rattle.std.specs.Prelude.{Some};
    ghost use Rattle.run_events_attempts.specs.Attempts.{empty_statuses_text};

    ghost output = { λ _. Some empty_statuses_text };

    ghost styled_output = { λ _ _. Some empty_statuses_text };

    fn fmt<W: fmt::Write>(&self, f: &mut fmt::Formatter<W>) -> fmt::Result {
        f.write_str("a finished test has at least one attempt, but the list of attempts is empty")
    }
}

impl<S: OutputSpec> ExecutionStatuses<S> {
    ghost use Rattle.std.specs.Prelude.{◌≡◌, ◌↔◌, ◌<◌, [], IfOk, IsErr, Some, length, vec_len};
    ghost use Rattle.run_events_attempts.specs.Attempts.{attempts_left, attempts_of, last_of, flaky_result_of, view_of};
    ghost use Rattle.run_events_attempts.specs.Description.{ComesTo, HasFinalLevel, IsConsistent, described_final_level, described_level, is_success_description};
    ghost use Rattle.run_events_results.specs.Level.{final_level_of, level_of};
    ghost use Rattle.run_events_results.specs.Results.{succeeds};
    ghost use Rattle.run_events_results.specs.ViewedTest.{said_of};

    /// Returns a test with these attempts, in order.
    ///
    /// `statuses` must not be empty; [`ExecutionStatuses::try_from_parts`] tests it.
    pub fn new(statuses: Vec<ExecuteStatus<S>>, flaky_result: FlakyResult) -> Self
        requires { 0 < vec_len statuses }
        ensures attempts { attempts_of result ≡ statuses.items }
        ensures flaky_result { flaky_result_of result ≡ flaky_result }
    {
        ExecutionStatuses {
            statuses,
            flaky_result,
        }
    }

    /// Returns a test with these attempts, in order.
    ///
    /// The error is [`EmptyStatuses`] if `statuses` is empty, for example in a damaged record.
    pub fn try_from_parts(
        statuses: Vec<ExecuteStatus<S>>,
        flaky_result: FlakyResult,
    ) -> Result<Self, EmptyStatuses>
        ensures empty { IsErr result ↔ (statuses.items ≡ []) }
        ensures attempts { IfOk result (λ t. attempts_of t ≡ statuses.items) }
        ensures flaky_result { IfOk result (λ t. flaky_result_of t ≡ flaky_result) }
    {
        if statuses.is_empty() {
            statuses.destroy_empty();
            return Err(EmptyStatuses);
        }
        Ok(ExecutionStatuses::new(statuses, flaky_result))
    }

    /// Returns how the test counts if it is flaky.
    pub fn flaky_result(&self) -> FlakyResult
        ensures { result ≡ flaky_result_of self.now }
    {
        self.flaky_result
    }

    /// Returns the last attempt, which decides how the test counts.
    pub fn last_status(&self) -> &ExecuteStatus<S>
        ensures { last_of (attempts_of self.now) ≡ Some result.now }
    {
        self.statuses.last().unwrap()
    }

    /// Returns the parts of the test that decide its counters and its levels.
    pub fn view(&self) -> TestView<'_>
        ensures { said_of result ≡ view_of self.now }
    {
        let last = self.last_status();
        TestView {
            result: &last.result,
            attempts: self.len(),
            is_slow: last.is_slow,
            flaky_result: self.flaky_result,
        }
    }

    /// Returns the number of attempts, which is at least 1.
    pub fn len(&self) -> usize
        ensures count { result ≡ length (attempts_of self.now) }
        ensures not_empty { 0 < result }
    {
        self.statuses.len()
    }

    /// Returns an iterator over the attempts, in order.
    pub fn iter(&self) -> ExecutionStatusesIter<'_, S>
        ensures { attempts_left result ≡ attempts_of self.now }
    {
        ExecutionStatusesIter {
            rest: self.statuses.as_slice(),
        }
    }

    /// Describes the test: a failure if the last attempt did not succeed, or else a success if there
    /// is one attempt, or else flaky.
    pub fn describe(&self) -> ExecutionDescription<'_, S>
        ensures parts { ComesTo (attempts_of self.now) (flaky_result_of self.now) result }
        ensures consistent { IsConsistent result }
        ensures has_final_level { HasFinalLevel result }
        ensures success { is_success_description result ≡ succeeds (view_of self.now).result }
        ensures level { described_level result ≡ level_of (view_of self.now) }
        ensures final_level { described_final_level result ≡ final_level_of (view_of self.now) }
    {
        ExecutionDescription::of_attempts(self.statuses.as_slice(), self.flaky_result)
    }
}

/// An iterator over the attempts of a test.
#[derive(Drop)]
pub struct ExecutionStatusesIter<'a, S: OutputSpec> {
    rest: &'a [ExecuteStatus<S>],
}

impl<'a, S: OutputSpec> Iterator for ExecutionStatusesIter<'a, S> {
    ghost use Rattle.std.specs.Iterator.{YieldsFirstRef, item_count};
    ghost use Rattle.run_events_attempts.specs.Attempts.{attempts_left};

    type Item = &'a ExecuteStatus<S>;

    ghost next_gives = { YieldsFirstRef attempts_left };

    ghost remaining = { item_count attempts_left };

    fn next(&mut self) -> Option<&'a ExecuteStatus<S>> {
        let (first, rest) = self.rest.split_first()?;
        self.rest = rest;
        Some(first)
    }
}

impl<'a, S: OutputSpec> DoubleEndedIterator for ExecutionStatusesIter<'a, S> {
    ghost use Rattle.std.specs.Iterator.{YieldsLastRef};
    ghost use Rattle.run_events_attempts.specs.Attempts.{attempts_left};

    ghost next_back_gives = { YieldsLastRef attempts_left };

    fn next_back(&mut self) -> Option<&'a ExecuteStatus<S>> {
        let (last, rest) = self.rest.split_last()?;
        self.rest = rest;
        Some(last)
    }
}

/// Iterates over the attempts, in order.
impl<'a, S: OutputSpec> IntoIterator for &'a ExecutionStatuses<S> {
    ghost use Rattle.std.specs.Prelude.{◌≡◌};
    ghost use Rattle.run_events_attempts.specs.Attempts.{attempts_left, attempts_of};

    type Item = &'a ExecuteStatus<S>;

    type IntoIter = ExecutionStatusesIter<'a, S>;

    ghost into_iter_gives = { λ t i. attempts_left i ≡ attempts_of t.now };

    fn into_iter(self) -> ExecutionStatusesIter<'a, S> {
        self.iter()
    }
}

/// Iterates over the attempts, in order.
impl<S: OutputSpec> IntoIterator for ExecutionStatuses<S>
where
    S::ChildOutputDesc: Drop,
{
    ghost use Rattle.std.specs.Prelude.{◌≡◌};
    ghost use Rattle.std.specs.Vec.Iter.{into_iter_items};
    ghost use Rattle.run_events_attempts.specs.Attempts.{attempts_of};

    type Item = ExecuteStatus<S>;

    type IntoIter = std::vec::IntoIter<ExecuteStatus<S>>;

    ghost into_iter_gives = { λ t i. into_iter_items i ≡ attempts_of t };

    fn into_iter(self) -> std::vec::IntoIter<ExecuteStatus<S>> {
        let ExecutionStatuses {
            statuses,
            flaky_result: _,
        } = self;
        statuses.into_iter()
    }
}
