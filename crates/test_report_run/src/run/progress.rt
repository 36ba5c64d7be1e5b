//! How far a run is.

ghost use Rattle.std.specs.Prelude.{◌≡◌, option_map};
ghost use Rattle.test_report_run.specs.Progress as spec;
ghost use Rattle.test_report_run.specs.Progress.{first_view};
ghost use Rattle.test_report_run.specs.Run.{run_state};
ghost use Rattle.test_report_run.specs.Suite.{state_of};

use crate::run::TestRun;
use crate::suite::Suite;
use test_report_run_notes::note::{RunEnd, failed_count};

/// The numbers of tests of a run up to now. A number that does not fit is the greatest that does.
#[derive(Clone, Copy)]
pub struct RunNumbers {
    /// The number of tests that ended. It counts a test without a line of its end when its suite is over.
    pub ended: u128,

    /// The number of these tests that failed.
    pub failed: u128,

    /// The number of tests that are known to be in the run: those of the suites that are over, also if they did
    /// not run, and those that the first lines of the open suites announce.
    pub announced: u128,
}

/// The test that has been running longest.
#[derive(Clone, Copy)]
pub struct FirstRunning<'a> {
    /// The name of the suite of the test, or `None` if the test started outside of a suite.
    pub suite: Option<&'a str>,

    /// The name in the line of its start.
    pub name: &'a str,

    /// The number of tests that started before it.
    pub order: usize,
}

impl TestRun {
    /// Returns true if a suite has started.
    pub fn has_suite(&self) -> bool
        ensures { result ≡ spec.has_suite (run_state self.now) }
    {
        self.suites.has_started()
    }

    /// Returns the number of tests that started.
    pub fn tests_started(&self) -> usize
        ensures { result ≡ (run_state self.now).tests_started }
    {
        self.running.started()
    }

    /// Returns how many tests of the run ended, how many of them failed, and how many are known to be in the run.
    pub fn numbers(&self) -> RunNumbers
        ensures { result ≡ spec.numbers_of (run_state self.now) }
    {
        let mut numbers = RunNumbers::of_end(&self.end()).with_open(&self.outside);
        for suite in &self.suites.list {
            numbers = numbers.with_open(suite);
        }
        numbers
    }

    /// Returns the test that has been running longest, which is the one that started first, or `None` if no test is
    /// running.
    pub fn first_running(&self) -> Option<FirstRunning<'_>>
        ensures { option_map first_view result ≡ spec.first_running (run_state self.now) }
    {
        let test = self.running.first()?;
        Some(FirstRunning {
            suite: self.name_of_suite(test.suite),
            name: test.name.as_str(),
            order: test.order,
        })
    }

    /// Returns the name of the open suite with a number, or `None` for the tests outside of a suite.
    fn name_of_suite(&self, number: Option<usize>) -> Option<&str>
        ensures { option_map (λ name. name.now) result ≡ spec.name_of_suite (run_state self.now) number }
    {
        match self.suites.place_of_number(number) {
            Some(at) => self.suites.list[at].name.shown_text(),
            None => self.outside.name.shown_text(),
        }
    }
}

impl RunNumbers {
    /// Returns the numbers of suites that are over, by their sums.
    fn of_end(end: &RunEnd) -> RunNumbers
        ensures { result ≡ spec.numbers_over end.now }
    {
        let ended = (end.stats.finished_count as u128).saturating_add(end.skipped);
        RunNumbers {
            ended,
            failed: failed_count(&end.stats) as u128,
            announced: ended.saturating_add(end.not_run),
        }
    }

    /// Returns the numbers with those of an open suite added.
    fn with_open(self, suite: &Suite) -> RunNumbers
        ensures { result ≡ spec.with_open self (state_of suite.now) }
    {
        RunNumbers {
            ended: self.ended.saturating_add(ended_in(suite)),
            failed: self
                .failed
                .saturating_add(failed_count(&suite.stats) as u128),
            announced: self.announced.saturating_add(suite.test_count.unwrap_or(0)),
        }
    }
}

/// Returns the number of tests of an open suite that ended.
fn ended_in(suite: &Suite) -> u128
    ensures { result ≡ spec.ended_in (state_of suite.now) }
{
    suite.stats.finished_count as u128 + suite.flaky.len() as u128 + suite.skipped as u128
}
