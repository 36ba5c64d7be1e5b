//! An open suite of a run.

ghost use Rattle.std.specs.Prelude.{◌≡◌, ◌==◌, ◌<◌, ◌++◌, ◌∷◌, [], IfOk, OnOk, map, option_map, string_bytes};
ghost use Rattle.test_report_events.specs.Event.{suite_end_view};
ghost use Rattle.test_report_run_notes.specs.Note.{note_view, outcome_view, test_view, text_view};
ghost use Rattle.test_report_run.specs.Others.{no_others, others_view};
ghost use Rattle.test_report_run.specs.Suite.{has_key, joined_by, outside_start, over_view, state_of, suite_start, tally_of, test_note, test_of, with_line, with_start};

use crate::error::{RunError, one_more};
use crate::flaky::FlakyTests;
use crate::last_line::Tally;
use crate::others::{EventPlace, Others, PrintPlace};
use crate::said::{Said, sum};
use crate::suite_name::SuiteName;
use run_events_results::results::CancelReason;
use run_events_stats::stats::RunStats;
use std::alloc::{AllocError, Global};
use std::rc::Rc;
use test_report_events::event::SuiteEnd;
use test_report_run_notes::note::{Note, TestNote, TestOutcome, failed_count};

/// A test that is over, without its outcome.
#[derive(Drop)]
pub(crate) struct OverTest {
    /// The name of the test, without the number of attempts.
    pub(crate) name: String,

    /// The number of attempts.
    pub(crate) attempts: usize,

    /// The time that the test took, in microseconds.
    pub(crate) time: Option<u64>,

    /// The number of tests that ended before this one, or `None` if no line says that it ended.
    pub(crate) ended: Option<usize>,

    /// True if the test was slow.
    pub(crate) slow: bool,

    /// The reason why the run had been cancelled when the test became known, if it had been.
    pub(crate) cancel: Option<CancelReason>,
}

/// A test that passed after several attempts. The last line of its suite may still count it as failed.
#[derive(Drop)]
pub(crate) struct FlakyTest {
    pub(crate) test: OverTest,

    /// The number of tests that started before it.
    pub(crate) order: usize,

    pub(crate) stdout: Option<String>,
    pub(crate) message: Option<String>,
}

/// An open suite, or the tests of a file that start outside of a suite.
pub(crate) struct Suite {
    /// The number, the key and the name of the suite.
    pub(crate) name: SuiteName,

    /// The number of tests that its first lines announce.
    pub(crate) test_count: Option<u128>,

    /// The number of tests that started.
    pub(crate) started: usize,

    /// The number of its first lines minus that of its last lines.
    pub(crate) open_lines: usize,

    /// The numbers and the verdict of its last lines.
    pub(crate) said: Said,

    /// The statistics of its finished tests, except those in `flaky`.
    pub(crate) stats: RunStats,

    /// The number of tests that crashed.
    pub(crate) crashed: usize,

    /// The number of tests that were ignored.
    pub(crate) skipped: usize,

    /// The tests that passed after several attempts.
    pub(crate) flaky: FlakyTests,

    /// The sum of the times of tests, in microseconds.
    pub(crate) time: Option<u64>,

    /// The place of the first print after its first line.
    pub(crate) start: PrintPlace,

    /// The place of its last event.
    pub(crate) last_event: EventPlace,

    /// Why the run was cancelled before the suite was over, if it was. The run sets it when the suite is over.
    pub(crate) cancel: Option<CancelReason>,
}

impl Drop for Suite {
    fn drop(self) {
        let Suite {
            name: _,
            test_count: _,
            started: _,
            open_lines: _,
            said: _,
            stats: _,
            crashed: _,
            skipped: _,
            flaky: _,
            time: _,
            start: _,
            last_event: _,
            cancel: _,
        } = self;
    }
}

impl Suite {
    /// Returns a suite after its first line. `others` are the other lines of the file before it.
    pub(crate) fn new(
        alloc: Global,
        number: usize,
        key: Option<String>,
        heading: Option<Rc<String>>,
        test_count: Option<u128>,
        others: &Others,
    ) -> Result<Suite, AllocError>
        ensures { IfOk result (λ suite. state_of suite
            ≡ suite_start (Some number) (text_view key) (option_map (λ n. string_bytes n.value) heading)
            test_count (others_view others.now)) }
    {
        let name = SuiteName::new(alloc, number, key, heading)?;
        Ok(Suite::named(
            alloc,
            name,
            test_count,
            others.print_place(),
            others.event_place(),
        ))
    }

    /// Returns the tests of a file that start outside of a suite, before the first of them.
    pub(crate) fn outside(alloc: Global) -> Suite
        ensures { state_of result ≡ outside_start }
    {
        Suite::named(
            alloc,
            SuiteName::outside(),
            None,
            PrintPlace::default(),
            EventPlace::default(),
        )
    }

    /// Returns a suite with a name, after its first line.
    fn named(
        alloc: Global,
        name: SuiteName,
        test_count: Option<u128>,
        start: PrintPlace,
        last_event: EventPlace,
    ) -> Suite
        requires { text_view name.first_test ≡ None }
        ensures { state_of result
            ≡ record (suite_start name.number (text_view name.key)
            (option_map (λ n. string_bytes n.value) name.heading) test_count no_others) {
              start = start;
              last_event = last_event;
            } }
    {
        Suite {
            name,
            test_count,
            started: 0,
            open_lines: 1,
            said: Said::default(),
            stats: RunStats::default(),
            crashed: 0,
            skipped: 0,
            flaky: FlakyTests::new(alloc),
            time: None,
            start,
            last_event,
            cancel: None,
        }
    }

    /// Takes another first line of the suite. Fails if the number of these lines, or of the tests that they
    /// announce, does not fit.
    pub(crate) fn join(&mut self, test_count: Option<u128>) -> Result<(), RunError>
        ensures takes { OnOk result (state_of self.new ≡ joined_by (state_of self.old) test_count) }
        ensures number { self.new.name.number ≡ self.old.name.number }
        ensures key { text_view self.new.name.key ≡ text_view self.old.name.key }
    {
        self.open_lines = one_more(self.open_lines)?;
        self.test_count = sum(self.test_count, test_count)?;
        Ok(())
    }

    /// Takes a last line of the suite. Returns true if the suite now has as many last lines as first lines. Fails only
    /// if a sum of the numbers in its last lines does not fit.
    pub(crate) fn on_last_line(&mut self, end: SuiteEnd<'_>) -> Result<bool, RunError>
        ensures takes { OnOk result (state_of self.new
            ≡ with_line (state_of self.old) (suite_end_view end.entry)) }
        ensures last { IfOk result (λ last. last ≡ (self.new.open_lines == 0)) }
        ensures number { self.new.name.number ≡ self.old.name.number }
        ensures key { text_view self.new.name.key ≡ text_view self.old.name.key }
    {
        self.said = self.said.with_line(end)?;
        self.open_lines = self.open_lines.saturating_sub(1);
        Ok(self.open_lines == 0)
    }

    /// Takes the start of a test. Fails if memory runs out, or the number of tests that started does not fit.
    pub(crate) fn on_start(&mut self, alloc: Global, name: &str) -> Result<(), RunError>
        ensures takes { OnOk result (state_of self.new ≡ with_start (state_of self.old) name.now) }
        ensures number { self.new.name.number ≡ self.old.name.number }
        ensures key { text_view self.new.name.key ≡ text_view self.old.name.key }
    {
        self.started = one_more(self.started)?;
        self.name.take_test(alloc, name)?;
        Ok(())
    }

    /// Returns true if the suite has this key, or has no key if `key` is `None`.
    pub(crate) fn has_key(&self, key: Option<&str>) -> bool
        ensures { result ≡ has_key (option_map (λ key. key.now) key.entry) (state_of self.now) }
    {
        match (&self.name.key, key) {
            (Some(own), Some(key)) => own.as_str() == key,
            (None, None) => true,
            _ => false,
        }
    }

    /// Adds the note of a test of the suite.
    pub(crate) fn push_test(
        &self,
        test: OverTest,
        outcome: TestOutcome,
        notes: &mut Vec<Note>,
    ) -> Result<(), AllocError>
        ensures { OnOk result (map note_view notes.new.items ≡ map note_view notes.old.items
            ++ test_note (state_of self.now) (over_view test) (outcome_view outcome) ∷ []) }
    {
        notes.push(Note::Test(self.test_note(test, outcome)?))?;
        Ok(())
    }

    /// Returns what is known of a test of the suite.
    pub(crate) fn test_note(
        &self,
        test: OverTest,
        outcome: TestOutcome,
    ) -> Result<TestNote, AllocError>
        ensures { IfOk result (λ note. test_view note
            ≡ test_of (state_of self.now) (over_view test) (outcome_view outcome)) }
    {
        Ok(TestNote {
            suite: self.name.shown()?,
            name: test.name,
            attempts: test.attempts,
            time: test.time,
            ended: test.ended,
            slow: test.slow,
            cancel: test.cancel,
            outcome,
        })
    }

    /// Returns the numbers of tests of the suite. `left` is the number of running tests. Fails if the number
    /// of passed tests does not fit.
    pub(crate) fn tally(&self, left: usize) -> Result<Tally, RunError>
        ensures tally { IfOk result (λ tally. tally ≡ tally_of (state_of self.now) left) }
    {
        let flaky = self.flaky.len();
        let passed = self
            .stats
            .passed
            .checked_add(flaky)
            .ok_or(RunError::CounterFull)?;
        Ok(Tally {
            test_count: self.test_count,
            passed,
            flaky,
            failed: failed_count(&self.stats),
            skipped: self.skipped,
            left,
        })
    }
}
