//! The starts and the ends of tests.

ghost use Rattle.std.specs.Prelude.{◌≡◌, ◌<◌, ◌+◌, ◌++◌, ◌∷◌, ◌||◌, [], IfOk, OnOk, false, map, nat_le};
ghost use Rattle.std.specs.Option.{option_map_or};
ghost use Rattle.test_report_events.specs.Event.{TestEnds, test_end_view};
ghost use Rattle.test_report_run_notes.specs.Note.{Contradicts, StrayEnds, note_view};
ghost use Rattle.test_report_run.specs.Run as spec;
ghost use Rattle.test_report_run.specs.Run.{run_state};
ghost use Rattle.test_report_run.specs.Running.{running_test_view};

use crate::contradictions::push_contradiction;
use crate::error::{RunError, one_more};
use crate::run::TestRun;
use crate::running::RunningTest;
use crate::suite::OverTest;
use std::alloc::{AllocError, Global};
use test_report_events::event::{TestDetails, TestResult};
use test_report_run_notes::note::{Contradiction, Note};

impl TestRun {
    /// Takes the start of a test. Fails if memory runs out, or a number of the run does not fit.
    pub(crate) fn on_test_started(&mut self, alloc: Global, name: &str) -> Result<(), RunError>
        ensures takes { OnOk result (run_state self.new ≡ spec.test_starts (run_state self.old) name.now) }
    {
        let number = self.count_start(alloc, name)?;
        self.running.begin(alloc, name, number)
    }

    /// Counts the start of a test in its suite. Returns the number of the suite, if it has one.
    fn count_start(&mut self, alloc: Global, name: &str) -> Result<Option<usize>, RunError>
        ensures counts { OnOk result (run_state self.new ≡ spec.start_counted (run_state self.old) name.now) }
        ensures number { IfOk result (λ number.
            number ≡ (spec.suite_at (run_state self.old) (spec.suite_place (run_state self.old) name.now)).number) }
    {
        let place = self.others.event_place();
        match self.suite_of(name) {
            Some(at) => {
                let suite = &mut *self.suites.list[at];
                let number = suite.name.number;
                suite.last_event = place;
                suite.on_start(alloc, name)?;
                Ok(number)
            }
            None => {
                self.outside.last_event = place;
                self.outside.on_start(alloc, name)?;
                Ok(self.outside.name.number)
            }
        }
    }

    /// Marks the running test with this name as slow, and stores that its suite had an event. Changes nothing if there
    /// is no such test.
    pub(crate) fn on_test_slow(&mut self, name: &str)
        ensures { run_state self.new ≡ spec.test_is_slow (run_state self.old) name.now }
    {
        if let Some(number) = self.running.mark_slow(name) {
            self.hear(number);
        }
    }

    /// Stores that the line is an event of a suite. `number` is the number of the suite, or `None` for the tests
    /// outside of a suite.
    fn hear(&mut self, number: Option<usize>)
        ensures { run_state self.new ≡ spec.heard_at (run_state self.old)
            (spec.place_of_number (run_state self.old) number) }
    {
        let place = self.others.event_place();
        match self.suites.place_of_number(number) {
            Some(at) => self.suites.list[at].last_event = place,
            None => self.outside.last_event = place,
        }
    }

    /// Returns the position of the open suite that a starting test with this name belongs to, or `None` if no
    /// suite is open.
    fn suite_of(&self, name: &str) -> Option<usize>
        ensures { result ≡ spec.suite_place (run_state self.now) name.now }
    {
        if self.suites.list.len() == 1 {
            return Some(0);
        }
        let named = match name.split_once('$') {
            Some((key, _)) => self.suites.place_of_key(Some(key)),
            None => None,
        };
        if named.is_some() {
            return named;
        }
        self.suites
            .place_of_key(None)
            .or(self.suites.list.len().checked_sub(1))
    }

    /// Takes the end of a test.
    pub(crate) fn on_test_ended(
        &mut self,
        alloc: Global,
        name: &str,
        end: TestResult,
        details: TestDetails<'_>,
        notes: &mut Vec<Note>,
    ) -> Result<(), RunError>
        ensures takes { OnOk result (run_state self.new
            ≡ (spec.told (run_state self.old) (TestEnds (test_end_view name.now end details.entry))).run) }
        ensures tells { OnOk result (map note_view notes.new.items ≡ map note_view notes.old.items
            ++ (spec.test_ends (run_state self.old) (test_end_view name.now end details.entry)).notes) }
    {
        // Most ends make one note known. Room for more would be slow.
        notes.reserve_exact(1)?;
        self.end_test(alloc, name, end, details, notes)?;
        self.ended = one_more(self.ended)?;
        Ok(())
    }

    /// Takes the end of a test, except that the number of ended tests stays the same.
    fn end_test(
        &mut self,
        alloc: Global,
        name: &str,
        end: TestResult,
        details: TestDetails<'_>,
        notes: &mut Vec<Note>,
    ) -> Result<(), RunError>
        ensures takes { OnOk result (run_state self.new
            ≡ (spec.test_ends (run_state self.old) (test_end_view name.now end details.entry)).run) }
        ensures tells { OnOk result (map note_view notes.new.items ≡ map note_view notes.old.items
            ++ (spec.test_ends (run_state self.old) (test_end_view name.now end details.entry)).notes) }
    {
        match self.running.end(name) {
            Some((test, attempts)) => self.count_end(alloc, test, attempts, end, details, notes),
            None => self.on_stray_end(alloc, name, end, details, notes),
        }
    }

    /// Counts the end of a test that was running.
    fn count_end(
        &mut self,
        alloc: Global,
        test: RunningTest,
        attempts: usize,
        end: TestResult,
        details: TestDetails<'_>,
        notes: &mut Vec<Note>,
    ) -> Result<(), RunError>
        ensures takes { OnOk result (run_state self.new
            ≡ (spec.test_over (run_state self.old) (test_end_view [] end details.entry) (running_test_view test) attempts).run) }
        ensures tells { OnOk result (map note_view notes.new.items ≡ map note_view notes.old.items
            ++ (spec.test_over (run_state self.old) (test_end_view [] end details.entry) (running_test_view test) attempts).notes) }
    {
        let order = test.order;
        let slow = is_slow(&test, details.time, self.slow);
        let place = self.suites.place_of_number(test.suite);
        let over = OverTest {
            name: test.name,
            attempts,
            time: details.time,
            ended: Some(self.ended),
            slow,
            cancel: self.cancel,
        };
        let event = self.others.event_place();
        match place {
            Some(at) => {
                let suite = &mut *self.suites.list[at];
                suite.last_event = event;
                suite.on_end(alloc, over, order, end, details, notes)
            }
            None => {
                self.outside.last_event = event;
                self.outside.on_end(alloc, over, order, end, details, notes)
            }
        }
    }

    /// Takes the end of a test that is not running. The test is counted unless it passed. The end is a
    /// contradiction unless the test was ignored.
    fn on_stray_end(
        &mut self,
        alloc: Global,
        name: &str,
        end: TestResult,
        details: TestDetails<'_>,
        notes: &mut Vec<Note>,
    ) -> Result<(), RunError>
        ensures takes { OnOk result (run_state self.new
            ≡ (spec.stray_ends (run_state self.old) (test_end_view name.now end details.entry)).run) }
        ensures tells { OnOk result (map note_view notes.new.items ≡ map note_view notes.old.items
            ++ (spec.stray_ends (run_state self.old) (test_end_view name.now end details.entry)).notes) }
    {
        match end {
            TestResult::Ok => {
                push_stray_end(alloc, name, end, notes)?;
                Ok(())
            }
            TestResult::Failed => {
                self.count_stray(alloc, name, end, details, notes)?;
                push_stray_end(alloc, name, end, notes)?;
                Ok(())
            }
            TestResult::Ignored => self.count_stray(alloc, name, end, details, notes),
        }
    }

    /// Counts the end of a test that is not running.
    fn count_stray(
        &mut self,
        alloc: Global,
        name: &str,
        end: TestResult,
        details: TestDetails<'_>,
        notes: &mut Vec<Note>,
    ) -> Result<(), RunError>
        ensures takes { OnOk result (run_state self.new
            ≡ spec.stray_counted (run_state self.old) (test_end_view name.now end details.entry)) }
        ensures tells { OnOk result (map note_view notes.new.items ≡ map note_view notes.old.items
            ++ spec.stray_test (run_state self.old) (test_end_view name.now end details.entry)) }
    {
        let slow = is_long(details.time, self.slow);
        let test = OverTest {
            name: String::from_str(alloc, name)?,
            attempts: 1,
            time: details.time,
            ended: Some(self.ended),
            slow,
            cancel: self.cancel,
        };
        let event = self.others.event_place();
        match self.suite_of(name) {
            Some(at) => {
                let suite = &mut *self.suites.list[at];
                suite.last_event = event;
                suite.on_stray_end(alloc, test, end, details, notes)
            }
            None => {
                self.outside.last_event = event;
                self.outside.on_stray_end(alloc, test, end, details, notes)
            }
        }
    }
}

/// Returns true if a running test that ends with this time is slow. `least` is the least time of a slow test.
fn is_slow(test: &RunningTest, time: Option<u64>, least: u64) -> bool
    ensures { result ≡ (test.now.slow || option_map_or (nat_le least) time false) }
{
    test.slow || is_long(time, least)
}

/// Returns true if a test with this time is slow. `least` is the least time of a slow test.
fn is_long(time: Option<u64>, least: u64) -> bool
    ensures { result ≡ option_map_or (nat_le least) time false }
{
    match time {
        Some(time) => least <= time,
        None => false,
    }
}

/// Adds the contradiction of a test that ends and is not running.
fn push_stray_end(
    alloc: Global,
    name: &str,
    end: TestResult,
    notes: &mut Vec<Note>,
) -> Result<(), AllocError>
    ensures { OnOk result (map note_view notes.new.items ≡ map note_view notes.old.items
        ++ Contradicts (StrayEnds name.now end) ∷ []) }
{
    let name = String::from_str(alloc, name)?;
    push_contradiction(Contradiction::StrayEnd { name, result: end }, notes)
}
