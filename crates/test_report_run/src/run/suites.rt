//! The first and the last lines of suites.

ghost use Rattle.std.specs.Prelude.{◌≡◌, ◌++◌, ◌+◌, ◌<◌, ◌==◌, Some, IfOk, OnOk, length, map, option_map};
ghost use Rattle.std.specs.List.{remove};
ghost use Rattle.test_report_events.specs.Event.{suite_end_view, text_of_key};
ghost use Rattle.test_report_run_notes.specs.Note.{note_view, text_view};
ghost use Rattle.test_report_run.specs.Over.{early_end_of, last_notes};
ghost use Rattle.test_report_run.specs.Run as spec;
ghost use Rattle.test_report_run.specs.Run.{run_state};
ghost use Rattle.test_report_run.specs.Suite.{cancelled_by, has_key, joined_by, state_of, with_line};

use crate::contradictions::push_contradiction;
use crate::early::Ending;
use crate::error::RunError;
use crate::run::TestRun;
use crate::suite::Suite;
use std::alloc::{AllocError, Global};
use test_report_events::event::{SuiteEnd, SuiteKey};
use test_report_run_notes::note::{Contradiction, Note};

impl TestRun {
    /// Takes the first line of a suite.
    pub(crate) fn on_suite_started(
        &mut self,
        alloc: Global,
        key: Option<SuiteKey<'_>>,
        test_count: Option<u64>,
        notes: &mut Vec<Note>,
    ) -> Result<(), RunError>
        ensures takes { OnOk result (run_state self.new
            ≡ (spec.suite_starts (run_state self.old) (option_map text_of_key key.entry) test_count).run) }
        ensures tells { OnOk result (map note_view notes.new.items ≡ map note_view notes.old.items
            ++ (spec.suite_starts (run_state self.old) (option_map text_of_key key.entry) test_count).notes) }
    {
        let key = key_text(alloc, key)?;
        let test_count = wide(test_count);
        match self.suites.place_of_key(key.as_deref()) {
            Some(at) => self.start_again(alloc, key, test_count, at, notes),
            None => self.open(alloc, key, test_count),
        }
    }

    /// Takes the first line of a suite while a suite with the same key, or also without a key, is open at a
    /// position. With a key, the line is added to the open suite. Without a key, the open suite ends early
    /// and another one starts.
    fn start_again(
        &mut self,
        alloc: Global,
        key: Option<String>,
        test_count: Option<u128>,
        at: usize,
        notes: &mut Vec<Note>,
    ) -> Result<(), RunError>
        requires within { at < length self.old.suites.list.items }
        requires has_key { spec.open_suite (run_state self.old) (text_view key) ≡ Some at }
        ensures takes { OnOk result (run_state self.new
            ≡ (spec.started_again (run_state self.old) (text_view key) test_count at).run) }
        ensures tells { OnOk result (map note_view notes.new.items ≡ map note_view notes.old.items
            ++ (spec.started_again (run_state self.old) (text_view key) test_count at).notes) }
    {
        if key.is_some() {
            self.join(test_count, at)
        } else {
            let suite = self.take_out(at);
            self.end_early(alloc, &Ending::unknown(), suite, notes)?;
            self.open(alloc, key, test_count)
        }
    }

    /// Adds a first line to the open suite at a position.
    fn join(&mut self, test_count: Option<u128>, at: usize) -> Result<(), RunError>
        requires { at < length self.old.suites.list.items }
        ensures { OnOk result (run_state self.new ≡ spec.with_suite_at (run_state self.old) (Some at)
            (joined_by (spec.suite_at (run_state self.old) (Some at)) test_count)) }
    {
        let place = self.others.event_place();
        let suite = &mut *self.suites.list[at];
        suite.last_event = place;
        suite.join(test_count)
    }

    /// Removes the open suite at a position, and returns it.
    fn take_out(&mut self, at: usize) -> Suite
        requires { at < length self.old.suites.list.items }
        ensures suite { state_of result ≡ spec.suite_at (run_state self.old) (Some at) }
        ensures left { run_state self.new
            ≡ record (run_state self.old) { suites = remove (run_state self.old).suites at } }
        ensures key { spec.open_suite (run_state self.new) (state_of result).key ≡ None }
    {
        self.suites.remove(at)
    }

    /// Opens a suite with a key that no open suite has, or without a key if all open suites have one.
    fn open(
        &mut self,
        alloc: Global,
        key: Option<String>,
        test_count: Option<u128>,
    ) -> Result<(), RunError>
        requires { spec.open_suite (run_state self.old) (text_view key) ≡ None }
        ensures takes { OnOk result (run_state self.new
            ≡ spec.opened (run_state self.old) (text_view key) test_count) }
    {
        let heading = match &self.heading {
            Some(heading) => Some(heading.clone()?),
            None => None,
        };
        self.suites
            .open(alloc, key, heading, test_count, &self.others)
    }

    /// Takes a last line of a suite.
    pub(crate) fn on_suite_ended(
        &mut self,
        alloc: Global,
        end: SuiteEnd<'_>,
        notes: &mut Vec<Note>,
    ) -> Result<(), RunError>
        ensures takes { OnOk result (run_state self.new
            ≡ (spec.suite_ends (run_state self.old) (suite_end_view end.entry)).run) }
        ensures tells { OnOk result (map note_view notes.new.items ≡ map note_view notes.old.items
            ++ (spec.suite_ends (run_state self.old) (suite_end_view end.entry)).notes) }
    {
        let key = key_text(alloc, end.key)?;
        match self.suites.place_of_key(key.as_deref()) {
            Some(at) => self.end_at(alloc, end, at, notes),
            None => {
                push_stray_end(key, end, notes)?;
                Ok(())
            }
        }
    }

    /// Takes a last line of the open suite at a position. Fails if memory runs out, or a number of the suite does not
    /// fit.
    fn end_at(
        &mut self,
        alloc: Global,
        end: SuiteEnd<'_>,
        at: usize,
        notes: &mut Vec<Note>,
    ) -> Result<(), RunError>
        requires { at < length self.old.suites.list.items }
        ensures takes { OnOk result (run_state self.new
            ≡ (spec.ended_at (run_state self.old) (suite_end_view end.entry) at).run) }
        ensures tells { OnOk result (map note_view notes.new.items ≡ map note_view notes.old.items
            ++ (spec.ended_at (run_state self.old) (suite_end_view end.entry) at).notes) }
    {
        if self.add_last_line(end, at)? {
            let mut suite = self.take_out(at);
            self.end_suite(alloc, &mut suite, notes)
        } else {
            Ok(())
        }
    }

    /// Adds a last line to the open suite at a position. Returns true if the suite is over.
    fn add_last_line(&mut self, end: SuiteEnd<'_>, at: usize) -> Result<bool, RunError>
        requires { at < length self.old.suites.list.items }
        ensures takes { OnOk result (run_state self.new ≡ spec.with_suite_at (run_state self.old) (Some at)
            (with_line (spec.suite_at (run_state self.old) (Some at)) (suite_end_view end.entry))) }
        ensures is_over { IfOk result (λ is_over. is_over
            ≡ ((with_line (spec.suite_at (run_state self.old) (Some at)) (suite_end_view end.entry)).open_lines == 0)) }
    {
        let place = self.others.event_place();
        let suite = &mut *self.suites.list[at];
        suite.last_event = place;
        suite.on_last_line(end)
    }

    /// Ends a suite that has its last line.
    fn end_suite(
        &mut self,
        alloc: Global,
        suite: &mut Suite,
        notes: &mut Vec<Note>,
    ) -> Result<(), RunError>
        ensures takes { OnOk result (run_state self.new
            ≡ spec.without_tests (run_state self.old) (state_of suite.old)) }
        ensures tells { OnOk result (map note_view notes.new.items ≡ map note_view notes.old.items
            ++ last_notes (cancelled_by self.old.cancel (state_of suite.old))
            (spec.tests_in (run_state self.old) (state_of suite.old))) }
    {
        let left = self.running.take_suite(alloc, suite.name.number)?;
        suite.cancel = self.cancel;
        suite.end(alloc, left, notes)
    }

    /// Ends a suite that has no last line.
    pub(crate) fn end_early(
        &mut self,
        alloc: Global,
        how: &Ending,
        mut suite: Suite,
        notes: &mut Vec<Note>,
    ) -> Result<(), RunError>
        ensures { OnOk result (spec.step (run_state self.new) (map note_view notes.new.items)
            ≡ spec.ended_early (early_end_of how.now) (spec.step (run_state self.old) (map note_view notes.old.items))
            (state_of suite)) }
    {
        let left = self.running.take_suite(alloc, suite.name.number)?;
        suite.cancel = self.cancel;
        suite.end_early(alloc, &self.others, how, left, notes)
    }
}

/// Returns the text of a key.
fn key_text(alloc: Global, key: Option<SuiteKey<'_>>) -> Result<Option<String>, AllocError>
    ensures { IfOk result (λ text. text_view text ≡ option_map text_of_key key.entry) }
{
    match key {
        Some(key) => Ok(Some(key.to_string(alloc)?)),
        None => Ok(None),
    }
}

/// Returns a number of tests as a number to which others can be added.
fn wide(count: Option<u64>) -> Option<u128>
    ensures { result ≡ count }
{
    count.map(u128::from)
}

/// Adds a contradiction if the last line of a suite that is not open counts tests. `key` is the key in the line.
fn push_stray_end(
    key: Option<String>,
    end: SuiteEnd<'_>,
    notes: &mut Vec<Note>,
) -> Result<(), AllocError>
    requires { text_view key ≡ (suite_end_view end).key }
    ensures { OnOk result (map note_view notes.new.items ≡ map note_view notes.old.items
        ++ spec.stray_suite_notes (suite_end_view end.entry)) }
{
    if counts_tests(end) {
        let failed_verdict = end.failed_verdict;
        push_contradiction(
            Contradiction::StraySuiteEnd {
                key,
                failed_verdict,
            },
            notes,
        )
    } else {
        Ok(())
    }
}

/// Returns true if a last line says that the suite failed, or counts a test that ran.
fn counts_tests(end: SuiteEnd<'_>) -> bool
    ensures { result ≡ spec.counts_tests (suite_end_view end.entry) }
{
    end.failed_verdict
        || is_above_0(end.passed)
        || is_above_0(end.measured)
        || is_above_0(end.failed)
}

/// Returns true if a number is known and above 0.
fn is_above_0(count: Option<u64>) -> bool
    ensures { result ≡ spec.is_above_0 count }
{
    match count {
        Some(count) => count > 0,
        None => false,
    }
}
