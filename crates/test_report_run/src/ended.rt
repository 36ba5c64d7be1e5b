//! The ends of the tests of a suite.

ghost use Rattle.std.specs.Prelude.{◌≡◌, ◌+◌, ◌++◌, ◌∷◌, [], IfOk, OnOk, map};
ghost use Rattle.test_report_events.specs.Event.{test_end_view};
ghost use Rattle.test_report_events.specs.declared.event.TestResult.TheVariants as ended;
ghost use Rattle.test_report_run_notes.specs.Note.{failure_view, note_view, outcome_view, text_view};
ghost use Rattle.test_report_run.specs.Ended as spec;
ghost use Rattle.test_report_run.specs.Suite.{over_view, state_of, test_note, with_finish};

use crate::counted::count;
use crate::error::{RunError, one_more};
use crate::said::time_sum;
use crate::suite::{FlakyTest, OverTest, Suite};
use crate::texts::owned;
use std::alloc::{AllocError, Global};
use test_report_events::event::{TestDetails, TestResult};
use test_report_run_notes::finish::Finish;
use test_report_run_notes::note::{Failure, FailureKind, Note, TestOutcome};

/// The reason of the harness for a test that ran out of time.
const TIME_LIMIT: &str = "time limit exceeded";

/// Returns the failure of a test, from the line that says that it failed.
fn failure_of(alloc: Global, details: TestDetails<'_>) -> Result<Failure, AllocError>
    ensures { IfOk result (λ failure.
        failure_view failure ≡ spec.failure_of (test_end_view [] ended.Failed details.entry)) }
{
    Ok(Failure {
        stdout: owned(alloc, details.stdout)?,
        message: owned(alloc, details.message)?,
        reason: owned(alloc, details.reason)?,
        kind: match details.reason {
            Some(TIME_LIMIT) => FailureKind::TimedOut,
            _ => FailureKind::Failed,
        },
    })
}

impl Suite {
    /// Takes the end of a test, and adds its note. `order` is the number of tests that started before it. A
    /// test that passed after several attempts is kept, and has another note when its suite is over. Fails if
    /// memory runs out, or a number of the suite does not fit.
    pub(crate) fn on_end(
        &mut self,
        alloc: Global,
        test: OverTest,
        order: usize,
        end: TestResult,
        details: TestDetails<'_>,
        notes: &mut Vec<Note>,
    ) -> Result<(), RunError>
        ensures takes { OnOk result (state_of self.new ≡ spec.after_end (state_of self.old)
            (over_view test) order (test_end_view [] end details.entry)) }
        ensures tells { OnOk result (map note_view notes.new.items ≡ map note_view notes.old.items
            ++ spec.end_notes (state_of self.old) (over_view test)
            (test_end_view [] end details.entry)) }
        ensures number { self.new.name.number ≡ self.old.name.number }
        ensures key { text_view self.new.name.key ≡ text_view self.old.name.key }
    {
        match end {
            TestResult::Ok => self.on_passed(alloc, test, order, details, notes),
            TestResult::Failed => self.on_failed(alloc, test, details, notes),
            TestResult::Ignored => self.on_ignored(alloc, test, details, notes),
        }
    }

    /// Takes the end of a test that was ignored. Fails if memory runs out, or a number of the suite does not fit.
    fn on_ignored(
        &mut self,
        alloc: Global,
        test: OverTest,
        details: TestDetails<'_>,
        notes: &mut Vec<Note>,
    ) -> Result<(), RunError>
        ensures takes { OnOk result (state_of self.new ≡ record (state_of self.old) {
          skipped = self.old.skipped + 1;
        }) }
        ensures tells { OnOk result (map note_view notes.new.items ≡ map note_view notes.old.items
            ++ spec.end_notes (state_of self.old) (over_view test)
            (test_end_view [] ended.Ignored details.entry)) }
        ensures number { self.new.name.number ≡ self.old.name.number }
        ensures key { text_view self.new.name.key ≡ text_view self.old.name.key }
    {
        self.skipped = one_more(self.skipped)?;
        let reason = owned(alloc, details.message)?;
        self.push_test(test, TestOutcome::Skipped { reason }, notes)?;
        Ok(())
    }

    /// Takes the end of a test that passed. Fails if memory runs out, or a number of the suite does not fit.
    fn on_passed(
        &mut self,
        alloc: Global,
        test: OverTest,
        order: usize,
        details: TestDetails<'_>,
        notes: &mut Vec<Note>,
    ) -> Result<(), RunError>
        ensures takes { OnOk result (state_of self.new ≡ spec.after_end (state_of self.old)
            (over_view test) order (test_end_view [] ended.Ok details.entry)) }
        ensures tells { OnOk result (map note_view notes.new.items ≡ map note_view notes.old.items
            ++ spec.end_notes (state_of self.old) (over_view test)
            (test_end_view [] ended.Ok details.entry)) }
        ensures number { self.new.name.number ≡ self.old.name.number }
        ensures key { text_view self.new.name.key ≡ text_view self.old.name.key }
    {
        self.time = time_sum(self.time, details.time);
        if test.attempts > 1 {
            self.push_flaky(alloc, &test, details, notes)?;
            self.on_flaky(alloc, test, order, details)?;
            Ok(())
        } else {
            let output = owned(alloc, details.stdout)?;
            self.push_finished(Finish::Passed, test, TestOutcome::Passed { output }, notes)
        }
    }

    /// Adds the note that a test passed after several attempts.
    fn push_flaky(
        &self,
        alloc: Global,
        test: &OverTest,
        details: TestDetails<'_>,
        notes: &mut Vec<Note>,
    ) -> Result<(), AllocError>
        ensures { OnOk result (map note_view notes.new.items ≡ map note_view notes.old.items
            ++ spec.flaky_end (state_of self.now) (over_view test.now)
            (test_end_view [] ended.Ok details.entry)) }
    {
        let output = owned(alloc, details.stdout)?;
        let copy = OverTest {
            name: test.name.clone()?,
            ..*test
        };
        let note = self.test_note(copy, TestOutcome::Passed { output })?;
        notes.push(Note::Flaky(note))?;
        Ok(())
    }

    /// Takes the end of a test that was not running. Fails if memory runs out, or a number of the suite does not
    /// fit.
    pub(crate) fn on_stray_end(
        &mut self,
        alloc: Global,
        test: OverTest,
        end: TestResult,
        details: TestDetails<'_>,
        notes: &mut Vec<Note>,
    ) -> Result<(), RunError>
        ensures takes { OnOk result (state_of self.new ≡ spec.after_stray (state_of self.old)
            (over_view test) (test_end_view [] end details.entry)) }
        ensures tells { OnOk result (map note_view notes.new.items ≡ map note_view notes.old.items
            ++ spec.stray_notes (state_of self.old) (over_view test)
            (test_end_view [] end details.entry)) }
        ensures number { self.new.name.number ≡ self.old.name.number }
        ensures key { text_view self.new.name.key ≡ text_view self.old.name.key }
    {
        self.name.take_test(alloc, test.name.as_str())?;
        self.on_end(alloc, test, 0, end, details, notes)
    }

    /// Takes the end of a test that failed.
    fn on_failed(
        &mut self,
        alloc: Global,
        test: OverTest,
        details: TestDetails<'_>,
        notes: &mut Vec<Note>,
    ) -> Result<(), RunError>
        ensures takes { OnOk result (state_of self.new ≡ spec.after_end (state_of self.old)
            (over_view test) 0 (test_end_view [] ended.Failed details.entry)) }
        ensures tells { OnOk result (map note_view notes.new.items ≡ map note_view notes.old.items
            ++ spec.failed_note (state_of self.old) (over_view test)
            (test_end_view [] ended.Failed details.entry)) }
        ensures number { self.new.name.number ≡ self.old.name.number }
        ensures key { text_view self.new.name.key ≡ text_view self.old.name.key }
    {
        self.time = time_sum(self.time, details.time);
        let failure = failure_of(alloc, details)?;
        let finish = Finish::of_failure(&failure.kind);
        self.push_finished(finish, test, TestOutcome::Failed(failure), notes)
    }

    /// Counts a test that finished, and adds its note. Fails if memory runs out, or a counter is full.
    pub(crate) fn push_finished(
        &mut self,
        finish: Finish,
        test: OverTest,
        outcome: TestOutcome,
        notes: &mut Vec<Note>,
    ) -> Result<(), RunError>
        ensures takes { OnOk result (state_of self.new
            ≡ with_finish (state_of self.old) finish test.attempts test.slow) }
        ensures tells { OnOk result (map note_view notes.new.items ≡ map note_view notes.old.items
            ++ test_note (state_of self.old) (over_view test) (outcome_view outcome) ∷ []) }
        ensures number { self.new.name.number ≡ self.old.name.number }
        ensures key { text_view self.new.name.key ≡ text_view self.old.name.key }
    {
        count(&mut self.stats, finish, test.attempts, test.slow)?;
        self.push_test(test, outcome, notes)?;
        Ok(())
    }

    /// Keeps a test that passed after several attempts until the suite is over. Such tests are kept in the
    /// order in which they started.
    fn on_flaky(
        &mut self,
        alloc: Global,
        test: OverTest,
        order: usize,
        details: TestDetails<'_>,
    ) -> Result<(), AllocError>
        ensures takes { OnOk result (state_of self.new ≡ spec.after_flaky (state_of self.old)
            (over_view test) order (test_end_view [] ended.Ok details.entry)) }
        ensures number { self.new.name.number ≡ self.old.name.number }
        ensures key { text_view self.new.name.key ≡ text_view self.old.name.key }
    {
        let flaky = FlakyTest {
            test,
            order,
            stdout: owned(alloc, details.stdout)?,
            message: owned(alloc, details.message)?,
        };
        self.flaky.insert(flaky)
    }
}
