//! A suite that is over.

ghost use Rattle.std.specs.Prelude.{◌≡◌, ◌++◌, ◌∷◌, [], ◌+◌, ◌<◌, ◌^◌, None, false, is_some, IfOk, OnOk, map, true, length, if◌then◌else◌, ◌≤◌};
ghost use Rattle.test_report_run_notes.specs.declared.finish.Finish.TheVariants as finish;
ghost use Rattle.test_report_run_notes.specs.Note.{Fails, HasCrashed, HasNoEnd, IsFlaky, IsSkipped, IsStopped, Passes, crash_view, kind_view, note_view, outcome_view, text_view};
ghost use Rattle.test_report_run.specs.Others.{others_view};
ghost use Rattle.test_report_run.specs.Over as spec;
ghost use Rattle.test_report_run.specs.Running.{running_test_view, running_view};
ghost use Rattle.test_report_run.specs.Suite.{flaky_view, over_view, state_of, test_note};

use crate::contradictions::push_contradiction;
use crate::early::Ending;
use crate::error::{RunError, one_more};
use crate::flaky::FlakyTests;
use crate::last_line::{Explanation, contradicts, explained};
use crate::others::Others;
use crate::running::RunningTest;
use crate::suite::{FlakyTest, OverTest, Suite};
use std::alloc::{AllocError, Global};
use std::rc::Rc;
use test_report_events::program::ProgramEnd;
use test_report_run_notes::finish::Finish;
use test_report_run_notes::note::{
    Contradiction, Crash, Failure, FailureKind, NotRun, Note, SuiteNote, TestOutcome, failed_count,
};

/// The numbers of a suite that its finished tests do not give.
#[derive(Clone, Copy)]
pub(crate) struct Rest {
    /// The number of skipped tests.
    pub(crate) skipped: u128,

    /// The number of tests that started, and that neither ended nor were skipped.
    pub(crate) left: usize,

    /// The time in microseconds.
    pub(crate) time: Option<u64>,
}

/// Returns a copy of how a test crashed, which shares the text of the prints.
fn copy_of(crash: &Crash) -> Result<Crash, AllocError>
    ensures { IfOk result (λ copy. crash_view copy ≡ crash_view crash.now) }
{
    Ok(Crash {
        running: crash.running,
        has_key: crash.has_key,
        end: crash.end,
        cause: crash.cause.clone()?,
        prints: crash.prints.clone()?,
        last: crash.last.clone()?,
        above: crash.above,
    })
}

/// Returns the outcome of a test without end that did not fail: it was skipped, or else it was stopped.
fn outcome_of_left(is_skipped: bool) -> TestOutcome
    ensures { outcome_view result ≡ (if is_skipped then IsSkipped None else IsStopped) }
{
    if is_skipped {
        TestOutcome::Skipped { reason: None }
    } else {
        TestOutcome::Stopped
    }
}

/// Returns how a flaky test with this output and this message counts, as failed or as passed, and its outcome.
fn counted_flaky(
    has_failed: bool,
    stdout: Option<String>,
    message: Option<String>,
) -> (Finish, TestOutcome)
    ensures finish { result.0 ≡ (if has_failed then finish.FlakyFailed else finish.Passed) }
    ensures outcome { outcome_view result.1 ≡ (if has_failed
        then Fails record { kind = IsFlaky; stdout = text_view stdout; message = text_view message; reason = None }
        else Passes (text_view stdout)) }
{
    if has_failed {
        let failure = Failure {
            kind: FailureKind::Flaky,
            stdout,
            message,
            reason: None,
        };
        (Finish::FlakyFailed, TestOutcome::Failed(failure))
    } else {
        (Finish::Passed, TestOutcome::Passed { output: stdout })
    }
}

impl Suite {
    /// Returns a test of the suite that has no line of its end.
    fn over(&self, test: RunningTest) -> OverTest
        ensures { over_view result ≡ spec.over_of (state_of self.now) (running_test_view test) }
    {
        OverTest {
            name: test.name,
            attempts: 1,
            time: None,
            ended: None,
            slow: test.slow,
            cancel: self.cancel,
        }
    }

    /// Ends the suite without a last line, and adds its notes. `left` are its running tests, and `how` says which of
    /// them crashed. `others` are the lines of the file that are no events. The suite must not be used afterwards. Fails if
    /// memory runs out, or a number of the suite does not fit.
    pub(crate) fn end_early(
        &mut self,
        alloc: Global,
        others: &Others,
        how: &Ending,
        left: Vec<RunningTest>,
        notes: &mut Vec<Note>,
    ) -> Result<(), RunError>
        ensures { OnOk result (map note_view notes.new.items ≡ map note_view notes.old.items
            ++ spec.early_notes (others_view others.now) (spec.early_end_of how.now) (state_of self.old)
            (running_view left.items)) }
    {
        let (crashed, stopped) = self.parted(alloc, how, left)?;
        let (crashes, left) = (crashed.len(), stopped.len());
        self.crash_left(alloc, others, how.end, crashed, notes)?;
        self.push_left(stopped, false, notes)?;
        self.release_flaky(alloc, false, notes)?;
        self.push_early_end(how.end, crashes, notes)?;
        let rest = Rest {
            skipped: self.skipped as u128,
            left,
            time: self.time,
        };
        self.push_numbers(rest, notes)?;
        Ok(())
    }

    /// Returns those of the running tests of the suite that crashed, and those that were stopped.
    fn parted(
        &self,
        alloc: Global,
        how: &Ending,
        left: Vec<RunningTest>,
    ) -> Result<(Vec<RunningTest>, Vec<RunningTest>), AllocError>
        ensures crashed { IfOk result (λ parts. running_view parts.0.items
            ≡ spec.crashed_of (state_of self.now) (spec.early_end_of how.now) (running_view left.items)) }
        ensures stopped { IfOk result (λ parts. running_view parts.1.items
            ≡ spec.stopped_of (state_of self.now) (spec.early_end_of how.now) (running_view left.items)) }
    {
        let (mut crashed, mut stopped) = (Vec::new(alloc), Vec::new(alloc));
        for test in left {
            if self.cancel.is_none() && how.crashes(&test) {
                crashed.push(test)?;
            } else {
                stopped.push(test)?;
            }
        }
        Ok((crashed, stopped))
    }

    /// Adds that tests without end were skipped if `are_skipped` is true, or else that they were stopped.
    fn push_left(
        &self,
        tests: Vec<RunningTest>,
        are_skipped: bool,
        notes: &mut Vec<Note>,
    ) -> Result<(), AllocError>
        ensures { OnOk result (map note_view notes.new.items ≡ map note_view notes.old.items
            ++ map (λ t. test_note (state_of self.now) (spec.over_of (state_of self.now) t)
            (if are_skipped then IsSkipped None else IsStopped)) (running_view tests.items)) }
    {
        for test in tests {
            self.push_test(self.over(test), outcome_of_left(are_skipped), notes)?;
        }
        Ok(())
    }

    /// Counts running tests of the suite as crashed. `others` are the lines of the file that are no events, and `end` is
    /// how the program ended.
    fn crash_left(
        &mut self,
        alloc: Global,
        others: &Others,
        end: Option<ProgramEnd>,
        mut left: Vec<RunningTest>,
        notes: &mut Vec<Note>,
    ) -> Result<(), RunError>
        ensures counts { OnOk result (state_of self.new ≡ record (state_of self.old) {
          stats = spec.with_failed self.old.stats (running_view left.items);
          crashed = self.old.crashed + length left.items;
        }) }
        ensures tells { OnOk result (map note_view notes.new.items ≡ map note_view notes.old.items
            ++ spec.crashed_notes (state_of self.old)
            (spec.crash_of (others_view others.now) end (state_of self.old) (length left.items)) (running_view left.items)) }
    {
        if left.is_empty() {
            return Ok(());
        }
        let running = left.len();
        let later = left.split_off(1)?;
        let mut crash = self.crash(alloc, others, end, running)?;
        self.crash_all(alloc, &crash, left, notes)?;
        crash.above = true;
        self.crash_all(alloc, &crash, later, notes)
    }

    /// Counts all these tests as crashed in this way.
    fn crash_all(
        &mut self,
        alloc: Global,
        crash: &Crash,
        tests: Vec<RunningTest>,
        notes: &mut Vec<Note>,
    ) -> Result<(), RunError>
        ensures counts { OnOk result (state_of self.new ≡ record (state_of self.old) {
          stats = spec.with_failed self.old.stats (running_view tests.items);
          crashed = self.old.crashed + length tests.items;
        }) }
        ensures tells { OnOk result (map note_view notes.new.items ≡ map note_view notes.old.items
            ++ spec.failed_notes (state_of self.old) (HasCrashed (crash_view crash.now))
            (running_view tests.items)) }
    {
        for test in tests {
            self.crashed = one_more(self.crashed)?;
            let kind = FailureKind::Crashed(copy_of(crash)?);
            self.fail(test, kind, notes)?;
        }
        Ok(())
    }

    /// Returns how the first test of the suite crashed. `running` is the number of its tests that crashed.
    fn crash(
        &self,
        alloc: Global,
        others: &Others,
        end: Option<ProgramEnd>,
        running: usize,
    ) -> Result<Crash, AllocError>
        ensures { IfOk result (λ crash. crash_view crash
            ≡ spec.crash_of (others_view others.now) end (state_of self.now) running) }
    {
        Ok(Crash {
            running,
            has_key: self.name.key.is_some(),
            end,
            prints: Rc::new(alloc, others.prints_from(alloc, self.start)?)?,
            last: others.last_prints_from(alloc, self.start)?,
            cause: others.cause_after(alloc, self.last_event)?,
            above: false,
        })
    }

    /// Counts a test without end as failed.
    fn fail(
        &mut self,
        test: RunningTest,
        kind: FailureKind,
        notes: &mut Vec<Note>,
    ) -> Result<(), RunError>
        ensures counts { OnOk result (state_of self.new ≡ spec.with_failure (state_of self.old) (running_test_view test)) }
        ensures tells { OnOk result (map note_view notes.new.items ≡ map note_view notes.old.items
            ++ spec.failed_note (state_of self.old) (kind_view kind) (running_test_view test) ∷ []) }
    {
        let failure = Failure {
            kind,
            stdout: None,
            message: None,
            reason: None,
        };
        let over = self.over(test);
        self.push_finished(Finish::Failed, over, TestOutcome::Failed(failure), notes)
    }

    /// Adds the contradiction of a suite that ends early, if there is one.
    fn push_early_end(
        &self,
        end: Option<ProgramEnd>,
        crashed: usize,
        notes: &mut Vec<Note>,
    ) -> Result<(), AllocError>
        ensures { OnOk result (map note_view notes.new.items ≡ map note_view notes.old.items
            ++ spec.early_contradictions (state_of self.now) end crashed) }
    {
        match self.name.shown()? {
            Some(suite) if crashed == 0 => {
                let contradiction = match self.cancel {
                    Some(reason) => Contradiction::Cancelled(reason),
                    None => Contradiction::EndedEarly { suite, end },
                };
                push_contradiction(contradiction, notes)
            }
            None if self.started > 0 => {
                let started = self.started;
                push_contradiction(Contradiction::OutsideSuite { started }, notes)
            }
            _ => Ok(()),
        }
    }

    /// Counts the flaky tests, as failed or as passed.
    fn release_flaky(
        &mut self,
        alloc: Global,
        have_failed: bool,
        notes: &mut Vec<Note>,
    ) -> Result<(), RunError>
        ensures counts { OnOk result (state_of self.new ≡ record (state_of self.old) {
          stats = spec.with_all_flaky have_failed self.old.stats (state_of self.old).flaky;
          flaky = [];
        }) }
        ensures tells { OnOk result (map note_view notes.new.items ≡ map note_view notes.old.items
            ++ spec.flaky_notes (state_of self.old) have_failed) }
    {
        let flaky_tests = std::mem::replace(&mut self.flaky, FlakyTests::new(alloc));
        for flaky in flaky_tests.tests.into_values() {
            self.count_flaky(flaky, have_failed, notes)?;
        }
        Ok(())
    }

    /// Counts a flaky test, as failed or as passed.
    fn count_flaky(
        &mut self,
        flaky: FlakyTest,
        has_failed: bool,
        notes: &mut Vec<Note>,
    ) -> Result<(), RunError>
        ensures counts { OnOk result (state_of self.new ≡ record (state_of self.old) {
          stats = spec.one_flaky has_failed self.old.stats (flaky_view flaky);
        }) }
        ensures tells { OnOk result (map note_view notes.new.items ≡ map note_view notes.old.items
            ++ spec.flaky_note (state_of self.old) has_failed (flaky_view flaky) ∷ []) }
    {
        let FlakyTest {
            test,
            order: _,
            stdout,
            message,
        } = flaky;
        let test = OverTest {
            cancel: self.cancel,
            ..test
        };
        let (finish, outcome) = counted_flaky(has_failed, stdout, message);
        self.push_finished(finish, test, outcome, notes)
    }

    /// Ends the suite after its last line, and adds its notes. `left` are its running tests. The suite must not be used
    /// afterwards. Fails if memory runs out, or a number of the suite does not fit.
    pub(crate) fn end(
        &mut self,
        alloc: Global,
        left: Vec<RunningTest>,
        notes: &mut Vec<Note>,
    ) -> Result<(), RunError>
        ensures { OnOk result (map note_view notes.new.items ≡ map note_view notes.old.items
            ++ spec.last_notes (state_of self.old) (running_view left.items)) }
    {
        let explained = self.explained(left.len())?;
        let mut skipped = left;
        let others = skipped.split_off(explained.skipped)?;
        self.push_left(skipped, true, notes)?;
        let left = self.fail_lost(explained.others_failed, others, notes)?;
        self.release_flaky(alloc, explained.flaky_failed, notes)?;
        self.push_last_line(notes)?;
        let rest = Rest {
            skipped: self.skipped as u128 + explained.skipped as u128 + explained.nameless,
            left,
            time: self.said.time.or(self.time),
        };
        self.push_numbers(rest, notes)?;
        Ok(())
    }

    /// Returns which tests the last line explains. `left` is the number of running tests. Fails if a number that
    /// decides this does not fit.
    fn explained(&self, left: usize) -> Result<Explanation, RunError>
        ensures explains { IfOk result (λ explained. (explained ≡ spec.explained_of (state_of self.now) left) × (explained.skipped ≤ left)) }
        ensures fits { IfOk result (λ explained. self.now.skipped + explained.skipped + explained.nameless < 2 ^ 128) }
    {
        let said = self.said.numbers()?;
        let ignored = self.said.ignored.unwrap_or(0);
        Ok(explained(self.tally(left)?, said, ignored))
    }

    /// Counts tests without end as failed if `have_failed` is true. Returns how many are not counted.
    fn fail_lost(
        &mut self,
        have_failed: bool,
        tests: Vec<RunningTest>,
        notes: &mut Vec<Note>,
    ) -> Result<usize, RunError>
        ensures counts { OnOk result (state_of self.new ≡ record (state_of self.old) {
          stats = spec.with_failed self.old.stats (if have_failed then running_view tests.items else []);
        }) }
        ensures tells { OnOk result (map note_view notes.new.items ≡ map note_view notes.old.items
            ++ spec.failed_notes (state_of self.old) HasNoEnd (if have_failed then running_view tests.items else [])) }
        ensures left { IfOk result (λ left. left ≡ (if have_failed then 0 else length tests.items)) }
    {
        if !have_failed {
            return Ok(tests.len());
        }
        for test in tests {
            self.fail(test, FailureKind::WithoutEnd, notes)?;
        }
        Ok(0)
    }

    /// Adds a contradiction if the last line contradicts the tests. Fails if memory runs out, or the number of passed
    /// tests that the last lines say does not fit.
    fn push_last_line(&self, notes: &mut Vec<Note>) -> Result<(), RunError>
        ensures tells { OnOk result (map note_view notes.new.items ≡ map note_view notes.old.items
            ++ spec.last_contradiction (state_of self.now)) }
    {
        let said = self.said.numbers()?;
        let (passed, failed) = (self.stats.passed, failed_count(&self.stats));
        match self.name.shown()? {
            Some(suite) if contradicts(said, passed, failed) => {
                let contradiction = Contradiction::LastLine {
                    suite,
                    said,
                    passed,
                    failed,
                };
                push_contradiction(contradiction, notes)?;
                Ok(())
            }
            _ => Ok(()),
        }
    }

    /// Adds the numbers of the suite, after how many of its tests did not run if that is not 0.
    fn push_numbers(&self, rest: Rest, notes: &mut Vec<Note>) -> Result<(), AllocError>
        ensures { OnOk result (map note_view notes.new.items ≡ map note_view notes.old.items
            ++ spec.number_notes (state_of self.now) rest) }
    {
        let initial_run_count = self.initial_run_count(rest);
        let not_run = initial_run_count - self.stats.finished_count as u128;
        if let (Some(suite), true) = (self.name.shown()?, not_run > 0) {
            notes.push(Note::NotRun(NotRun {
                suite,
                not_run,
                initial_run_count,
            }))?;
        }
        notes.push(Note::Suite(SuiteNote {
            name: self.name.shown()?,
            stats: self.stats,
            skipped: rest.skipped,
            not_run,
            crashed: self.crashed,
            time: rest.time,
        }))?;
        Ok(())
    }

    /// Returns the number of tests that were to run.
    fn initial_run_count(&self, rest: Rest) -> u128
        ensures value { result ≡ spec.initial_of (state_of self.now) rest }
        ensures least { self.now.stats.finished_count ≤ result }
    {
        let least = self.stats.finished_count as u128 + rest.left as u128;
        match self.test_count {
            Some(test_count) => test_count.saturating_sub(rest.skipped).max(least),
            None => least,
        }
    }
}
