//! The end of a program whose tests the lines of a run are of.

ghost use Rattle.std.specs.Prelude.{◌≡◌, ◌++◌, ◌∷◌, [], IfOk, None, OnOk, Some, if◌then◌else◌, map};
ghost use Rattle.std.specs.List.{list_any};
ghost use Rattle.std.specs.Option.{option_map_or};
ghost use Rattle.test_report_events.specs.Event.{AllEndEarly, ProgramContradicts};
ghost use Rattle.test_report_run_notes.specs.Note.{Contradicts, WasCancelled, contradiction_view, fault_view, note_view};
ghost use Rattle.test_report_run.specs.Over.{early_end_of, early_view, is_among};
ghost use Rattle.test_report_run.specs.Run as spec;
ghost use Rattle.test_report_run.specs.Run.{run_state};
ghost use Rattle.test_report_run.specs.Running.{tests_of};

use crate::contradictions::push_contradiction;
use crate::early::{EarlyEnd, Ending};
use crate::error::RunError;
use crate::run::TestRun;
use crate::running::Running;
use crate::suite::Suite;
use run_events_results::results::CancelReason;
use std::alloc::Global;
use test_report_run_notes::note::{Contradiction, Note, ProgramFault};

impl TestRun {
    /// Ends all open suites early, and the tests outside of a suite, as at the end of the program whose tests run. `end` is
    /// what is known about it. Returns the notes of that: the running tests crashed, or were stopped if the run is
    /// cancelled or `end` names others.
    ///
    /// Fails if a number of the run does not fit its counter. After an error the run must not be used.
    pub fn on_all_ended_early(
        &mut self,
        alloc: Global,
        end: EarlyEnd,
    ) -> Result<Vec<Note>, RunError>
        ensures tells { IfOk result (λ notes. map note_view notes.items
            ≡ spec.notes_at (run_state self.old) (AllEndEarly (early_view end))) }
        ensures takes { OnOk result (run_state self.new
            ≡ spec.after (run_state self.old) (AllEndEarly (early_view end))) }
    {
        let mut notes = Vec::new(alloc);
        let how = ending(&self.running, end);
        self.end_suites(alloc, &how, &mut notes)?;
        self.learn(&notes)?;
        Ok(notes)
    }

    /// Notes what is wrong with the lines of programs. Returns the note of that, which says that the run was cancelled if
    /// it was.
    ///
    /// Fails if a number of the run does not fit its counter. After an error the run must not be used.
    pub fn on_program_fault(
        &mut self,
        alloc: Global,
        fault: ProgramFault,
    ) -> Result<Vec<Note>, RunError>
        ensures tells { IfOk result (λ notes. map note_view notes.items
            ≡ spec.notes_at (run_state self.old) (ProgramContradicts (fault_view fault))) }
        ensures takes { OnOk result (run_state self.new
            ≡ spec.after (run_state self.old) (ProgramContradicts (fault_view fault))) }
    {
        let mut notes = Vec::new(alloc);
        self.push_end_contradiction(Contradiction::Program(fault), &mut notes)?;
        Ok(notes)
    }

    /// Adds a contradiction about the end of something, or that the run was cancelled, and counts it. Fails if memory
    /// runs out, or a sum does not fit.
    pub(crate) fn push_end_contradiction(
        &mut self,
        contradiction: Contradiction,
        notes: &mut Vec<Note>,
    ) -> Result<(), RunError>
        ensures takes { OnOk result (run_state self.new ≡ spec.learned (run_state self.old)
            (Contradicts (spec.unless_cancelled (run_state self.old) (contradiction_view contradiction)) ∷ [])) }
        ensures tells { OnOk result (map note_view notes.new.items ≡ map note_view notes.old.items
            ++ Contradicts (spec.unless_cancelled (run_state self.old) (contradiction_view contradiction)) ∷ []) }
    {
        let contradiction = unless_cancelled(self.cancel, contradiction);
        self.learn_contradiction(&contradiction)?;
        push_contradiction(contradiction, notes)?;
        Ok(())
    }

    /// Ends the open suites early, and then the tests outside of a suite. Fails if memory runs out, or a number of a
    /// suite does not fit.
    pub(crate) fn end_suites(
        &mut self,
        alloc: Global,
        how: &Ending,
        notes: &mut Vec<Note>,
    ) -> Result<(), RunError>
        ensures takes { OnOk result (run_state self.new
            ≡ (spec.all_ended_early (early_end_of how.now) (run_state self.old)).run) }
        ensures tells { OnOk result (map note_view notes.new.items ≡ map note_view notes.old.items
            ++ (spec.all_ended_early (early_end_of how.now) (run_state self.old)).notes) }
    {
        for suite in self.suites.take_all(alloc) {
            self.end_early(alloc, how, Box::into_inner(suite), notes)?;
        }
        let outside = std::mem::replace(&mut self.outside, Suite::outside(alloc));
        self.end_early(alloc, how, outside, notes)
    }
}

/// Returns which of the running tests crash if all that is open ends so.
fn ending(running: &Running, early: EarlyEnd) -> Ending
    ensures { early_end_of result ≡ record {
      end = (early_view early).end;
      crashed = if list_any (is_among (early_view early).overflowed) (tests_of running.now) then Some (early_view early).overflowed
          else if list_any (is_among (early_view early).panicked) (tests_of running.now) then Some (early_view early).panicked
          else None;
    } }
{
    let EarlyEnd {
        end,
        overflowed,
        panicked,
    } = early;
    let crashed = if running.has_one_of(&overflowed) {
        Some(overflowed)
    } else if running.has_one_of(&panicked) {
        Some(panicked)
    } else {
        None
    };
    Ending { end, crashed }
}

/// Returns a contradiction about the end of something, or that the run was cancelled. `cancel` is the reason, if it was.
fn unless_cancelled(cancel: Option<CancelReason>, contradiction: Contradiction) -> Contradiction
    ensures { contradiction_view result ≡ option_map_or WasCancelled cancel (contradiction_view contradiction) }
{
    match cancel {
        Some(reason) => Contradiction::Cancelled(reason),
        None => contradiction,
    }
}
