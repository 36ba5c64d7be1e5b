//! The events of a run, one after the other.

ghost use Rattle.std.specs.Prelude.{◌≡◌, ◌++◌, [], OnOk, if◌then◌else◌, map, option_map, option_to_list};
ghost use Rattle.test_report_events.specs.Event.{event_view};
ghost use Rattle.test_report_run_notes.specs.Note.{note_view};
ghost use Rattle.test_report_run.specs.Events.{is_after_report, is_event};
ghost use Rattle.test_report_run.specs.Prints.{lines_of};
ghost use Rattle.test_report_run.specs.Run as spec;
ghost use Rattle.test_report_run.specs.Run.{run_state};

use crate::error::RunError;
use crate::longest_end::LongestEnd;
use crate::run::TestRun;
use crate::run::lines::push_damaged;
use std::alloc::{AllocError, Global};
use test_report_events::event::Event;
use test_report_run_notes::note::Note;

impl TestRun {
    /// Takes an event if there is one, and appends its notes.
    pub(crate) fn take(
        &mut self,
        alloc: Global,
        event: Option<Event<'_>>,
        notes: &mut Vec<Note>,
    ) -> Result<(), RunError>
        ensures tells { OnOk result (map note_view notes.new.items ≡ map note_view notes.old.items
            ++ spec.notes_of (run_state self.old) (option_to_list (option_map event_view event.entry))) }
        ensures takes { OnOk result (run_state self.new
            ≡ spec.run_after (run_state self.old) (option_to_list (option_map event_view event.entry))) }
    {
        match event {
            Some(event) => {
                let mut told = self.on_event(alloc, event)?;
                notes.append(&mut told)?;
                Ok(())
            }
            None => Ok(()),
        }
    }

    /// Makes the last failure of cargo known, if no line after this event can explain it.
    pub(crate) fn settle_at(
        &mut self,
        event: Event<'_>,
        notes: &mut Vec<Note>,
    ) -> Result<(), AllocError>
        ensures takes { OnOk result (run_state self.new
            ≡ (spec.settled_at (run_state self.old) (event_view event.entry)).run) }
        ensures tells { OnOk result (map note_view notes.new.items ≡ map note_view notes.old.items
            ++ (spec.settled_at (run_state self.old) (event_view event.entry)).notes) }
    {
        if is_after_report(event) {
            self.settle(is_event(event), notes)
        } else {
            Ok(())
        }
    }

    /// Takes an event, except that its notes are not added to the sums. Fails if memory runs out, or a number of the
    /// run does not fit.
    pub(crate) fn tell(
        &mut self,
        alloc: Global,
        event: Event<'_>,
        notes: &mut Vec<Note>,
    ) -> Result<(), RunError>
        ensures takes { OnOk result (run_state self.new
            ≡ (spec.told (run_state self.old) (event_view event.entry)).run) }
        ensures tells { OnOk result (map note_view notes.new.items ≡ map note_view notes.old.items
            ++ (spec.told (run_state self.old) (event_view event.entry)).notes) }
    {
        match event {
            Event::SuiteStarted { key, test_count } => {
                self.on_suite_started(alloc, key, test_count, notes)
            }
            Event::SuiteEnded(end) => self.on_suite_ended(alloc, end, notes),
            Event::TestStarted { name } => self.on_test_started(alloc, name),
            Event::TestEnded {
                name,
                result: end,
                details,
            } => self.on_test_ended(alloc, name, end, details, notes),
            Event::TestSlow { name } => {
                self.on_test_slow(name);
                Ok(())
            }
            Event::Other => Ok(()),
            Event::Heading { suite, path } => self.on_heading(alloc, suite, path),
            Event::CargoFailed { failure, plain, .. } => {
                self.on_cargo_failed(alloc, failure, plain)
            }
            Event::Print { line, plain } => self.on_print(alloc, line, plain),
            Event::Damaged { text } => {
                push_damaged(alloc, text, notes)?;
                Ok(())
            }
        }
    }

    /// Stores that a line is an event of a harness, and the number of causes if cargo reports a failure outside
    /// of a suite.
    pub(crate) fn mark(&mut self, alloc: Global, event: Event<'_>)
        ensures { run_state self.new ≡ spec.marked (run_state self.old) (event_view event.entry) }
    {
        forget_prints(alloc, event, &mut self.recent);
        if is_event(event) {
            self.has_event = true;
        }
        if matches!(event, Event::CargoFailed { .. }) && self.suites.list.is_empty() {
            self.causes_at_cargo = self.causes;
        }
    }
}

/// Forgets prints before an event after which they cannot say why cargo fails.
fn forget_prints(alloc: Global, event: Event<'_>, prints: &mut LongestEnd)
    ensures { lines_of prints.new ≡ (if is_after_report (event_view event.entry) then [] else lines_of prints.old) }
{
    if is_after_report(event) {
        *prints = LongestEnd::new(alloc);
    }
}

/// Returns true if a line is an event of a harness.
fn is_event(event: Event<'_>) -> bool
    ensures { result ≡ is_event (event_view event.entry) }
{
    match event {
        Event::SuiteStarted { .. }
        | Event::SuiteEnded(_)
        | Event::TestStarted { .. }
        | Event::TestEnded { .. }
        | Event::TestSlow { .. }
        | Event::Other => true,
        Event::CargoFailed { .. }
        | Event::Heading { .. }
        | Event::Print { .. }
        | Event::Damaged { .. } => false,
    }
}

/// Returns true if an event, a heading or a failure comes after all that may say why cargo failed before it.
fn is_after_report(event: Event<'_>) -> bool
    ensures { result ≡ is_after_report (event_view event.entry) }
{
    !matches!(event, Event::Print { .. } | Event::Damaged { .. })
}
