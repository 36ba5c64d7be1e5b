//! The command whose output the lines of a run are.

ghost use Rattle.std.specs.Prelude.{◌≡◌, ◌++◌, ◌||◌, OnOk, map, option_map};
ghost use Rattle.test_report_events.specs.Event.{Cancels, CommandStarts};
ghost use Rattle.test_report_run_notes.specs.Note as note;
ghost use Rattle.test_report_run_notes.specs.Note.{CargoSays, Contradicts, cargo_view, command_view, note_view};
ghost use Rattle.test_report_run.specs.FileEnd as ends;
ghost use Rattle.test_report_run.specs.Run as spec;
ghost use Rattle.test_report_run.specs.Run.{run_state};
ghost use Rattle.test_report_run.specs.SuiteNames.{names_of};

use crate::contradictions::push_contradiction;
use crate::error::RunError;
use crate::run::TestRun;
use crate::suite_names::SuiteNames;
use run_events_results::results::CancelReason;
use std::alloc::{AllocError, Global};
use test_report_run_notes::note::{CargoReport, CommandEnd, Contradiction, Note};

impl TestRun {
    /// Notes that the next lines, up to the end of the file, are the output of a command. Failures that cargo reports in
    /// them wait for the end of the command: if it ended with status 0, they were prints. If `names` has a name for the
    /// path in a heading, the suites after the heading have this name.
    pub fn on_command_started(&mut self, names: SuiteNames)
        ensures takes { run_state self.new ≡ spec.after (run_state self.old) (CommandStarts (names_of names)) }
    {
        self.of_command = true;
        self.names = names;
    }

    /// Notes that the run is cancelled for this reason, also if it was for another one. The notes of the tests that
    /// become known up to the end of the file have it. Nothing else of the run changes.
    pub fn on_cancelled(&mut self, reason: CancelReason)
        ensures takes { run_state self.new ≡ spec.after (run_state self.old) (Cancels reason) }
    {
        self.cancel = Some(reason);
    }

    /// Notes how the command ended whose output was read, if the lines are the output of one.
    pub fn on_command_ended(&mut self, command: Option<CommandEnd>)
        ensures { run_state self.new ≡ ends.with_command (run_state self.old) (option_map command_view command) }
    {
        if let Some(end) = command {
            self.command = Some(end);
        }
    }

    /// Makes the failures of cargo known that wait for the end of the command. If it ended with status 0, they were
    /// prints.
    pub(crate) fn tell_held(
        &mut self,
        alloc: Global,
        notes: &mut Vec<Note>,
    ) -> Result<(), AllocError>
        ensures takes { OnOk result (run_state self.new ≡ (ends.held_told (run_state self.old)).run) }
        ensures tells { OnOk result (map note_view notes.new.items ≡ map note_view notes.old.items
            ++ (ends.held_told (run_state self.old)).notes) }
    {
        let held = std::mem::replace(&mut self.held, Vec::new(alloc));
        if ended_well(&self.command) {
            self.causes = self.causes.saturating_sub(held.len());
            Ok(())
        } else {
            push_reports(held, self.has_event, notes)
        }
    }

    /// Adds a contradiction if the command failed and nothing says why, and counts it. Fails if memory runs out, or
    /// a sum does not fit.
    pub(crate) fn end_command(&mut self, notes: &mut Vec<Note>) -> Result<(), RunError>
        ensures takes { OnOk result (record (run_state self.new) { command = (run_state self.old).command }
            ≡ spec.learned (run_state self.old) (ends.command_notes (run_state self.old))) }
        ensures tells { OnOk result (map note_view notes.new.items ≡ map note_view notes.old.items
            ++ ends.command_notes (run_state self.old)) }
    {
        let Some(end) = self.command.take() else {
            return Ok(());
        };
        if command_fails(self.causes, &end) {
            self.push_end_contradiction(Contradiction::Command(end), notes)
        } else {
            Ok(())
        }
    }
}

/// Returns true if a command ended with status 0.
fn ended_well(command: &Option<CommandEnd>) -> bool
    ensures { result ≡ note.ended_well (option_map command_view command.now) }
{
    matches!(command, Some(CommandEnd::Status { code: 0 }))
}

/// Returns true if the end of a command says more than that no line is an event: it ended with status 0, or could not be
/// started.
pub(crate) fn says_more(command: &Option<CommandEnd>) -> bool
    ensures { result ≡ (note.ended_well (option_map command_view command.now)
        || note.was_not_started (option_map command_view command.now)) }
{
    matches!(
        command,
        Some(CommandEnd::Status { code: 0 } | CommandEnd::NotStarted { .. })
    )
}

/// Appends failures of cargo that are contradictions. `has_event` is true if a line of the file is an event.
fn push_reports(
    reports: Vec<CargoReport>,
    has_event: bool,
    notes: &mut Vec<Note>,
) -> Result<(), AllocError>
    ensures { OnOk result (map note_view notes.new.items ≡ map note_view notes.old.items
        ++ map (λ report. Contradicts (CargoSays report))
        (map (ends.at_end has_event) (map cargo_view reports.items))) }
{
    for mut report in reports {
        report.lacks_events = report.lacks_events && !has_event;
        push_contradiction(Contradiction::Cargo(report), notes)?;
    }
    Ok(())
}

/// Returns true if a command could not be started, ended by a signal, or ended with a status above 0 although `causes`,
/// the number of failed tests and contradictions, is 0.
fn command_fails(causes: usize, end: &CommandEnd) -> bool
    ensures { result ≡ ends.command_fails causes (command_view end.now) }
{
    match end {
        CommandEnd::NotStarted { .. } | CommandEnd::Signal { .. } => true,
        CommandEnd::Status { code } => *code != 0 && causes == 0,
        CommandEnd::Error { .. } => causes == 0,
    }
}
