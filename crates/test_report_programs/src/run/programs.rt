//! The lines of programs, and of the command that runs them.

ghost use Rattle.std.specs.Prelude.{◌≡◌, List, OnOk, map, option_map};
ghost use Rattle.std.specs.Option.{option_map_or};
ghost use Rattle.std.specs.Str.Lines.{lines};
ghost use Rattle.test_report_events.specs.Event.{AllEndEarly, Cancels, ProgramContradicts};
ghost use Rattle.test_report_events.specs.Program.{CommandEnds, program_view, start_view};
ghost use Rattle.test_report_programs.specs.Lines as spec;
ghost use Rattle.test_report_programs.specs.Lines.{programs_state};
ghost use Rattle.test_report_run.specs.Over.{early_view};
ghost use Rattle.test_report_run_notes.specs.Note.{NoteView, fault_view, note_view};

use crate::program::{
    Over, Program, command_end, early_end, fault_of, is_zero, keep, may_be_cancelled,
};
use crate::run::ProgramRun;
use run_events_results::results::CancelReason;
use std::alloc::Global;
use test_report_events::event::Event;
use test_report_events::program::{ProgramEnd, ProgramLine, ProgramStart};
use test_report_run::early::EarlyEnd;
use test_report_run::error::RunError;
use test_report_run_notes::note::{Note, ProgramFault};

impl ProgramRun {
    /// Takes a line of a program or of the command.
    pub(super) fn on_program_line(
        &mut self,
        alloc: Global,
        line: &ProgramLine,
        notes: &mut Vec<Note>,
    ) -> Result<(), RunError>
        ensures { OnOk result (spec.step (programs_state self.new) (map note_view notes.new.items)
            ≡ spec.program_told (program_view line.now) (spec.step (programs_state self.old) (map note_view notes.old.items))) }
    {
        match line {
            ProgramLine::ProgramStarted(start) => self.start_program(alloc, start, notes),
            ProgramLine::ProgramEnded { end: None, .. } => self.lose_program(alloc, notes),
            ProgramLine::ProgramEnded {
                end: Some(end),
                stderr,
            } => self.end_program(alloc, *end, stderr.as_str(), notes),
            ProgramLine::CommandStarted => self.settle(alloc, notes),
            ProgramLine::CommandCancelled(reason) => {
                self.cancel(*reason);
                self.settle(alloc, notes)
            }
            ProgramLine::CommandEnded { end, error, reason } => {
                self.end_command(alloc, *end, error.as_deref(), *reason, notes)
            }
        }
    }

    /// Takes how the command ended, the error that it reported, and why the run was cancelled. Of a later end than the
    /// first one only a failure counts.
    fn end_command(
        &mut self,
        alloc: Global,
        end: Option<ProgramEnd>,
        error: Option<&str>,
        reason: Option<CancelReason>,
        notes: &mut Vec<Note>,
    ) -> Result<(), RunError>
        ensures { OnOk result (spec.step (programs_state self.new) (map note_view notes.new.items)
            ≡ spec.program_told (CommandEnds end (option_map (λ error. error.now) error.entry) reason)
            (spec.step (programs_state self.old) (map note_view notes.old.items))) }
    {
        self.cancel(reason);
        self.lose_program(alloc, notes)?;
        if self.ends_again(end) {
            return Ok(());
        }
        let command = command_end(alloc, end, error)?;
        self.run.on_command_ended(Some(command));
        self.is_done = true;
        Ok(())
    }

    /// Returns true if the command ended before, and `end` is an end with status 0.
    fn ends_again(&self, end: Option<ProgramEnd>) -> bool
        ensures { result ≡ spec.ends_again (programs_state self.now) end }
    {
        self.is_done && end.is_some_and(is_zero)
    }

    /// Cancels the run, if there is a reason.
    fn cancel(&mut self, reason: Option<CancelReason>)
        ensures { (notes : List NoteView) → spec.step (programs_state self.new) notes
            ≡ spec.told_if (spec.step (programs_state self.old) notes) (option_map Cancels reason) }
    {
        if let Some(reason) = reason {
            self.run.on_cancelled(reason);
        }
    }

    /// Starts a program, after the end of the one that runs.
    fn start_program(
        &mut self,
        alloc: Global,
        start: &ProgramStart,
        notes: &mut Vec<Note>,
    ) -> Result<(), RunError>
        ensures { OnOk result (spec.step (programs_state self.new) (map note_view notes.new.items)
            ≡ spec.started (start_view start.now) (spec.settled (spec.step (programs_state self.old) (map note_view notes.old.items)))) }
    {
        self.lose_program(alloc, notes)?;
        let suite = start.name.as_str();
        let path = start.path.as_deref();
        self.tell(alloc, Event::Heading { suite, path }, notes)?;
        self.program = Some(Program::start(alloc, start)?);
        Ok(())
    }

    /// Takes how a program ended, and its standard error, after an end that was put off.
    fn end_program(
        &mut self,
        alloc: Global,
        end: ProgramEnd,
        stderr: &str,
        notes: &mut Vec<Note>,
    ) -> Result<(), RunError>
        ensures { OnOk result (spec.step (programs_state self.new) (map note_view notes.new.items)
            ≡ spec.ended (record { end = end; stderr = stderr.now })
            (spec.settled (spec.step (programs_state self.old) (map note_view notes.old.items)))) }
    {
        self.settle(alloc, notes)?;
        if self.program.is_none() {
            if is_zero(end) {
                return Ok(());
            }
            return self.tell_fault(alloc, ProgramFault::NotStarted { end }, notes);
        }
        if may_be_cancelled(end) {
            let stderr = String::from_str(alloc, stderr)?;
            self.over = Some(Over { end, stderr });
            return Ok(());
        }
        self.program_over(alloc, end, stderr, notes)
    }

    /// Takes the end of a program that was put off, if there is one.
    pub(super) fn settle(&mut self, alloc: Global, notes: &mut Vec<Note>) -> Result<(), RunError>
        ensures { OnOk result (spec.step (programs_state self.new) (map note_view notes.new.items)
            ≡ spec.settled (spec.step (programs_state self.old) (map note_view notes.old.items))) }
    {
        match self.over.take() {
            Some(over) => self.program_over(alloc, over.end, over.stderr.as_str(), notes),
            None => Ok(()),
        }
    }

    /// Ends the program that runs: its standard error is printed, and all that is open ends early.
    fn program_over(
        &mut self,
        alloc: Global,
        end: ProgramEnd,
        stderr: &str,
        notes: &mut Vec<Note>,
    ) -> Result<(), RunError>
        ensures { OnOk result (spec.step (programs_state self.new) (map note_view notes.new.items)
            ≡ spec.program_over (record { end = end; stderr = stderr.now })
            (spec.step (programs_state self.old) (map note_view notes.old.items))) }
    {
        self.print_lines(alloc, stderr, notes)?;
        self.end_early(alloc, early_end(alloc, end, stderr)?, notes)
    }

    /// Prints each line of a text.
    fn print_lines(
        &mut self,
        alloc: Global,
        text: &str,
        notes: &mut Vec<Note>,
    ) -> Result<(), RunError>
        ensures { OnOk result (spec.step (programs_state self.new) (map note_view notes.new.items)
            ≡ spec.all_told (spec.step (programs_state self.old) (map note_view notes.old.items)) (map spec.printed (lines text.now))) }
    {
        for line in text.lines() {
            self.tell(alloc, Event::Print { line, plain: line }, notes)?;
        }
        Ok(())
    }

    /// Takes the end of a program that was put off, and ends the program that runs, if one does. No line says how it
    /// ended.
    pub(super) fn lose_program(
        &mut self,
        alloc: Global,
        notes: &mut Vec<Note>,
    ) -> Result<(), RunError>
        ensures { OnOk result (spec.step (programs_state self.new) (map note_view notes.new.items)
            ≡ spec.program_lost (spec.settled (spec.step (programs_state self.old) (map note_view notes.old.items)))) }
    {
        self.settle(alloc, notes)?;
        if self.program.is_none() {
            return Ok(());
        }
        self.end_early(alloc, EarlyEnd::unknown(alloc), notes)
    }

    /// Ends all that is open, says what is wrong with the end of the program that ran, and forgets the program.
    fn end_early(
        &mut self,
        alloc: Global,
        end: EarlyEnd,
        notes: &mut Vec<Note>,
    ) -> Result<(), RunError>
        ensures { OnOk result (spec.step (programs_state self.new) (map note_view notes.new.items)
            ≡ spec.without_program (spec.judged (option_map_or spec.fault_of end.end spec.lost_fault)
            (spec.told (spec.step (programs_state self.old) (map note_view notes.old.items)) (AllEndEarly (early_view end))))) }
    {
        let how = end.end;
        let told = self.run.on_all_ended_early(alloc, end)?;
        keep(&mut self.program, false, told, notes)?;
        let fault = fault_of(self.program.as_ref(), how)?;
        self.program = None;
        match fault {
            Some(fault) => self.tell_fault(alloc, fault, notes),
            None => Ok(()),
        }
    }

    /// Says what is wrong with the lines of programs.
    pub(super) fn tell_fault(
        &mut self,
        alloc: Global,
        fault: ProgramFault,
        notes: &mut Vec<Note>,
    ) -> Result<(), RunError>
        ensures { OnOk result (spec.step (programs_state self.new) (map note_view notes.new.items)
            ≡ spec.told (spec.step (programs_state self.old) (map note_view notes.old.items)) (ProgramContradicts (fault_view fault))) }
    {
        let told = self.run.on_program_fault(alloc, fault)?;
        keep(&mut self.program, false, told, notes)?;
        Ok(())
    }
}
