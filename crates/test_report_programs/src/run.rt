//! A test run whose lines tell of each test program.

ghost use Rattle.std.specs.Prelude.{◌≡◌, ◌↔◌, ◌⊎◌, ◌&&◌, [], None, is_none, IfOk, IsTrue, OnOk, map, option_map, option_to_list};
ghost use Rattle.run_events_stats.specs.declared.outcome.run_outcome.RunOutcome.TheVariants as outcomes;
ghost use Rattle.test_report_events.specs.Content.{events_of, program_of};
ghost use Rattle.test_report_events.specs.Event.{Cancels, CommandStarts, event_view};
ghost use Rattle.test_report_programs.specs.Lines as spec;
ghost use Rattle.test_report_programs.specs.Lines.{programs_state};
ghost use Rattle.test_report_run.specs.FileEnd.{end_of};
ghost use Rattle.test_report_run.specs.Run.{run_state};
ghost use Rattle.test_report_run.specs.SuiteNames.{names_of};
ghost use Rattle.test_report_run_notes.specs.Note.{command_view, note_view};

mod programs;

use crate::program::{Over, Program, is_counted, is_start, keep};
use run_events_results::results::CancelReason;
use std::alloc::Global;
use test_report_events::event::Event;
use test_report_events::line::Line;
use test_report_run::error::RunError;
use test_report_run::run::{Finished, TestRun};
use test_report_run::suite_names::SuiteNames;
use test_report_run_notes::note::{CommandEnd, Note, ProgramFault};

/// A test run whose lines may tell of each test program, and of the command that runs them.
///
/// Such lines count in a file whose first line is one of them. There, a program's suites have its name and end early with
/// it, headings and failures of cargo are prints, and each line that is no event says nothing.
pub struct ProgramRun {
    /// Whether lines of programs count in this file, once it has a line.
    counts: Option<bool>,

    /// The program that runs.
    program: Option<Program>,

    /// How this program ended, if Ctrl-C or SIGTERM may have ended it and the next line is not read.
    over: Option<Over>,

    /// True if a line said how the command ended.
    is_done: bool,

    /// The run.
    run: TestRun,
}

impl Drop for ProgramRun {
    fn drop(self) {
        let ProgramRun {
            counts: _,
            program: _,
            over: _,
            is_done: _,
            run: _,
        } = self;
    }
}

impl ProgramRun {
    /// Returns a run of programs over a new run.
    pub fn new(run: TestRun) -> ProgramRun
        ensures { programs_state result ≡ spec.programs_start (run_state run) }
    {
        ProgramRun {
            counts: None,
            program: None,
            over: None,
            is_done: false,
            run,
        }
    }

    /// Returns the run, for its numbers.
    pub fn run(&self) -> &TestRun
        ensures { run_state result.now ≡ (programs_state self.now).run }
    {
        &self.run
    }

    /// Takes a line, and returns what it makes known.
    ///
    /// Fails if a number of the run does not fit its counter. After an error the run must not be used.
    pub fn on_line(&mut self, alloc: Global, line: &Line) -> Result<Vec<Note>, RunError>
        ensures { IfOk result (λ notes. spec.step (programs_state self.new) (map note_view notes.items)
            ≡ spec.line_told (programs_state self.old) (events_of line.now) (program_of line.now)) }
    {
        let counts = self.counts.unwrap_or(line.program().is_some());
        self.counts = Some(counts);
        let mut notes = Vec::new(alloc);
        self.take_line(alloc, counts, line, &mut notes)?;
        Ok(notes)
    }

    /// Notes that the command starts whose output the next lines are, and which writes no lines of programs. `names` are
    /// the names of its suites.
    pub fn on_command_started(&mut self, names: SuiteNames)
        ensures { spec.step (programs_state self.new) [] ≡ spec.told (spec.same (programs_state self.old)) (CommandStarts (names_of names)) }
    {
        self.run.on_command_started(names);
    }

    /// Notes that the run is cancelled from here on, up to the end of the file.
    pub fn on_cancelled(&mut self, reason: CancelReason)
        ensures { spec.step (programs_state self.new) [] ≡ spec.told (spec.same (programs_state self.old)) (Cancels reason) }
    {
        self.run.on_cancelled(reason);
    }

    /// Ends a file of the run that is not the last one, and returns what that makes known.
    ///
    /// Fails if a number of the run does not fit its counter. After an error the run must not be used.
    pub fn end_file(&mut self, alloc: Global) -> Result<Vec<Note>, RunError>
        ensures { IfOk result (λ notes. spec.step (programs_state self.new) (map note_view notes.items)
            ≡ spec.file_told (programs_state self.old) None) }
    {
        let mut notes = Vec::new(alloc);
        self.close(alloc, &mut notes)?;
        notes.append(&mut self.run.end_file(alloc)?)?;
        self.begin_file();
        Ok(notes)
    }

    /// Ends the run. `command` is how the command ended whose output the run is, if there is one and no line says so.
    /// Returns what becomes known, the sums, the outcome and the exit status: 0 if a test passed and nothing is wrong, or,
    /// with `no_tests_pass`, if no test ran and nothing is wrong.
    ///
    /// Fails if a number of the run does not fit its counter. After an error the run must not be used.
    pub fn finish(
        &mut self,
        alloc: Global,
        command: Option<CommandEnd>,
        no_tests_pass: bool,
    ) -> Result<Finished, RunError>
        ensures tells { IfOk result (λ finished. spec.step (programs_state self.new) (map note_view finished.notes.items)
            ≡ spec.file_told (programs_state self.old) (option_map command_view command)) }
        ensures sums { IfOk result (λ finished. finished.end ≡ end_of (programs_state self.new).run) }
        ensures zero { IfOk result (λ finished. (finished.status ≡ 0) ↔ ((finished.end.outcome ≡ outcomes.Success)
            ⊎ ((finished.end.outcome ≡ outcomes.NoTestsRun) × IsTrue no_tests_pass))) }
        ensures one { IfOk result (λ finished. (finished.status ≡ 0) ⊎ (finished.status ≡ 1)) }
    {
        let mut notes = Vec::new(alloc);
        self.close(alloc, &mut notes)?;
        let mut finished = self.run.finish(alloc, command, no_tests_pass)?;
        notes.append(&mut finished.notes)?;
        finished.notes = notes;
        self.begin_file();
        Ok(finished)
    }

    /// Forgets what is kept of the lines of a file, before the next one.
    fn begin_file(&mut self)
        ensures { programs_state self.new ≡ spec.programs_start (programs_state self.old).run }
    {
        self.counts = None;
        self.program = None;
        self.over = None;
        self.is_done = false;
    }

    /// Says what is wrong at the end of a file in which lines of programs count.
    fn close(&mut self, alloc: Global, notes: &mut Vec<Note>) -> Result<(), RunError>
        requires { notes.old.items ≡ [] }
        ensures { OnOk result (spec.step (programs_state self.new) (map note_view notes.new.items)
            ≡ spec.closed (programs_state self.old)) }
    {
        if !self.counts.unwrap_or(false) {
            return Ok(());
        }
        self.lose_program(alloc, notes)?;
        if self.is_done {
            return Ok(());
        }
        self.tell_fault(alloc, ProgramFault::CutOff, notes)
    }

    /// Takes the events of a line, and what it says of a program or of the command, if lines of programs count.
    fn take_line(
        &mut self,
        alloc: Global,
        counts: bool,
        line: &Line,
        notes: &mut Vec<Note>,
    ) -> Result<(), RunError>
        ensures { OnOk result (spec.step (programs_state self.new) (map note_view notes.new.items)
            ≡ spec.told_program counts (program_of line.now)
            (spec.all_told (spec.settled_if (counts && is_none (program_of line.now)) (spec.step (programs_state self.old) (map note_view notes.old.items)))
            (spec.events_taken counts (events_of line.now)))) }
    {
        if !counts {
            return self.take_events(alloc, counts, line, notes);
        }
        match line.program() {
            Some(program) => {
                self.take_events(alloc, counts, line, notes)?;
                self.on_program_line(alloc, program, notes)
            }
            None => {
                self.settle(alloc, notes)?;
                self.take_events(alloc, counts, line, notes)
            }
        }
    }

    /// Takes the events of a line that count.
    fn take_events(
        &mut self,
        alloc: Global,
        counts: bool,
        line: &Line,
        notes: &mut Vec<Note>,
    ) -> Result<(), RunError>
        ensures { OnOk result (spec.step (programs_state self.new) (map note_view notes.new.items)
            ≡ spec.all_told (spec.step (programs_state self.old) (map note_view notes.old.items))
            (spec.events_taken counts (events_of line.now))) }
    {
        self.take(alloc, counts, line.before(), notes)?;
        self.take(alloc, counts, Some(line.event()), notes)?;
        self.take(alloc, counts, line.damage(), notes)
    }

    /// Takes an event, if there is one, and it counts where lines of programs count or these do not.
    fn take(
        &mut self,
        alloc: Global,
        counts: bool,
        event: Option<Event<'_>>,
        notes: &mut Vec<Note>,
    ) -> Result<(), RunError>
        ensures { OnOk result (spec.step (programs_state self.new) (map note_view notes.new.items)
            ≡ spec.all_told (spec.step (programs_state self.old) (map note_view notes.old.items))
            (spec.events_taken counts (option_to_list (option_map event_view event.entry)))) }
    {
        match event {
            Some(event) if !counts || is_counted(event) => self.tell(alloc, event, notes),
            _ => Ok(()),
        }
    }

    /// Tells an event to the run.
    fn tell(
        &mut self,
        alloc: Global,
        event: Event<'_>,
        notes: &mut Vec<Note>,
    ) -> Result<(), RunError>
        ensures { OnOk result (spec.step (programs_state self.new) (map note_view notes.new.items)
            ≡ spec.told (spec.step (programs_state self.old) (map note_view notes.old.items)) (event_view event.entry)) }
    {
        let told = self.run.on_event(alloc, event)?;
        keep(&mut self.program, is_start(event), told, notes)?;
        Ok(())
    }
}
