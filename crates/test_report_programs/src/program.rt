//! A test program that runs, and what is wrong with its end.

ghost use Rattle.std.specs.Prelude.{◌≡◌, ◌++◌, ◌||◌, IfOk, OnOk, map, option_and_then, option_map};
ghost use Rattle.std.specs.List.{list_any};
ghost use Rattle.std.specs.Option.{option_map_or};
ghost use Rattle.test_report_events.specs.Event.{event_view};
ghost use Rattle.test_report_events.specs.Program.{start_view};
ghost use Rattle.test_report_programs.specs.Lines as spec;
ghost use Rattle.test_report_run.specs.Over.{early_view};
ghost use Rattle.test_report_run.specs.Run.{is_cause};
ghost use Rattle.test_report_run_notes.specs.Note.{command_view, fault_view, note_view};

use crate::names::threads_of;
use std::alloc::{AllocError, Global};
use test_report_events::event::Event;
use test_report_events::program::{ProgramEnd, ProgramStart};
use test_report_run::early::EarlyEnd;
use test_report_run_notes::note::{
    CommandEnd, Contradiction, FailureKind, Note, ProgramFault, TestOutcome,
};

/// The status with which Rust's test harness ends if a test failed.
const TESTS_FAILED: i64 = 101;

/// The numbers of SIGINT and SIGTERM, and the status of a program that ends by itself after one of them.
const SIGINT: u64 = 2;

const SIGTERM: u64 = 15;

const AFTER_SIGINT: i64 = 130;

const AFTER_SIGTERM: i64 = 143;

/// A program that runs.
#[derive(Drop)]
pub(crate) struct Program {
    /// The name of its suites.
    name: String,

    /// True if it may run no tests: it has its own harness, or lists its tests.
    may_be_empty: bool,

    /// True if one of its suites or tests started.
    ran: bool,

    /// True if a failed test or a contradiction became known since it started.
    failed: bool,

    /// True if a test crashed or a suite ended early since it started.
    broke: bool,
}

/// How a program ended.
#[derive(Drop)]
pub(crate) struct Over {
    /// Its status, or the signal that ended it.
    pub(crate) end: ProgramEnd,

    /// The end of what it wrote to standard error.
    pub(crate) stderr: String,
}

impl Program {
    /// Returns a program that starts.
    pub(crate) fn start(alloc: Global, start: &ProgramStart) -> Result<Program, AllocError>
        ensures { IfOk result (λ program. spec.program_state program ≡ spec.new_program (start_view start.now)) }
    {
        Ok(Program {
            name: String::from_str(alloc, start.name.as_str())?,
            may_be_empty: start.own_harness || start.lists,
            ran: false,
            failed: false,
            broke: false,
        })
    }

    /// Takes an event, and the notes that it made known.
    pub(crate) fn take(&mut self, starts: bool, notes: &[Note])
        ensures { spec.program_state self.new ≡ record (spec.program_state self.old) {
          ran = self.old.ran || starts;
          failed = self.old.failed || list_any is_cause (map note_view notes.now);
          broke = self.old.broke || list_any spec.is_break (map note_view notes.now);
        } }
    {
        self.ran = self.ran || starts;
        self.failed = self.failed || has_cause(notes);
        self.broke = self.broke || has_break(notes);
    }

    /// Returns what is wrong with the program if it ended so.
    pub(crate) fn fault(&self, end: ProgramEnd) -> Result<Option<ProgramFault>, AllocError>
        ensures { IfOk result (λ fault. option_map fault_view fault ≡ spec.fault_of end (spec.program_state self.now)) }
    {
        if is_zero(end) {
            if self.ran || self.may_be_empty {
                return Ok(None);
            }
            let program = self.name.clone()?;
            return Ok(Some(ProgramFault::NoTests { program }));
        }
        if self.explains(end) {
            return Ok(None);
        }
        let program = self.name.clone()?;
        Ok(Some(ProgramFault::Unexplained { program, end }))
    }

    /// Returns what is wrong with the program if no line says how it ended.
    pub(crate) fn lost_fault(&self) -> Result<Option<ProgramFault>, AllocError>
        ensures { IfOk result (λ fault. option_map fault_view fault ≡ spec.lost_fault (spec.program_state self.now)) }
    {
        if self.failed {
            return Ok(None);
        }
        let program = self.name.clone()?;
        Ok(Some(ProgramFault::NoEnd { program }))
    }

    /// Returns true if what became known says why the program ended so.
    fn explains(&self, end: ProgramEnd) -> bool
        ensures { result ≡ spec.explains (spec.program_state self.now) end }
    {
        match end {
            ProgramEnd::Status(TESTS_FAILED) => self.failed,
            ProgramEnd::Status(_) | ProgramEnd::Signal(_) => self.broke,
        }
    }
}

/// Returns what is wrong with the end of a program, if there is one. `end` is how it ended, if a line says so.
pub(crate) fn fault_of(
    program: Option<&Program>,
    end: Option<ProgramEnd>,
) -> Result<Option<ProgramFault>, AllocError>
    ensures { IfOk result (λ fault. option_map fault_view fault ≡ option_and_then (option_map_or spec.fault_of end spec.lost_fault)
        (option_map (λ program. spec.program_state program.now) program.entry)) }
{
    match (program, end) {
        (Some(program), Some(end)) => program.fault(end),
        (Some(program), None) => program.lost_fault(),
        (None, _) => Ok(None),
    }
}

/// Keeps what an event made known.
pub(crate) fn keep(
    program: &mut Option<Program>,
    starts: bool,
    mut told: Vec<Note>,
    notes: &mut Vec<Note>,
) -> Result<(), AllocError>
    ensures keeps { option_map spec.program_state program.new
        ≡ option_map (spec.with_notes starts (map note_view told.items)) (option_map spec.program_state program.old) }
    ensures tells { OnOk result (map note_view notes.new.items ≡ map note_view notes.old.items ++ map note_view told.items) }
{
    if let Some(program) = program {
        program.take(starts, &told);
    }
    notes.append(&mut told)
}

/// Returns how all that is open ends with a program that ended so, with this standard error.
pub(crate) fn early_end(
    alloc: Global,
    end: ProgramEnd,
    stderr: &str,
) -> Result<EarlyEnd, AllocError>
    ensures { IfOk result (λ early. early_view early ≡ spec.known_end (record { end = end; stderr = stderr.now })) }
{
    Ok(EarlyEnd {
        end: Some(end),
        overflowed: threads_of(alloc, " has overflowed", stderr)?,
        panicked: threads_of(alloc, " panicked", stderr)?,
    })
}

/// Returns true if something ended with status 0.
pub(crate) fn is_zero(end: ProgramEnd) -> bool
    ensures { result ≡ spec.is_zero end }
{
    matches!(end, ProgramEnd::Status(0))
}

/// Returns true if Ctrl-C or SIGTERM may have ended a program.
pub(crate) fn may_be_cancelled(end: ProgramEnd) -> bool
    ensures { result ≡ spec.may_be_cancelled end }
{
    match end {
        ProgramEnd::Signal(number) => number == SIGINT || number == SIGTERM,
        ProgramEnd::Status(code) => code == AFTER_SIGINT || code == AFTER_SIGTERM,
    }
}

/// Returns how the command ended, by its end and the error that it reported.
pub(crate) fn command_end(
    alloc: Global,
    end: Option<ProgramEnd>,
    error: Option<&str>,
) -> Result<CommandEnd, AllocError>
    ensures { IfOk result (λ command. command_view command
        ≡ spec.command_of end (option_map (λ error. error.now) error.entry)) }
{
    match end {
        None => Ok(CommandEnd::NotStarted {
            error: String::from_str(alloc, error.unwrap_or(""))?,
        }),
        Some(ProgramEnd::Signal(number)) => Ok(CommandEnd::Signal {
            number: u32::try_from(number).unwrap_or(u32::MAX),
        }),
        Some(ProgramEnd::Status(code)) => {
            let code = u32::try_from(code).unwrap_or(u32::MAX);
            match error {
                Some(words) if code != 0 => Ok(CommandEnd::Error {
                    code,
                    words: String::from_str(alloc, words)?,
                }),
                _ => Ok(CommandEnd::Status { code }),
            }
        }
    }
}

/// Returns true if a suite or a test starts.
pub(crate) fn is_start(event: Event<'_>) -> bool
    ensures { result ≡ spec.is_start (event_view event.entry) }
{
    matches!(
        event,
        Event::SuiteStarted { .. } | Event::TestStarted { .. }
    )
}

/// Returns true if an event counts where lines of programs count: it is one of a harness, or damage.
pub(crate) fn is_counted(event: Event<'_>) -> bool
    ensures { result ≡ spec.is_counted (event_view event.entry) }
{
    !matches!(
        event,
        Event::Heading { .. } | Event::CargoFailed { .. } | Event::Print { .. }
    )
}

/// Returns true if a note is of a failed test, or is a contradiction.
fn has_cause(notes: &[Note]) -> bool
    ensures { result ≡ list_any is_cause (map note_view notes.now) }
{
    notes.iter().any(is_failure)
}

/// Returns true if a note is of a crashed test, or of a suite that ended early.
fn has_break(notes: &[Note]) -> bool
    ensures { result ≡ list_any spec.is_break (map note_view notes.now) }
{
    notes.iter().any(is_break)
}

/// Returns true if a note is of a failed test, or is a contradiction.
fn is_failure(note: &Note) -> bool
    ensures { result ≡ is_cause (note_view note.now) }
{
    match note {
        Note::Test(test) => matches!(test.outcome, TestOutcome::Failed(_)),
        Note::Contradiction(_) => true,
        Note::Flaky(_) | Note::NotRun(_) | Note::Suite(_) => false,
    }
}

/// Returns true if a note is of a crashed test, or of a suite that ended early.
fn is_break(note: &Note) -> bool
    ensures { result ≡ spec.is_break (note_view note.now) }
{
    match note {
        Note::Test(test) => match &test.outcome {
            TestOutcome::Failed(failure) => matches!(failure.kind, FailureKind::Crashed(_)),
            TestOutcome::Passed { .. } | TestOutcome::Skipped { .. } | TestOutcome::Stopped =>
                false,
        },
        Note::Contradiction(contradiction) => matches!(
            contradiction,
            Contradiction::EndedEarly { .. }
        ),
        Note::Flaky(_) | Note::NotRun(_) | Note::Suite(_) => false,
    }
}
