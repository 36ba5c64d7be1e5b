//! A test run that is followed line by line.

ghost use Rattle.std.specs.Prelude.{◌≡◌, ◌↔◌, ◌⊎◌, ◌++◌, ◌∷◌, [], IfOk, IsTrue, OnOk, map, option_map, slice_get, string_bytes};
ghost use Rattle.run_events_stats.specs.declared.outcome.run_outcome.RunOutcome.TheVariants as outcomes;
ghost use Rattle.test_report_events.specs.Content.{events_of};
ghost use Rattle.test_report_events.specs.Event.{event_view};
ghost use Rattle.test_report_run_notes.specs.Note.{Contradicts, command_view, contradiction_view, is_new_contradiction, note_view, text_view};
ghost use Rattle.test_report_run.specs.FileEnd as ends;
ghost use Rattle.test_report_run.specs.Run as spec;
ghost use Rattle.test_report_run.specs.Run.{run_settings, run_state};

mod command;
mod events;
mod lines;
mod programs;
pub mod progress;
mod suites;
mod test_lines;

use crate::contradictions::push_contradiction;
use crate::early::Ending;
use crate::error::{RunError, one_more};
use crate::headings::Headings;
use crate::longest_end::LongestEnd;
use crate::open_suites::OpenSuites;
use crate::others::Others;
use crate::run::command::says_more;
use crate::running::Running;
use crate::status::exit_status;
use crate::suite::Suite;
use crate::suite_names::SuiteNames;
use crate::totals::Totals;
use run_events_results::results::CancelReason;
use std::alloc::{AllocError, Global};
use std::collections::VecDeque;
use std::rc::Rc;
use test_report_events::event::Event;
use test_report_events::line::Line;
use test_report_run_notes::note::{
    CargoReport, CommandEnd, Contradiction, Note, RunEnd, TestOutcome,
};

/// A test run, up to the line that was passed last. Pass each line to `on_line`, and end the run by `finish`.
pub struct TestRun {
    /// The tests of the file that start outside of a suite.
    outside: Suite,

    /// The open suites.
    suites: OpenSuites,

    /// The headings of the file, and the name that the last one gives the suites after it.
    headings: Headings,
    heading: Option<Rc<String>>,

    /// True if a line of the file was an event of a harness.
    has_event: bool,

    /// True if a failure of cargo in the file lacks events.
    lacked_events: bool,

    /// The lines of the file that are no events of a harness.
    others: Others,

    /// The plain text of the prints after the last heading, event or failure of cargo.
    recent: LongestEnd,

    /// The last failure of cargo that is a contradiction, until what may say why is read.
    reported: Option<CargoReport>,

    /// The failures of cargo that wait for the end of the command.
    held: Vec<CargoReport>,

    /// True if the lines are the output of a command.
    of_command: bool,

    /// How the command ended.
    command: Option<CommandEnd>,

    /// The names that are known of the suites of the command.
    names: SuiteNames,

    /// Why the run is cancelled up to the end of the file, if it is.
    cancel: Option<CancelReason>,

    running: Running,
    ended: usize,
    totals: Totals,
    contradictions: usize,

    /// How many contradictions say that the run was cancelled.
    cancels: usize,

    /// The number of failed tests and contradictions until now, until the file began, and until the last
    /// failure of cargo outside of a suite. They decide whether a failure of cargo is explained. Failures of cargo
    /// are counted before they become known.
    causes: usize,
    causes_at_file: usize,
    causes_at_cargo: usize,

    /// The least time of a slow test, in microseconds.
    slow: u64,

    /// The names of this file and of those after it. There are none if the run has only one file.
    file_names: VecDeque<String>,
}

impl Drop for TestRun {
    fn drop(self) {
        let TestRun {
            outside: _,
            suites: _,
            headings: _,
            heading: _,
            has_event: _,
            lacked_events: _,
            others: _,
            recent: _,
            reported: _,
            held: _,
            of_command: _,
            command: _,
            names: _,
            cancel: _,
            running: _,
            ended: _,
            totals: _,
            contradictions: _,
            cancels: _,
            causes: _,
            causes_at_file: _,
            causes_at_cargo: _,
            slow: _,
            file_names: _,
        } = self;
    }
}

/// The end of a run.
#[derive(Drop)]
pub struct Finished {
    /// The notes that the end of the last file makes known.
    pub notes: Vec<Note>,

    /// The sums and the outcome of the run.
    pub end: RunEnd,

    /// The exit status for this outcome: 0 or 1.
    pub status: u8,
}

impl TestRun {
    /// Returns a run before its first line. A test whose time is at least `slow` microseconds is slow.
    pub fn new(alloc: Global, slow: u64) -> TestRun
        ensures { run_state result ≡ spec.run_start (run_settings slow []) }
    {
        TestRun::with_file_names(alloc, slow, VecDeque::new(alloc))
    }

    /// Returns a run of several files before its first line. `file_names` are the names of the files, in the order in
    /// which they are read. A test whose time is at least `slow` microseconds is slow.
    pub fn with_file_names(alloc: Global, slow: u64, file_names: VecDeque<String>) -> TestRun
        ensures { run_state result ≡ spec.run_start (run_settings slow (map string_bytes file_names.items)) }
    {
        TestRun {
            outside: Suite::outside(alloc),
            suites: OpenSuites::new(alloc),
            headings: Headings::new(alloc),
            heading: None,
            has_event: false,
            lacked_events: false,
            others: Others::new(alloc),
            recent: LongestEnd::new(alloc),
            reported: None,
            held: Vec::new(alloc),
            of_command: false,
            command: None,
            names: SuiteNames::new(alloc),
            cancel: None,
            running: Running::new(alloc),
            ended: 0,
            totals: Totals::new(),
            contradictions: 0,
            cancels: 0,
            causes: 0,
            causes_at_file: 0,
            causes_at_cargo: 0,
            slow,
            file_names,
        }
    }

    /// Takes the next line: its events, in their order. Returns the notes that each makes known, one after the
    /// other.
    ///
    /// Fails if a number of the run does not fit its counter (`RunError::CounterFull`). After an error the run must not be
    /// used: a part of the line may be counted.
    pub fn on_line(&mut self, alloc: Global, line: &Line) -> Result<Vec<Note>, RunError>
        ensures tells { IfOk result (λ notes. map note_view notes.items
            ≡ spec.notes_of (run_state self.old) (events_of line.now)) }
        ensures takes { OnOk result (run_state self.new
            ≡ spec.run_after (run_state self.old) (events_of line.now)) }
    {
        let mut notes = Vec::new(alloc);
        self.take(alloc, line.before(), &mut notes)?;
        self.take(alloc, Some(line.event()), &mut notes)?;
        self.take(alloc, line.damage(), &mut notes)?;
        Ok(notes)
    }

    /// Takes the next event, and returns the notes that it makes known. `on_line` calls it for each event of a
    /// line. The notes of a suite are in this order: its tests without an end, its flaky tests, contradictions,
    /// tests that did not run, and the numbers of the suite.
    ///
    /// Fails if a number of the run does not fit its counter. After an error the run must not be used: a part of the event
    /// may be counted.
    pub fn on_event(&mut self, alloc: Global, event: Event<'_>) -> Result<Vec<Note>, RunError>
        ensures tells { IfOk result (λ notes. map note_view notes.items
            ≡ spec.notes_at (run_state self.old) (event_view event.entry)) }
        ensures takes { OnOk result (run_state self.new
            ≡ spec.after (run_state self.old) (event_view event.entry)) }
    {
        let mut notes = Vec::new(alloc);
        self.settle_at(event, &mut notes)?;
        self.tell(alloc, event, &mut notes)?;
        self.learn(&notes)?;
        self.mark(alloc, event);
        Ok(notes)
    }

    /// Ends the file, and returns the notes that this makes known. Suites that are still open end early: their running
    /// tests crashed.
    ///
    /// Call it for each file but the last one of a run, and `finish` for the last one.
    ///
    /// Fails if a number of the run does not fit its counter. After an error the run must not be used.
    pub fn end_file(&mut self, alloc: Global) -> Result<Vec<Note>, RunError>
        ensures tells { IfOk result (λ notes. map note_view notes.items
            ≡ ends.file_notes (run_state self.old)) }
        ensures takes { OnOk result (run_state self.new ≡ ends.after_file (run_state self.old)) }
    {
        let mut notes = Vec::new(alloc);
        self.settle(false, &mut notes)?;
        self.tell_held(alloc, &mut notes)?;
        self.end_suites(alloc, &Ending::unknown(), &mut notes)?;
        self.push_no_event(&mut notes)?;
        self.learn(&notes)?;
        self.end_command(&mut notes)?;
        self.begin_file(alloc);
        Ok(notes)
    }

    /// Forgets what is kept of the lines of a file, before the next one.
    fn begin_file(&mut self, alloc: Global)
        ensures { run_state self.new ≡ ends.begun (run_state self.old) }
    {
        self.headings = Headings::new(alloc);
        self.heading = None;
        self.has_event = false;
        self.lacked_events = false;
        self.others = Others::new(alloc);
        self.recent = LongestEnd::new(alloc);
        self.of_command = false;
        self.command = None;
        self.names = SuiteNames::new(alloc);
        self.cancel = None;
        self.causes_at_file = self.causes;
        self.causes_at_cargo = self.causes;
        self.file_names.pop_front();
    }

    /// Ends the last file of the run. Returns the notes that this makes known, the sums and the outcome of the whole run,
    /// and its exit status. If the lines of the file are the output of a command, `command` is how it ended. If
    /// `no_tests_pass` is true, the status of a run without tests is 0.
    ///
    /// Do not call `end_file` for the last file: `finish` would then end one more file, which has no event.
    ///
    /// Fails if a number of the run does not fit its counter. After an error the run must not be used.
    pub fn finish(
        &mut self,
        alloc: Global,
        command: Option<CommandEnd>,
        no_tests_pass: bool,
    ) -> Result<Finished, RunError>
        ensures tells { IfOk result (λ finished. map note_view finished.notes.items
            ≡ ends.file_notes (ends.with_command (run_state self.old) (option_map command_view command))) }
        ensures takes { OnOk result (run_state self.new
            ≡ ends.after_file (ends.with_command (run_state self.old) (option_map command_view command))) }
        ensures sums { IfOk result (λ finished. finished.end ≡ ends.end_of (run_state self.new)) }
        ensures zero { IfOk result (λ finished. (finished.status ≡ 0) ↔ ((finished.end.outcome ≡ outcomes.Success)
            ⊎ ((finished.end.outcome ≡ outcomes.NoTestsRun) × IsTrue no_tests_pass))) }
        ensures one { IfOk result (λ finished. (finished.status ≡ 0) ⊎ (finished.status ≡ 1)) }
    {
        self.on_command_ended(command);
        let notes = self.end_file(alloc)?;
        let end = self.end();
        let status = exit_status(end.outcome, no_tests_pass);
        Ok(Finished { notes, end, status })
    }

    /// Returns the sums and the outcome of the run, up to the last file that has ended.
    pub fn end(&self) -> RunEnd
        ensures { result ≡ ends.end_of (run_state self.now) }
    {
        self.totals.end(self.contradictions, self.cancels)
    }

    /// Adds a contradiction if the file has no event of a harness, no failed test and no other contradiction, unless
    /// its command ended with status 0 or was not started.
    fn push_no_event(&self, notes: &mut Vec<Note>) -> Result<(), AllocError>
        ensures { OnOk result (map note_view notes.new.items ≡ map note_view notes.old.items
            ++ ends.no_event_notes (run_state self.now)) }
    {
        let explained = self.causes > self.causes_at_file || says_more(&self.command);
        if self.has_event || explained {
            return Ok(());
        }
        let file = first_name(&self.file_names)?;
        push_contradiction(Contradiction::NoEvent { file }, notes)
    }

    /// Adds notes to the sums. Fails if a sum does not fit.
    fn learn(&mut self, notes: &[Note]) -> Result<(), RunError>
        ensures learns { OnOk result (run_state self.new
            ≡ spec.learned (run_state self.old) (map note_view notes.now)) }
    {
        for note in notes {
            self.learn_note(note)?;
        }
        Ok(())
    }

    /// Adds a note to the sums. Fails if a sum does not fit.
    pub(crate) fn learn_note(&mut self, note: &Note) -> Result<(), RunError>
        ensures learns { OnOk result (run_state self.new
            ≡ spec.learned (run_state self.old) (note_view note.now ∷ [])) }
    {
        match note {
            Note::Test(test) => {
                if matches!(test.outcome, TestOutcome::Failed(_)) {
                    self.causes = one_more(self.causes)?;
                }
                Ok(())
            }
            Note::Contradiction(contradiction) => self.learn_contradiction(contradiction),
            Note::Flaky(_) | Note::NotRun(_) => Ok(()),
            Note::Suite(suite) => self.totals.add(suite),
        }
    }

    /// Counts a contradiction. Fails if a sum does not fit.
    fn learn_contradiction(&mut self, contradiction: &Contradiction) -> Result<(), RunError>
        ensures learns { OnOk result (run_state self.new
            ≡ spec.learned (run_state self.old) (Contradicts (contradiction_view contradiction.now) ∷ [])) }
    {
        self.contradictions = one_more(self.contradictions)?;
        if matches!(contradiction, Contradiction::Cancelled(_)) {
            self.cancels = one_more(self.cancels)?;
        }
        if is_new(contradiction) {
            self.causes = one_more(self.causes)?;
        }
        Ok(())
    }
}

/// Returns the first of some names.
fn first_name(names: &VecDeque<String>) -> Result<Option<String>, AllocError>
    ensures { IfOk result (λ name. text_view name ≡ slice_get (map string_bytes names.now.items) 0) }
{
    match names.front() {
        Some(name) => Ok(Some(name.clone()?)),
        None => Ok(None),
    }
}

/// Returns true if a contradiction is counted among the causes when it becomes known. A failure of cargo is counted at
/// its line, and that a file has no event explains nothing.
fn is_new(contradiction: &Contradiction) -> bool
    ensures { result ≡ is_new_contradiction (contradiction_view contradiction.now) }
{
    !matches!(
        contradiction,
        Contradiction::Cargo(_) | Contradiction::NoEvent { .. }
    )
}
