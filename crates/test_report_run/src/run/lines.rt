//! Headings, failures of cargo, prints, and damaged lines.

ghost use Rattle.std.specs.List.{starts_with};
ghost use Rattle.std.specs.Map.{lookup};
ghost use Rattle.std.specs.Option.{unwrap_or};
ghost use Rattle.std.specs.Prelude.{◌≡◌, ◌<◌, ◌++◌, ◌∷◌, ◌&&◌, [], IfOk, OnOk, codes, map, nat_eq, not, option_and_then, option_map, string_bytes};
ghost use Rattle.test_report_run_notes.specs.Note.{Contradicts, IsDamaged, note_view};
ghost use Rattle.test_report_run.specs.Prints.{cut};
ghost use Rattle.test_report_run.specs.Run as spec;
ghost use Rattle.test_report_run.specs.Run.{run_state};
ghost use Rattle.test_report_run.specs.SuiteNames.{names_of};
ghost use Rattle.std.specs.Str.{bytes_eq};

use crate::contradictions::push_contradiction;
use crate::cuts::shortened;
use crate::error::{RunError, one_more};
use crate::run::TestRun;
use crate::suite_names::SuiteNames;
use std::alloc::{AllocError, Global};
use std::rc::Rc;
use test_report_events::event::CargoFailure;
use test_report_run_notes::note::{CargoReport, Contradiction, Note};

/// The front of the line in which cargo says that tests failed.
const TESTS_FAILED: &[u8] = b"error: test failed";

impl TestRun {
    /// Takes a heading of cargo. Fails if memory runs out, or the number of headings does not fit.
    pub(crate) fn on_heading(
        &mut self,
        alloc: Global,
        name: &str,
        path: Option<&str>,
    ) -> Result<(), RunError>
        ensures takes { OnOk result (run_state self.new ≡ spec.headed (run_state self.old) name.now
            (option_map (λ path. path.now) path.entry)) }
    {
        self.others.on_heading(alloc)?;
        let own = self.headings.take_heading(alloc, name, path)?;
        self.heading = Some(shown_name(alloc, &self.names, path, own)?);
        Ok(())
    }

    /// Takes a print. Fails if memory runs out, or the number of prints does not fit.
    pub(crate) fn on_print(
        &mut self,
        alloc: Global,
        line: &str,
        plain: &str,
    ) -> Result<(), RunError>
        ensures takes { OnOk result (run_state self.new ≡ spec.printed (run_state self.old) line.now plain.now) }
    {
        self.others.on_print(alloc, line, plain)?;
        self.recent.take_line(alloc, plain)?;
        Ok(())
    }

    /// Takes a line in which cargo or nextest reports a failure. If it is a contradiction, it counts from now on. Fails
    /// if memory runs out, or the number of failed tests and contradictions does not fit.
    pub(crate) fn on_cargo_failed(
        &mut self,
        alloc: Global,
        failure: CargoFailure,
        plain: &str,
    ) -> Result<(), RunError>
        ensures takes { OnOk result (run_state self.new ≡ spec.cargo_fails (run_state self.old) failure plain.now) }
    {
        let contradicts = self.cargo_contradicts(failure);
        self.others.on_failure(alloc)?;
        if contradicts {
            let lacks_events = lacks_events(self.has_event, self.lacked_events, plain);
            self.causes = one_more(self.causes)?;
            self.reported = Some(CargoReport {
                line: String::from_str(alloc, plain)?,
                prints: self.recent.text(alloc, 0)?,
                cause: None,
                lacks_events,
            });
            self.lacked_events = self.lacked_events || lacks_events;
        }
        Ok(())
    }

    /// Returns true if no suite is open, and no failed test or earlier contradiction explains this failure of cargo
    /// or nextest. A failed build is never explained.
    fn cargo_contradicts(&self, failure: CargoFailure) -> bool
        ensures { result ≡ spec.cargo_contradicts (run_state self.now) failure }
    {
        let explained = match failure {
            CargoFailure::Build => false,
            CargoFailure::Tests => self.causes > self.causes_at_cargo,
            CargoFailure::Run => self.causes > self.causes_at_file,
        };
        self.suites.list.is_empty() && !explained
    }

    /// Makes the last failure of cargo known, if it is not yet, with the cause that was read after it. In the output of
    /// a command it waits for the end of the command. `heard` is true if an event of a harness follows.
    pub(crate) fn settle(&mut self, heard: bool, notes: &mut Vec<Note>) -> Result<(), AllocError>
        ensures takes { OnOk result (run_state self.new ≡ (spec.settled (run_state self.old) heard).run) }
        ensures tells { OnOk result (map note_view notes.new.items ≡ map note_view notes.old.items
            ++ (spec.settled (run_state self.old) heard).notes) }
    {
        let Some(mut report) = self.reported.take() else {
            return Ok(());
        };
        report.cause = self.others.last_cause()?;
        report.lacks_events = report.lacks_events && !heard;
        if self.of_command {
            self.held.push(report)?;
            Ok(())
        } else {
            push_contradiction(Contradiction::Cargo(report), notes)
        }
    }
}

/// Returns true if a line says that tests failed, no line of the file was an event of a harness, and no other failure of
/// cargo in the file lacked events.
fn lacks_events(has_event: bool, lacked_events: bool, line: &str) -> bool
    ensures { result ≡ (not has_event && (not lacked_events && starts_with nat_eq line.now (codes "error: test failed"))) }
{
    !has_event && (!lacked_events && line.as_bytes().starts_with(TESTS_FAILED))
}

/// Returns the name that a heading gives the suites after it: the known name of the binary with this path, or else `own`.
fn shown_name(
    alloc: Global,
    names: &SuiteNames,
    path: Option<&str>,
    own: String,
) -> Result<Rc<String>, AllocError>
    ensures { IfOk result (λ shown. string_bytes shown.value ≡ unwrap_or (option_and_then
        (λ p. lookup (bytes_eq p) (names_of names.now)) (option_map (λ path. path.now) path.entry)) (string_bytes own)) }
{
    let name = match known_name(names, path) {
        Some(known) => String::from_str(alloc, known)?,
        None => own,
    };
    Ok(Rc::new(alloc, name)?)
}

/// Returns the name that is known of the suites of the binary with this path.
fn known_name<'a>(names: &'a SuiteNames, path: Option<&str>) -> Option<&'a str>
    ensures { option_map (λ name. name.now) result ≡ option_and_then
        (λ p. lookup (bytes_eq p) (names_of names.now)) (option_map (λ path. path.now) path.entry) }
{
    names.get(path?)
}

/// Adds the contradiction of a damaged line that says a failure.
pub(crate) fn push_damaged(
    alloc: Global,
    text: &str,
    notes: &mut Vec<Note>,
) -> Result<(), AllocError>
    ensures { OnOk result (map note_view notes.new.items ≡ map note_view notes.old.items
        ++ Contradicts (IsDamaged (cut text.now)) ∷ []) }
{
    let text = String::from_str(alloc, shortened(text))?;
    push_contradiction(Contradiction::Damaged { text }, notes)
}
