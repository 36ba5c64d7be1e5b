//! The lines of a file that are no events of a harness.

ghost use Rattle.std.specs.Prelude.{◌≡◌, ◌++◌, ◌∷◌, [], IfOk, OnOk, map, string_bytes};
ghost use Rattle.test_report_run_notes.specs.Note.{text_view};
ghost use Rattle.test_report_run.specs.Others as spec;
ghost use Rattle.test_report_run.specs.Others.{others_view};
ghost use Rattle.test_report_run.specs.Prints.{no_prints, prints_view};
ghost use Rattle.test_report_run.specs.declared.others.Stage.TheVariants as stage;

use crate::cuts::shortened;
use crate::error::{RunError, one_more};
use crate::prints::Prints;
use std::alloc::{AllocError, Global};

/// The line before the one in which cargo names the cause of its failure.
const CAUSED_BY: &str = "Caused by:";

/// The place of a print of a file.
#[derive(Clone, Copy, Default)]
pub(crate) struct PrintPlace {
    /// The number of headings and failures that came before it.
    part: usize,

    /// The number of prints between the last of these and it.
    print: usize,
}

/// The place of an event of a file among its other lines.
#[derive(Clone, Copy, Default)]
pub(crate) struct EventPlace {
    /// The number of causes that came before it.
    causes: usize,

    /// The number of headings that came before it.
    headings: usize,
}

/// The cause of a failure that cargo reported.
#[derive(Drop)]
pub(crate) struct Cause {
    /// The number of headings that came before it.
    headings: usize,

    /// Its line, which follows the first `Caused by:` after the failure, or the first 200 bytes of this line.
    line: String,
}

/// How far the search for the cause of the last failure is.
#[derive(Clone, Copy)]
enum Stage {
    /// There is nothing to search for: no failure came, the cause is known, or a heading came after the failure.
    Over,

    /// After the failure, before the line `Caused by:`.
    Failed,

    /// Right after the line `Caused by:`.
    CausedBy,
}

/// What is kept of the lines of a file that are no events of a harness.
pub(crate) struct Others {
    /// The prints before the first heading or failure of cargo, and between two of them.
    past: Vec<Prints>,

    /// The prints after the last heading or failure.
    prints: Prints,

    headings: usize,

    /// The causes that cargo named of its failures.
    causes: Vec<Cause>,

    /// The plain text of the cause of the last failure, or its first 200 bytes.
    last_cause: Option<String>,
    stage: Stage,
}

impl Drop for Others {
    fn drop(self) {
        let Others {
            past: _,
            prints: _,
            headings: _,
            causes: _,
            last_cause: _,
            stage: _,
        } = self;
    }
}

impl Others {
    /// Returns what is kept before the first line.
    pub(crate) fn new(alloc: Global) -> Others
        ensures { others_view result ≡ spec.no_others }
    {
        Others {
            past: Vec::new(alloc),
            prints: Prints::new(alloc),
            headings: 0,
            causes: Vec::new(alloc),
            last_cause: None,
            stage: Stage::Over,
        }
    }

    /// Takes a print. Fails if memory runs out, or the number of prints does not fit.
    pub(crate) fn on_print(
        &mut self,
        alloc: Global,
        line: &str,
        plain: &str,
    ) -> Result<(), RunError>
        ensures takes { OnOk result (others_view self.new
            ≡ spec.after_print (others_view self.old) line.now plain.now) }
    {
        self.prints.take_print(alloc, line)?;
        if matches!(self.stage, Stage::CausedBy) {
            self.keep_cause(alloc, line, plain)?;
        }
        self.stage = stage_after(self.stage, plain);
        Ok(())
    }

    /// Keeps the cause of the last failure.
    fn keep_cause(&mut self, alloc: Global, line: &str, plain: &str) -> Result<(), AllocError>
        ensures { OnOk result (others_view self.new ≡ spec.with_cause stage.CausedBy (others_view self.old) line.now plain.now) }
    {
        let line = String::from_str(alloc, shortened(line))?;
        self.causes.push(Cause {
            headings: self.headings,
            line,
        })?;
        self.last_cause = Some(String::from_str(alloc, shortened(plain))?);
        Ok(())
    }

    /// Takes a heading. Fails if memory runs out, or the number of headings does not fit.
    pub(crate) fn on_heading(&mut self, alloc: Global) -> Result<(), RunError>
        ensures takes { OnOk result (others_view self.new ≡ spec.after_heading (others_view self.old)) }
    {
        self.end_part(alloc)?;
        self.headings = one_more(self.headings)?;
        self.stage = Stage::Over;
        Ok(())
    }

    /// Takes a failure of cargo.
    pub(crate) fn on_failure(&mut self, alloc: Global) -> Result<(), AllocError>
        ensures { OnOk result (others_view self.new ≡ spec.after_failure (others_view self.old)) }
    {
        self.end_part(alloc)?;
        self.last_cause = None;
        self.stage = Stage::Failed;
        Ok(())
    }

    /// Ends the prints after the last heading or failure.
    fn end_part(&mut self, alloc: Global) -> Result<(), AllocError>
        ensures { OnOk result (others_view self.new ≡ record (others_view self.old) {
          past = (others_view self.old).past ++ (others_view self.old).prints ∷ [];
          prints = no_prints;
        }) }
    {
        let prints = std::mem::replace(&mut self.prints, Prints::new(alloc));
        self.past.push(prints)?;
        Ok(())
    }

    /// Returns the place of the next print.
    pub(crate) fn print_place(&self) -> PrintPlace
        ensures { result ≡ spec.print_place (others_view self.now) }
    {
        PrintPlace {
            part: self.past.len(),
            print: self.prints.count(),
        }
    }

    /// Returns the place of an event.
    pub(crate) fn event_place(&self) -> EventPlace
        ensures { result ≡ spec.event_place (others_view self.now) }
    {
        EventPlace {
            causes: self.causes.len(),
            headings: self.headings,
        }
    }

    /// Returns the prints of a part: those between two headings or failures, or after the last one.
    fn part_at(&self, part: usize) -> &Prints
        ensures { prints_view result.now ≡ spec.part_at (others_view self.now) part }
    {
        self.past.get(part).unwrap_or(&self.prints)
    }

    /// Returns the text of the prints from a place on, up to the first heading or failure after it: the longest end
    /// that fits.
    pub(crate) fn prints_from(&self, alloc: Global, at: PrintPlace) -> Result<String, AllocError>
        ensures { IfOk result (λ text. string_bytes text ≡ spec.prints_from (others_view self.now) at) }
    {
        self.part_at(at.part).text_from(alloc, at.print)
    }

    /// Returns the last three of these prints that are not blank.
    pub(crate) fn last_prints_from(
        &self,
        alloc: Global,
        at: PrintPlace,
    ) -> Result<Vec<String>, AllocError>
        ensures { IfOk result (λ lines. map string_bytes lines.items ≡ spec.last_prints_from (others_view self.now) at) }
    {
        self.part_at(at.part).last_from(alloc, at.print)
    }

    /// Returns the first cause after an event, unless a heading came between them.
    pub(crate) fn cause_after(
        &self,
        alloc: Global,
        at: EventPlace,
    ) -> Result<Option<String>, AllocError>
        ensures { IfOk result (λ cause. text_view cause ≡ spec.cause_after (others_view self.now) at) }
    {
        let Some(cause) = self.causes.get(at.causes) else {
            return Ok(None);
        };
        if cause.headings == at.headings {
            Ok(Some(cause.line.clone()?))
        } else {
            Ok(None)
        }
    }

    /// Returns the plain text of the cause of the last failure.
    pub(crate) fn last_cause(&self) -> Result<Option<String>, AllocError>
        ensures { IfOk result (λ cause. text_view cause ≡ (others_view self.now).last_cause) }
    {
        self.last_cause.clone()
    }
}

/// Returns how far the search for a cause is after a print.
fn stage_after(stage: Stage, plain: &str) -> Stage
    ensures { result ≡ spec.stage_after stage plain.now }
{
    match stage {
        Stage::Failed if says_caused_by(plain) => Stage::CausedBy,
        Stage::Failed => Stage::Failed,
        Stage::Over | Stage::CausedBy => Stage::Over,
    }
}

/// Returns true if a line is `Caused by:`, perhaps after spaces.
fn says_caused_by(plain: &str) -> bool
    ensures { result ≡ spec.says_caused_by plain.now }
{
    plain.trim_start_matches(' ') == CAUSED_BY
}
