//! Parses a line of a test run.

ghost use Rattle.std.specs.Prelude.{◌≡◌, ◌≤◌, ℕ, IfOk, MatchOption, Some, None, drop, length, option_map};
ghost use Rattle.serde_json.specs.Data.{Data};
ghost use Rattle.serde_json.specs.Read.{read};
ghost use Rattle.serde_json.specs.View.{view};
ghost use Rattle.test_report_events.specs.Content as kept;
ghost use Rattle.test_report_events.specs.Damage.{IsDamage};
ghost use Rattle.test_report_events.specs.Event.{EventView, event_view};
ghost use Rattle.test_report_events.specs.Line.{EventSays, Holds, HoldsEvent, IsJson, IsPrint, LineSays, RestOf};
ghost use Rattle.test_report_events.specs.Program.{TellsProgram, program_view};
ghost use Rattle.test_report_events.specs.Table.{FindsLastObject, IsValueOf};

use crate::content::Content;
use crate::damage::damage_of;
use crate::event::Event;
use crate::members::Members;
use crate::plain::{line_text, plain_text};
use crate::program::ProgramLine;
use crate::started::started_test;
use crate::text::text_contents;
use bstr::ByteSlice;
use serde_json::Value;
use std::alloc::{AllocError, Global};

/// A parsed line of a test run.
pub struct Line {
    /// The print in front of the event, if there is one.
    before: Option<Content>,

    /// The event of the line.
    content: Content,

    /// The event that the rest of the line is damaged, if it is.
    damage: Option<Content>,

    /// The number of bytes at the start of the line that are no event, unless it is wholly an event.
    rest: Option<usize>,

    /// What the line says of a program or of the command, if it does.
    program: Option<ProgramLine>,
}

impl Drop for Line {
    fn drop(self) {
        let Line {
            before: _,
            content: _,
            damage: _,
            rest: _,
            program: _,
        } = self;
    }
}

impl Line {
    /// Parses a line. `bytes` is the line without its line feed. It may end with a carriage return, and need not be
    /// UTF-8. A line that is no event of a harness, no heading and no failure of cargo is a print.
    ///
    /// If the whole line is not JSON, the parser starts again at the last `{ "type"` or `{"type"` in it. So
    /// it finds an event even if a test printed text at the start of the same line. Headings and failures of
    /// cargo are found in the same way at the end of a line.
    pub fn read(alloc: Global, bytes: &[u8]) -> Result<Line, AllocError>
        ensures says { IfOk result (λ line. LineSays bytes.now (kept.events_of line)) }
        ensures rest { IfOk result (λ line. RestOf bytes.now (kept.rest_of line)) }
        ensures tells { IfOk result (λ line. TellsProgram bytes.now (kept.program_of line)) }
    {
        if let Some(name) = started_test(bytes) {
            let content = Content::test_started(alloc, name)?;
            return Ok(Line {
                before: None,
                content,
                damage: None,
                rest: None,
                program: None,
            });
        }
        match value_in(alloc, bytes)? {
            Some((at, value)) => value_line(alloc, bytes, at, &value),
            None => text_line(alloc, bytes),
        }
    }

    /// Returns the print that comes before the event of the line, if there is one. Text that a test or a program
    /// printed without a line feed can be in front of a line of cargo.
    pub fn before(&self) -> Option<Event<'_>>
        ensures { option_map event_view result ≡ kept.before_of self.now }
    {
        self.before.as_ref().map(Content::event)
    }

    /// Returns the event of the line. It borrows its texts from the line.
    pub fn event(&self) -> Event<'_>
        ensures { event_view result ≡ kept.event_of self.now }
    {
        self.content.event()
    }

    /// Returns `Event::Damaged` if the text of the line that is no event says that a test, a suite or a benchmark failed.
    /// This event comes after the other events of the line.
    pub fn damage(&self) -> Option<Event<'_>>
        ensures { option_map event_view result ≡ kept.damage_of self.now }
    {
        self.damage.as_ref().map(Content::event)
    }

    /// Returns the number of bytes at the start of the line that are no event of a test harness: the length of the
    /// text in front of the event, or the length of the whole line if it has no event. Returns `None` if the line
    /// is wholly an event.
    pub fn rest(&self) -> Option<usize>
        ensures { result ≡ kept.rest_of self.now }
    {
        self.rest
    }

    /// Returns what the line says of a program or of the command, if it does. Its event is `Event::Other`: whether
    /// such a line counts depends on where it is read.
    pub fn program(&self) -> Option<&ProgramLine>
        ensures { option_map (λ line. program_view line.now) result ≡ kept.program_of self.now }
    {
        self.program.as_ref()
    }
}

/// Returns the line with this content, which is no event of a test harness, and so says nothing of a program.
fn other_line(
    bytes: &[u8],
    before: Option<Content>,
    content: Content,
    damage: Option<Content>,
) -> Line
    requires none { (at : ℕ) (e : EventView) → ¬ HoldsEvent bytes.now at e }
    requires says { EventSays bytes.now (option_map kept.content_event before) (kept.content_event content) }
    requires damaged { IsDamage bytes.now (option_map kept.content_event damage) }
    ensures says { LineSays bytes.now (kept.events_of result) }
    ensures rest { RestOf bytes.now (kept.rest_of result) }
    ensures tells { result.program ≡ None }
{
    Line {
        before,
        content,
        damage,
        rest: Some(bytes.len()),
        program: None,
    }
}

/// Parses bytes as JSON, and returns `None` if they are not JSON.
fn value_from(alloc: Global, bytes: &[u8]) -> Result<Option<Value>, AllocError>
    ensures { IfOk result (λ found. IsValueOf bytes.now found) }
{
    match str::from_utf8(bytes) {
        Ok(text) => value_of_text(alloc, text),
        Err(_) => Ok(None),
    }
}

/// Parses a text as JSON, and returns `None` if it is not JSON. This is faster than to parse bytes, because the
/// parser does not check each string for UTF-8.
fn value_of_text(alloc: Global, text: &str) -> Result<Option<Value>, AllocError>
    ensures { IfOk result (λ found. MatchOption found (read text.now ≡ None) (λ value. read text.now ≡ Some (view value))) }
{
    match Value::from_str(alloc, text) {
        Ok(value) => Ok(Some(value)),
        Err(error) if error.is_memory() => Err(AllocError),
        Err(_) => Ok(None),
    }
}

/// Returns the JSON value of a line, or else of the part of it that starts at its last event, and the offset at
/// which the value begins.
fn value_in(alloc: Global, bytes: &[u8]) -> Result<Option<(usize, Value)>, AllocError>
    ensures { IfOk result (λ found. MatchOption found
        ((at : ℕ) (d : Data) → ¬ Holds bytes.now at d)
        (λ found. Holds bytes.now found.0 (view found.1))) }
{
    match value_from(alloc, bytes)? {
        Some(value) => Ok(Some((0, value))),
        None => match last_object(bytes) {
            Some(at) => value_at(alloc, bytes, at),
            None => Ok(None),
        },
    }
}

/// Returns the JSON value that begins at an offset, and the offset.
fn value_at(alloc: Global, bytes: &[u8], at: usize) -> Result<Option<(usize, Value)>, AllocError>
    requires { at ≤ length bytes.now }
    ensures { IfOk result (λ found. MatchOption found
        ((d : Data) → ¬ IsJson (drop at bytes.now) d)
        (λ found. (found.0 ≡ at) × IsJson (drop at bytes.now) (view found.1))) }
{
    match value_from(alloc, &bytes[at..])? {
        Some(value) => Ok(Some((at, value))),
        None => Ok(None),
    }
}

/// Returns the last offset at which an event starts. The harness writes a space after the brace of an
/// event, and nextest does not.
fn last_object(line: &[u8]) -> Option<usize>
    ensures { FindsLastObject line.now result }
{
    match (line.rfind(b"{ \"type\""), line.rfind(b"{\"type\"")) {
        (Some(spaced), Some(close)) => Some(spaced.max(close)),
        (Some(spaced), None) => Some(spaced),
        (None, close) => close,
    }
}

/// Returns the line that has a JSON value from an offset on: an event, or a print if the value is no event.
fn value_line(alloc: Global, bytes: &[u8], at: usize, value: &Value) -> Result<Line, AllocError>
    requires { Holds bytes.now at (view value.now) }
    ensures says { IfOk result (λ line. LineSays bytes.now (kept.events_of line)) }
    ensures rest { IfOk result (λ line. RestOf bytes.now (kept.rest_of line)) }
    ensures tells { IfOk result (λ line. TellsProgram bytes.now (kept.program_of line)) }
{
    let members = Members::of(value);
    let time = members.time_in(bytes);
    match members.event_kind() {
        Some(kind) => {
            let damage = damage_of(alloc, &bytes[..at])?;
            let content = members.content(alloc, time, kind)?;
            let program = ProgramLine::of(alloc, value)?;
            Ok(Line {
                before: None,
                content,
                damage,
                rest: (at > 0).then_some(at),
                program,
            })
        }
        None => print_line(alloc, bytes),
    }
}

/// Returns the line that is a print.
fn print_line(alloc: Global, bytes: &[u8]) -> Result<Line, AllocError>
    requires none { (at : ℕ) (e : EventView) → ¬ HoldsEvent bytes.now at e }
    requires says { (e : EventView) → IsPrint bytes.now e → EventSays bytes.now None e }
    ensures says { IfOk result (λ line. LineSays bytes.now (kept.events_of line)) }
    ensures rest { IfOk result (λ line. RestOf bytes.now (kept.rest_of line)) }
    ensures tells { IfOk result (λ line. line.program ≡ None) }
{
    let plain = plain_text(alloc, bytes)?;
    let line = line_text(alloc, bytes)?;
    let damage = damage_of(alloc, bytes)?;
    Ok(other_line(bytes, None, Content::Print { line, plain }, damage))
}

/// Returns the line that has no JSON value.
fn text_line(alloc: Global, bytes: &[u8]) -> Result<Line, AllocError>
    requires { (at : ℕ) (d : Data) → ¬ Holds bytes.now at d }
    ensures says { IfOk result (λ line. LineSays bytes.now (kept.events_of line)) }
    ensures rest { IfOk result (λ line. RestOf bytes.now (kept.rest_of line)) }
    ensures tells { IfOk result (λ line. TellsProgram bytes.now (kept.program_of line)) }
{
    let damage = damage_of(alloc, bytes)?;
    let (before, content) = text_contents(alloc, bytes)?;
    Ok(other_line(bytes, before, content, damage))
}
