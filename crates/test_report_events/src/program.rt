//! What a line says of a test program, or of the command that runs all of them.

ghost use Rattle.std.specs.Prelude.{◌≡◌, IfOk, codes, option_map, string_bytes, unwrap_or};
ghost use Rattle.serde_json.specs.View.{view};
ghost use Rattle.test_report_events.specs.Program as spec;

use crate::cargo::{file_name, suite_of};
use crate::content::owned;
use crate::members::{number_of, text_of};
use run_events_results::results::CancelReason;
use serde_json::Value;
use std::alloc::{AllocError, Global};

/// The name of a program if its line has no name, no target and no path.
const NAMELESS: &str = "program";

/// How a program or a command ended.
#[derive(Clone, Copy)]
pub enum ProgramEnd {
    /// It ended with this exit status. On some systems a status may be negative.
    Status(i64),

    /// The signal with this number ended it.
    Signal(u64),
}

/// A test program that starts, or rustdoc, which runs documentation tests.
#[derive(Drop)]
pub struct ProgramStart {
    /// The name of its suites: the one that the line has; or else `PACKAGE (doc tests)`, if it runs documentation
    /// tests; or else the target, or the file name of its path.
    pub name: String,

    /// The path of the program, if the line has it.
    pub path: Option<String>,

    /// True if the program has its own harness, which may write no line of a test.
    pub own_harness: bool,

    /// True if the harness was asked for a list of its tests or for its help, and runs none.
    pub lists: bool,
}

/// What a line says of a test program, or of the command that runs all of them. These lines have the types `program`
/// and `command`; `test-report` writes them when it runs a command.
#[derive(Drop)]
pub enum ProgramLine {
    /// A program starts.
    ProgramStarted(ProgramStart),

    /// A program ended.
    ProgramEnded {
        /// How it ended, if the line says so.
        end: Option<ProgramEnd>,

        /// The end of what it wrote to standard error.
        stderr: String,
    },

    /// The command starts.
    CommandStarted,

    /// Ctrl-C or SIGTERM was taken here, for the reason that the line has. Another reason than these is `None`.
    CommandCancelled(Option<CancelReason>),

    /// The command ended.
    CommandEnded {
        /// How it ended. If this is `None`, it could not be started.
        end: Option<ProgramEnd>,

        /// The error that it reported, or that of the system.
        error: Option<String>,

        /// Why the run was cancelled, if the line says so.
        reason: Option<CancelReason>,
    },
}

impl ProgramLine {
    /// Returns what a JSON object says of a program or of the command, if it does.
    pub(crate) fn of(alloc: Global, object: &Value) -> Result<Option<ProgramLine>, AllocError>
        ensures { IfOk result (λ line. option_map spec.program_view line ≡ spec.object_tells (view object.now)) }
    {
        match (text_of(object, "type"), text_of(object, "event")) {
            (Some("program"), Some(event)) => program_line(alloc, object, event),
            (Some("command"), Some(event)) => command_line(alloc, object, event),
            _ => Ok(None),
        }
    }
}

/// Returns what an object of the type `program` says, of this event.
fn program_line(
    alloc: Global,
    object: &Value,
    event: &str,
) -> Result<Option<ProgramLine>, AllocError>
    ensures { IfOk result (λ line. option_map spec.program_view line
        ≡ spec.program_said (view object.now) event.now) }
{
    match event {
        "started" => Ok(Some(ProgramLine::ProgramStarted(start_of(alloc, object)?))),
        "ended" => Ok(Some(ProgramLine::ProgramEnded {
            end: end_of(object),
            stderr: String::from_str(alloc, text_of(object, "stderr").unwrap_or(""))?,
        })),
        _ => Ok(None),
    }
}

/// Returns what an object of the type `command` says, of this event.
fn command_line(
    alloc: Global,
    object: &Value,
    event: &str,
) -> Result<Option<ProgramLine>, AllocError>
    ensures { IfOk result (λ line. option_map spec.program_view line
        ≡ spec.command_said (view object.now) event.now) }
{
    match event {
        "started" => Ok(Some(ProgramLine::CommandStarted)),
        "cancelled" => Ok(Some(ProgramLine::CommandCancelled(reason_of(object)))),
        "ended" => Ok(Some(ProgramLine::CommandEnded {
            end: end_of(object),
            error: owned(alloc, text_of(object, "error"))?,
            reason: reason_of(object),
        })),
        _ => Ok(None),
    }
}

/// Returns the program that starts.
fn start_of(alloc: Global, object: &Value) -> Result<ProgramStart, AllocError>
    ensures { IfOk result (λ start. spec.start_view start ≡ spec.start_of (view object.now)) }
{
    Ok(ProgramStart {
        name: name_of(alloc, object)?,
        path: owned(alloc, text_of(object, "path"))?,
        own_harness: !truth_of(object, "harness").unwrap_or(true),
        lists: truth_of(object, "list").unwrap_or(false),
    })
}

/// Returns the name of the program that starts.
fn name_of(alloc: Global, object: &Value) -> Result<String, AllocError>
    ensures { IfOk result (λ name. string_bytes name ≡ unwrap_or (spec.name_of (view object.now)) (codes "program")) }
{
    if let Some(name) = text_of(object, "name") {
        return String::from_str(alloc, name);
    }
    match (text_of(object, "kind"), text_of(object, "package")) {
        (Some("doc"), Some(package)) => suite_of(alloc, package, "doc tests"),
        (Some("doc"), None) => String::from_str(alloc, NAMELESS),
        _ => String::from_str(alloc, target_of(object).unwrap_or(NAMELESS)),
    }
}

/// Returns the target of the program that starts, or the file name of its path.
fn target_of(object: &Value) -> Option<&str>
    ensures { option_map (λ target. target.now) result ≡ spec.target_of (view object.now) }
{
    match text_of(object, "target") {
        Some(target) => Some(target),
        None => text_of(object, "path").map(file_name),
    }
}

/// Returns how something ended.
fn end_of(object: &Value) -> Option<ProgramEnd>
    ensures { result ≡ spec.end_of (view object.now) }
{
    match object.get("status").and_then(Value::as_i64) {
        Some(status) => Some(ProgramEnd::Status(status)),
        None => number_of(object, "signal").map(ProgramEnd::Signal),
    }
}

/// Returns why the run is cancelled.
fn reason_of(object: &Value) -> Option<CancelReason>
    ensures { result ≡ spec.cancelled_of (view object.now) }
{
    match text_of(object, "cancelled") {
        Some("Interrupt") => Some(CancelReason::Interrupt),
        Some("Signal") => Some(CancelReason::Signal),
        _ => None,
    }
}

/// Returns the truth value of a member.
fn truth_of(object: &Value, key: &str) -> Option<bool>
    ensures { result ≡ spec.truth_of key.now (view object.now) }
{
    object.get(key).and_then(Value::as_bool)
}
