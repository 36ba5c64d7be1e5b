//! The members of the JSON object of an event.

ghost use Rattle.std.specs.Prelude.{◌≡◌, ℕ, IfOk, Option, Some, codes, option_and_then, option_map, if◌then◌else◌};
ghost use Rattle.std.specs.Str.{bytes_eq};
ghost use Rattle.serde_json.specs.Data.{Data, Members as MemberList, object, put};
ghost use Rattle.serde_json.specs.Find.{as_str, get};
ghost use Rattle.serde_json.specs.View.{view};
ghost use Rattle.test_report_events.specs.Content.{content_event};
ghost use Rattle.test_report_events.specs.Event.{TestEnds, suite_end_view, text_of_key};
ghost use Rattle.test_report_events.specs.Members.{AreMembersOf};
ghost use Rattle.test_report_events.specs.Said as said;
ghost use Rattle.test_report_events.specs.Table.{bench_result, kind_said, object_said, suite_end_said, suite_said, test_end_said, test_said, typed_said};

use crate::content::Content;
use crate::event::{SuiteEnd, SuiteKey, TestDetails, TestResult};
use crate::time::exec_time;
use serde_json::Value;
use std::alloc::{AllocError, Global};

/// The greatest number of tests that a line can have.
const GREATEST_COUNT: u64 = 0xFFFF_FFFF;

/// The members of an object that lines of tests have. One pass over the object finds all of them.
#[derive(Clone, Copy)]
pub(crate) struct Members<'a> {
    object: &'a Value,
    kind: Option<&'a Value>,
    event: Option<&'a Value>,
    name: Option<&'a Value>,
    stdout: Option<&'a Value>,
    message: Option<&'a Value>,
    reason: Option<&'a Value>,
    time: Option<&'a Value>,
}

/// The kind of an object's event, and what tells it from others of its kind.
#[derive(Clone, Copy)]
pub(crate) enum EventKind<'a> {
    /// A suite starts.
    SuiteStarted,

    /// A suite ends.
    SuiteEnded { failed_verdict: bool },

    /// A test starts.
    TestStarted { name: &'a str },

    /// A test or a benchmark ends.
    TestEnded { name: &'a str, result: TestResult },

    /// A test is slow.
    TestSlow { name: &'a str },

    /// Another line of a test harness.
    Other,
}

/// Returns the value that is kept for a word, after one more member.
fn kept_for<'a>(
    old: Option<&'a Value>,
    word: &str,
    key: &str,
    value: &'a Value,
) -> Option<&'a Value>
    ensures { result ≡ (if bytes_eq key.now word.now then Some value.entry else old.entry) }
{
    if key == word { Some(value) } else { old }
}

/// Returns the text of a member.
pub(crate) fn text_of<'a>(value: &'a Value, key: &str) -> Option<&'a str>
    ensures { option_map (λ text. text.now) result ≡ said.text_of key.now (view value.now) }
{
    value.get(key).and_then(Value::as_str)
}

/// Returns the number of a member.
pub(crate) fn number_of(value: &Value, key: &str) -> Option<u64>
    ensures { result ≡ said.number_of key.now (view value.now) }
{
    value.get(key).and_then(Value::as_u64)
}

/// Returns a number of tests, or `None` if it needs more than 32 bits. So no sum of such numbers overflows.
fn count_of(value: &Value, key: &str) -> Option<u64>
    ensures { result ≡ said.count_of key.now (view value.now) }
{
    match number_of(value, key) {
        Some(number) if number <= GREATEST_COUNT => Some(number),
        _ => None,
    }
}

/// Returns the text of a value that is a text.
fn text_in(value: Option<&Value>) -> Option<&str>
    ensures { option_map (λ text. text.now) result
        ≡ option_and_then as_str (option_map (λ v. view v.now) value.entry) }
{
    value.and_then(Value::as_str)
}

/// Returns the text of a value that is a text, unless it is empty.
fn words_in(value: Option<&Value>) -> Option<&str>
    ensures { option_map (λ text. text.now) result ≡ option_and_then said.unless_empty
        (option_and_then as_str (option_map (λ v. view v.now) value.entry)) }
{
    match text_in(value) {
        Some("") | None => None,
        words => words,
    }
}

impl<'a> Members<'a> {
    /// Returns the members of an object.
    pub(crate) fn of(object: &'a Value) -> Members<'a>
        ensures object { result.object.now ≡ object.now }
        ensures are { AreMembersOf (view object.now) result }
    {
        let mut members = Members {
            object,
            kind: None,
            event: None,
            name: None,
            stdout: None,
            message: None,
            reason: None,
            time: None,
        };
        if let Some(map) = object.as_object() {
            for (key, value) in map.iter() {
                members = members.with(key.as_str(), value);
            }
        }
        members
    }

    /// Returns the members after the next one of the object, which is kept if its key is one of those above.
    fn with(self, key: &str, value: &'a Value) -> Members<'a>
        ensures object { result.object ≡ self.entry.object }
        ensures takes { (ms : MemberList) → AreMembersOf (object ms) self.entry
            → AreMembersOf (object (put key.now (view value.now) ms)) result }
    {
        Members {
            object: self.object,
            kind: kept_for(self.kind, "type", key, value),
            event: kept_for(self.event, "event", key, value),
            name: kept_for(self.name, "name", key, value),
            stdout: kept_for(self.stdout, "stdout", key, value),
            message: kept_for(self.message, "message", key, value),
            reason: kept_for(self.reason, "reason", key, value),
            time: kept_for(self.time, "exec_time", key, value),
        }
    }

    /// Returns the text of `type`.
    fn kind(&self) -> Option<&'a str>
        requires { AreMembersOf (view self.now.object.now) self.now }
        ensures { option_map (λ text. text.now) result
            ≡ said.text_of (codes "type") (view self.now.object.now) }
    {
        text_in(self.kind)
    }

    /// Returns the text of `event`.
    fn event_word(&self) -> Option<&'a str>
        requires { AreMembersOf (view self.now.object.now) self.now }
        ensures { option_map (λ text. text.now) result
            ≡ said.text_of (codes "event") (view self.now.object.now) }
    {
        text_in(self.event)
    }

    /// Returns the text of `name`.
    fn name(&self) -> Option<&'a str>
        requires { AreMembersOf (view self.now.object.now) self.now }
        ensures { option_map (λ text. text.now) result
            ≡ said.text_of (codes "name") (view self.now.object.now) }
    {
        text_in(self.name)
    }

    /// Returns the output, the messages and the time of a test.
    fn details(&self, time: Option<u64>) -> TestDetails<'a>
        requires { AreMembersOf (view self.now.object.now) self.now }
        ensures stdout { option_map (λ text. text.now) result.stdout
            ≡ said.text_of (codes "stdout") (view self.now.object.now) }
        ensures message { option_map (λ text. text.now) result.message
            ≡ said.words_of (codes "message") (view self.now.object.now) }
        ensures reason { option_map (λ text. text.now) result.reason
            ≡ said.words_of (codes "reason") (view self.now.object.now) }
        ensures time { result.time ≡ time }
    {
        TestDetails {
            stdout: text_in(self.stdout),
            message: words_in(self.message),
            reason: words_in(self.reason),
            time,
        }
    }

    /// Returns the time of the object in microseconds. `line` is the line that has the object.
    pub(crate) fn time_in(&self, line: &[u8]) -> Option<u64>
        requires { AreMembersOf (view self.now.object.now) self.now }
        ensures { said.IsTime line.now (view self.now.object.now) result }
    {
        if self.time.is_some_and(Value::is_number) {
            exec_time(line)
        } else {
            None
        }
    }

    /// Returns the result of a benchmark, which passed unless it failed.
    #[tactic(auto, unfolding(crate::specs::Table::bench_result))]
    fn bench_result(&self) -> TestResult
        requires { AreMembersOf (view self.now.object.now) self.now }
        ensures { result ≡ bench_result (view self.now.object.now) }
    {
        match self.event_word() {
            Some("failed") => TestResult::Failed,
            _ => TestResult::Ok,
        }
    }

    /// Returns the kind of the event of a suite.
    #[tactic(auto, unfolding(crate::specs::Table::suite_said))]
    fn suite_kind(&self) -> Option<EventKind<'a>>
        requires { AreMembersOf (view self.now.object.now) self.now }
        ensures { (time : Option ℕ) → option_map (kind_said time (view self.now.object.now)) result
            ≡ option_and_then (suite_said time (view self.now.object.now)) (said.text_of (codes "event") (view self.now.object.now)) }
    {
        match self.event_word() {
            Some("started") => Some(EventKind::SuiteStarted),
            Some("ok") => Some(EventKind::SuiteEnded {
                failed_verdict: false,
            }),
            Some("failed") => Some(EventKind::SuiteEnded {
                failed_verdict: true,
            }),
            Some(_) => Some(EventKind::Other),
            None => None,
        }
    }

    /// Returns the kind of the event of a test.
    fn named_kind(&self) -> Option<EventKind<'a>>
        requires { AreMembersOf (view self.now.object.now) self.now }
        ensures { (time : Option ℕ) → option_map (kind_said time (view self.now.object.now)) result
            ≡ option_and_then (λ name. option_and_then (test_said time (view self.now.object.now) name) (said.text_of (codes "event") (view self.now.object.now)))
            (said.text_of (codes "name") (view self.now.object.now)) }
    {
        match (self.name(), self.event_word()) {
            (Some(name), Some(event)) => Some(test_kind(name, event)),
            _ => None,
        }
    }

    /// Returns the kind of the event of a benchmark.
    fn bench_kind(&self) -> Option<EventKind<'a>>
        requires { AreMembersOf (view self.now.object.now) self.now }
        ensures { (time : Option ℕ) → option_map (kind_said time (view self.now.object.now)) result
            ≡ option_and_then (λ name. Some (TestEnds (test_end_said time (view self.now.object.now) name (bench_result (view self.now.object.now)))))
            (said.text_of (codes "name") (view self.now.object.now)) }
    {
        match self.name() {
            Some(name) => Some(EventKind::TestEnded {
                name,
                result: self.bench_result(),
            }),
            None => None,
        }
    }

    /// Returns the kind of the event of an object of a type.
    #[tactic(auto, unfolding(crate::specs::Table::typed_said))]
    fn typed_kind(&self, kind: &str) -> Option<EventKind<'a>>
        requires { AreMembersOf (view self.now.object.now) self.now }
        ensures { (time : Option ℕ) → option_map (kind_said time (view self.now.object.now)) result
            ≡ typed_said time (view self.now.object.now) kind.now }
    {
        match kind {
            "report" | "program" | "command" => Some(EventKind::Other),
            "suite" => self.suite_kind(),
            "test" => self.named_kind(),
            "bench" => self.bench_kind(),
            _ => None,
        }
    }

    /// Returns the kind of the event of the object, or `None` if the object is no event.
    pub(crate) fn event_kind(&self) -> Option<EventKind<'a>>
        requires { AreMembersOf (view self.now.object.now) self.now }
        ensures { (time : Option ℕ) → option_map (kind_said time (view self.now.object.now)) result
            ≡ object_said time (view self.now.object.now) }
    {
        match self.kind() {
            Some(kind) => self.typed_kind(kind),
            None => None,
        }
    }

    /// Returns the event of this kind, with a copy of its texts.
    pub(crate) fn content(
        &self,
        alloc: Global,
        time: Option<u64>,
        kind: EventKind<'_>,
    ) -> Result<Content, AllocError>
        requires { AreMembersOf (view self.now.object.now) self.now }
        ensures { IfOk result (λ content. content_event content ≡ kind_said time (view self.now.object.now) kind.entry) }
    {
        let object = self.object;
        match kind {
            EventKind::SuiteStarted => Content::suite_started(
                alloc,
                key_of(object),
                count_of(object, "test_count"),
            ),
            EventKind::SuiteEnded { failed_verdict } => Content::suite_ended(
                alloc,
                suite_end_of(object, time, failed_verdict),
            ),
            EventKind::TestStarted { name } => Content::test_started(alloc, name),
            EventKind::TestEnded {
                name,
                result: outcome,
            } => Content::test_ended(alloc, name, outcome, self.details(time)),
            EventKind::TestSlow { name } => Ok(Content::TestSlow {
                name: String::from_str(alloc, name)?,
            }),
            EventKind::Other => Ok(Content::Other),
        }
    }
}

/// Returns the kind of a test's event.
#[tactic(auto, unfolding(crate::specs::Table::test_said))]
fn test_kind<'a>(name: &'a str, event: &str) -> EventKind<'a>
    ensures { (time : Option ℕ) (d : Data) → test_said time d name.now event.now ≡ Some (kind_said time d result) }
{
    match event {
        "started" => EventKind::TestStarted { name },
        "ok" => EventKind::TestEnded {
            name,
            result: TestResult::Ok,
        },
        "failed" => EventKind::TestEnded {
            name,
            result: TestResult::Failed,
        },
        "ignored" => EventKind::TestEnded {
            name,
            result: TestResult::Ignored,
        },
        "timeout" => EventKind::TestSlow { name },
        _ => EventKind::Other,
    }
}

/// Returns the key of a suite.
fn key_of(value: &Value) -> Option<SuiteKey<'_>>
    ensures { option_map text_of_key result ≡ said.key_of (view value.now) }
{
    value.get("nextest").and_then(key_in)
}

/// Returns the key of a suite in the value of `nextest`.
fn key_in(nextest: &Value) -> Option<SuiteKey<'_>>
    ensures { option_map text_of_key result ≡ said.key_in (view nextest.now) }
{
    match (text_of(nextest, "crate"), text_of(nextest, "test_binary")) {
        (Some(package), Some(binary)) => Some(SuiteKey {
            package,
            binary,
            stress_index: number_of(nextest, "stress_index"),
        }),
        _ => None,
    }
}

/// Returns the end of a suite.
fn suite_end_of(value: &Value, time: Option<u64>, failed_verdict: bool) -> SuiteEnd<'_>
    ensures { suite_end_view result ≡ suite_end_said time (view value.now) failed_verdict }
{
    SuiteEnd {
        key: key_of(value),
        failed_verdict,
        passed: count_of(value, "passed"),
        failed: count_of(value, "failed"),
        ignored: count_of(value, "ignored"),
        measured: count_of(value, "measured"),
        time,
    }
}
