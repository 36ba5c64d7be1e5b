//! The event of a line, with texts of its own.

ghost use Rattle.std.specs.Prelude.{◌≡◌, IfOk, option_map, string_bytes};
ghost use Rattle.test_report_events.specs.Content as kept;
ghost use Rattle.test_report_events.specs.Event.{CargoFails, Prints, SuiteEnds, SuiteStarts, TestEnds, TestStarts, event_view, suite_end_view, test_end_view, text_of_key};

use crate::cargo::CargoLine;
use crate::event::{CargoFailure, Event, SuiteEnd, SuiteKey, TestDetails, TestResult};
use std::alloc::{AllocError, Global};

/// An event that has its texts. An [`Event`] borrows them.
pub(crate) enum Content {
    /// A suite starts.
    SuiteStarted {
        key: Option<KeyTexts>,
        test_count: Option<u64>,
    },

    /// A suite ends.
    SuiteEnded(LastLine),

    /// A test starts.
    TestStarted {
        name: String,
    },

    /// A test ends.
    TestEnded(TestEnd),

    /// A test is slow.
    TestSlow {
        name: String,
    },

    /// Another line of a test harness.
    Other,

    /// A heading of cargo.
    Heading {
        suite: String,
        path: Option<String>,
    },

    /// A failure that cargo or nextest reports.
    Failure {
        failure: CargoFailure,
        line: String,
        plain: String,
    },

    /// A print.
    Print {
        line: String,
        plain: String,
    },

    /// A damaged line says that a test or a suite failed.
    Damaged(String),
}

impl Drop for Content {
    fn drop(self) {
        match self {
            Content::SuiteStarted {
                key: _,
                test_count: _,
            }
            | Content::SuiteEnded(_)
            | Content::TestStarted { name: _ }
            | Content::TestEnded(_)
            | Content::TestSlow { name: _ }
            | Content::Other
            | Content::Heading { suite: _, path: _ }
            | Content::Failure {
                failure: _,
                line: _,
                plain: _,
            }
            | Content::Print { line: _, plain: _ }
            | Content::Damaged(_) => {}
        }
    }
}

/// The key of a suite.
#[derive(Drop)]
pub(crate) struct KeyTexts {
    package: String,
    binary: String,
    stress_index: Option<u64>,
}

/// The last line of a suite.
#[derive(Drop)]
pub(crate) struct LastLine {
    key: Option<KeyTexts>,
    failed_verdict: bool,
    passed: Option<u64>,
    failed: Option<u64>,
    ignored: Option<u64>,
    measured: Option<u64>,
    time: Option<u64>,
}

/// The end of a test.
#[derive(Drop)]
pub(crate) struct TestEnd {
    name: String,
    result: TestResult,
    stdout: Option<String>,
    message: Option<String>,
    reason: Option<String>,
    time: Option<u64>,
}

impl Content {
    /// Returns the start of a suite with a copy of its texts.
    pub(crate) fn suite_started(
        alloc: Global,
        key: Option<SuiteKey<'_>>,
        test_count: Option<u64>,
    ) -> Result<Content, AllocError>
        ensures { IfOk result (λ content. kept.content_event content ≡ SuiteStarts (option_map text_of_key key.entry) test_count) }
    {
        Ok(Content::SuiteStarted {
            key: key_texts(alloc, key)?,
            test_count,
        })
    }

    /// Returns the end of a suite with a copy of its texts.
    pub(crate) fn suite_ended(alloc: Global, end: SuiteEnd<'_>) -> Result<Content, AllocError>
        ensures { IfOk result (λ content. kept.content_event content ≡ SuiteEnds (suite_end_view end.entry)) }
    {
        Ok(Content::SuiteEnded(LastLine {
            key: key_texts(alloc, end.key)?,
            failed_verdict: end.failed_verdict,
            passed: end.passed,
            failed: end.failed,
            ignored: end.ignored,
            measured: end.measured,
            time: end.time,
        }))
    }

    /// Returns the start of a test with a copy of its name.
    pub(crate) fn test_started(alloc: Global, name: &str) -> Result<Content, AllocError>
        ensures { IfOk result (λ content. kept.content_event content ≡ TestStarts name.now) }
    {
        Ok(Content::TestStarted {
            name: String::from_str(alloc, name)?,
        })
    }

    /// Returns the end of a test with a copy of its texts.
    pub(crate) fn test_ended(
        alloc: Global,
        name: &str,
        outcome: TestResult,
        details: TestDetails<'_>,
    ) -> Result<Content, AllocError>
        ensures { IfOk result (λ content. kept.content_event content ≡ TestEnds (test_end_view name.now outcome details.entry)) }
    {
        Ok(Content::TestEnded(TestEnd {
            name: String::from_str(alloc, name)?,
            result: outcome,
            stdout: owned(alloc, details.stdout)?,
            message: owned(alloc, details.message)?,
            reason: owned(alloc, details.reason)?,
            time: details.time,
        }))
    }

    /// Returns a failure that cargo or nextest reports with a copy of its texts.
    fn failure(
        alloc: Global,
        failure: CargoFailure,
        line: &str,
        plain: &str,
    ) -> Result<Content, AllocError>
        ensures { IfOk result (λ content. kept.content_event content ≡ CargoFails failure line.now plain.now) }
    {
        Ok(Content::Failure {
            failure,
            line: String::from_str(alloc, line)?,
            plain: String::from_str(alloc, plain)?,
        })
    }

    /// Returns a print with a copy of its texts.
    pub(crate) fn print(alloc: Global, line: &str, plain: &str) -> Result<Content, AllocError>
        ensures { IfOk result (λ content. kept.content_event content ≡ Prints line.now plain.now) }
    {
        Ok(Content::Print {
            line: String::from_str(alloc, line)?,
            plain: String::from_str(alloc, plain)?,
        })
    }

    /// Returns the content of a line of cargo. `shown` is the text of the line, if it is a failure.
    pub(crate) fn of_cargo(
        alloc: Global,
        says: CargoLine<'_>,
        shown: &str,
        text: &str,
    ) -> Result<Content, AllocError>
        ensures { IfOk result (λ content. kept.content_event content ≡ kept.cargo_event shown.now text.now says.entry) }
    {
        match says {
            CargoLine::Heading(heading) => Ok(Content::Heading {
                path: owned(alloc, heading.path())?,
                suite: heading.suite(alloc)?,
            }),
            CargoLine::Failure(failure) => Content::failure(alloc, failure, shown, text),
        }
    }

    /// Returns the event, which borrows its texts.
    pub(crate) fn event(&self) -> Event<'_>
        ensures { event_view result ≡ kept.content_event self.now }
    {
        match self {
            Content::SuiteStarted { key, test_count } => Event::SuiteStarted {
                key: key.as_ref().map(KeyTexts::key),
                test_count: *test_count,
            },
            Content::SuiteEnded(end) => Event::SuiteEnded(end.end()),
            Content::TestStarted { name } => Event::TestStarted {
                name: name.as_str(),
            },
            Content::TestEnded(end) => end.event(),
            Content::TestSlow { name } => Event::TestSlow {
                name: name.as_str(),
            },
            Content::Other => Event::Other,
            Content::Heading { suite, path } => Event::Heading {
                suite: suite.as_str(),
                path: path.as_ref().map(String::as_str),
            },
            Content::Failure {
                failure,
                line,
                plain,
            } => Event::CargoFailed {
                failure: *failure,
                line: line.as_str(),
                plain: plain.as_str(),
            },
            Content::Print { line, plain } => Event::Print {
                line: line.as_str(),
                plain: plain.as_str(),
            },
            Content::Damaged(text) => Event::Damaged {
                text: text.as_str(),
            },
        }
    }
}

impl KeyTexts {
    /// Returns a key with a copy of its texts.
    fn of(alloc: Global, key: SuiteKey<'_>) -> Result<KeyTexts, AllocError>
        ensures { IfOk result (λ texts. kept.key_of texts ≡ text_of_key key.entry) }
    {
        Ok(KeyTexts {
            package: String::from_str(alloc, key.package)?,
            binary: String::from_str(alloc, key.binary)?,
            stress_index: key.stress_index,
        })
    }

    /// Returns the key, which borrows its texts.
    fn key(&self) -> SuiteKey<'_>
        ensures { text_of_key result ≡ kept.key_of self.now }
    {
        SuiteKey {
            package: self.package.as_str(),
            binary: self.binary.as_str(),
            stress_index: self.stress_index,
        }
    }
}

/// Returns a key that may be absent with a copy of its texts.
fn key_texts(alloc: Global, key: Option<SuiteKey<'_>>) -> Result<Option<KeyTexts>, AllocError>
    ensures { IfOk result (λ texts. option_map kept.key_of texts ≡ option_map text_of_key key.entry) }
{
    match key {
        Some(key) => Ok(Some(KeyTexts::of(alloc, key)?)),
        None => Ok(None),
    }
}

impl LastLine {
    /// Returns the end of the suite, which borrows its texts.
    fn end(&self) -> SuiteEnd<'_>
        ensures { suite_end_view result ≡ kept.suite_end_of self.now }
    {
        SuiteEnd {
            key: self.key.as_ref().map(KeyTexts::key),
            failed_verdict: self.failed_verdict,
            passed: self.passed,
            failed: self.failed,
            ignored: self.ignored,
            measured: self.measured,
            time: self.time,
        }
    }
}

impl TestEnd {
    /// Returns the event, which borrows its texts.
    fn event(&self) -> Event<'_>
        ensures { event_view result ≡ TestEnds (kept.end_of self.now) }
    {
        Event::TestEnded {
            name: self.name.as_str(),
            result: self.result,
            details: TestDetails {
                stdout: self.stdout.as_ref().map(String::as_str),
                message: self.message.as_ref().map(String::as_str),
                reason: self.reason.as_ref().map(String::as_str),
                time: self.time,
            },
        }
    }
}

/// Copies a text that may be absent.
pub(crate) fn owned(alloc: Global, text: Option<&str>) -> Result<Option<String>, AllocError>
    ensures { IfOk result (λ copy. option_map string_bytes copy ≡ option_map (λ text. text.now) text.entry) }
{
    match text {
        Some(text) => Ok(Some(String::from_str(alloc, text)?)),
        None => Ok(None),
    }
}
