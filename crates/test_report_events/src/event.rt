//! The events of a test run.

ghost use Rattle.std.specs.Prelude.{Some};
ghost use Rattle.test_report_events.specs.Event.{text_of_key};

use std::fmt;

/// The key of a suite: the crate and the test binary that cargo nextest names in the lines of the suite. It
/// is displayed as `CRATE::BINARY`. In a stress run `@stress-N` follows.
#[derive(Clone, Copy)]
pub struct SuiteKey<'a> {
    /// The name of the crate.
    pub package: &'a str,

    /// The name of the test binary.
    pub binary: &'a str,

    /// The index of the repetition, in a stress run. Such a run repeats each test.
    pub stress_index: Option<u64>,
}

impl fmt::Display for SuiteKey<'_> {
    ghost output = { λ k. Some (text_of_key k) };

    fn fmt<W: fmt::Write>(&self, f: &mut fmt::Formatter<W>) -> fmt::Result {
        let (package, binary) = (self.package, self.binary);
        match self.stress_index {
            Some(index) => write!(f, "{package}::{binary}@stress-{index}"),
            None => write!(f, "{package}::{binary}"),
        }
    }
}

/// The last line of a suite. A number of tests is `None` if the line does not have it, or if it needs more than 32
/// bits.
#[derive(Clone, Copy)]
pub struct SuiteEnd<'a> {
    /// The key of the suite, if it has one.
    pub key: Option<SuiteKey<'a>>,

    /// True if the line says that the suite failed.
    pub failed_verdict: bool,

    /// The number of tests that passed.
    pub passed: Option<u64>,

    /// The number of tests that failed.
    pub failed: Option<u64>,

    /// The number of tests that were ignored.
    pub ignored: Option<u64>,

    /// The number of benchmarks that were measured.
    pub measured: Option<u64>,

    /// The time that the suite took, in microseconds, rounded down.
    pub time: Option<u64>,
}

/// The result of a test, from the line of its end.
#[derive(Clone, Copy, PartialEq, Eq)]
pub enum TestResult {
    /// The test passed.
    Ok,

    /// The test failed.
    Failed,

    /// The test was not run.
    Ignored,
}

/// The output, the messages and the time in the line of a test's end.
#[derive(Clone, Copy)]
pub struct TestDetails<'a> {
    /// The output of the test, if it was captured. Standard output and standard error are one text.
    pub stdout: Option<&'a str>,

    /// The message of the harness, or `None` if it is absent or empty.
    pub message: Option<&'a str>,

    /// The reason that the harness gives for a failure, or `None` if it is absent or empty.
    pub reason: Option<&'a str>,

    /// The time that the test took, in microseconds, rounded down.
    pub time: Option<u64>,
}

/// The event of a line.
#[derive(Clone, Copy)]
pub enum Event<'a> {
    /// A suite starts.
    SuiteStarted {
        /// The key of the suite, if it has one.
        key: Option<SuiteKey<'a>>,

        /// The number of its tests, including ignored ones. It is `None` if the line does not have it, or if it
        /// needs more than 32 bits.
        test_count: Option<u64>,
    },

    /// A suite ends.
    SuiteEnded(SuiteEnd<'a>),

    /// A test starts.
    TestStarted {
        /// The name of the test.
        name: &'a str,
    },

    /// A test ends, or a benchmark does.
    TestEnded {
        /// The name in the line. It may end with `#` and a number of attempts.
        name: &'a str,

        /// The result of the test.
        result: TestResult,

        /// The output, the messages and the time of the test.
        details: TestDetails<'a>,
    },

    /// A running test is slow: the harness says so by the event `timeout`.
    TestSlow {
        /// The name in the line.
        name: &'a str,
    },

    /// Another line of a test harness. It changes nothing in the run.
    Other,

    /// A line of cargo that names the test binary that runs next.
    Heading {
        /// The name of the suites of that binary.
        suite: &'a str,

        /// The path of the binary, or `None` for documentation tests.
        path: Option<&'a str>,
    },

    /// A line in which cargo or nextest reports a failure.
    CargoFailed {
        /// What failed.
        failure: CargoFailure,

        /// The text of the line, without the carriage return at its end. Bytes that are not UTF-8 are U+FFFD. If
        /// a print is in front of the failure in the same line, this is `plain`.
        line: &'a str,

        /// The text of the failure as a terminal shows it, without escapes, and without spaces at its start.
        plain: &'a str,
    },

    /// A print: any other line, or the text in front of a heading or a failure in the same line.
    Print {
        /// The text of the line, without the carriage return at its end. Bytes that are not UTF-8 are U+FFFD. If
        /// the print is only a part of its line, this is `plain`.
        line: &'a str,

        /// The text as a terminal shows it: without escapes, such as colours, and without the text that a
        /// carriage return writes over. Spaces at its start are kept. Only headings and failures are
        /// recognized without them.
        plain: &'a str,
    },

    /// A line, or the text in front of an event in a line, is no event, and says that a test or a suite failed.
    /// Something damaged it: for example two events are in one line, or text follows an event.
    Damaged {
        /// The text of the line, or the text in front of its event, without the carriage return at its end. Bytes
        /// that are not UTF-8 are U+FFFD. The text may be of any length.
        text: &'a str,
    },
}

/// The failures that cargo and nextest report.
#[derive(Clone, Copy)]
pub enum CargoFailure {
    /// A crate could not be compiled, or its build script failed. A failed test is never the cause.
    Build,

    /// One or several test binaries failed, or tests could not be run: no test target has the name, the list of
    /// tests could not be made, or a setup script failed.
    Tests,

    /// The run failed. It is reported once, after the last test binary.
    Run,
}
