//! The attempts to run a test or a setup script.

ghost use Rattle.std.specs.Prelude.{◌↔◌, ◌≤◌, IsTrue};

use crate::child::{ChildExecutionOutputDescription, OutputSpec};
use crate::moment::Moment;
use run_events_results::results::ExecutionResultDescription;
use std::collections::BTreeMap;
use std::time::Duration;

mod description;
mod statuses;

pub use crate::attempts::description::ExecutionDescription;
pub use crate::attempts::statuses::{EmptyStatuses, ExecutionStatuses, ExecutionStatusesIter};

/// The number of an attempt, and how many there are at most. Ordered by the number, then by the
/// total.
#[derive(Clone, Copy, Debug, PartialEq, Eq, PartialOrd, Ord)]
pub struct RetryData {
    /// The number of the attempt, counted from 1.
    pub attempt: u32,

    /// The greatest number of attempts.
    pub total_attempts: u32,
}

impl RetryData {
    /// Returns true if no attempt can follow this one, because its number is at least the total.
    pub fn is_last_attempt(&self) -> bool
        ensures { IsTrue result ↔ (self.now.total_attempts ≤ self.now.attempt) }
    {
        self.attempt >= self.total_attempts
    }
}

/// The errors of an attempt as texts. A runner makes them for its reporters, for example from a
/// `UnitErrorDescription`.
#[derive(Debug, PartialEq, Eq, Drop)]
pub struct ErrorSummary {
    /// A summary in one line.
    pub short_message: String,

    /// The full description of the errors.
    pub description: String,
}

/// The part of an attempt's output that explains its failure. A runner makes it for its reporters, for
/// example from the `output_slice` of a `UnitErrorDescription`.
#[derive(Debug, PartialEq, Eq, Drop)]
pub struct OutputErrorSlice {
    /// The part as text, with U+FFFD in place of each piece that is not UTF-8.
    pub slice: String,

    /// The offset of the part in the stream in which it was found, in bytes.
    pub start: usize,
}

/// The environment variables that a setup script sets for the tests after it.
#[derive(Debug, PartialEq, Eq, Drop)]
pub struct SetupScriptEnvMap {
    /// The names of the variables and their values.
    pub env_map: BTreeMap<String, String>,
}

/// One finished attempt to run a test.
#[derive(Drop)]
pub struct ExecuteStatus<S: OutputSpec> {
    /// The number of the attempt.
    pub retry_data: RetryData,

    /// The output and the errors of its process.
    pub output: ChildExecutionOutputDescription<S>,

    // Next to the result, since counting reads both fields of each test's last attempt. Today
    // fields are in memory in the order of their declaration.
    /// True if it took longer than the slow timeout.
    pub is_slow: bool,

    /// The result of the attempt. The counters and levels of a test depend on the result of its last
    /// attempt, and not on the results of earlier ones.
    pub result: ExecutionResultDescription,

    /// The time when it began.
    pub start_time: Moment,

    /// How long it took.
    pub time_taken: Duration,

    /// How long the runner waited before the attempt, for example because of a backoff.
    pub delay_before_start: Duration,

    /// The errors as texts, if there were any.
    pub error_summary: Option<ErrorSummary>,

    /// The part of its output that explains its failure, if one was found.
    pub output_error_slice: Option<OutputErrorSlice>,
}

/// A finished setup script. A script is run only once.
#[derive(Drop)]
pub struct SetupScriptExecuteStatus<S: OutputSpec> {
    /// The output and the errors of its process.
    pub output: ChildExecutionOutputDescription<S>,

    /// The result of the script. The counters depend only on this field.
    pub result: ExecutionResultDescription,

    /// The time when it began.
    pub start_time: Moment,

    /// How long it took.
    pub time_taken: Duration,

    /// True if it took longer than the slow timeout.
    pub is_slow: bool,

    /// The environment variables that it set, if it succeeded.
    pub env_map: Option<SetupScriptEnvMap>,

    /// The errors as texts, if there were any.
    pub error_summary: Option<ErrorSummary>,
}
