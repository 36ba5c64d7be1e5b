//! The output of a child process, and the errors in starting it, reading from it or waiting for it.

ghost use Rattle.std.specs.Prelude.{◌≡◌};
ghost use Rattle.run_events_attempts.specs.Execution.{errors_occurred};

use run_events_results::results::ExecutionResultDescription;

mod error_list;
mod errors;
mod execution;
mod output;

pub use crate::child::error_list::ErrorList;
pub use crate::child::errors::{
    ChildError, ChildErrorDescription, ChildFdError, ChildStartError, ChildStartErrorDescription,
};
pub use crate::child::execution::{ChildExecutionOutput, Refused};
pub use crate::child::output::{
    ChildOutput, ChildOutputDescription, ChildSingleOutput, ChildSplitOutput,
};

/// The form in which events hold the output of a child process: as it was captured, or as something
/// that represents it.
pub trait OutputSpec {
    /// The description of captured output.
    type ChildOutputDesc;
}

/// Output that was captured in this process.
#[derive(Clone, Copy, Debug, PartialEq, Eq)]
pub struct LiveSpec;

impl OutputSpec for LiveSpec {
    type ChildOutputDesc = ChildOutputDescription;
}

/// The output and the errors of a child process, or why it was not started, as reporters get it.
#[derive(Drop)]
pub enum ChildExecutionOutputDescription<S: OutputSpec> {
    /// The process was started.
    Output {
        /// The result of the process, or `None` if it is still running.
        result: Option<ExecutionResultDescription>,

        /// The captured output.
        output: S::ChildOutputDesc,

        /// The errors in reading from it or waiting for it, or `None` if there were none.
        errors: Option<ErrorList<ChildErrorDescription>>,
    },

    /// The process was not started.
    StartError(ChildStartErrorDescription),
}

impl<S: OutputSpec> ChildExecutionOutputDescription<S> {
    /// Returns true if the process was not started, if there were errors in reading from it or
    /// waiting for it, or if its result is not a success. A process that is still running has not
    /// failed.
    pub fn has_errors(&self) -> bool
        ensures { result ≡ errors_occurred self.now }
    {
        match self {
            ChildExecutionOutputDescription::StartError(_) => true,
            ChildExecutionOutputDescription::Output { result, errors, .. } => {
                errors.is_some() || result.as_ref().is_some_and(|status| !status.is_success())
            }
        }
    }
}
