//! The output and the errors of a child process, from the runner to its reporters.

ghost use Rattle.std.specs.Prelude.{◌≡◌, IfErr, IfOk, IsOk, MatchResult, None, Some, option_map};
ghost use Rattle.run_events_attempts.specs.ChildErrors.{described_errors};
ghost use Rattle.run_events_attempts.specs.Execution.{described_execution, output_errors};

use crate::child::{
    ChildError, ChildErrorDescription, ChildExecutionOutputDescription, ChildOutput,
    ChildOutputDescription, ChildStartError, ChildStartErrorDescription, ErrorList, LiveSpec,
};
use run_events_results::results::{ExecutionResult, ExecutionResultDescription};
use std::alloc::Global;

/// The output and the errors of a child process, or why it was not started, as the runner gets it.
#[derive(Drop)]
pub enum ChildExecutionOutput {
    /// The process was started.
    Output {
        /// The result of the process, or `None` if it is still running.
        result: Option<ExecutionResult>,

        /// The captured output.
        output: ChildOutput,

        /// The errors in reading from it or waiting for it, or `None` if there were none.
        errors: Option<ErrorList<ChildError>>,
    },

    /// The process was not started.
    StartError(ChildStartError),
}

/// The arguments of [`ChildExecutionOutputDescription::from_output`], returned unchanged.
#[derive(Drop)]
pub struct Refused {
    /// The output and the errors of the child process.
    pub output: ChildExecutionOutput,

    /// The name of the signal that ended the process, without `SIG`.
    pub name: Option<String>,
}

impl ChildExecutionOutputDescription<LiveSpec> {
    /// Describes the output and the errors of a child process. `name` is the name of the signal that
    /// ended the process, without `SIG`, such as `TERM`. It is dropped if there is no signal.
    pub fn from_output(
        alloc: Global,
        output: ChildExecutionOutput,
        name: Option<String>,
    ) -> Result<Self, Refused>
        ensures described { IfOk result (λ d. d ≡ described_execution output name) }
        ensures output { IfErr result (λ refused. refused.output ≡ output) }
        ensures name { IfErr result (λ refused. refused.name ≡ name) }

        // Without errors no memory is taken. With errors it is taken first, and if it is refused,
        // output and name are returned unchanged.
        ensures no_errors { output_errors output ≡ None → IsOk result }
    {
        match output {
            ChildExecutionOutput::StartError(error) => {
                let error = ChildStartErrorDescription::from(error);
                Ok(ChildExecutionOutputDescription::StartError(error))
            }
            ChildExecutionOutput::Output {
                result,
                output,
                errors,
            } => match described_list(alloc, errors) {
                Ok(errors) => Ok(ChildExecutionOutputDescription::Output {
                    result: result.map(|status| ExecutionResultDescription::from_status(
                        status, name,
                    )),
                    output: ChildOutputDescription::from(output),
                    errors,
                }),
                Err(errors) => Err(Refused {
                    output: ChildExecutionOutput::Output {
                        result,
                        output,
                        errors: Some(errors),
                    },
                    name,
                }),
            },
        }
    }
}

/// Describes errors, or returns them unchanged.
fn described_list(
    alloc: Global,
    errors: Option<ErrorList<ChildError>>,
) -> Result<Option<ErrorList<ChildErrorDescription>>, ErrorList<ChildError>>
    // They are returned unchanged if memory for the descriptions is refused.
    ensures { MatchResult result (λ described. described ≡ option_map described_errors errors)
        (λ list. errors ≡ Some list) }
{
    let Some(errors) = errors else {
        return Ok(None);
    };
    match Vec::with_capacity(alloc, errors.len()) {
        Ok(room) => Ok(Some(errors.described(room))),
        Err(_) => Err(errors),
    }
}
