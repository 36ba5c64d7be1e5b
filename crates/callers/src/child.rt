//! The output of a child process, described for reporters, and the lists of its errors.

use crate::chain::error;
use crate::print;
use bytes::Bytes;
use run_events::chain::SerializableError;
use run_events::child::{
    ChildError, ChildExecutionOutput, ChildExecutionOutputDescription, ChildFdError, ChildOutput,
    ChildSingleOutput, ChildSplitOutput, ChildStartError, ErrorList, LiveSpec, Refused,
};
use run_events::results::{AbortStatus, ExecutionResult, FailureStatus, UnitKind};
use run_events::unit_error::{UnitError, UnitErrorDescription};
use std::alloc::{AllocError, Global};

/// The description of the output of a child process.
type Description = ChildExecutionOutputDescription<LiveSpec>;

/// The result of a process that a signal ended.
pub(crate) const ABORT: ExecutionResult = ExecutionResult::Fail {
    failure_status: FailureStatus::Abort(AbortStatus::UnixSignal(15)),
    leaked: true,
};

/// Describes a process that was not started.
pub(crate) fn not_started<R: AllocGlobal + Print>(rt: &R) -> Result<(), AllocError> {
    let source = error(rt.alloc(), 0, 0)?;
    let output = ChildExecutionOutput::StartError(ChildStartError::Spawn(source));
    describe(rt, output, None);
    Ok(())
}

/// Describes a process that ended with this status, with this many errors in reading from it.
pub(crate) fn ended<R: AllocGlobal + Print>(
    rt: &R,
    status: ExecutionResult,
    count: u32,
) -> Result<(), AllocError> {
    let name = String::from_str(rt.alloc(), "TERM")?;
    let errors = errors(rt.alloc(), count)?;
    let stderr = ChildSingleOutput::from(Bytes::from_static(b"Error: e"));
    let output = ChildExecutionOutput::Output {
        result: Some(status),
        output: ChildOutput::Split(ChildSplitOutput {
            stdout: None,
            stderr: Some(stderr),
        }),
        errors,
    };
    describe(rt, output, Some(name));
    Ok(())
}

/// Returns this many errors in reading from a process.
fn errors(alloc: Global, count: u32) -> Result<Option<ErrorList<ChildError>>, AllocError> {
    let mut errors = Vec::new(alloc);
    for number in 0..count {
        let source = error(alloc, number, 0)?;
        errors.push(ChildError::Fd(ChildFdError::ReadStdout(source)))?;
    }
    Ok(ErrorList::new("reading", errors))
}

/// Describes output, and makes the lists of its errors. If memory runs out, what is given back is described.
fn describe<R: AllocGlobal + Print>(rt: &R, output: ChildExecutionOutput, name: Option<String>) {
    match Description::from_output(rt.alloc(), output, name) {
        Ok(output) => describe_errors(rt, output),
        Err(refused) => describe_again(rt, refused),
    }
}

/// Describes what was given back because memory ran out.
fn describe_again<R: AllocGlobal + Print>(rt: &R, refused: Refused) {
    print(rt, "from-output", AllocError);
    if let Ok(output) = Description::from_output(rt.alloc(), refused.output, refused.name) {
        describe_errors(rt, output);
    }
}

/// Makes the lists of the errors in output. Only here is the output dropped, because a proof spells out each drop.
fn describe_errors<R: AllocGlobal + Print>(rt: &R, output: Description) {
    make_lists(rt, &output);
}

/// Makes the lists of the errors in output, and one list again.
fn make_lists<R: AllocGlobal + Print>(rt: &R, output: &Description) {
    if !UnitErrorDescription::can_describe(UnitKind::Test, output) {
        return;
    }
    let errors = UnitErrorDescription::new(UnitKind::Test, output);
    print_list(rt, "all-errors", errors.all_error_list(rt.alloc()));
    print_list(
        rt,
        "exec-fail-errors",
        errors.exec_fail_error_list(rt.alloc()),
    );
    print_list(
        rt,
        "child-process-errors",
        errors.child_process_error_list(rt.alloc()),
    );
    print_list(rt, "all-errors", errors.all_error_list(rt.alloc()));
}

/// Prints the list that a call returned.
fn print_list<R: Print>(
    rt: &R,
    name: &str,
    list: Result<Option<ErrorList<UnitError<'_>>>, AllocError>,
) {
    match list {
        Ok(Some(list)) => {
            print(rt, name, list.description());
            print_errors(rt, &list);
        }
        Ok(None) => print(rt, name, "no errors"),
        Err(AllocError) => print(rt, name, AllocError),
    }
}

/// Prints the number of errors, and each error if there are few.
fn print_errors<R: Print>(rt: &R, list: &ErrorList<UnitError<'_>>) {
    let count = list.len();
    let _ = println!(rt; "  errors: {count}");
    if list.len() < 10 {
        for error in list.iter() {
            print_error(rt, error);
        }
    }
}

/// Prints an error, with its cause.
fn print_error<R: Print>(rt: &R, error: &UnitError<'_>) {
    let cause = cause_of(error);
    let _ = println!(rt; "  {error}, cause: {cause:?}");
}

/// Returns the cause of an error, if it has one.
fn cause_of<'a>(error: &UnitError<'a>) -> Option<&'a SerializableError> {
    match error {
        UnitError::Start(error) => Some(error.source()),
        UnitError::Output(error) => Some(error.source()),
        UnitError::Abort(_) | UnitError::Slice(_) => None,
    }
}
