//! The errors of a test or a setup script.

ghost use Rattle.std.specs.Prelude.{◌≡◌, ◌++◌, ◌↔◌, [], IfOk, IfSome, IsOk, IsTrue, OnOk, Option, map, option_map, option_to_list};
ghost use Rattle.std.specs.Option.{option_copied};
ghost use Rattle.output_slice.specs.Extraction.{Extract};
ghost use Rattle.output_slice.specs.Shown.{extract_of};
ghost use Rattle.run_events_results.specs.Texts.{executing_text};
ghost use Rattle.run_events.specs.UnitErrors.{CanDescribe, IsExtractOf, IsListOf, IsSliceOf, LiesInOutput, LiesInStreams, abort_error, aborts_in, all_errors, child_process_errors, child_process_of, error_seen, errors_of, exec_fail_errors, exec_fail_of, is_failed_test, kind_of, output_error, described_slice};
ghost use Rattle.run_events_attempts.specs.ChildOutput.{IsLoaded};

use output_slice::subslice::TestOutputErrorSlice;
use run_events_attempts::child::{
    ChildErrorDescription, ChildExecutionOutputDescription, ChildOutputDescription,
    ChildSingleOutput, ChildStartErrorDescription, ErrorList, LiveSpec,
};
use run_events_results::results::{ExecutionResultDescription, FailureDescription, UnitKind};
use std::alloc::{AllocError, Global};

mod errors;

pub use crate::unit_error::errors::{UnitAbortDescription, UnitError};

/// The errors of a unit: the error in starting it, the errors in reading from it and waiting for it,
/// its abort, and the part of a failed test's output that explains its failure. All of them are
/// borrowed from the output of its process.
#[derive(Clone, Copy)]
pub struct UnitErrorDescription<'a> {
    kind: UnitKind,
    start_error: Option<&'a ChildStartErrorDescription>,
    output_errors: Option<&'a ErrorList<ChildErrorDescription>>,
    abort: Option<UnitAbortDescription<'a>>,
    output_slice: Option<TestOutputErrorSlice<'a>>,
}

impl<'a> UnitErrorDescription<'a> {
    /// Returns true if the errors of this unit can be described. The output of a failed test is
    /// searched, so it must be loaded.
    pub fn can_describe(kind: UnitKind, output: &ChildExecutionOutputDescription<LiveSpec>) -> bool
        ensures { IsTrue result ↔ CanDescribe kind output.now }
    {
        match output {
            ChildExecutionOutputDescription::StartError(_) => true,
            ChildExecutionOutputDescription::Output { result, output, .. } => {
                !failed_test(kind, result) || output.is_loaded()
            }
        }
    }

    /// Describes the errors of a unit of this kind with this output.
    ///
    /// An error in starting the unit is the only error. Otherwise there can be an abort, and for a
    /// failed test a part of its output. If both streams were captured as one, they are searched as
    /// both.
    ///
    /// The output of a failed test must be loaded; [`Self::can_describe`] tests it.
    pub fn new(
        kind: UnitKind,
        output: &'a ChildExecutionOutputDescription<LiveSpec>,
    ) -> UnitErrorDescription<'a>
        requires { CanDescribe kind output.now }
        ensures kind { kind_of result ≡ kind }
        ensures errors { all_errors result ≡ errors_of output.now (described_slice result) }
        ensures exec_fail { exec_fail_errors result ≡ exec_fail_of output.now }
        ensures child_process { child_process_errors result
            ≡ child_process_of output.now (described_slice result) }
        ensures slice { IsSliceOf kind output.now (described_slice result) }

        // Every slice of the output equals that of the description, so `None` means that there is
        // none.
        ensures only { (found : Option Extract) → IsSliceOf kind output.now found
            → found ≡ described_slice result }
        ensures part { IfSome (described_slice result) (LiesInOutput output.now) }
    {
        match output {
            ChildExecutionOutputDescription::StartError(error) => UnitErrorDescription {
                kind,
                start_error: Some(error),
                output_errors: None,
                abort: None,
                output_slice: None,
            },
            ChildExecutionOutputDescription::Output {
                result,
                output,
                errors,
            } => UnitErrorDescription {
                kind,
                start_error: None,
                output_errors: errors.as_ref(),
                abort: result.as_ref().and_then(abort_of),
                output_slice: if failed_test(kind, result) {
                    extracted(output)
                } else {
                    None
                },
            },
        }
    }

    /// Returns the part of a failed test's output that explains its failure.
    pub fn output_slice(&self) -> Option<TestOutputErrorSlice<'a>>
        ensures { option_map extract_of result ≡ described_slice self.now }
    {
        self.output_slice
    }

    /// Returns all errors, or `None` if there are none: the error of the start, those of the output,
    /// the abort and the part of the output. Their description is that of the kind of unit.
    pub fn all_error_list(
        &self,
        alloc: Global,
    ) -> Result<Option<ErrorList<UnitError<'a>>>, AllocError>
        ensures list { IfOk result (IsListOf (executing_text (kind_of self.now))
            (all_errors self.now)) }
        // Without errors no memory is taken.
        ensures empty { all_errors self.now ≡ [] → IsOk result }
    {
        let mut errors = Vec::new(alloc);
        self.push_exec_fail(&mut errors)?;
        self.push_child_process(&mut errors)?;
        Ok(ErrorList::new(self.kind.executing_message(), errors))
    }

    /// Returns the errors in running the unit, or `None` if there are none: the error of the start,
    /// and those of the output. Their description is that of the kind of unit.
    pub fn exec_fail_error_list(
        &self,
        alloc: Global,
    ) -> Result<Option<ErrorList<UnitError<'a>>>, AllocError>
        ensures list { IfOk result (IsListOf (executing_text (kind_of self.now))
            (exec_fail_errors self.now)) }
        // Without errors no memory is taken.
        ensures empty { exec_fail_errors self.now ≡ [] → IsOk result }
    {
        let mut exec_fail = Vec::new(alloc);
        self.push_exec_fail(&mut exec_fail)?;
        Ok(ErrorList::new(self.kind.executing_message(), exec_fail))
    }

    /// Returns the errors of the process itself, or `None` if there are none: the abort and the part
    /// of the output. Their description is that of the kind of unit.
    pub fn child_process_error_list(
        &self,
        alloc: Global,
    ) -> Result<Option<ErrorList<UnitError<'a>>>, AllocError>
        ensures list { IfOk result (IsListOf (executing_text (kind_of self.now))
            (child_process_errors self.now)) }
        // Without errors no memory is taken.
        ensures empty { child_process_errors self.now ≡ [] → IsOk result }
    {
        let mut child_process = Vec::new(alloc);
        self.push_child_process(&mut child_process)?;
        Ok(ErrorList::new(self.kind.executing_message(), child_process))
    }

    /// Appends the errors in running the unit.
    fn push_exec_fail(&self, errors: &mut Vec<UnitError<'a>>) -> Result<(), AllocError>
        ensures ok { OnOk result (map error_seen errors.new.items
            ≡ map error_seen errors.old.items ++ exec_fail_errors self.now) }
        ensures empty { exec_fail_errors self.now ≡ [] → IsOk result }
    {
        if let Some(error) = self.start_error {
            errors.push(UnitError::Start(error))?;
        }
        if let Some(list) = self.output_errors {
            push_output_errors(list, errors)?;
        }
        Ok(())
    }

    /// Appends the errors of the process itself.
    fn push_child_process(&self, errors: &mut Vec<UnitError<'a>>) -> Result<(), AllocError>
        ensures ok { OnOk result (map error_seen errors.new.items
            ≡ map error_seen errors.old.items ++ child_process_errors self.now) }
        ensures empty { child_process_errors self.now ≡ [] → IsOk result }
    {
        if let Some(abort) = self.abort {
            errors.push(UnitError::Abort(abort))?;
        }
        if let Some(slice) = self.output_slice {
            errors.push(UnitError::Slice(slice))?;
        }
        Ok(())
    }
}

/// Appends the errors in reading from a process and waiting for it.
fn push_output_errors<'a>(
    list: &'a ErrorList<ChildErrorDescription>,
    errors: &mut Vec<UnitError<'a>>,
) -> Result<(), AllocError>
    ensures ok { OnOk result (map error_seen errors.new.items
        ≡ map error_seen errors.old.items ++ map output_error list.now.items) }
    ensures empty { list.now.items ≡ [] → IsOk result }
{
    for error in list.iter() {
        errors.push(UnitError::Output(error))?;
    }
    Ok(())
}

/// Returns true if the unit is a failed test.
fn failed_test(kind: UnitKind, status: &Option<ExecutionResultDescription>) -> bool
    ensures { result ≡ is_failed_test kind status.now }
{
    match (kind, status) {
        (UnitKind::Test, Some(status)) => !status.is_success(),
        (UnitKind::Test, None) | (UnitKind::Script, _) => false,
    }
}

/// Returns the abort of a failure, if there is one.
fn abort_of(status: &ExecutionResultDescription) -> Option<UnitAbortDescription<'_>>
    ensures { option_to_list (option_map (λ a. abort_error a.description.now a.leaked) result)
        ≡ aborts_in status.now }
{
    match status {
        ExecutionResultDescription::Fail {
            failure: FailureDescription::Abort { abort },
            leaked,
        } => Some(UnitAbortDescription {
            description: abort,
            leaked: *leaked,
        }),
        ExecutionResultDescription::Pass
        | ExecutionResultDescription::Leak { .. }
        | ExecutionResultDescription::Fail {
            failure: FailureDescription::ExitCode { .. },
            ..
        }
        | ExecutionResultDescription::ExecFail
        | ExecutionResultDescription::Timeout { .. } => None,
    }
}

/// Returns the part of loaded output that explains the failure of a test.
fn extracted(output: &ChildOutputDescription) -> Option<TestOutputErrorSlice<'_>>
    requires { IsLoaded output.now }
    ensures value { IsExtractOf output.now (option_map extract_of result) }
    ensures only { (found : Option Extract) → IsExtractOf output.now found
        → found ≡ option_map extract_of result }
    ensures part { IfSome (option_map extract_of result) (LiesInStreams output.now) }
{
    match output {
        ChildOutputDescription::Split { stdout, stderr } => {
            TestOutputErrorSlice::heuristic_extract(captured(stdout), captured(stderr))
        }
        ChildOutputDescription::Combined { output } => {
            let both = &output.buf()[..];
            TestOutputErrorSlice::heuristic_extract(Some(both), Some(both))
        }
        ChildOutputDescription::NotLoaded => unreachable!(),
    }
}

/// Returns the bytes of a stream, if it was captured.
fn captured(output: &Option<ChildSingleOutput>) -> Option<&[u8]>
    ensures { option_copied result ≡ output.now }
{
    output.as_ref().map(|output| &output.buf()[..])
}
