//! The structs of the C interface, in the layout of C.

/// A part of captured output.
#[repr(C)]
#[derive(Clone, Copy)]
pub struct FfiSlice {
    /// The code of the part's kind, or 0 if nothing was found.
    pub kind: u32,

    /// The offset in bytes of the part in its stream.
    pub start: usize,

    /// The number of bytes of the part.
    pub length: usize,
}

/// The head of a panic message, and the number of reads of the search for it.
#[repr(C)]
#[derive(Clone, Copy)]
pub struct FfiHead {
    /// Whether there is a head. If not, start and stop are 0.
    pub is_found: bool,

    /// The offset in bytes of `thread '`.
    pub start: usize,

    /// The offset in bytes after the last space of ` panicked at `.
    pub stop: usize,

    /// The number of reads of a byte that the search made, or `u64::MAX` if there were more.
    pub reads: u64,
}

/// The result of an attempt or of a setup script.
#[repr(C)]
#[derive(Clone, Copy)]
pub struct FfiResult {
    /// The code of the result.
    pub kind: u32,

    /// The exit code, or the number of the signal or of the status, if the result has one.
    pub number: i32,
}

/// The part of a finished test that decides its counters and its levels.
#[repr(C)]
#[derive(Clone, Copy)]
pub struct FfiTestView {
    /// The result of the last attempt.
    pub result: FfiResult,

    /// The number of attempts. 0 counts as 1.
    pub attempts: usize,

    /// Whether the last attempt took longer than the slow timeout.
    pub is_slow: bool,

    /// The code of how the test counts if it is flaky.
    pub flaky_result: u32,
}

/// The counters of a run: the tests or setup scripts that their docstrings describe. `tools/header`
/// writes these docstrings into the header.
#[repr(C)]
#[derive(Clone, Copy)]
pub struct FfiRunStats {
    /// Tests that were to run.
    pub initial_run_count: usize,

    /// Tests that finished.
    pub finished_count: usize,

    /// Setup scripts that were to run.
    pub setup_scripts_initial_count: usize,

    /// Setup scripts that finished.
    pub setup_scripts_finished_count: usize,

    /// Setup scripts that passed, or leaked and count as passed.
    pub setup_scripts_passed: usize,

    /// Setup scripts that failed, or leaked and count as failed.
    pub setup_scripts_failed: usize,

    /// Setup scripts that could not be executed.
    pub setup_scripts_exec_failed: usize,

    /// Setup scripts that timed out, even if that counts as passed.
    pub setup_scripts_timed_out: usize,

    /// Tests that succeeded, except flaky tests that count as failed.
    pub passed: usize,

    /// Slow tests among `passed`, except timeouts.
    pub passed_slow: usize,

    /// Timeouts among `passed`.
    pub passed_timed_out: usize,

    /// Flaky tests among `passed`.
    pub flaky: usize,

    /// Tests that failed or have LEAK_FAIL, and flaky tests that count as failed.
    pub failed: usize,

    /// Slow tests among `failed`.
    pub failed_slow: usize,

    /// Tests with TIMEOUT_FAIL, which are not in `failed`.
    pub failed_timed_out: usize,

    /// Tests with LEAK_PASS.
    pub leaky: usize,

    /// Tests with LEAK_FAIL, which are in `failed`.
    pub leaky_failed: usize,

    /// Tests that could not be executed, which are not in `failed`.
    pub exec_failed: usize,

    /// Tests that were skipped.
    pub skipped: usize,

    /// DEODARSIEVE_REASON_...
    pub cancel_reason: u32,
}

/// The numbers of tests and of setup scripts that did not pass.
#[repr(C)]
#[derive(Clone, Copy)]
pub struct FfiFailedCounts {
    /// The tests.
    pub tests: usize,

    /// The setup scripts.
    pub setup_scripts: usize,
}

/// The summary of a finished run. If a function writes it, fields that its kind and its step do not
/// have are 0. If a function reads it, they are ignored.
#[repr(C)]
#[derive(Clone, Copy)]
pub struct FfiFinalStats {
    /// The code of the summary's kind.
    pub kind: u32,

    /// The code of the reason of a cancelled run, or 0 if it has none.
    pub reason: u32,

    /// The code of the step at which the run failed or was cancelled.
    pub step: u32,

    /// At the step of the tests, the number of tests that were to run.
    pub initial_run_count: usize,

    /// At the step of the tests, the number of tests that did not finish.
    pub not_run: usize,
}

/// A test that has just finished, and the reporter's settings that decide how it is displayed.
#[repr(C)]
#[derive(Clone, Copy)]
pub struct FfiFinishedTest {
    /// The code of the reporter's status level.
    pub status_level: u32,

    /// The code of the reporter's final level.
    pub final_status_level: u32,

    /// The code of when the test's output is displayed.
    pub display: u32,

    /// The code of why the run is cancelled, or 0 if it is not.
    pub cancel_reason: u32,

    /// The code of the test's status level.
    pub test_status_level: u32,

    /// The code of the test's final level.
    pub test_final_status_level: u32,

    /// The result of the last attempt.
    pub result: FfiResult,
}

/// What a reporter does with a test that has just finished.
#[repr(C)]
#[derive(Clone, Copy)]
pub struct FfiOutput {
    /// Whether a line with the test's status is written.
    pub write_status_line: bool,

    /// Whether the test's output is displayed at once.
    pub show_immediate: bool,

    /// The code of what is stored for the end of the run.
    pub store_final: u32,
}

/// A duration.
#[repr(C)]
#[derive(Clone, Copy)]
pub struct FfiDuration {
    /// Its whole seconds.
    pub seconds: u64,

    /// The rest in nanoseconds, below 1,000,000,000.
    pub nanoseconds: u32,
}

/// The progress of a repeated run.
#[repr(C)]
#[derive(Clone, Copy)]
pub struct FfiStressProgress {
    /// The code of how long the run is repeated.
    pub kind: u32,

    /// The number of sub-runs, if the run is repeated a number of times.
    pub total_count: u32,

    /// The number of completed sub-runs.
    pub completed: u32,

    /// The time, if the run is repeated for a time.
    pub total: FfiDuration,

    /// The time that the sub-runs have taken so far.
    pub elapsed: FfiDuration,
}

/// What remains of a repeated run. A field that its kind does not have is 0.
#[repr(C)]
#[derive(Clone, Copy)]
pub struct FfiStressRemaining {
    /// The code of the kind of what remains.
    pub kind: u32,

    /// The number of sub-runs that remain.
    pub count: u32,

    /// The time that remains.
    pub time: FfiDuration,
}
