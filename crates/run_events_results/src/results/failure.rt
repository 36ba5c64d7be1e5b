//! The exit codes and aborts of failed processes, and their texts.

ghost use Rattle.std.specs.Prelude.{◌≡◌, Some};
ghost use Rattle.run_events_results.specs.Described.{described_abort, described_failure};
ghost use Rattle.run_events_results.specs.Results as spec;
ghost use Rattle.run_events_results.specs.Texts.{abort_text, code_digits, failure_text, within};

use std::fmt;

/// The number of the signal that asks a process to end, which is the same on all platforms.
pub const SIGTERM: i32 = 15;

/// The exit code or the abort of a failed process as the runner saw it.
#[derive(Clone, Copy, Debug, PartialEq, Eq)]
pub enum FailureStatus {
    /// The process exited with this code.
    ExitCode(i32),

    /// The process was ended from outside.
    Abort(AbortStatus),
}

/// What ended a process from outside, as the runner saw it.
///
/// Its `Debug` is on one line in every style, for example `UnixSignal(15)`.
#[derive(Clone, Copy, PartialEq, Eq)]
pub enum AbortStatus {
    /// A signal of this number.
    UnixSignal(i32),
}

impl fmt::Debug for AbortStatus {
    ghost use Rattle.run_events_results.specs.Results.{abort_status_text};

    ghost debug_output = { λ s. Some (abort_status_text s) };

    fn fmt<W: fmt::Write>(&self, f: &mut fmt::Formatter<W>) -> fmt::Result {
        match self {
            AbortStatus::UnixSignal(signal) => write!(f, "UnixSignal({signal})"),
        }
    }
}

/// The exit code or the abort of a failed process, displayed for example as `exited with code 3` or
/// as the text of its [`AbortDescription`].
#[derive(Debug, PartialEq, Eq, Drop)]
pub enum FailureDescription {
    /// The process exited with this code.
    ExitCode {
        /// The code.
        code: i32,
    },

    /// The process was ended from outside.
    Abort {
        /// What ended it.
        abort: AbortDescription,
    },
}

impl FailureDescription {
    /// Describes a failure. `name` is the name of the signal without `SIG`, such as `TERM`. It is dropped
    /// for an exit code.
    pub fn from_status(status: FailureStatus, name: Option<String>) -> Self
        ensures { result ≡ described_failure status name }
    {
        match status {
            FailureStatus::ExitCode(code) => FailureDescription::ExitCode { code },
            FailureStatus::Abort(abort) => FailureDescription::Abort {
                abort: AbortDescription::from_status(abort, name),
            },
        }
    }
}

impl fmt::Display for FailureDescription {
    ghost output = { λ f. Some (failure_text f) };

    fn fmt<W: fmt::Write>(&self, f: &mut fmt::Formatter<W>) -> fmt::Result {
        match self {
            FailureDescription::ExitCode { code } => write!(f, "exited with code {code}"),
            FailureDescription::Abort { abort } => fmt::Display::fmt(abort, f),
        }
    }
}

/// What ended a process from outside. The cases of all platforms are here, since a report can be
/// read on a platform other than the one of the run.
///
/// It is displayed as `aborted with signal 15 (SIGTERM)`, `aborted with code 0xc0000005: message` or
/// `terminated via job object`. A name or a message that is `None` is left out.
#[derive(Debug, PartialEq, Eq, Drop)]
pub enum AbortDescription {
    /// A signal.
    UnixSignal {
        /// The number of the signal.
        signal: i32,

        /// The name of the signal without `SIG`, if it is known.
        name: Option<String>,
    },

    /// A Windows status code.
    WindowsNtStatus {
        /// The code.
        code: i32,

        /// The message of the system for the code, if there is one.
        message: Option<String>,
    },

    /// The Windows job object that holds the process was ended.
    WindowsJobObject,
}

impl AbortDescription {
    /// Describes an abort. `name` is the name of the signal without `SIG`, such as `TERM`.
    pub fn from_status(status: AbortStatus, name: Option<String>) -> Self
        ensures { result ≡ described_abort status name }
    {
        match status {
            AbortStatus::UnixSignal(signal) => AbortDescription::UnixSignal { signal, name },
        }
    }

    /// Returns true if the runner itself ends a test like this.
    pub(crate) fn is_termination(&self) -> bool
        ensures { result ≡ spec.is_termination self.now }
    {
        match self {
            AbortDescription::UnixSignal { signal, .. } => *signal == SIGTERM,
            AbortDescription::WindowsNtStatus { .. } => false,
            AbortDescription::WindowsJobObject => true,
        }
    }
}

impl fmt::Display for AbortDescription {
    ghost output = { λ a. Some (abort_text a) };

    fn fmt<W: fmt::Write>(&self, f: &mut fmt::Formatter<W>) -> fmt::Result {
        match self {
            AbortDescription::UnixSignal { signal, name } => {
                let name = Within {
                    before: " (SIG",
                    text: name,
                    after: ")",
                };
                write!(f, "aborted with signal {signal}{name}")
            }
            AbortDescription::WindowsNtStatus { code, message } => {
                let digits = CodeDigits { code: *code };
                let message = Within {
                    before: ": ",
                    text: message,
                    after: "",
                };
                write!(f, "aborted with code 0x{digits}{message}")
            }
            AbortDescription::WindowsJobObject => f.write_str("terminated via job object"),
        }
    }
}

/// A text between two others, or nothing if there is no text.
#[derive(Clone, Copy)]
struct Within<'a> {
    before: &'static str,
    text: &'a Option<String>,
    after: &'static str,
}

impl fmt::Display for Within<'_> {
    ghost output = { λ w. Some (within w.before.now w.text.now w.after.now) };

    fn fmt<W: fmt::Write>(&self, f: &mut fmt::Formatter<W>) -> fmt::Result {
        match self.text {
            None => Ok(()),
            Some(text) => write!(f, "{}{text}{}", self.before, self.after),
        }
    }
}

/// A code, displayed as eight lower-case hexadecimal digits.
#[derive(Clone, Copy)]
struct CodeDigits {
    code: i32,
}

impl fmt::Display for CodeDigits {
    ghost output = { λ d. Some (code_digits d.code) };

    #[tactic(auto, using(crate::proofs::Hexadecimal::code_text))]
    fn fmt<W: fmt::Write>(&self, f: &mut fmt::Formatter<W>) -> fmt::Result {
        let bits = self.code.cast_unsigned();
        write!(f, "{bits:08x}")
    }
}
