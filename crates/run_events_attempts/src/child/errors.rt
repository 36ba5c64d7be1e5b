//! The errors in starting a child process, reading from it or waiting for it.

ghost use Rattle.std.specs.Prelude.{◌≡◌, Some};
ghost use Rattle.run_events_attempts.specs.ChildErrors.{child_error_text, error_cause, start_cause, start_error_text};

use crate::chain::SerializableError;
use std::fmt;

/// Why a child process was not started, as the runner gets it.
#[derive(Debug, Drop)]
pub enum ChildStartError {
    /// No temporary path could be made for a setup script.
    TempPath(SerializableError),

    /// The process could not be spawned.
    Spawn(SerializableError),
}

/// An error in reading from a child process or waiting for it, as the runner gets it.
#[derive(Debug, Drop)]
pub enum ChildFdError {
    /// The standard output could not be read.
    ReadStdout(SerializableError),

    /// The standard error could not be read.
    ReadStderr(SerializableError),

    /// The combined output could not be read.
    ReadCombined(SerializableError),

    /// The runner could not wait for the process.
    Wait(SerializableError),
}

/// An error with a child process that was started, as the runner gets it.
#[derive(Debug, Drop)]
pub enum ChildError {
    /// The runner could not read from the process or wait for it.
    Fd(ChildFdError),

    /// The output file of a setup script could not be read.
    SetupScriptOutput(SerializableError),
}

impl From<ChildFdError> for ChildError {
    ghost use Rattle.run_events_attempts.specs.declared.child.errors.ChildError.TheVariants.{Fd};

    ghost from_gives = { λ seen error. error ≡ Fd seen };

    fn from(error: ChildFdError) -> ChildError {
        ChildError::Fd(error)
    }
}

/// Why a child process was not started. It is displayed without its cause.
#[derive(Debug, PartialEq, Eq, Drop)]
pub enum ChildStartErrorDescription {
    /// No temporary path could be made for a setup script.
    TempPath {
        /// The cause of the error.
        source: SerializableError,
    },

    /// The process could not be spawned.
    Spawn {
        /// The cause of the error.
        source: SerializableError,
    },
}

impl ChildStartErrorDescription {
    /// Returns the cause of the error, with its own causes.
    pub fn source(&self) -> &SerializableError
        ensures { result.now ≡ start_cause self.now }
    {
        match self {
            ChildStartErrorDescription::TempPath { source }
            | ChildStartErrorDescription::Spawn { source } => source,
        }
    }
}

impl fmt::Display for ChildStartErrorDescription {
    ghost output = { λ e. Some (start_error_text e) };

    ghost styled_output = { λ e _. Some (start_error_text e) };

    fn fmt<W: fmt::Write>(&self, f: &mut fmt::Formatter<W>) -> fmt::Result {
        match self {
            ChildStartErrorDescription::TempPath { .. } => {
                f.write_str("error creating temporary path for setup script")
            }
            ChildStartErrorDescription::Spawn { .. } => f.write_str("error spawning child process"),
        }
    }
}

impl From<ChildStartError> for ChildStartErrorDescription {
    ghost use Rattle.run_events_attempts.specs.ChildErrors.{described_start_error};

    ghost from_gives = { λ seen described. described ≡ described_start_error seen };

    fn from(error: ChildStartError) -> ChildStartErrorDescription {
        match error {
            ChildStartError::TempPath(source) => ChildStartErrorDescription::TempPath { source },
            ChildStartError::Spawn(source) => ChildStartErrorDescription::Spawn { source },
        }
    }
}

/// An error with a child process that was started. It is displayed without its cause.
#[derive(Debug, PartialEq, Eq, Drop)]
pub enum ChildErrorDescription {
    /// The standard output could not be read.
    ReadStdout {
        /// The cause of the error.
        source: SerializableError,
    },

    /// The standard error could not be read.
    ReadStderr {
        /// The cause of the error.
        source: SerializableError,
    },

    /// The combined output could not be read.
    ReadCombined {
        /// The cause of the error.
        source: SerializableError,
    },

    /// The runner could not wait for the process.
    Wait {
        /// The cause of the error.
        source: SerializableError,
    },

    /// The output file of a setup script could not be read.
    SetupScriptOutput {
        /// The cause of the error.
        source: SerializableError,
    },
}

impl ChildErrorDescription {
    /// Returns the cause of the error, with its own causes.
    pub fn source(&self) -> &SerializableError
        ensures { result.now ≡ error_cause self.now }
    {
        match self {
            ChildErrorDescription::ReadStdout { source }
            | ChildErrorDescription::ReadStderr { source }
            | ChildErrorDescription::ReadCombined { source }
            | ChildErrorDescription::Wait { source }
            | ChildErrorDescription::SetupScriptOutput { source } => source,
        }
    }

    /// Returns the displayed text.
    fn text(&self) -> &'static str
        ensures { result.now ≡ child_error_text self.now }
    {
        match self {
            ChildErrorDescription::ReadStdout { .. } => "error reading standard output",
            ChildErrorDescription::ReadStderr { .. } => "error reading standard error",
            ChildErrorDescription::ReadCombined { .. } => "error reading combined stream",
            ChildErrorDescription::Wait { .. } => "error waiting for child process to exit",
            ChildErrorDescription::SetupScriptOutput { .. } => "error reading setup script output",
        }
    }
}

impl fmt::Display for ChildErrorDescription {
    ghost output = { λ e. Some (child_error_text e) };

    ghost styled_output = { λ e _. Some (child_error_text e) };

    fn fmt<W: fmt::Write>(&self, f: &mut fmt::Formatter<W>) -> fmt::Result {
        f.write_str(self.text())
    }
}

impl From<ChildError> for ChildErrorDescription {
    ghost use Rattle.run_events_attempts.specs.ChildErrors.{described_error};

    ghost from_gives = { λ seen described. described ≡ described_error seen };

    fn from(error: ChildError) -> ChildErrorDescription {
        match error {
            ChildError::Fd(ChildFdError::ReadStdout(source)) => {
                ChildErrorDescription::ReadStdout { source }
            }
            ChildError::Fd(ChildFdError::ReadStderr(source)) => {
                ChildErrorDescription::ReadStderr { source }
            }
            ChildError::Fd(ChildFdError::ReadCombined(source)) => {
                ChildErrorDescription::ReadCombined { source }
            }
            ChildError::Fd(ChildFdError::Wait(source)) => ChildErrorDescription::Wait { source },
            ChildError::SetupScriptOutput(source) => {
                ChildErrorDescription::SetupScriptOutput { source }
            }
        }
    }
}
