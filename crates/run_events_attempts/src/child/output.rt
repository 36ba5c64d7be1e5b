//! The captured output of a child process.

ghost use Rattle.std.specs.Prelude.{◌≡◌, ◌↔◌, IsTrue, length, option_map};
ghost use Rattle.run_events_attempts.specs.ChildOutput.{IsLoaded, captured_lengths};

use bytes::Bytes;
use std::marker::Model;

/// The captured bytes of one stream, or of both streams in one. It is made from `bytes::Bytes`.
#[derive(Drop)]
pub struct ChildSingleOutput {
    buf: Bytes,
}

impl Model for ChildSingleOutput {
    ghost use Rattle.std.specs.Prelude.{List, ℕ};

    // Contracts see it as its bytes.
    ghost Value = { List ℕ };

    ghost view = { λ o. o.buf };
}

impl From<Bytes> for ChildSingleOutput {
    ghost from_gives = { λ b o. o ≡ b };

    fn from(buf: Bytes) -> ChildSingleOutput {
        ChildSingleOutput { buf }
    }
}

impl ChildSingleOutput {
    /// Returns the captured bytes.
    pub fn buf(&self) -> &Bytes
        ensures { result.now ≡ self.now }
    {
        &self.buf
    }
}

/// The captured output of two separate streams, as the runner gets it.
#[derive(Drop)]
pub struct ChildSplitOutput {
    /// Standard output, if it was captured.
    pub stdout: Option<ChildSingleOutput>,

    /// Standard error, if it was captured.
    pub stderr: Option<ChildSingleOutput>,
}

/// The captured output of a child process, as the runner gets it.
#[derive(Drop)]
pub enum ChildOutput {
    /// Standard output and standard error, captured separately.
    Split(ChildSplitOutput),

    /// Both streams in one, in the order in which they were written.
    Combined {
        /// The captured output.
        output: ChildSingleOutput,
    },
}

/// The captured output of a child process, as reporters get it.
#[derive(Drop)]
pub enum ChildOutputDescription {
    /// Standard output and standard error, captured separately.
    Split {
        /// Standard output, or `None` if it was not captured.
        stdout: Option<ChildSingleOutput>,

        /// Standard error, or `None` if it was not captured.
        stderr: Option<ChildSingleOutput>,
    },

    /// Both streams in one, in the order in which they were written.
    Combined {
        /// The captured output.
        output: ChildSingleOutput,
    },

    /// There is output, but it was not loaded.
    NotLoaded,
}

impl ChildOutputDescription {
    /// Returns true if the output was loaded.
    pub fn is_loaded(&self) -> bool
        ensures { IsTrue result ↔ IsLoaded self.now }
    {
        match self {
            ChildOutputDescription::Split { .. } | ChildOutputDescription::Combined { .. } => true,
            ChildOutputDescription::NotLoaded => false,
        }
    }

    /// Returns the number of captured bytes of standard output and of standard error, or `None` for a
    /// stream that was not captured. If both streams were captured as one, the first number is the
    /// length of all, and the second is `None`.
    ///
    /// The output must be loaded; [`ChildOutputDescription::is_loaded`] tests it.
    pub fn stdout_stderr_len(&self) -> (Option<u64>, Option<u64>)
        requires { IsLoaded self.now }
        ensures { result ≡ captured_lengths self.now }
    {
        match self {
            ChildOutputDescription::Split { stdout, stderr } => {
                (captured_length(stdout), captured_length(stderr))
            }
            ChildOutputDescription::Combined { output } => (Some(output.buf().len() as u64), None),
            ChildOutputDescription::NotLoaded => unreachable!(),
        }
    }
}

/// Returns the number of captured bytes of a stream.
fn captured_length(output: &Option<ChildSingleOutput>) -> Option<u64>
    ensures { result ≡ option_map length output.now }
{
    output.as_ref().map(|output| output.buf().len() as u64)
}

impl From<ChildOutput> for ChildOutputDescription {
    ghost use Rattle.run_events_attempts.specs.ChildOutput.{described_output};

    ghost from_gives = { λ seen described. described ≡ described_output seen };

    fn from(output: ChildOutput) -> ChildOutputDescription {
        match output {
            ChildOutput::Split(ChildSplitOutput { stdout, stderr }) => {
                ChildOutputDescription::Split { stdout, stderr }
            }
            ChildOutput::Combined { output } => ChildOutputDescription::Combined { output },
        }
    }
}
