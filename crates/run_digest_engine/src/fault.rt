//! The faults that `run-digest` ends with.

ghost use Rattle.std.specs.Prelude.{◌≡◌};
ghost use Rattle.run_digest_engine.specs.Fault.{status_of};

use program_io::fault::DeviceFault;
use std::alloc::{AllocError, AllocFailed};
use std::fmt;

/// Why `run-digest` ends without a result. It is displayed as the line that the program writes to
/// standard error, without a line feed.
#[derive(Clone, Copy, Debug, PartialEq, Eq)]
pub enum Fault {
    /// A line of the input is not one of those that are allowed there.
    BadLine {
        /// The number of the first such line, counted from 1.
        number: usize,
    },

    /// The command-line arguments do not name a command.
    BadWord,

    /// A read failed.
    Read,

    /// A write or a flush failed.
    Write,

    /// There was not enough memory.
    OutOfMemory,
}

impl Fault {
    /// Returns the exit status of the program: 2 for a bad line or bad arguments, and 3 for any other
    /// fault.
    pub fn status(&self) -> u8
        ensures { result ≡ status_of self.now }
    {
        match self {
            Fault::BadLine { .. } | Fault::BadWord => 2,
            Fault::Read | Fault::Write | Fault::OutOfMemory => 3,
        }
    }
}

impl From<DeviceFault> for Fault {
    ghost use Rattle.std.specs.Prelude.{◌≡◌};
    ghost use Rattle.run_digest_engine.specs.Fault.{fault_of};

    ghost from_gives = { λ fault e. e ≡ fault_of fault };

    fn from(fault: DeviceFault) -> Fault {
        match fault {
            DeviceFault::Read => Fault::Read,
            DeviceFault::Write => Fault::Write,
            DeviceFault::OutOfMemory => Fault::OutOfMemory,
        }
    }
}

impl From<AllocError> for Fault {
    ghost use Rattle.std.specs.Prelude.{◌≡◌};
    ghost use Rattle.run_digest_engine.specs.declared.fault.Fault.TheVariants.{OutOfMemory};

    ghost from_gives = { λ _ e. e ≡ OutOfMemory };

    fn from(_: AllocError) -> Fault {
        Fault::OutOfMemory
    }
}

impl<T: Drop> From<AllocFailed<T>> for Fault {
    ghost use Rattle.std.specs.Prelude.{◌≡◌};
    ghost use Rattle.run_digest_engine.specs.declared.fault.Fault.TheVariants.{OutOfMemory};

    ghost from_gives = { λ _ e. e ≡ OutOfMemory };

    fn from(_: AllocFailed<T>) -> Fault {
        Fault::OutOfMemory
    }
}

impl fmt::Display for Fault {
    ghost use Rattle.std.specs.Prelude.{Some};
    ghost use Rattle.run_digest_engine.specs.Fault.{fault_text};

    ghost output = { λ f. Some (fault_text f) };

    fn fmt<W: fmt::Write>(&self, f: &mut fmt::Formatter<W>) -> fmt::Result {
        let text = match self {
            Fault::BadLine { number } => return write!(f, "line {number}: bad line"),
            Fault::BadWord => "usage: run-digest extract|count",
            Fault::Read => "read failed",
            Fault::Write => "write failed",
            Fault::OutOfMemory => "out of memory",
        };
        f.write_str(text)
    }
}
