//! The faults of reading and writing.

use std::alloc::{AllocError, AllocFailed};
use std::fmt;

/// Why a source was not read to its end, or a text not written whole. It is displayed as a few words,
/// such as `read failed`.
#[derive(Clone, Copy, Debug, PartialEq, Eq)]
pub enum DeviceFault {
    /// A read failed.
    Read,

    /// A write or a flush failed.
    Write,

    /// There was not enough memory.
    OutOfMemory,
}

impl From<AllocError> for DeviceFault {
    ghost use Rattle.std.specs.Prelude.{◌≡◌};
    ghost use Rattle.program_io.specs.declared.fault.DeviceFault.TheVariants.{OutOfMemory};

    ghost from_gives = { λ _ e. e ≡ OutOfMemory };

    fn from(_: AllocError) -> DeviceFault {
        DeviceFault::OutOfMemory
    }
}

impl<T: Drop> From<AllocFailed<T>> for DeviceFault {
    ghost use Rattle.std.specs.Prelude.{◌≡◌};
    ghost use Rattle.program_io.specs.declared.fault.DeviceFault.TheVariants.{OutOfMemory};

    ghost from_gives = { λ _ e. e ≡ OutOfMemory };

    fn from(_: AllocFailed<T>) -> DeviceFault {
        DeviceFault::OutOfMemory
    }
}

impl fmt::Display for DeviceFault {
    ghost use Rattle.std.specs.Prelude.{Some};
    ghost use Rattle.program_io.specs.Fault.{fault_text};

    ghost output = { λ f. Some (fault_text f) };

    fn fmt<W: fmt::Write>(&self, f: &mut fmt::Formatter<W>) -> fmt::Result {
        match self {
            DeviceFault::Read => f.write_str("read failed"),
            DeviceFault::Write => f.write_str("write failed"),
            DeviceFault::OutOfMemory => f.write_str("out of memory"),
        }
    }
}
