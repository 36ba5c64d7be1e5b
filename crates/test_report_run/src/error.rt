//! The errors of a run that cannot be counted.

ghost use Rattle.std.specs.Prelude.{◌≡◌, ◌+◌, ◌<◌, IfOk};

use run_events_stats::stats::CounterFull;
use std::alloc::{AllocError, AllocFailed};

/// Why a run cannot be counted.
#[derive(Clone, Copy)]
pub enum RunError {
    /// A number of the run does not fit its counter: a number of tests, suites, prints, headings, or failed tests and
    /// contradictions does not fit `usize`, or a sum of numbers in last lines of suites does not fit 128 bits.
    CounterFull,

    /// There was not enough memory.
    OutOfMemory,
}

impl From<CounterFull> for RunError {
    ghost use Rattle.std.specs.Prelude.{◌≡◌};
    ghost use Rattle.test_report_run.specs.declared.error.RunError.TheVariants.{CounterFull};

    ghost from_gives = { λ _ e. e ≡ CounterFull };

    fn from(_: CounterFull) -> RunError {
        RunError::CounterFull
    }
}

impl From<AllocError> for RunError {
    ghost use Rattle.std.specs.Prelude.{◌≡◌};
    ghost use Rattle.test_report_run.specs.declared.error.RunError.TheVariants.{OutOfMemory};

    ghost from_gives = { λ _ e. e ≡ OutOfMemory };

    fn from(_: AllocError) -> RunError {
        RunError::OutOfMemory
    }
}

impl<T: Drop> From<AllocFailed<T>> for RunError {
    ghost use Rattle.std.specs.Prelude.{◌≡◌};
    ghost use Rattle.test_report_run.specs.declared.error.RunError.TheVariants.{OutOfMemory};

    ghost from_gives = { λ _ e. e ≡ OutOfMemory };

    fn from(_: AllocFailed<T>) -> RunError {
        RunError::OutOfMemory
    }
}

/// Increments a counter. Fails if it is `usize::MAX`.
pub(crate) fn one_more(count: usize) -> Result<usize, RunError>
    ensures more { IfOk result (λ more. more ≡ count + 1) }
{
    count.checked_add(1).ok_or(RunError::CounterFull)
}
