//! Repeated runs: the numbers of their sub-runs, and durations.

ghost use Rattle.std.specs.Prelude.{◌≡◌, ◌↔◌, ◌<◌, IsNone, IfSome, option_map};
ghost use Rattle.std.specs.Duration.{as_nanos};
ghost use Rattle.std.specs.Int.NonZero.{non_zero_u32_get};

use std::marker::Model;
use std::num::NonZero;
use std::time::Duration;

/// A duration that is not zero.
#[derive(Clone, Copy, Debug, PartialEq, Eq)]
pub struct NonZeroDuration(Duration);

impl Model for NonZeroDuration {
    ghost use Rattle.std.specs.Prelude.{◌<◌};
    ghost use Rattle.std.specs.Duration.{as_nanos};
    ghost use Rattle.std.specs.declared.time.Duration.{Duration};

    // Contracts see it as the duration.
    ghost Value = { Duration };

    ghost view = { λ d. d.0 };

    ghost invariant = { λ d. 0 < as_nanos d.0 };

    ghost inverse = { λ d. record { 0 = d } };
}

impl NonZeroDuration {
    /// Returns the duration as one that is not zero, or `None` if it is zero.
    pub fn new(duration: Duration) -> Option<Self>
        ensures zero { IsNone result ↔ (as_nanos duration ≡ 0) }
        ensures same { IfSome result (λ d. d ≡ duration) }
    {
        if duration.is_zero() {
            None
        } else {
            Some(NonZeroDuration(duration))
        }
    }

    /// Returns the duration.
    pub fn get(self) -> Duration
        ensures same { result ≡ self }
        ensures not_zero { 0 < as_nanos result }
    {
        self.0
    }
}

/// The number of a sub-run of a repeated run, and how many there are.
///
/// Ordered by the number, then by the total. An unknown total is less than a known one.
#[derive(Clone, Copy, Debug, PartialEq, Eq, PartialOrd, Ord, Hash)]
pub struct StressIndex {
    /// The number of the sub-run, counted from 0.
    pub current: u32,

    /// The number of sub-runs, if it is known beforehand.
    pub total: Option<NonZero<u32>>,
}

impl StressIndex {
    /// Returns the number of sub-runs, if it is known beforehand.
    pub fn total_get(&self) -> Option<u32>
        ensures { result ≡ option_map non_zero_u32_get self.now.total }
    {
        self.total.map(|total| total.get())
    }
}
