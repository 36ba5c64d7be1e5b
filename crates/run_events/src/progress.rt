//! The progress of a repeated run.

ghost use Rattle.std.specs.Prelude.{◌≡◌, IfOk, option_map, string_bytes};
ghost use Rattle.run_events.specs.Progress.{IsRunId, TellsApart, completed_of, left_of, remaining_of, sub_run_id};

use run_events_results::stress::NonZeroDuration;
use std::alloc::{AllocError, Global};
use std::num::NonZero;
use std::time::Duration;
use uuid::Uuid;

/// How many times a run is repeated.
#[derive(Clone, Copy, Debug, PartialEq, Eq)]
pub enum StressCount {
    /// A fixed number of times.
    Count {
        /// The number of times.
        count: NonZero<u32>,
    },

    /// Until it is cancelled.
    Infinite,
}

/// What remains of a repeated run, which is never nothing.
#[derive(Clone, Copy, Debug, PartialEq, Eq)]
pub enum StressRemaining {
    /// A number of sub-runs.
    Count(NonZero<u32>),

    /// The run has no end.
    Infinite,

    /// An amount of time.
    Time(NonZeroDuration),
}

/// The progress of a repeated run. Reporters get it at the start and at the end of each sub-run.
#[derive(Clone, Copy, Debug, PartialEq, Eq)]
pub enum StressProgress {
    /// The run is repeated a number of times, or without end.
    Count {
        /// How many times the run is repeated.
        total: StressCount,

        /// The time that the sub-runs have taken so far.
        elapsed: Duration,

        /// The number of completed sub-runs.
        completed: u32,
    },

    /// The run is repeated for a time.
    Time {
        /// How long the run is repeated.
        total: Duration,

        /// The time that the sub-runs have taken so far.
        elapsed: Duration,

        /// The number of completed sub-runs.
        completed: u32,
    },
}

impl StressProgress {
    /// Returns what remains of the run: the number of sub-runs that are not done, or the time that
    /// has not elapsed. Returns `None` if nothing remains, and [`StressRemaining::Infinite`] for a
    /// run without end.
    pub fn remaining(&self) -> Option<StressRemaining>
        ensures { option_map left_of result ≡ remaining_of self.now }
    {
        match self {
            StressProgress::Count {
                total: StressCount::Count { count },
                completed,
                ..
            } => {
                let left = count.get().saturating_sub(*completed);
                NonZero::<u32>::new(left).map(StressRemaining::Count)
            }
            StressProgress::Count {
                total: StressCount::Infinite,
                ..
            } => Some(StressRemaining::Infinite),
            StressProgress::Time { total, elapsed, .. } => {
                let left = total.saturating_sub(*elapsed);
                NonZeroDuration::new(left).map(StressRemaining::Time)
            }
        }
    }

    /// Returns the id of the next sub-run: the id of the run in lower-case hyphenated form,
    /// `:@stress-`, and the number of completed sub-runs in decimal. No other sub-run, of this run or
    /// of another, has the same id.
    pub fn unique_id(&self, alloc: Global, run_id: Uuid) -> Result<String, AllocError>
        ensures text { IfOk result (λ text. string_bytes text
            ≡ sub_run_id run_id (completed_of self.now)) }
        ensures tells_apart { IfOk result (λ text. TellsApart (string_bytes text) run_id
            (completed_of self.now)) }
    {
        // For the proof: the id has sixteen bytes, so no other id has this text.
        let _greatest = greatest_of(run_id.as_bytes());
        let completed = self.completed();
        format!(in alloc; "{run_id}:@stress-{completed}")
    }

    /// Returns the number of completed sub-runs.
    fn completed(&self) -> u32
        ensures { result ≡ completed_of self.now }
    {
        match self {
            StressProgress::Count { completed, .. } | StressProgress::Time { completed, .. } => {
                *completed
            }
        }
    }
}

/// Returns the greatest byte of a run's id.
fn greatest_of(id: &[u8; 16]) -> Option<u8>
    ensures { IsRunId id.now }
{
    id.iter().copied().max()
}
