//! The mode of a run: tests or benchmarks.

ghost use Rattle.std.specs.Prelude.{◌≡◌, Some};
ghost use Rattle.run_events_results.specs.Config.{is_benchmark_mode, mode_text};

use std::fmt;

/// The mode of a run, displayed as `test` or `benchmark`.
#[derive(Clone, Copy, Debug, Default, PartialEq, Eq)]
pub enum NextestRunMode {
    /// The run runs tests.
    #[default]
    Test,

    /// The run runs benchmarks.
    Benchmark,
}

impl NextestRunMode {
    /// Returns true if the run runs benchmarks.
    pub fn is_benchmark(self) -> bool
        ensures { result ≡ is_benchmark_mode self }
    {
        matches!(self, NextestRunMode::Benchmark)
    }
}

impl fmt::Display for NextestRunMode {
    ghost output = { λ m. Some (mode_text m) };

    ghost styled_output = { λ m _. Some (mode_text m) };

    fn fmt<W: fmt::Write>(&self, f: &mut fmt::Formatter<W>) -> fmt::Result {
        match self {
            NextestRunMode::Test => f.write_str("test"),
            NextestRunMode::Benchmark => f.write_str("benchmark"),
        }
    }
}
