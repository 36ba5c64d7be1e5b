//! The counters of a run, its summary and its outcome.
//!
//! A function that returns the exit status of a run, given its finished tests and setup scripts:
//!
//! ```rust
//! pub fn of_run(units: &[FinishedUnit<'_>], start: RunStart) -> u8
//!     ensures success { (result ≡ SUCCESS) ↔ RunSucceeds (map unit_view units.now) start }
//!     ensures summary { result ≡ status_of (outcome_of
//!         (summary_of (stats_of (map unit_view units.now) start))) }
//! {
//!     let stats = RunStats::of_run(units, start);
//!     of_outcome(RunOutcome::from_final_stats(stats.summarize_final()))
//! }
//! ```
#![tactic(auto)]

pub mod laws;
pub mod outcome;
pub mod stats;
