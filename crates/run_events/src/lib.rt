//! The events that a test runner sends to its reporters, and the types in them: results, output and
//! errors of child processes, attempts, levels, counters, summaries and outcomes.
//!
//! Most of it is in the crates `run_events_..`. This crate re-exports their modules, and most of their
//! definitions, so your code needs only this one. If one of your definitions or proofs uses a type that a
//! crate `run_events_..` declares, add that crate to the line of your crate in `crates.txt`.
//!
//! This returns the part of a test's output that explains its failure, or `None`. `new` requires that
//! the output of a failed test is not `NotLoaded`, and `can_describe` tests this:
//!
//! ```rust
//! fn message_of(
//!     output: &ChildExecutionOutputDescription<LiveSpec>,
//! ) -> Option<TestOutputErrorSlice<'_>>
//!     ensures { IsMessage output.now (option_map extract_of result) }
//! {
//!     if UnitErrorDescription::can_describe(UnitKind::Test, output) {
//!         UnitErrorDescription::new(UnitKind::Test, output).output_slice()
//!     } else {
//!         None
//!     }
//! }
//! ```
#![tactic(auto)]

pub use output_slice;
pub use run_events_attempts::{attempts, chain, child};
pub use run_events_results::{levels, results, run_mode, stress, view};
pub use run_events_stats::{outcome, stats};

pub mod config;
pub mod events;
pub mod laws;
pub mod progress;
pub mod unit_error;
