//! How an attempt to run a test or a setup script ended, how it counts and what is shown of it.
//!
//! The modules `config`, `run_mode` and `stress` have the settings that decide this, and the numbers of
//! sub-runs. `levels` ranks how much attention a finished test needs. `view` has the parts of a finished
//! test that decide its counters and levels.
//!
//! A function that returns the result of an attempt in one word:
//!
//! ```rust
//! pub fn word_of_end(end: ExecutionResult) -> &'static str
//!     ensures { result.now ≡ (if status_succeeds end then codes "ok" else status_word end) }
//! {
//!     if end.is_success() {
//!         "ok"
//!     } else {
//!         end.as_static_str()
//!     }
//! }
//! ```
#![tactic(auto)]

pub mod config;
pub mod laws;
pub mod levels;
pub mod results;
pub mod run_mode;
pub mod stress;
pub mod view;
