//! The attempts of a finished test, and what its child process leaves: its output, and the errors of
//! starting it and of reading from it.
//!
//! `ExecutionDescription` says whether the test succeeded, was flaky or failed. The module `chain` has the
//! type of an error with its causes. `Moment` is a point in time, with an offset from UTC.
//!
//! A function that returns the result of a test in one word:
//!
//! ```rust
//! fn word_of(test: &ExecutionStatuses<LiveSpec>) -> &'static str
//!     ensures { result.now ≡ test_word (view_of test.now) }
//! {
//!     let last = test.last_status();
//!     if test.len() > 1 && last.result.is_success() {
//!         "flaky"
//!     } else {
//!         last.result.as_static_str()
//!     }
//! }
//! ```
#![tactic(auto)]

pub mod attempts;
pub mod chain;
pub mod child;
pub mod laws;
pub mod moment;
