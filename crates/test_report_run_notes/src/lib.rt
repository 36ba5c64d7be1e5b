//! What a test run makes known, as the forms of a report take it: its notes, its end, and how its tests
//! finished.
//!
//! This function looks at the end of a run:
//!
//! ```rust
//! pub fn lacks_success(end: &RunEnd) -> bool
//!     ensures { result ≡ (nat_lt 0 (failed_of end.now.stats) || nat_lt 0 end.now.not_run) }
//! {
//!     failed_count(&end.stats) > 0 || end.not_run > 0
//! }
//! ```
#![tactic(auto)]

pub mod finish;
pub mod note;
