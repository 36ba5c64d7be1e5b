//! Parses the lines of a test run, and returns the events of each line: a suite starts or ends, a test starts
//! or ends, cargo announces a test binary or documentation tests, or cargo or nextest reports a failure.
//! Other lines of a test harness give `Event::Other`. Every remaining line, such as what a test printed,
//! gives `Event::Print`. Text that was printed without a line feed in front of a line of cargo is a print
//! before its event. Text that is no event and says that a test or a suite failed gives `Event::Damaged`.
//! A line that says what becomes of a test program or of the command gives `Event::Other`, and `Line::program`
//! returns what it says.
//!
//! The lines are those of Rust's test harness (`--format json`), of cargo nextest (`--message-format
//! libtest-json` or `libtest-json-plus`) and of cargo. Any bytes are accepted, and they need not be UTF-8.
//!
//! This function returns the number of tests that the first line of a suite announces:
//!
//! ```rust
//! let line = Line::read(alloc, bytes)?;
//! match line.event() {
//!     Event::SuiteStarted { test_count, .. } => Ok(test_count),
//!     _ => Ok(None),
//! }
//! ```
#![tactic(auto)]

mod cargo;
mod content;
mod damage;
pub mod event;
pub mod laws;
pub mod line;
mod members;
mod plain;
pub mod program;
mod started;
mod text;
pub mod time;
