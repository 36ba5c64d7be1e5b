//! The commands of `run-digest`. They read from any `Source` and write to any `Sink` of `program_io`.
//!
//! This calls `count`, and returns the number of the first bad line, or `None`. It treats a failed
//! write as success:
//!
//! ```rust
//! match count(alloc, source, sink) {
//!     Ok(_) | Err(Fault::Write) => Ok(None),
//!     Err(Fault::BadLine { number }) => Ok(Some(number)),
//!     Err(fault) => Err(fault),
//! }
//! ```
#![tactic(auto)]

pub mod command;
pub mod count;
mod entry;
pub mod extract;
pub mod fault;
pub mod laws;
mod lines;
mod parts;
mod report;
pub mod runs;
mod units;
mod words;
