//! Follows a test run whose lines tell of each test program: it started, it ended with this status or by this signal, and
//! this is what it wrote to standard error.
//!
//! `ProgramRun` is a `TestRun` for which such lines count, in a file whose first line is one of them. The suites of a
//! program have its name, and end early with it. What is wrong with the end of a program, and with the lines of programs,
//! is a contradiction. In every other file such a line says nothing, so a test whose output is not captured cannot tell how
//! its program ended.
//!
//! This function returns the exit status of a run of one file, with the lines `lines`:
//!
//! ```rust
//! pub fn status_of_lines(alloc: Global, lines: &[&[u8]]) -> Result<u8, RunError>
//!     ensures { IfOk result (λ status. (status ≡ 0) ⊎ (status ≡ 1)) }
//! {
//!     let mut run = ProgramRun::new(TestRun::new(alloc, 60_000_000));
//!     for bytes in lines {
//!         let line = Line::read(alloc, bytes)?;
//!         run.on_line(alloc, &line)?;
//!     }
//!     let finished = run.finish(alloc, None, false)?;
//!     Ok(finished.status)
//! }
//! ```
#![tactic(auto)]

mod names;
mod program;
pub mod run;
