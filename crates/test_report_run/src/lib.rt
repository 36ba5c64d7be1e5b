//! Follows a test run line by line, and returns which tests passed, failed or were skipped, and where lines
//! of the run contradict each other.
//!
//! Make a `TestRun`, and pass each line to `on_line`. Call `finish` after the last line of the run. If the run has
//! several files, call `end_file` after the last line of each other file. Each of them returns notes, for example that
//! a test failed. `finish` also returns the counts, the outcome and the exit status of the run. The types of notes and
//! counts are in `test_report_run_notes`.
//!
//! This function does so for a run of one file, with the lines `lines`:
//!
//! ```rust
//! pub fn end_of_lines(alloc: Global, lines: &[&[u8]]) -> Result<RunEnd, RunError>
//!     ensures { IfOk result (λ end. (events : List (List EventView))
//!         × AllZip LineSays (map (λ line. line.now) lines.now) events
//!         × (end ≡ end_of (after_file (run_after (run_start (run_settings 60000000 [])) (flat_map (λ line. line) events))))) }
//! {
//!     let mut run = TestRun::new(alloc, 60_000_000);
//!     for bytes in lines {
//!         let line = Line::read(alloc, bytes)?;
//!         run.on_line(alloc, &line)?;
//!     }
//!     let finished = run.finish(alloc, None, false)?;
//!     Ok(finished.end)
//! }
//! ```
#![tactic(auto)]

mod contradictions;
mod counted;
mod cuts;
pub mod early;
mod ended;
pub mod error;
mod flaky;
mod headings;
mod last_line;
mod longest_end;
mod open_suites;
mod others;
mod over;
mod prints;
pub mod run;
pub mod running;
mod said;
pub mod status;
mod suite;
mod suite_name;
pub mod suite_names;
mod texts;
mod totals;
