//! Laws of a test run: facts that follow from the contracts of `test_report_run` and `test_report_programs`. They say
//! what a success and a failure mean, and that no failed test, no failed program and no contradiction is hidden.
//!
//! A law is a function that does nothing. Its contract is the fact. A function whose proof needs the fact
//! calls the law. This is the end of such a function, `succeeds_in_order` in `CALLING.md`. Its clause says
//! what the result means:
//!
//! ```rust
//!     ensures { IfOk result (λ success. (events : List (List EventView))
//!         × AllZip LineSays (map (λ line. line.now) lines.now) events
//!         × (IsTrue success ↔ Succeeds (whole_end (run_settings 60000000 []) (flat_map (λ line. line) events ∷ [])))
//!         × (IsTrue success → IsInOrder (run_settings 60000000 []) (flat_map (λ line. line) events ∷ []))) }
//! {
//!     success_is_in_order();
//!     let end = end_of_lines(alloc, lines)?;
//!     Ok(end.outcome == RunOutcome::Success)
//! }
//! ```
#![tactic(auto)]

pub mod programs;
pub mod run;
