//! Examples of use of the libraries: a runner, a reporter, a JUnit writer, a recorder and the exit
//! status of a run. They are theorems about the libraries, which are proved from contracts alone.
//! No program runs them. The example in the page CALLING.md of a library is in the file
//! `of_LIBRARY.rt`. Most examples in the comments at the head of a library's `src/lib.rt` are from
//! these files, and `first_pages.rt` has those that no other file has. The examples of the report's
//! libraries are in the crate `report_uses`.
#![tactic(auto)]

pub mod displayer;
pub mod exit_status;
pub mod first_pages;
pub mod junit;
pub mod of_output_slice;
pub mod of_program_io;
pub mod of_run_digest_engine;
pub mod of_run_events;
pub mod recorder;
pub mod runner;
