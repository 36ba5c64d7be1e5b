//! Examples of use of the report's libraries. They are theorems about the libraries, which are proved from
//! contracts alone. No program runs them. The example in the page CALLING.md of a library is in the file
//! `of_LIBRARY.rt`, and `first_pages.rt` has one that no page has.
#![tactic(auto)]

pub mod first_pages;
pub mod of_report_templates;
pub mod of_report_text;
pub mod of_template;
pub mod of_test_report_events;
pub mod of_test_report_laws;
pub mod of_test_report_programs;
pub mod of_test_report_run;
