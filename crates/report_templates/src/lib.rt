//! The templates of a report: a page for a browser, the XML of JUnit, and a summary in Markdown.
//!
//! `template` renders them of values. Whatever the values are, the page and the XML are one document each, in which no
//! value is markup, and the summary has no marks of Markdown except the template's own. What is rendered has no control
//! characters except tabs and line feeds.
//!
//! These calls return the page of values after its first line:
//!
//! ```rust
//! let Some(parts) = parse_template(alloc, PAGE)? else {
//!     return Ok(None);
//! };
//! let mut page = String::new(alloc);
//! render(&mut page, parts.as_slice(), values)?;
//! Ok(Some(page))
//! ```
#![tactic(auto)]

pub mod junit_template;
pub mod laws;
pub mod markdown_template;
pub mod page_template;

pub use crate::junit_template::JUNIT;
pub use crate::markdown_template::{FAILED, MARKDOWN};
pub use crate::page_template::PAGE;
