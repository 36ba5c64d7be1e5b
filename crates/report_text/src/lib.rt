//! A text that is safe to show on a terminal and in the log of a CI system, whatever is pushed.
//!
//! All that a program shows goes through a [`ReportText`], its own words too:
//!
//! ```rust
//! let mut text = ReportText::new(alloc);
//! text.push_style(Style::BoldRed);
//! text.push("failed: ");
//! text.push_style(Style::Reset);
//! text.push_line(name);
//! text.push("\n");
//! text.push_coloured(output);
//! text.finish()
//! ```
//!
//! - Control characters and characters that change the direction of writing are escapes, such as `\u{1b}`. Colours,
//!   links and commands of GitHub's runner have calls of their own.
//! - What would be a command of a CI system in a log is an escape: the second colon of `::` at the start of a line, and
//!   the bracket of `##[`. It does not matter how the text was divided, or where colours are in it.
#![tactic(auto)]

mod command;
pub mod laws;
mod line;
mod noted_text;
mod sequence;
mod shown;
mod text;

pub use crate::command::{Kind, Property, PropertyName};
pub use crate::sequence::Style;
pub use crate::text::ReportText;
