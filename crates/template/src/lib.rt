//! Templates like those of mustache: texts with holes for values. A value is escaped for the place where it is
//! written, in HTML, in XML or in Markdown. If the template is sound, no value is read as markup.
//!
//! | in a template | what is rendered |
//! |---|---|
//! | `{{name}}` | the text `name`: the value of an attribute in a tag, and otherwise a text between tags |
//! | `{{*name}}` | the text `name` in Markdown, outside of `<pre>` |
//! | `{{#list}}..{{/list}}` | what is between them, for each item of `list` |
//! | `{{^list}}..{{/list}}` | what is between them, if `list` has no item |
//!
//! A list is the values that have its name, in their order. This function greets someone in HTML:
//!
//! ```rust
//! let Some(parts) = parse_template(alloc, "<p>Hello, {{name}}!\n</p>")? else {
//!     return Ok(None);
//! };
//! let mut values = Vec::new(alloc);
//! push_text(&mut values, "name", String::from_str(alloc, name)?)?;
//! let mut page = String::new(alloc);
//! render(&mut page, parts.as_slice(), values.as_slice())?;
//! Ok(Some(page))
//! ```
#![tactic(auto)]

pub mod hole;
pub mod laws;
pub mod parse;
pub mod part;
mod plain;
pub mod rendering;
pub mod shown;
pub mod value;

pub use crate::hole::Hole;
pub use crate::parse::parse_template;
pub use crate::part::Part;
pub use crate::rendering::render;
pub use crate::value::{Value, push_item, push_section, push_text};
