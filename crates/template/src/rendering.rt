//! What a template renders of values.

ghost use Rattle.std.specs.Prelude.{◌≡◌, ◌++◌, OnOk, string_bytes};
ghost use Rattle.template.specs.Template.{part_text, part_view, parts_text, parts_view, values_view};

use crate::hole::push_hole;
use crate::part::Part;
use crate::value::{Value, has_item, item_in, text_of};
use std::alloc::AllocError;

/// Appends what a part renders of values.
fn push_part(text: &mut String, part: &Part, values: &[Value]) -> Result<(), AllocError>
    ensures { OnOk result (string_bytes text.new
        ≡ string_bytes text.old ++ part_text (part_view part.now) (values_view values.now)) }
{
    match part {
        Part::Text(data) => text.push_str(data.as_str()),
        Part::Hole { kind, name } => push_hole(text, *kind, text_of(name.as_str(), values)),
        Part::Each { name, parts } => {
            for value in values {
                if let Some(item) = item_in(name.as_str(), value) {
                    for inner in parts {
                        push_part(text, inner, item)?;
                    }
                }
            }
            Ok(())
        }
        Part::Otherwise { name, parts } => {
            if has_item(name.as_str(), values) {
                return Ok(());
            }
            for other in parts {
                push_part(text, other, values)?;
            }
            Ok(())
        }
    }
}

/// Appends what the parts of a template render of values.
pub fn render(text: &mut String, parts: &[Part], values: &[Value]) -> Result<(), AllocError>
    ensures { OnOk result (string_bytes text.new
        ≡ string_bytes text.old ++ parts_text (parts_view parts.now) (values_view values.now)) }
{
    for part in parts {
        push_part(text, part, values)?;
    }
    Ok(())
}
