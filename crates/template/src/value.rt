//! Values that a template is rendered of.

ghost use Rattle.std.specs.Prelude.{◌≡◌, ◌++◌, ◌∷◌, [], None, Some, MatchOption, OnOk, map, string_bytes};
ghost use Rattle.template.specs.Template as spec;
ghost use Rattle.template.specs.Template.{has_items, item_in, items_of, text_in, text_of, value_view, values_view};

use std::alloc::AllocError;

/// A value with a name. Several items with one name are a list.
#[derive(Drop)]
pub enum Value {
    /// A text.
    Text {
        /// Its name.
        name: &'static str,

        /// The text.
        text: String,
    },

    /// An item of a list.
    Item {
        /// The name of the list.
        name: &'static str,

        /// The values of the item.
        values: Vec<Value>,
    },
}

/// Returns the text of a value with this name.
fn text_in<'a>(name: &str, value: &'a Value) -> Option<&'a str>
    ensures { MatchOption result (text_in name.now (value_view value.now) ≡ None)
        (λ text. text_in name.now (value_view value.now) ≡ Some text.now) }
{
    match value {
        Value::Text { name: key, text } => {
            if *key == name {
                Some(text.as_str())
            } else {
                None
            }
        }
        Value::Item { .. } => None,
    }
}

/// Returns the values of an item of the list with this name.
pub(crate) fn item_in<'a>(name: &str, value: &'a Value) -> Option<&'a [Value]>
    ensures { MatchOption result (item_in name.now (value_view value.now) ≡ None)
        (λ item. item_in name.now (value_view value.now) ≡ Some (values_view item.now)) }
{
    match value {
        Value::Text { .. } => None,
        Value::Item { name: key, values } => {
            if *key == name {
                Some(values.as_slice())
            } else {
                None
            }
        }
    }
}

/// Returns the first text with this name, or an empty text.
pub(crate) fn text_of<'a>(name: &str, values: &'a [Value]) -> &'a str
    ensures { result.now ≡ text_of name.now (values_view values.now) }
{
    for value in values {
        if let Some(text) = text_in(name, value) {
            return text;
        }
    }
    ""
}

/// Returns true if the list with this name has an item.
pub(crate) fn has_item(name: &str, values: &[Value]) -> bool
    ensures { result ≡ has_items (items_of name.now (values_view values.now)) }
{
    for value in values {
        if item_in(name, value).is_some() {
            return true;
        }
    }
    false
}

/// Adds a text.
pub fn push_text(
    values: &mut Vec<Value>,
    name: &'static str,
    text: String,
) -> Result<(), AllocError>
    ensures { OnOk result (map value_view values.new.items
        ≡ map value_view values.old.items ++ (spec.TextValue name.now (string_bytes text) ∷ [])) }
{
    values.push(Value::Text { name, text })?;
    Ok(())
}

/// Adds an item of a list.
pub fn push_item(
    values: &mut Vec<Value>,
    name: &'static str,
    item: Vec<Value>,
) -> Result<(), AllocError>
    ensures { OnOk result (map value_view values.new.items
        ≡ map value_view values.old.items ++ (spec.ItemValue name.now (values_view item.items) ∷ [])) }
{
    values.push(Value::Item { name, values: item })?;
    Ok(())
}

/// Adds a section with these values, unless there are none.
pub fn push_section(
    values: &mut Vec<Value>,
    name: &'static str,
    items: Vec<Value>,
) -> Result<(), AllocError>
    ensures { OnOk result (map value_view values.new.items
        ≡ map value_view values.old.items ++ spec.section name.now (map value_view items.items)) }
{
    if items.is_empty() {
        return Ok(());
    }
    push_item(values, name, items)
}
