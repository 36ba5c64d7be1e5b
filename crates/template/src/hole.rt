//! The holes of a template, and how values are written there.

ghost use Rattle.std.specs.Prelude.{◌≡◌, ◌++◌, OnOk, string_bytes};
ghost use Rattle.std.specs.Char.{encode_utf8};
ghost use Rattle.std.specs.List.{list_all};
ghost use Rattle.template.specs.Hole as spec;
ghost use Rattle.template.specs.Hole.{hole_text, markup, markup_or};
ghost use Rattle.template.specs.Shown.{shown, shown_char};

use crate::plain::push_plain;
use crate::shown::{allowed, is_escaped, push_escape};
use std::alloc::AllocError;

/// The kind of a hole: how a value is written there.
#[derive(Clone, Copy)]
pub enum Hole {
    /// A text between tags of HTML or XML.
    Text,

    /// The value of an attribute of HTML or XML.
    Attribute,

    /// A text of Markdown outside of `<pre>`.
    Plain,
}

/// Appends a value.
#[tactic(auto, unfolding(crate::specs::Hole::hole_text))]
pub(crate) fn push_hole(text: &mut String, kind: Hole, value: &str) -> Result<(), AllocError>
    ensures { OnOk result (string_bytes text.new
        ≡ string_bytes text.old ++ hole_text kind value.now) }
{
    match kind {
        Hole::Text => push_markup(text, false, value),
        Hole::Attribute => push_markup(text, true, value),
        Hole::Plain => push_plain(text, value),
    }
}

/// Appends a value in a tag or between tags.
#[tactic(auto, using(crate::proofs::Kept::kept_value))]
fn push_markup(text: &mut String, in_value: bool, value: &str) -> Result<(), AllocError>
    ensures { OnOk result (string_bytes text.new
        ≡ string_bytes text.old ++ markup in_value (shown value.now)) }
{
    if is_kept_value(in_value, value.as_bytes()) {
        text.push_str(value)
    } else {
        push_markup_chars(text, in_value, value)
    }
}

/// Returns true if all bytes of a value are written as they are.
fn is_kept_value(in_value: bool, value: &[u8]) -> bool
    ensures { result ≡ list_all (spec.is_kept in_value) value.now }
{
    value.iter().all(|byte| is_kept(in_value, *byte))
}

/// Returns true for a byte that is written as it is.
fn is_kept(in_value: bool, byte: u8) -> bool
    ensures { result ≡ spec.is_kept in_value byte }
{
    match byte {
        b'&' | b'<' | b'>' => false,
        b'"' | b'\t' | b'\n' => !in_value,
        _ => matches!(byte, b' '..=b'~'),
    }
}

/// Appends a value, character by character.
fn push_markup_chars(text: &mut String, in_value: bool, value: &str) -> Result<(), AllocError>
    ensures { OnOk result (string_bytes text.new
        ≡ string_bytes text.old ++ markup in_value (shown value.now)) }
{
    for c in value.chars() {
        push_markup_char(text, in_value, c)?;
    }
    Ok(())
}

/// Appends a character of a value.
#[tactic(auto, using(crate::proofs::Written::markup_escape, crate::proofs::Written::markup_other))]
fn push_markup_char(text: &mut String, in_value: bool, c: char) -> Result<(), AllocError>
    ensures { OnOk result (string_bytes text.new
        ≡ string_bytes text.old ++ markup in_value (shown_char c)) }
{
    if is_escaped(c) {
        push_escape(text, c)
    } else {
        push_reference(text, in_value, allowed(c))
    }
}

/// Appends a character, as a reference if it means something to HTML and XML.
fn push_reference(text: &mut String, in_value: bool, c: char) -> Result<(), AllocError>
    ensures { OnOk result (string_bytes text.new
        ≡ string_bytes text.old ++ markup_or in_value (encode_utf8 c) c) }
{
    match c {
        '&' => text.push_str("&amp;"),
        '<' => text.push_str("&lt;"),
        '>' => text.push_str("&gt;"),
        '\r' => text.push_str("&#13;"),
        '"' if in_value => text.push_str("&quot;"),
        '\t' if in_value => text.push_str("&#9;"),
        '\n' if in_value => text.push_str("&#10;"),
        _ => text.push(c),
    }
}
